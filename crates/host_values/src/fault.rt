//! Why bytes are no values.

ghost use Rattle.std.specs.Prelude.{◌≡◌};

use std::alloc::{AllocError, AllocFailed};

/// Why a value isn't read.
#[derive(Clone, Copy, Debug, PartialEq, Eq)]
pub enum Bad {
    Memory,
    Payload,
}

impl<T: Drop> From<AllocFailed<T>> for Bad {
    ghost use Rattle.host_values.specs.declared.fault.Bad.TheVariants.{Memory};

    ghost from_gives = { λ _ e. e ≡ Memory };

    fn from(_: AllocFailed<T>) -> Bad {
        Bad::Memory
    }
}

impl From<AllocError> for Bad {
    ghost use Rattle.host_values.specs.declared.fault.Bad.TheVariants.{Memory};

    ghost from_gives = { λ _ e. e ≡ Memory };

    fn from(_: AllocError) -> Bad {
        Bad::Memory
    }
}
