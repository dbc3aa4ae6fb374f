//! Why a listing is refused.

ghost use Rattle.std.specs.Prelude.{◌≡◌};

use std::alloc::{AllocError, AllocFailed};

/// What is wrong with a line. Where a line has several faults, the first of this list is reported.
#[derive(Clone, Copy, Debug, PartialEq, Eq)]
pub enum AsmKind {
    /// No mnemonic and no directive has this name.
    Mnemonic = 1,
    /// The operands are not those of the mnemonic.
    Operand = 2,
    /// A number or the distance to a label does not fit.
    Range = 3,
    /// No line has this label.
    Label = 4,
    /// The label stands on an earlier line, or earlier on this line.
    Duplicate = 5,
    /// The listing fills more than 65,536 bytes.
    TooLarge = 6,
    /// Memory ran out.
    Memory = 7,
}

impl AsmKind {
    ghost use Rattle.rv_asm.specs.Listing.{kind_number};

    /// The number by which programs show the kind.
    pub fn number(self) -> u8
        ensures { result ≡ kind_number self }
    {
        self as u8
    }
}

impl From<AllocError> for AsmKind {
    ghost use Rattle.rv_asm.specs.declared.fault.AsmKind.TheVariants.{Memory};

    ghost from_gives = { λ _ e. e ≡ Memory };

    fn from(_: AllocError) -> AsmKind {
        AsmKind::Memory
    }
}

impl<T: Drop> From<AllocFailed<T>> for AsmKind {
    ghost use Rattle.rv_asm.specs.declared.fault.AsmKind.TheVariants.{Memory};

    ghost from_gives = { λ _ e. e ≡ Memory };

    fn from(_: AllocFailed<T>) -> AsmKind {
        AsmKind::Memory
    }
}

/// The first faulty line of a listing, counted from 1, and its fault. Where memory ran out, the line
/// is the one under way, or 0 outside of all.
#[derive(Clone, Copy, Debug, PartialEq, Eq)]
pub struct AsmFault {
    pub line: usize,
    pub kind: AsmKind,
}
