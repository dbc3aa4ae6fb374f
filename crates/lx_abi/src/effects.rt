//! What other parts ask of a call beside its arguments.

use bitflags::{Flag, Flags, bitflag_items};

/// What a call may do beside its own work.
#[derive(Clone, Copy, Debug, PartialEq, Eq)]
pub struct Effects(pub(crate) u32);

bitflag_items! {
    impl Effects: u32 {
        /// Waits for another process.
        const WAITS = 1;
        /// Makes a process.
        const FORKS = 2;
        /// Executes a program.
        const EXECS = 4;
        /// Ends its process.
        const EXITS = 8;
        /// Has an address for its result, which is shown in hex.
        const HEX = 0x10;
        /// Leaves the descriptors, the signals and the children of each other process as they are.
        const CALM = 0x20;
    }
}

impl Flags for Effects {
    ghost use Rattle.std.specs.Prelude.{⊤, [], ◌∷◌, codes};
    ghost use Rattle.lx_abi.specs.Effects as bits;

    type Bits = u32;

    ghost exact = { ⊤ };

    ghost table = { (codes "WAITS", bits.waits) ∷ (codes "FORKS", bits.forks) ∷ (codes "EXECS", bits.execs) ∷
        (codes "EXITS", bits.exits) ∷ (codes "HEX", bits.hex) ∷ (codes "CALM", bits.calm) ∷ [] };

    ghost set_of = { λ e. e.0 };

    fn flags<'a>() -> &'a [Flag<Effects>] {
        Effects::FLAGS
    }

    fn bits(&self) -> u32 {
        self.0
    }

    fn from_bits_retain(bits: u32) -> Effects {
        Effects(bits)
    }
}
