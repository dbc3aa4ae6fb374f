//! Why a file is refused.

ghost use Rattle.std.specs.Prelude.{◌≡◌};

use std::alloc::{AllocError, AllocFailed};

/// Why a file is no program that can be loaded. The checks have an order, and the first that fails
/// names the fault.
#[derive(Clone, Copy, Debug, PartialEq, Eq)]
pub enum ElfFault {
    /// The file does not begin with the magic number of ELF.
    NotElf = 1,
    /// The file is not a 64-bit little endian file for RISC-V.
    NotRiscv = 2,
    /// The file is not an executable with something to load.
    NotExec = 3,
    /// A header, the table of program headers or the content of a segment passes the end.
    Truncated = 4,
    /// Two segments share a byte, or one has more content than memory.
    Overlap = 5,
    /// There are too many program headers or pages, or an address is out of range.
    TooLarge = 6,
    /// Memory ran out.
    Memory = 7,
}

impl ElfFault {
    ghost use Rattle.elf_image.specs.Checks.{fault_number};

    /// The number by which programs show the fault.
    pub fn number(self) -> u8
        ensures { result ≡ fault_number self }
    {
        self as u8
    }
}

impl From<AllocError> for ElfFault {
    ghost use Rattle.elf_image.specs.declared.fault.ElfFault.TheVariants.{Memory};

    ghost from_gives = { λ _ e. e ≡ Memory };

    fn from(_: AllocError) -> ElfFault {
        ElfFault::Memory
    }
}

impl<T: Drop> From<AllocFailed<T>> for ElfFault {
    ghost use Rattle.elf_image.specs.declared.fault.ElfFault.TheVariants.{Memory};

    ghost from_gives = { λ _ e. e ≡ Memory };

    fn from(_: AllocFailed<T>) -> ElfFault {
        ElfFault::Memory
    }
}
