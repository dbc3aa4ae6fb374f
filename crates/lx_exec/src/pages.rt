//! Whole pages of memory.

ghost use Rattle.std.specs.Prelude.{◌≡◌};
ghost use Rattle.lx_exec.specs.Pages.{pages_for as pages_that_hold, rights_for as rights_by};

use rv_mem::Rights;

/// The bytes of a page.
pub const PAGE: u64 = 4096;

/// No page is mapped from this address on.
pub const ADDRESS_END: u64 = 0x40_0000_0000;

/// As many pages as hold so many bytes.
pub fn pages_for(bytes: u64) -> u64
    ensures { result ≡ pages_that_hold bytes }
{
    bytes / PAGE + (bytes % PAGE + (PAGE - 1)) / PAGE
}

/// The rights of PROT_READ, PROT_WRITE and PROT_EXEC.
pub fn rights_for(prot: u64) -> Rights
    ensures { result ≡ rights_by prot }
{
    Rights {
        read: prot % 2 == 1,
        write: prot / 2 % 2 == 1,
        execute: prot / 4 % 2 == 1,
    }
}
