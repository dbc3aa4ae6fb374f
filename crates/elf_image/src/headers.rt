//! Program headers (gABI, "Program Header"): those that fill memory.

ghost use Rattle.std.specs.Prelude.{◌≡◌, ◌+◌, ◌*◌, ◌≤◌, length, IfOk, IfErr, Some, None, if◌then◌else◌};
ghost use Rattle.elf_image.specs.Headers.{is_counted, program_header_at, headers_from};

use crate::fields::{double_at, word_at};
use crate::layout::Extent;
use std::alloc::{AllocError, Global};

/// A program header that counts.
#[derive(Clone, Copy, Debug)]
pub struct ProgramHeader {
    pub flags: u32,
    pub offset: u64,
    pub file_size: u64,
    pub extent: Extent,
}

/// The header's size in a file.
pub const SIZE: usize = 56;

/// The type of a header that fills memory, PT_LOAD.
const LOAD: u32 = 1;

fn header_at(bytes: &[u8], at: usize) -> Option<ProgramHeader>
    requires { at + 56 ≤ length bytes.now }
    ensures { result ≡ (if is_counted bytes.now at then Some (program_header_at bytes.now at) else None) }
{
    let size = double_at(bytes, at + 40);
    if word_at(bytes, at) != LOAD || size == 0 {
        return None;
    }
    Some(ProgramHeader {
        flags: word_at(bytes, at + 4),
        offset: double_at(bytes, at + 8),
        file_size: double_at(bytes, at + 32),
        extent: Extent {
            address: double_at(bytes, at + 16),
            size,
        },
    })
}

/// Those that count, of the headers from an offset on.
pub fn headers_of(
    alloc: Global,
    bytes: &[u8],
    at: usize,
    count: usize,
) -> Result<Vec<ProgramHeader>, AllocError>
    requires { at + 56 * count ≤ length bytes.now }
    ensures headers { IfOk result (λ v. v.items ≡ headers_from bytes.now at count) }
    ensures few { IfOk result (λ v. length v.items ≤ count) }
{
    let mut found = Vec::new(alloc);
    let mut next = at;
    for _ in 0..count {
        if let Some(header) = header_at(bytes, next) {
            found.push(header)?;
        }
        next += SIZE;
    }
    Ok(found)
}
