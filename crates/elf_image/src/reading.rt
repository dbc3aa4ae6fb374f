//! The image of a file, or the first check that it fails.

ghost use Rattle.std.specs.Prelude.{◌≡◌, ◌+◌, ◌*◌, ◌≤◌, ◌/◌, ◌%◌, ◌==◌, map, false, length, Some, Err, IfOk, IfErr};
ghost use Rattle.std.specs.List.{list_any};
ghost use Rattle.elf_image.specs.Headers.{extents};
ghost use Rattle.elf_image.specs.Checks.{has_no_magic, is_of_another_machine, is_no_program, passes_end, exceeds, header_fault_of};
ghost use Rattle.elf_image.specs.declared.fault.ElfFault.{ElfFault};
ghost use Rattle.elf_image.specs.Images.{rights_of, segment_of, IsElf, Refuses, IsLaidOut};

use crate::fault::ElfFault;
use crate::fields::{byte_at, double_at, half_at, word_at};
use crate::headers::{self, ProgramHeader};
use crate::image::{Image, Rights, Segment, Segments};
use crate::layout::{self, Extent};
use containers::Bytes;
use std::alloc::{AllocError, Global};

/// The size of the ELF header.
pub const HEADER_SIZE: usize = 64;

/// 7F 45 4C 46, the lowest byte first.
const MAGIC: u32 = 0x464c_457f;

/// The most program headers that a file may have.
pub const MOST_HEADERS: usize = 64;

#[tactic(auto, unfolding(crate::specs::Checks::has_no_magic))]
fn lacks_magic(bytes: &[u8]) -> bool
    ensures { result ≡ has_no_magic bytes.now }
{
    bytes.len() < 4 || word_at(bytes, 0) != MAGIC
}

#[tactic(auto, unfolding(crate::specs::Checks::is_of_another_machine))]
fn is_foreign(bytes: &[u8]) -> bool
    requires { 64 ≤ length bytes.now }
    ensures { result ≡ is_of_another_machine bytes.now }
{
    byte_at(bytes, 4) != 2 || byte_at(bytes, 5) != 1 || half_at(bytes, 18) != 243
}

#[tactic(auto, unfolding(crate::specs::Checks::is_no_program))]
fn is_other_file(bytes: &[u8]) -> bool
    requires { 64 ≤ length bytes.now }
    ensures { result ≡ is_no_program bytes.now }
{
    half_at(bytes, 16) != 2 || half_at(bytes, 54) != 56 || half_at(bytes, 56) == 0
}

fn any_passes_end(bytes: &[u8], headers: &[ProgramHeader]) -> bool
    ensures { result ≡ list_any (passes_end bytes.now) headers.now }
{
    let size = bytes.len() as u64;
    headers.iter().any(|header| size < header.offset || size - header.offset < header.file_size)
}

fn any_exceeds(headers: &[ProgramHeader]) -> bool
    ensures { result ≡ list_any exceeds headers.now }
{
    headers
        .iter()
        .any(|header| header.extent.size < header.file_size)
}

fn extents_of(alloc: Global, headers: &[ProgramHeader]) -> Result<Vec<Extent>, AllocError>
    ensures { IfOk result (λ v. v.items ≡ extents headers.now) }
{
    headers.iter().map(|header| header.extent).collect(alloc)
}

fn rights(flags: u32) -> Rights
    ensures { result ≡ rights_of flags }
{
    Rights {
        read: flags / 4 % 2 == 1,
        write: flags / 2 % 2 == 1,
        execute: flags % 2 == 1,
    }
}

fn segments_of(
    alloc: Global,
    bytes: &[u8],
    headers: &[ProgramHeader],
) -> Result<Segments, AllocError>
    requires { list_any (passes_end bytes.now) headers.now ≡ false }
    ensures { IfOk result (λ segments. segments ≡ map (segment_of bytes.now) headers.now) }
{
    let mut segments = Vec::new(alloc);
    for header in headers {
        let start = header.offset as usize;
        let end = start + header.file_size as usize;
        let contents = Vec::from_slice(alloc, &bytes[start..end])?;
        segments.push(Segment {
            address: header.extent.address,
            size: header.extent.size,
            rights: rights(header.flags),
            bytes: Bytes::from_vec(contents),
        })?;
    }
    Ok(Segments::from_vec(segments))
}

/// The image of an ELF64 executable for RISC-V, or the first check that the file fails.
///
/// Segments may share a page and its rights, but no byte. A file whose header is at fault is refused for that, however
/// little memory there is.
pub fn read(alloc: Global, bytes: &[u8]) -> Result<Image, ElfFault>
    ensures image { IfOk result (λ image. IsElf bytes.now image) }
    ensures laid_out { IfOk result (λ image. IsLaidOut image) }
    ensures fault { IfErr result (λ fault. Refuses bytes.now fault) }
    ensures header { (fault : ElfFault) → header_fault_of bytes.now ≡ Some fault → result ≡ Err fault }
{
    if lacks_magic(bytes) {
        return Err(ElfFault::NotElf);
    }
    if bytes.len() < HEADER_SIZE {
        return Err(ElfFault::Truncated);
    }
    if is_foreign(bytes) {
        return Err(ElfFault::NotRiscv);
    }
    if is_other_file(bytes) {
        return Err(ElfFault::NotExec);
    }
    let count = half_at(bytes, 56) as usize;
    if count > MOST_HEADERS {
        return Err(ElfFault::TooLarge);
    }
    let table = double_at(bytes, 32) as usize;
    if bytes.len() < table || bytes.len() - table < headers::SIZE * count {
        return Err(ElfFault::Truncated);
    }
    let found = headers::headers_of(alloc, bytes, table, count)?;
    let headers = found.as_slice();
    if headers.is_empty() {
        return Err(ElfFault::NotExec);
    }
    if any_passes_end(bytes, headers) {
        return Err(ElfFault::Truncated);
    }
    let filled = extents_of(alloc, headers)?;
    let extents = filled.as_slice();
    if any_exceeds(headers) || layout::overlap(extents) {
        return Err(ElfFault::Overlap);
    }
    if layout::too_large(extents) {
        return Err(ElfFault::TooLarge);
    }
    Ok(Image {
        entry: double_at(bytes, 24),
        segments: segments_of(alloc, bytes, headers)?,
    })
}
