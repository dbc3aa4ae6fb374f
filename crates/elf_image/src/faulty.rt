//! The field of the ELF header that a file is refused for.

ghost use Rattle.std.specs.Prelude.{◌≡◌, ◌≤◌, length};
ghost use Rattle.elf_image.specs.FaultyFields as spec;

use crate::fault::ElfFault;
use crate::fields::{byte_at, double_at, half_at};
use crate::headers;
use crate::reading::{HEADER_SIZE, MOST_HEADERS};

/// A field of the ELF header that isn't as a program's has to be, and its value. The comments give the gABI's names.
#[derive(Clone, Copy, Debug, PartialEq, Eq)]
pub enum FaultyField {
    /// `e_machine`
    Machine(u16),
    /// `e_ident[EI_CLASS]`
    Class(u8),
    /// `e_ident[EI_DATA]`
    Encoding(u8),
    /// `e_type`
    FileType(u16),
    /// `e_phentsize`
    HeaderSize(u16),
    /// `e_phnum`
    HeaderCount(u16),
    /// `e_phoff`
    HeaderTable(u64),
}

#[tactic(auto, unfolding(crate::specs::FaultyFields::machine_field))]
fn machine_field(bytes: &[u8]) -> Option<FaultyField>
    requires { 64 ≤ length bytes.now }
    ensures { result ≡ spec.machine_field bytes.now }
{
    let machine = half_at(bytes, 18);
    if machine != 243 {
        return Some(FaultyField::Machine(machine));
    }
    let class = byte_at(bytes, 4);
    if class != 2 {
        return Some(FaultyField::Class(class));
    }
    let encoding = byte_at(bytes, 5);
    if encoding != 1 {
        return Some(FaultyField::Encoding(encoding));
    }
    None
}

#[tactic(auto, unfolding(crate::specs::FaultyFields::program_field))]
fn program_field(bytes: &[u8]) -> Option<FaultyField>
    requires { 64 ≤ length bytes.now }
    ensures { result ≡ spec.program_field bytes.now }
{
    let file_type = half_at(bytes, 16);
    if file_type != 2 {
        return Some(FaultyField::FileType(file_type));
    }
    let size = half_at(bytes, 54);
    if size != 56 {
        return Some(FaultyField::HeaderSize(size));
    }
    if half_at(bytes, 56) == 0 {
        return Some(FaultyField::HeaderCount(0));
    }
    None
}

fn count_field(bytes: &[u8]) -> Option<FaultyField>
    requires { 64 ≤ length bytes.now }
    ensures { result ≡ spec.count_field bytes.now }
{
    let count = half_at(bytes, 56);
    if usize::from(count) > MOST_HEADERS {
        return Some(FaultyField::HeaderCount(count));
    }
    None
}

fn table_field(bytes: &[u8]) -> Option<FaultyField>
    requires { 64 ≤ length bytes.now }
    ensures { result ≡ spec.table_field bytes.now }
{
    let offset = double_at(bytes, 32);
    let table = offset as usize;
    let size = headers::SIZE * usize::from(half_at(bytes, 56));
    if bytes.len() < table || bytes.len() - table < size {
        return Some(FaultyField::HeaderTable(offset));
    }
    None
}

/// The field that a file with this fault is refused for: the first of those that the fault is about, if it is one of
/// the ELF header.
pub fn faulty_field(bytes: &[u8], fault: ElfFault) -> Option<FaultyField>
    ensures { result ≡ spec.faulty_field_of fault bytes.now }
{
    if bytes.len() < HEADER_SIZE {
        return None;
    }
    match fault {
        ElfFault::NotRiscv => machine_field(bytes),
        ElfFault::NotExec => program_field(bytes),
        ElfFault::Truncated => table_field(bytes),
        ElfFault::TooLarge => count_field(bytes),
        ElfFault::NotElf | ElfFault::Overlap | ElfFault::Memory => None,
    }
}
