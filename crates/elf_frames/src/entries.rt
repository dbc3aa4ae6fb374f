//! The entries of a table of frames (DWARF 5, 6.4.1; LSB 5.0, 10.6.1).

ghost use Rattle.std.specs.Prelude.{◌≡◌, ◌+◌, ◌≤◌, ◌++◌, length, true, IfOk, IfSome, OnOk, option_to_list};
ghost use Rattle.elf_frames.specs.Entries as spec;

use crate::numbers::{Number, fixed_u8, fixed_u32, fixed_u64, signed, unsigned};
use crate::tables::Table;
use elf_symbols::sections::passes_end;
use std::alloc::{AllocError, Global};

/// An entry: where what follows its length begins, and ends.
#[derive(Clone, Copy)]
pub struct Entry {
    pub at: usize,
    pub end: usize,
}

/// code_alignment_factor and data_alignment_factor: by these are the operands of instructions multiplied.
#[derive(Clone, Copy, Debug)]
pub struct Factors {
    pub code_alignment: u64,
    pub data_alignment: u64,
}

/// A Common Information Entry, what FDEs share: whether these have augmentation data, and addresses that are relative
/// to their places, and where the initial instructions stand.
#[derive(Clone, Copy, Debug)]
pub struct Cie {
    pub factors: Factors,
    pub return_address_register: u64,
    pub augmented: bool,
    pub relative: bool,
    pub at: usize,
    pub end: usize,
}

/// A Frame Description Entry: the addresses that it covers, its CIE, and where its instructions stand.
#[derive(Clone, Copy, Debug)]
pub struct Fde {
    pub start: u64,
    pub size: u64,
    pub cie: Cie,
    pub at: usize,
    pub end: usize,
}

fn entry_with(bytes: &[u8], size: Number) -> Option<Entry>
    ensures found { result ≡ spec.entry_with bytes.now size }
    ensures inside { IfSome result (λ e. e.end ≤ length bytes.now) }
{
    if 0xffff_fff0 <= size.value || passes_end(bytes, size.next as u64, size.value) {
        return None;
    }
    Some(Entry {
        at: size.next,
        end: size.next + size.value as usize,
    })
}

#[tactic(auto, unfolding(crate::specs::Entries::entry_at))]
fn entry_at(bytes: &[u8], at: usize) -> Option<Entry>
    ensures found { result ≡ spec.entry_at bytes.now at }
    ensures inside { IfSome result (λ e. e.end ≤ length bytes.now) }
{
    let Some(size) = fixed_u32(bytes, at) else {
        return None;
    };
    entry_with(bytes, size)
}

/// Whether at an offset these bytes stand.
#[tactic(auto, unfolding(crate::specs::Entries::stands))]
fn stands(text: &[u8], bytes: &[u8], at: usize) -> bool
    ensures stands { result ≡ spec.stands text.now bytes.now at }
    ensures inside { result ≡ true → at + length text.now ≤ length bytes.now }
{
    if passes_end(bytes, at as u64, text.len() as u64) {
        return false;
    }
    &bytes[at..at + text.len()] == text
}

fn cie_id(is_eh_frame: bool) -> u64
    ensures { result ≡ spec.cie_id is_eh_frame }
{
    if is_eh_frame { 0 } else { 0xffff_ffff }
}

#[tactic(auto, unfolding(crate::specs::Entries::past_sizes))]
fn past_sizes(version: u64, bytes: &[u8], at: usize) -> Option<usize>
    ensures { result ≡ spec.past_sizes version bytes.now at }
{
    if version == 4 {
        if stands(&[8, 0], bytes, at) {
            Some(at + 2)
        } else {
            None
        }
    } else if version == 1 || version == 3 {
        Some(at)
    } else {
        None
    }
}

#[tactic(auto, unfolding(crate::specs::Entries::register_at))]
fn register_at(version: u64, bytes: &[u8], at: usize) -> Option<Number>
    ensures { result ≡ spec.register_at version bytes.now at }
{
    if version == 1 {
        fixed_u8(bytes, at)
    } else {
        unsigned(bytes, at)
    }
}

fn is_relative(encoding: u64) -> Option<bool>
    ensures { result ≡ spec.is_relative encoding }
{
    if encoding == 0x1b {
        Some(true)
    } else if encoding == 0 {
        Some(false)
    } else {
        None
    }
}

#[tactic(auto, unfolding(crate::specs::Entries::past))]
fn past(bytes: &[u8], at: usize, size: u64) -> Option<usize>
    ensures { result ≡ spec.past bytes.now at size }
{
    if passes_end(bytes, at as u64, size) {
        return None;
    }
    Some(at + size as usize)
}

#[tactic(auto, unfolding(crate::specs::Entries::relative_at))]
fn relative_at(bytes: &[u8], at: usize) -> Option<(bool, usize)>
    ensures { result ≡ spec.relative_at bytes.now at }
{
    let size = unsigned(bytes, at)?;
    let encoding = fixed_u8(bytes, size.next)?;
    let relative = is_relative(encoding.value)?;
    let next = past(bytes, size.next, size.value)?;
    Some((relative, next))
}

fn relative_in(augmented: bool, bytes: &[u8], at: usize) -> Option<(bool, usize)>
    ensures { result ≡ spec.relative_in augmented bytes.now at }
{
    if augmented {
        relative_at(bytes, at)
    } else {
        Some((false, at))
    }
}

#[tactic(auto, unfolding(crate::specs::Entries::factors_at))]
fn factors_at(version: u64, augmented: bool, bytes: &[u8], at: usize) -> Option<Cie>
    ensures { result ≡ spec.factors_at version augmented bytes.now at }
{
    let code = unsigned(bytes, at)?;
    let data_factor = signed(bytes, code.next)?;
    let register = register_at(version, bytes, data_factor.next)?;
    let relative = relative_in(augmented, bytes, register.next)?;
    Some(Cie {
        factors: Factors {
            code_alignment: code.value,
            data_alignment: data_factor.value,
        },
        return_address_register: register.value,
        augmented,
        relative: relative.0,
        at: relative.1,
        end: bytes.len(),
    })
}

#[tactic(auto, unfolding(crate::specs::Entries::augmented_at))]
fn augmented_at(version: u64, bytes: &[u8], at: usize) -> Option<Cie>
    ensures { result ≡ spec.augmented_at version bytes.now at }
{
    if stands(b"\0".as_slice(), bytes, at) {
        let next = past_sizes(version, bytes, at + 1)?;
        return factors_at(version, false, bytes, next);
    }
    if stands(b"zR\0".as_slice(), bytes, at) {
        let next = past_sizes(version, bytes, at + 3)?;
        return factors_at(version, true, bytes, next);
    }
    None
}

#[tactic(auto, unfolding(crate::specs::Entries::cie_in))]
fn cie_in(is_eh_frame: bool, bytes: &[u8], at: usize) -> Option<Cie>
    ensures { result ≡ spec.cie_in is_eh_frame bytes.now at }
{
    let id = fixed_u32(bytes, at)?;
    let version = fixed_u8(bytes, id.next)?;
    if id.value == cie_id(is_eh_frame) {
        augmented_at(version.value, bytes, version.next)
    } else {
        None
    }
}

/// The CIE that begins at an offset.
#[tactic(auto, unfolding(crate::specs::Entries::cie_at))]
fn cie_at(is_eh_frame: bool, bytes: &[u8], at: usize) -> Option<Cie>
    ensures { result ≡ spec.cie_at is_eh_frame bytes.now at }
{
    let entry = entry_at(bytes, at)?;
    cie_in(is_eh_frame, &bytes[..entry.end], entry.at)
}

fn cie_place(is_eh_frame: bool, at: usize, pointer: u64) -> Option<usize>
    ensures { result ≡ spec.cie_place is_eh_frame at pointer }
{
    if !is_eh_frame {
        return Some(pointer as usize);
    }
    if (at as u64) < pointer {
        return None;
    }
    Some(at - pointer as usize)
}

fn extended(word: u64) -> u64
    ensures { result ≡ spec.extended word }
{
    if word < 0x8000_0000 {
        word
    } else {
        word.wrapping_add(0xffff_ffff_0000_0000)
    }
}

#[tactic(auto, unfolding(crate::specs::Entries::far_range_at))]
fn far_range_at(bytes: &[u8], at: usize) -> Option<(u64, u64, usize)>
    ensures { result ≡ spec.far_range_at bytes.now at }
{
    let start = fixed_u64(bytes, at)?;
    let size = fixed_u64(bytes, start.next)?;
    Some((start.value, size.value, size.next))
}

#[tactic(auto, unfolding(crate::specs::Entries::near_range_at))]
fn near_range_at(address: u64, bytes: &[u8], at: usize) -> Option<(u64, u64, usize)>
    ensures { result ≡ spec.near_range_at address bytes.now at }
{
    let start = fixed_u32(bytes, at)?;
    let size = fixed_u32(bytes, start.next)?;
    let place = address.wrapping_add(at as u64);
    Some((
        place.wrapping_add(extended(start.value)),
        size.value,
        size.next,
    ))
}

fn range_at(relative: bool, address: u64, bytes: &[u8], at: usize) -> Option<(u64, u64, usize)>
    ensures { result ≡ spec.range_at relative address bytes.now at }
{
    if relative {
        near_range_at(address, bytes, at)
    } else {
        far_range_at(bytes, at)
    }
}

#[tactic(auto, unfolding(crate::specs::Entries::past_data))]
fn past_data(augmented: bool, bytes: &[u8], at: usize) -> Option<usize>
    ensures { result ≡ spec.past_data augmented bytes.now at }
{
    if !augmented {
        return Some(at);
    }
    let size = unsigned(bytes, at)?;
    past(bytes, size.next, size.value)
}

/// Leaves an FDE of no address out.
fn covering_any(fde: Fde) -> Option<Fde>
    ensures { result ≡ spec.covering_any fde }
{
    if fde.size == 0 { None } else { Some(fde) }
}

#[tactic(auto, unfolding(crate::specs::Entries::fde_with))]
fn fde_with(address: u64, bytes: &[u8], at: usize, cie: Cie) -> Option<Fde>
    ensures { result ≡ spec.fde_with address bytes.now at cie }
{
    let range = range_at(cie.relative, address, bytes, at)?;
    let next = past_data(cie.augmented, bytes, range.2)?;
    covering_any(Fde {
        start: range.0,
        size: range.1,
        cie,
        at: next,
        end: bytes.len(),
    })
}

#[tactic(auto, unfolding(crate::specs::Entries::fde_inside))]
fn fde_inside(table: Table, bytes: &[u8], entry: Entry) -> Option<Fde>
    requires { entry.end ≤ length bytes.now }
    ensures { result ≡ spec.fde_inside table bytes.now entry }
{
    let content = &bytes[..entry.end];
    let pointer = fixed_u32(content, entry.at)?;
    let place = cie_place(table.is_eh_frame, entry.at, pointer.value)?;
    let cie = cie_at(table.is_eh_frame, bytes, place)?;
    fde_with(table.address, content, pointer.next, cie)
}

/// The FDE in an entry.
#[tactic(auto, unfolding(crate::specs::Entries::fde_in))]
fn fde_in(table: Table, bytes: &[u8], entry: Entry) -> Option<Fde>
    ensures { result ≡ spec.fde_in table bytes.now entry }
{
    if bytes.len() < entry.end {
        return None;
    }
    fde_inside(table, bytes, entry)
}

fn push_fde(fdes: &mut Vec<Fde>, fde: Option<Fde>) -> Result<(), AllocError>
    ensures { OnOk result (fdes.new.items ≡ fdes.old.items ++ option_to_list fde) }
{
    match fde {
        Some(fde) => {
            fdes.push(fde)?;
            Ok(())
        }
        None => Ok(()),
    }
}

/// The FDEs among so many entries.
fn fdes_from(
    alloc: Global,
    count: usize,
    table: Table,
    bytes: &[u8],
    first: Option<Entry>,
) -> Result<Vec<Fde>, AllocError>
    ensures { IfOk result (λ v. v.items ≡ spec.fdes_from count table bytes.now first) }
{
    let mut fdes = Vec::new(alloc);
    let mut next = first;
    for _ in 0..count {
        let Some(entry) = next else {
            return Ok(fdes);
        };
        push_fde(&mut fdes, fde_in(table, bytes, entry))?;
        next = entry_at(bytes, entry.end);
    }
    Ok(fdes)
}

/// The FDEs of a table with these bytes, in its order.
#[tactic(auto, unfolding(crate::specs::Entries::fdes_of))]
pub fn fdes_of(alloc: Global, table: Table, bytes: &[u8]) -> Result<Vec<Fde>, AllocError>
    ensures { IfOk result (λ v. v.items ≡ spec.fdes_of table bytes.now) }
{
    let fdes = fdes_from(alloc, bytes.len(), table, bytes, entry_at(bytes, 0))?;
    Ok(fdes)
}
