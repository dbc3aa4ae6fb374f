//! Numbers at an offset of a table of frames.

ghost use Rattle.std.specs.Prelude.{◌≡◌, ◌-◌, length};
ghost use Rattle.elf_frames.specs.Numbers as spec;

use dwarf_data::{behind, read_sleb128, read_u8, read_u16, read_u32, read_u64, read_uleb128};

/// A number, modulo 2 ^ 64, and the offset behind it.
#[derive(Clone, Copy)]
pub struct Number {
    pub value: u64,
    pub next: usize,
}

/// A number behind which these bytes are left of all.
fn placed(bytes: &[u8], value: u64, rest: &[u8]) -> Number
    ensures { result ≡ record { value = value; next = length bytes.now - length rest.now } }
{
    Number {
        value,
        next: bytes.len().saturating_sub(rest.len()),
    }
}

#[tactic(auto, unfolding(crate::specs::Numbers::fixed))]
pub fn fixed_u8(bytes: &[u8], at: usize) -> Option<Number>
    ensures { result ≡ spec.fixed 1 bytes.now at }
{
    let (value, rest) = read_u8(behind(at as u64, bytes))?;
    Some(placed(bytes, u64::from(value), rest))
}

#[tactic(auto, unfolding(crate::specs::Numbers::fixed))]
pub fn fixed_u16(bytes: &[u8], at: usize) -> Option<Number>
    ensures { result ≡ spec.fixed 2 bytes.now at }
{
    let (value, rest) = read_u16(behind(at as u64, bytes))?;
    Some(placed(bytes, u64::from(value), rest))
}

#[tactic(auto, unfolding(crate::specs::Numbers::fixed))]
pub fn fixed_u32(bytes: &[u8], at: usize) -> Option<Number>
    ensures { result ≡ spec.fixed 4 bytes.now at }
{
    let (value, rest) = read_u32(behind(at as u64, bytes))?;
    Some(placed(bytes, u64::from(value), rest))
}

#[tactic(auto, unfolding(crate::specs::Numbers::fixed))]
pub fn fixed_u64(bytes: &[u8], at: usize) -> Option<Number>
    ensures { result ≡ spec.fixed 8 bytes.now at }
{
    let (value, rest) = read_u64(behind(at as u64, bytes))?;
    Some(placed(bytes, value, rest))
}

#[tactic(auto, unfolding(crate::specs::Numbers::unsigned))]
pub fn unsigned(bytes: &[u8], at: usize) -> Option<Number>
    ensures { result ≡ spec.unsigned bytes.now at }
{
    let (value, rest) = read_uleb128(behind(at as u64, bytes))?;
    Some(placed(bytes, value, rest))
}

#[tactic(auto, unfolding(crate::specs::Numbers::signed))]
pub fn signed(bytes: &[u8], at: usize) -> Option<Number>
    ensures { result ≡ spec.signed bytes.now at }
{
    let (value, rest) = read_sleb128(behind(at as u64, bytes))?;
    Some(placed(bytes, value, rest))
}
