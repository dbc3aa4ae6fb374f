//! Numbers, bytes and texts, one after the other.

ghost use Rattle.std.specs.Prelude.{◌≡◌, ◌≤◌, drop, length};
ghost use Rattle.dwarf_data.specs.Reading as spec;
ghost use Rattle.dwarf_data.specs.Reading.{Gives};

use byteorder::{ByteOrder, LittleEndian};

#[tactic(auto, unfolding(crate::specs::Reading::number))]
pub fn read_u8(bytes: &[u8]) -> Option<(u8, &[u8])>
    ensures { Gives (λ x. (x.0, x.1.now)) result (spec.number 1 bytes.now) }
{
    let (byte, rest) = bytes.split_first()?;
    Some((*byte, rest))
}

#[tactic(auto, unfolding(crate::specs::Reading::number))]
pub fn read_u16(bytes: &[u8]) -> Option<(u16, &[u8])>
    ensures { Gives (λ x. (x.0, x.1.now)) result (spec.number 2 bytes.now) }
{
    if bytes.len() < 2 {
        return None;
    }
    Some((LittleEndian::read_u16(bytes), &bytes[2..]))
}

#[tactic(auto, unfolding(crate::specs::Reading::number))]
pub fn read_u32(bytes: &[u8]) -> Option<(u32, &[u8])>
    ensures { Gives (λ x. (x.0, x.1.now)) result (spec.number 4 bytes.now) }
{
    if bytes.len() < 4 {
        return None;
    }
    Some((LittleEndian::read_u32(bytes), &bytes[4..]))
}

#[tactic(auto, unfolding(crate::specs::Reading::number))]
pub fn read_u64(bytes: &[u8]) -> Option<(u64, &[u8])>
    ensures { Gives (λ x. (x.0, x.1.now)) result (spec.number 8 bytes.now) }
{
    if bytes.len() < 8 {
        return None;
    }
    Some((LittleEndian::read_u64(bytes), &bytes[8..]))
}

/// So many bytes.
#[tactic(auto, unfolding(crate::specs::Reading::cut))]
pub fn read_bytes(count: u64, bytes: &[u8]) -> Option<(&[u8], &[u8])>
    ensures { Gives (λ x. (x.0.now, x.1.now)) result (spec.cut count bytes.now) }
{
    if (bytes.len() as u64) < count {
        return None;
    }
    Some(bytes.split_at(count as usize))
}

/// The bytes behind so many; none behind the last.
pub fn behind(count: u64, bytes: &[u8]) -> &[u8]
    ensures { result.now ≡ drop count bytes.now }
{
    if (bytes.len() as u64) < count {
        return &[];
    }
    &bytes[count as usize..]
}

/// The last seven bits of a number.
fn last_bits(signed: bool, byte: u8) -> u64
    requires { byte ≤ 127 }
    ensures { result ≡ spec.last_bits signed byte }
{
    if signed && byte >= 64 {
        u64::from(byte) + (u64::MAX - 127)
    } else {
        u64::from(byte)
    }
}

/// LEB128 of at most so many bytes.
fn leb128_within(signed: bool, count: u8, bytes: &[u8]) -> Option<(u64, &[u8])>
    ensures { Gives (λ x. (x.0, x.1.now)) result (spec.leb128_within signed count bytes.now) }
{
    if count == 0 {
        return None;
    }
    let Some((byte, rest)) = bytes.split_first() else {
        return None;
    };
    if *byte < 128 {
        return Some((last_bits(signed, *byte), rest));
    }
    let Some((high, rest)) = leb128_within(signed, count - 1, rest) else {
        return None;
    };
    Some((
        u64::from(*byte - 128).wrapping_add(high.wrapping_mul(128)),
        rest,
    ))
}

/// The most bytes that a number of 64 bits takes.
const LEB128_SIZE: u8 = 10;

/// An unsigned number, modulo 2 ^ 64 (7.6).
pub fn read_uleb128(bytes: &[u8]) -> Option<(u64, &[u8])>
    ensures { Gives (λ x. (x.0, x.1.now)) result (spec.uleb128 bytes.now) }
{
    leb128_within(false, LEB128_SIZE, bytes)
}

/// A number that may be below 0, in two's complement (7.6).
pub fn read_sleb128(bytes: &[u8]) -> Option<(u64, &[u8])>
    ensures { Gives (λ x. (x.0, x.1.now)) result (spec.sleb128 bytes.now) }
{
    leb128_within(true, LEB128_SIZE, bytes)
}

/// The bytes behind so many numbers.
pub fn behind_uleb128s(count: u64, bytes: &[u8]) -> Option<&[u8]>
    ensures { Gives (λ x. x.now) result (spec.behind_uleb128s count bytes.now) }
{
    let mut left = bytes;
    for _ in 0..count {
        let Some((_, rest)) = read_uleb128(left) else {
            return None;
        };
        left = rest;
    }
    Some(left)
}

/// How many bytes stand before the first zero.
pub fn text_length(bytes: &[u8]) -> usize
    ensures found { result ≡ spec.text_length bytes.now }
    ensures within { result ≤ length bytes.now }
{
    let mut length: usize = 0;
    let mut left = bytes;
    while let Some((byte, rest)) = left.split_first() {
        if *byte == 0 {
            return length;
        }
        length += 1;
        left = rest;
    }
    length
}

/// The text that begins some bytes: up to a zero.
pub fn text(bytes: &[u8]) -> &[u8]
    ensures { result.now ≡ spec.text bytes.now }
{
    &bytes[..text_length(bytes)]
}
