//! Values at the front of bytes.

ghost use Rattle.std.specs.Prelude.{◌≡◌};
ghost use Rattle.byteorder.specs.Endian.{big_number, little_number};
ghost use Rattle.host_values.specs.Reading.{Gives, number_at, registers_at, text_at};

use crate::fault::Bad;
use byteorder::{BigEndian, ByteOrder, LittleEndian};
use containers::Bytes;
use lx_abi::RegisterSet;
use std::alloc::Global;

pub fn byte_at(bytes: &[u8]) -> Result<(u8, &[u8]), Bad>
    ensures { Gives (λ x. (x.0, x.1.now)) result (number_at 1 bytes.now) }
{
    match bytes {
        [] => Err(Bad::Payload),
        [byte, rest @ ..] => Ok((*byte, rest)),
    }
}

pub fn word_at(bytes: &[u8]) -> Result<(u32, &[u8]), Bad>
    ensures { Gives (λ x. (x.0, x.1.now)) result (number_at 4 bytes.now) }
{
    if bytes.len() < 4 {
        return Err(Bad::Payload);
    }
    Ok((BigEndian::read_u32(bytes), &bytes[4..]))
}

pub fn double_at(bytes: &[u8]) -> Result<(u64, &[u8]), Bad>
    ensures { Gives (λ x. (x.0, x.1.now)) result (number_at 8 bytes.now) }
{
    if bytes.len() < 8 {
        return Err(Bad::Payload);
    }
    Ok((BigEndian::read_u64(bytes), &bytes[8..]))
}

#[tactic(auto, unfolding(crate::specs::Reading::text_at))]
pub fn text_of(alloc: Global, bytes: &[u8]) -> Result<(Bytes, &[u8]), Bad>
    ensures { Gives (λ x. (x.0, x.1.now)) result (text_at bytes.now) }
{
    let (len, rest) = word_at(bytes)?;
    let len = len as usize;
    if rest.len() < len {
        return Err(Bad::Payload);
    }
    let (text, rest) = rest.split_at(len);
    Ok((Bytes::from_slice(alloc, text)?, rest))
}

#[tactic(auto, unfolding(crate::specs::Reading::registers_at))]
pub fn registers_of(alloc: Global, bytes: &[u8]) -> Result<(RegisterSet, &[u8]), Bad>
    ensures { Gives (λ x. (x.0, x.1.now)) result (registers_at bytes.now) }
{
    if bytes.len() < 256 {
        return Err(Bad::Payload);
    }
    let (front, rest) = bytes.split_at(256);
    let mut registers = [0; 32];
    LittleEndian::read_u64_into(front, &mut registers);
    Ok((RegisterSet::new(alloc, &registers)?, rest))
}
