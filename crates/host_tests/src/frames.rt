//! Frames written out by hand: a length of 4 bytes, a number of 8, a kind and a body.

use host_wire::{Frame, WireFault, encode};
use std::alloc::{AllocError, Global};
use std::test::Fail;

/// The frame of this number with this kind and body, of so many bytes.
fn framed(alloc: Global, number: u64, message: &[u8], length: u32) -> Result<Vec<u8>, AllocError> {
    let length = length.wrapping_add(8);
    let mut bytes = length.to_be_bytes().to_vec(alloc)?;
    bytes.extend_from_slice(number.to_be_bytes().as_slice())?;
    bytes.extend_from_slice(message)?;
    Ok(bytes)
}

/// The frame of this number whose kind and body are told by hexadecimal digits.
pub fn frame(alloc: Global, number: u64, message: &str) -> Result<Vec<u8>, Fail> {
    let message = hex::decode(alloc, message)?;
    let length = u32::try_from(message.len())?;
    Ok(framed(alloc, number, message.as_slice(), length)?)
}

/// The frames of these messages, numbered from 1.
pub fn stream(alloc: Global, messages: &[&str]) -> Result<Vec<u8>, Fail> {
    let mut bytes = Vec::new(alloc);
    let mut number = 0u64;
    for message in messages {
        number = number.wrapping_add(1);
        bytes.extend_from_slice(frame(alloc, number, message)?.as_slice())?;
    }
    Ok(bytes)
}

/// Both are the same bytes.
pub fn are_same(one: Vec<u8>, other: Vec<u8>) -> bool {
    let same = one.as_slice() == other.as_slice();
    drop(one);
    drop(other);
    same
}

fn encoded(alloc: Global, frame: &Frame) -> Result<Vec<u8>, WireFault> {
    encode(alloc, frame)
}

/// The bytes of a frame.
pub fn spelled(alloc: Global, frame: &Frame) -> Result<Vec<u8>, Fail> {
    match encoded(alloc, frame) {
        Ok(bytes) => Ok(bytes),
        Err(_) => Err(Fail::from("a frame")),
    }
}

/// Some of the bytes; none where they don't reach so far.
pub fn part(bytes: &[u8], from: usize, to: usize) -> &[u8] {
    bytes.get(from..to).unwrap_or(&[])
}
