//! The frames at the front of bytes.

ghost use Rattle.std.specs.Prelude.{◌≡◌, ◌≤◌, ◌+◌, [], length, drop, IfOk, IfErr, IfSome};
ghost use Rattle.host_wire.specs.Streams as spec;
ghost use Rattle.host_frame.specs.Reading.{frame_at};
ghost use Rattle.host_wire.specs.Streams.{IsUnfinished, GivesFront, FailsAs, Going, Failed};

use byteorder::{BigEndian, ByteOrder};
use host_frame::{Frame, LONGEST, SHORTEST, WireFault, decode};
use std::alloc::Global;
use std::collections::VecDeque;

/// Where a frame's body begins.
pub(crate) const HEADER: usize = 13;

fn is_kind(kind: u8) -> bool
    ensures { result ≡ spec.is_kind kind }
{
    (0x01 <= kind && kind <= 0x0b) || kind == 0x0d || (0x81 <= kind && kind <= 0x8a)
}

fn whole(alloc: Global, bytes: &[u8]) -> Result<Option<(Frame, usize)>, WireFault>
    requires { 13 ≤ length bytes.now }
    ensures gives { GivesFront result (spec.whole (frame_at bytes.now) (length bytes.now)) }
    ensures within { IfOk result (λ o. IfSome o (λ x. x.1 ≡ length bytes.now)) }
{
    match decode(alloc, bytes) {
        Ok(frame) => Ok(Some((frame, bytes.len()))),
        Err(WireFault::Memory) => Err(WireFault::Memory),
        Err(WireFault::Length | WireFault::Kind | WireFault::Payload) => Err(WireFault::Payload),
    }
}

/// The frame at the front, and how many bytes it takes; none if more bytes are wanted.
#[tactic(auto, unfolding(crate::specs::Streams::front_of))]
fn front(alloc: Global, bytes: &[u8]) -> Result<Option<(Frame, usize)>, WireFault>
    ensures gives { GivesFront result (spec.front_of bytes.now) }
    ensures within { IfOk result (λ o. IfSome o (λ x. (13 ≤ x.1) × (x.1 ≤ length bytes.now))) }
{
    if bytes.len() < 4 {
        return Ok(None);
    }
    let length = BigEndian::read_u32(bytes) as usize;
    if !(SHORTEST <= length && length <= LONGEST) {
        return Err(WireFault::Length);
    }
    if bytes.len() < HEADER {
        return Ok(None);
    }
    if !is_kind(bytes[12]) {
        return Err(WireFault::Kind);
    }
    let size = 4 + length;
    if bytes.len() < size {
        return Ok(None);
    }
    whole(alloc, &bytes[..size])
}

/// The whole frames at the front, and how many bytes they take.
pub(crate) fn frames(alloc: Global, bytes: &[u8]) -> Result<(VecDeque<Frame>, usize), WireFault>
    ensures whole { IfOk result (λ x. spec.stream_of bytes.now ≡ Going x.0.items (drop x.1 bytes.now)) }
    ensures within { IfOk result (λ x. x.1 ≤ length bytes.now) }
    ensures unfinished { IfOk result (λ x. IsUnfinished (drop x.1 bytes.now)) }
    ensures fault { IfErr result (λ fault. FailsAs Failed fault (spec.stream_of bytes.now)) }
{
    let mut found = VecDeque::new(alloc);
    let mut at = 0;
    while let Some((frame, size)) = front(alloc, &bytes[at..])? {
        found.push_back(frame)?;
        at += size;
    }
    Ok((found, at))
}
