//! Frames from a reader, one by one.

ghost use Rattle.std.specs.Prelude.{◌≡◌, ◌<◌, [], length, IfOk, IsSome};
ghost use Rattle.host_wire.specs.Receiving.{Received, ReadOnce};
ghost use Rattle.host_wire.specs.Streams.{nothing_fed};

use crate::ends::{Broken, Source};
use crate::feed::Feed;
use host_frame::{Frame, WireFault};
use thiserror::Error;

/// Why no frame was received.
#[derive(Clone, Copy, Debug, PartialEq, Eq, Error)]
pub enum ReceiveFault {
    /// The reader failed, or was read too often without a whole frame.
    #[error("a frame could not be read")]
    Read,
    #[error("{0}")]
    Wire(WireFault),
}

/// How many reads a frame may take, where nothing else is said.
pub const MOST_READS: u64 = 1 << 32;

/// Reads until a frame is whole, `most` times at most and no byte past it; none at the end of input.
pub fn receive<R: Source>(
    source: &mut R,
    feed: &mut Feed,
    room: &mut [u8],
    most: u64,
) -> Result<Option<Frame>, ReceiveFault>
    requires { 0 < length room.old }
    ensures received { Received most (R.input source.old) feed.old result (R.input source.new) feed.new }
    ensures no_further { feed.old.ready ≡ [] → IfOk result (λ frame. IsSome frame → feed.new ≡ nothing_fed) }
{
    if let Some(frame) = feed.take() {
        return Ok(Some(frame));
    }
    for _ in 0..most {
        if !read_some(source, feed, room)? {
            return Ok(None);
        }
        if let Some(frame) = feed.take() {
            return Ok(Some(frame));
        }
    }
    Err(ReceiveFault::Read)
}

/// Reads once, no byte past the frame under way; false at the end of input.
fn read_some<R: Source>(
    source: &mut R,
    feed: &mut Feed,
    room: &mut [u8],
) -> Result<bool, ReceiveFault>
    requires { 0 < length room.old }
    ensures { ReadOnce (R.input source.old) feed.old result (R.input source.new) feed.new }
{
    let end = feed.missing().min(room.len());
    let into = &mut room[..end];
    let count = match source.read(into) {
        Ok(count) => count,
        Err(Broken) => return Err(ReceiveFault::Read),
    };
    if count == 0 {
        return Ok(false);
    }
    match feed.feed(&into[..count]) {
        Ok(()) => Ok(true),
        Err(fault) => Err(ReceiveFault::Wire(fault)),
    }
}
