//! Replies to a writer, each by one put, and what is kept back of them.

ghost use Rattle.std.specs.Prelude.{◌≡◌, OnErr, OnOk};
ghost use Rattle.std.specs.Io.KnownBytes.{Appends};
ghost use Rattle.host_wire.specs.Ends.{AppendsPart, IsPut};
ghost use Rattle.host_serve.specs.Keeping.{IsOut};
ghost use Rattle.host_serve.specs.Serving.{SentAs};

use crate::ends::{Ahead, Outlet};
use crate::fault::ServeFault;
use host_wire::{Broken, Frame, Payload, WireFault, encode};
use lx_abi::Reply;
use std::alloc::Global;

/// Puts a reply. Where the next request hasn't come whole, what was kept back goes out with it.
fn put_out<R: Ahead, W: Outlet>(reader: &R, writer: &mut W, bytes: &[u8]) -> Result<(), Broken>
    ensures whole { OnOk result (Appends (W.contents writer.old) (W.contents writer.new) bytes.now) }
    ensures part { OnErr result (AppendsPart (W.contents writer.old) (W.contents writer.new) bytes.now) }
    ensures counted { IsPut (W.puts writer.old) (W.puts writer.new) bytes.now }
    ensures faults { OnErr result (W.broken writer.new ≡ 1) }
    ensures out { OnOk result (IsOut (W.kept writer.new) (R.ahead reader.now)) }
{
    match writer.put(bytes) {
        Ok(()) => {}
        Err(Broken) => return Err(Broken),
    }
    if reader.has_frame() {
        return Ok(());
    }
    match writer.hand_on() {
        Ok(()) => Ok(()),
        Err(Broken) => Err(Broken),
    }
}

/// Sends the reply to the request of this number.
pub(crate) fn send<R: Ahead, W: Outlet>(
    alloc: Global,
    reader: &R,
    writer: &mut W,
    number: u64,
    reply: Reply,
) -> Result<(), ServeFault>
    ensures sent { SentAs result number reply (W.contents writer.old) (W.contents writer.new) (W.puts writer.old)
        (W.puts writer.new) (W.broken writer.new) }
    ensures out { OnOk result (IsOut (W.kept writer.new) (R.ahead reader.now)) }
{
    let frame = Frame {
        number,
        body: Payload::Reply(reply),
    };
    let bytes = match encode(alloc, &frame) {
        Ok(bytes) => bytes,
        Err(WireFault::Memory) => return Err(ServeFault::Failed),
        Err(WireFault::Length | WireFault::Kind | WireFault::Payload) => return Err(
            ServeFault::Wire,
        ),
    };
    match put_out(reader, writer, bytes.as_slice()) {
        Ok(()) => Ok(()),
        Err(Broken) => Err(ServeFault::Write),
    }
}
