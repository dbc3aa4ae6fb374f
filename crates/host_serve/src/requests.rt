//! Requests from a reader, one by one.

ghost use Rattle.std.specs.Prelude.{◌≡◌, ◌<◌, length, IfOk, IsSome, OnOk, OnErr, IfErr};
ghost use Rattle.host_wire.specs.Streams.{nothing_fed};
ghost use Rattle.host_serve.specs.Requests as spec;
ghost use Rattle.pt_kernel.specs.Hosts.{is_boot as is_boot_model};
ghost use Rattle.host_serve.specs.Keeping.{IsOut};
ghost use Rattle.host_serve.specs.Requests.{Next};

use crate::ends::{Ahead, Outlet};
use crate::fault::ServeFault;
use host_wire::{Feed, Frame, Payload, ReceiveFault, WireFault};
use lx_abi::Request;

pub(crate) fn is_boot(request: &Request) -> bool
    ensures { result ≡ is_boot_model request.now }
{
    match request {
        Request::Boot { .. } => true,
        Request::Wait | Request::To { .. } | Request::Outcome => false,
    }
}

fn fault_of(fault: ReceiveFault) -> ServeFault
    ensures { result ≡ spec.fault_of fault }
{
    match fault {
        ReceiveFault::Read => ServeFault::Read,
        ReceiveFault::Wire(WireFault::Memory) => ServeFault::Failed,
        ReceiveFault::Wire(WireFault::Length | WireFault::Kind | WireFault::Payload) =>
            ServeFault::Wire,
    }
}

/// The frame's request, if it is one of this number.
fn request_in(frame: Frame, number: u64) -> Option<Request>
    ensures { result ≡ spec.request_in number frame }
{
    if frame.number != number {
        return None;
    }
    match frame.body {
        Payload::Request(request) => Some(request),
        Payload::Reply(_) => None,
    }
}

/// The next request, which has this number, by so many reads at most; none at the end of input. No byte behind it is
/// read. It is waited for only where all replies have gone out.
pub(crate) fn next_request<R: Ahead, W: Outlet>(
    reader: &mut R,
    writer: &W,
    feed: &mut Feed,
    room: &mut [u8],
    most: u64,
    number: u64,
) -> Result<Option<Request>, ServeFault>
    requires out { IsOut (W.kept writer.now) (R.ahead reader.old) }
    requires room { 0 < length room.old }
    requires fresh { feed.old ≡ nothing_fed }
    ensures next { Next most (R.input reader.old) result number (R.input reader.new) }
    ensures no_further { IfOk result (λ request. IsSome request → feed.new ≡ nothing_fed) }
{
    let frame = match reader.receive(writer, feed, room, most) {
        Ok(Some(frame)) => frame,
        Ok(None) => return Ok(None),
        Err(fault) => return Err(fault_of(fault)),
    };
    match request_in(frame, number) {
        Some(request) => Ok(Some(request)),
        None => Err(ServeFault::Order),
    }
}
