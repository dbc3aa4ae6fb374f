//! What a reply says.

ghost use Rattle.std.specs.Prelude.{◌≡◌};
ghost use Rattle.pt_model.specs.Tracer.{bytes_of, regs_in, told_info, says_done};
ghost use Rattle.tr_core.specs.Admitted.{told_status, says_childless, says_out, told_outcome};

use containers::Bytes;
use lx_abi::{Boxed, Errno, Info, Outcome, RegisterSet, Reply, Stop};
use std::alloc::Global;

pub fn registers_in(reply: Reply) -> Option<RegisterSet>
    ensures { result ≡ regs_in reply }
{
    match reply {
        Reply::Registers { registers } => Some(registers),
        _ => None,
    }
}

/// What Peek read; none where that isn't known.
#[inline(never)]
pub fn bytes_in(alloc: Global, reply: Reply) -> Option<Bytes>
    ensures { result ≡ bytes_of reply }
{
    match reply {
        Reply::Bytes { bytes } => Some(bytes),
        Reply::Errno { number } if Errno::EIO.is(number) => Some(Bytes::new(alloc)),
        _ => None,
    }
}

pub fn info_in(reply: &Reply) -> Option<Info>
    ensures { result ≡ told_info reply.now }
{
    match reply {
        Reply::Info { info } => Some(*info),
        _ => None,
    }
}

pub fn status_in(reply: &Reply) -> Option<(u32, Option<Stop>)>
    ensures { result ≡ told_status reply.now }
{
    match reply {
        Reply::Status { pid, status } => Some((*pid, status.stop())),
        _ => None,
    }
}

pub fn outcome_in(reply: Reply) -> Option<Boxed<Outcome>>
    ensures { result ≡ told_outcome reply }
{
    match reply {
        Reply::Outcome { outcome } => Some(outcome),
        _ => None,
    }
}

pub fn is_done(reply: &Reply) -> bool
    ensures { result ≡ says_done reply.now }
{
    matches!(reply, Reply::Done)
}

pub fn is_childless(reply: &Reply) -> bool
    ensures { result ≡ says_childless reply.now }
{
    match reply {
        Reply::Errno { number } => Errno::ECHILD.is(*number),
        _ => false,
    }
}

pub fn is_out(reply: &Reply) -> bool
    ensures { result ≡ says_out reply.now }
{
    matches!(reply, Reply::OutOfTurns)
}
