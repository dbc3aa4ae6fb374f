//! What a call does.

ghost use Rattle.std.specs.Prelude.{◌≡◌, IfOk, OnErr};
ghost use Rattle.lx_proc.specs.Answers.{answer_of, Kept};
ghost use Rattle.lx_turn.specs.Calls.{does as meaning, called};

use lx_abi::{Call, Errno};
use lx_fcalls::file_call;
use lx_pcalls::{interrupt, process_call};
use lx_proc::{CallReply, Shared, UserState};
use std::alloc::{AllocError, Global};

/// A call on files, or else one on processes, memory or signals; ENOSYS for a number that none has.
fn reply_to(
    alloc: Global,
    shared: &mut Shared,
    child: u32,
    pid: u32,
    call: &Call,
    user: &mut UserState,
) -> Result<CallReply, AllocError>
    ensures answer { IfOk result (λ r. answer_of r shared.new user.new
        ≡ called shared.old child pid call.now user.old) }
    ensures kept { IfOk result (λ r. Kept r shared.old user.old shared.new user.new) }
    ensures console { OnErr result (shared.new.console ≡ shared.old.console) }
{
    if let Some(reply) = file_call(alloc, shared, pid, call, user)? {
        return Ok(reply);
    }
    match process_call(alloc, shared, child, pid, call, user)? {
        Some(reply) => Ok(reply),
        None => Ok(CallReply::Refused(Errno::ENOSYS)),
    }
}

/// The call is done, if it can be. One that would block returns where a signal interrupts it.
#[tactic(auto, unfolding(crate::specs::Calls::does))]
pub fn does(
    alloc: Global,
    shared: &mut Shared,
    child: u32,
    pid: u32,
    call: &Call,
    user: &mut UserState,
) -> Result<CallReply, AllocError>
    ensures answer { IfOk result (λ r. answer_of r shared.new user.new
        ≡ meaning shared.old child pid call.now user.old) }
    ensures kept { IfOk result (λ r. Kept r shared.old user.old shared.new user.new) }
    ensures console { OnErr result (shared.new.console ≡ shared.old.console) }
{
    let reply = reply_to(alloc, shared, child, pid, call, user)?;
    Ok(interrupt(shared, pid, user, reply))
}
