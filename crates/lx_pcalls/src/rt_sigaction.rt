//! rt_sigaction (sigaction(2)).

ghost use Rattle.std.specs.Prelude.{◌≡◌, IfOk, OnErr};
ghost use Rattle.lx_proc.specs.Answers.{answer_of, Kept};
ghost use Rattle.lx_pcalls.specs.RtSigaction.{rt_sigaction as meaning};

use lx_abi::{Call, Errno};
use lx_proc::{CallReply, Shared, UserState, set_signals, signals};
use lx_sig::sigaction::sigaction;
use std::alloc::AllocError;

/// rt_sigaction(signum, act, oldact, sigsetsize), with lx_sig's refusals.
pub fn rt_sigaction(
    shared: &mut Shared,
    pid: u32,
    call: &Call,
    user: &mut UserState,
) -> Result<CallReply, AllocError>
    ensures answer { IfOk result
        (λ r. answer_of r shared.new user.new ≡ meaning shared.old pid call.now user.old) }
    ensures kept { IfOk result (λ r. Kept r shared.old user.old shared.new user.new) }
    ensures same { OnErr result (shared.new ≡ shared.old) }
    ensures kept_own { OnErr result (user.new ≡ user.old) }
{
    let Some(mut signals) = signals(shared, pid) else {
        return Ok(CallReply::Refused(Errno::ESRCH));
    };
    match sigaction(&mut signals, &mut user.memory, call)? {
        Err(error) => Ok(CallReply::Refused(error)),
        Ok(()) => {
            set_signals(shared, pid, signals);
            Ok(CallReply::Returned(0))
        }
    }
}
