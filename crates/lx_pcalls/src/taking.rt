//! Signals that are taken (signal(7)).

ghost use Rattle.std.specs.Prelude.{◌≡◌, IfOk, OnErr};
ghost use Rattle.lx_pcalls.specs.Taking.{took_of, TookKept, handles, takes};

use lx_abi::{Cause, Signal};
use lx_proc::{Shared, UserState, set_signals, signals};
use lx_sig::{Action, Reaction, Signals, push_frame, reaction_to};
use rv_mem::MemFault;
use std::alloc::AllocError;

/// What became of a process that took a signal.
#[derive(Clone, Copy, Debug, PartialEq, Eq)]
pub enum Reacted {
    /// It goes on: in a handler, or as if the signal hadn't come.
    Passed,
    /// It stops, unless SIGCONT came, and nothing is changed yet.
    Stopped,
    /// It ends with this wait word, and nothing is changed yet.
    Killed(u32),
}

/// The wait word of an end by SIGSEGV.
const SEGV_WORD: u32 = 11;

/// The action's handler begins. Where its frame can't be written the process ends by SIGSEGV.
fn handle(
    shared: &mut Shared,
    pid: u32,
    user: &mut UserState,
    mut signals: Signals,
    signal: Signal,
    action: Action,
) -> Result<Reacted, AllocError>
    ensures took { IfOk result (λ r.
        took_of r shared.new user.new ≡ handles shared.old pid signals user.old signal action) }
    ensures kept { IfOk result (λ r. TookKept r shared.old user.old shared.new user.new) }
    ensures same { OnErr result (shared.new ≡ shared.old) }
    ensures kept_own { OnErr result (user.new ≡ user.old) }
{
    let pushed = push_frame(
        &mut signals,
        &mut user.hart,
        &mut user.memory,
        &mut user.interrupted,
        signal,
        action,
    );
    match pushed {
        Ok(()) => {
            set_signals(shared, pid, signals);
            Ok(Reacted::Passed)
        }
        Err(MemFault::Memory) => Err(AllocError),
        Err(_) => Ok(Reacted::Killed(SEGV_WORD)),
    }
}

/// The process does what its action for a taken signal says (signal(7), "Signal dispositions"). Where a handler's frame
/// can't be written it ends by SIGSEGV.
#[tactic(auto, unfolding(crate::specs::Taking::takes))]
pub fn take(
    shared: &mut Shared,
    pid: u32,
    user: &mut UserState,
    signal: Signal,
    cause: Cause,
) -> Result<Reacted, AllocError>
    ensures took { IfOk result (λ r. took_of r shared.new user.new ≡ takes shared.old pid user.old signal cause) }
    ensures kept { IfOk result (λ r. TookKept r shared.old user.old shared.new user.new) }
    ensures same { OnErr result (shared.new ≡ shared.old) }
    ensures kept_own { OnErr result (user.new ≡ user.old) }
{
    let Some(signals) = signals(shared, pid) else {
        return Ok(Reacted::Passed);
    };
    match reaction_to(&signals, signal, cause) {
        Reaction::Passes => Ok(Reacted::Passed),
        Reaction::Stops => Ok(Reacted::Stopped),
        Reaction::Ends => Ok(Reacted::Killed(u32::from(signal.number))),
        Reaction::Handles(action) => {
            let reacted = handle(shared, pid, user, signals, signal, action)?;
            Ok(reacted)
        }
    }
}
