//! rt_sigaction (sigaction(2)).

ghost use Rattle.std.specs.Prelude.{◌≡◌, ◌<◌, false, true, IfOk, IfErr, OnOk, OnErr};
ghost use Rattle.lx_sig.specs.Doublewords.{doublewords};
ghost use Rattle.lx_abi.specs.Signals.{is_signal};
ghost use Rattle.lx_sig.specs.Calls.{is_unreadable, outcome, Keeps};
ghost use Rattle.lx_sig.specs.Sigaction.{has_other_flags as has_others, action_in as action_of_bytes, new_action};
ghost use Rattle.lx_sig.specs.Sigaction.{may_set as may_be_set, action_bytes as bytes_of_action};
ghost use Rattle.lx_sig.specs.Sigaction.{acted, with_action, sigaction as meaning};

use crate::arguments::low_argument;
use crate::delivery::action;
use crate::doublewords::{fill, word};
use crate::giving::give;
use crate::sets::clean;
use crate::state::{Action, Signals};
use lx_abi::{Call, Errno};
use rv_mem::Space;
use std::alloc::AllocError;

/// A signal's number.
pub(crate) fn is_known(number: u32) -> bool
    ensures { result ≡ is_signal number }
{
    number > 0 && number < 32
}

/// Flags other than SA_SIGINFO, SA_RESTART and SA_NODEFER.
fn has_other_flags(flags: u64) -> bool
    ensures { result ≡ has_others flags }
{
    flags & 0xffff_ffff_afff_fffb != 0
}

fn action_in(bytes: &[u8; 24]) -> Action
    ensures { result ≡ action_of_bytes bytes.now }
{
    Action {
        handler: word(bytes, 0),
        flags: word(bytes, 1),
        mask: clean(word(bytes, 2)),
    }
}

/// The action that is to be set, where there is one.
fn read_action(memory: &mut Space, at: u64) -> Result<Option<Action>, Errno>
    ensures ok { OnOk result (is_unreadable memory.old at 24 ≡ false) }
    ensures value { IfOk result (λ a. a ≡ new_action memory.old at) }
    ensures refused { IfErr result (λ e. (is_unreadable memory.old at 24 ≡ true) × (e.number ≡ 14)) }
    ensures kept { memory.new ≡ memory.old }
{
    if at == 0 {
        return Ok(None);
    }
    match memory.read_array::<24>(at) {
        Ok(bytes) => Ok(Some(action_in(&bytes))),
        Err(_) => Err(Errno::EFAULT),
    }
}

/// What a signal does can be asked, or set.
fn may_set(number: u32, new: &Option<Action>) -> bool
    ensures { result ≡ may_be_set number new.now }
{
    match new {
        None => is_known(number),
        Some(action) => is_known(number)
            && number != 9
            && number != 19
            && !has_other_flags(action.flags),
    }
}

fn action_bytes(action: &Action) -> [u8; 24]
    ensures { result ≡ bytes_of_action action.now }
{
    let mut bytes = [0; 24];
    fill(&mut bytes, &[action.handler, action.flags, action.mask]);
    bytes
}

fn set_action(signals: &mut Signals, number: u32, new: Option<Action>)
    requires { number < 32 }
    ensures { signals.new ≡ with_action signals.old number new }
{
    if let Some(action) = new {
        signals.actions[number as usize] = action;
    }
}

#[tactic(auto, unfolding(crate::specs::Sigaction::acted))]
fn act(
    signals: &mut Signals,
    memory: &mut Space,
    number: u32,
    new: Option<Action>,
    old: u64,
) -> Result<Result<(), Errno>, AllocError>
    ensures answer { IfOk result
        (λ r. outcome r signals.new memory.new ≡ acted signals.old memory.old number new old) }
    ensures same_signals { IfOk result (λ r. Keeps r signals.old signals.new) }
    ensures same_memory { IfOk result (λ r. Keeps r memory.old memory.new) }
    ensures err_signals { OnErr result (signals.new ≡ signals.old) }
    ensures err_memory { OnErr result (memory.new ≡ memory.old) }
{
    if !may_set(number, &new) {
        return Ok(Err(Errno::EINVAL));
    }
    let before = action_bytes(&action(signals, number as u8));
    let given = give(memory, old, &before)?;
    if given.is_ok() {
        set_action(signals, number, new);
    }
    Ok(given)
}

/// rt_sigaction(signum, act, oldact, sigsetsize), as sigaction(2) has it. EINVAL for another size than 8; EFAULT where
/// act can't be read; EINVAL for a signal that isn't known, a new action of SIGKILL, or other flags; EFAULT where
/// oldact can't be written. A refusal changes nothing.
#[tactic(auto, unfolding(crate::specs::Sigaction::sigaction))]
pub fn sigaction(
    signals: &mut Signals,
    memory: &mut Space,
    call: &Call,
) -> Result<Result<(), Errno>, AllocError>
    ensures answer { IfOk result
        (λ r. outcome r signals.new memory.new ≡ meaning signals.old memory.old call.now) }
    ensures same_signals { IfOk result (λ r. Keeps r signals.old signals.new) }
    ensures same_memory { IfOk result (λ r. Keeps r memory.old memory.new) }
    ensures err_signals { OnErr result (signals.new ≡ signals.old) }
    ensures err_memory { OnErr result (memory.new ≡ memory.old) }
{
    if call.arguments[3] != 8 {
        return Ok(Err(Errno::EINVAL));
    }
    let new = match read_action(memory, call.arguments[1]) {
        Ok(new) => new,
        Err(error) => return Ok(Err(error)),
    };
    act(
        signals,
        memory,
        low_argument(call, 0),
        new,
        call.arguments[2],
    )
}
