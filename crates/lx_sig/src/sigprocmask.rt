//! rt_sigprocmask (sigprocmask(2)).

ghost use Rattle.std.specs.Prelude.{◌≡◌, false, true, IfOk, IfErr, OnOk, OnErr};
ghost use Rattle.lx_sig.specs.Calls.{is_unreadable, outcome, Keeps};
ghost use Rattle.lx_sig.specs.Sigprocmask.{new_set, may_mask as may_be_masked, masked as masked_by, with_mask};
ghost use Rattle.lx_sig.specs.Sigprocmask.{mask_changed, sigprocmask as meaning};

use crate::giving::give;
use crate::sets::clean;
use crate::state::Signals;
use lx_abi::{Call, Errno};
use rv_mem::Space;
use std::alloc::AllocError;

/// The set that is to be used, where there is one.
fn read_set(memory: &mut Space, at: u64) -> Result<Option<u64>, Errno>
    ensures ok { OnOk result (is_unreadable memory.old at 8 ≡ false) }
    ensures value { IfOk result (λ a. a ≡ new_set memory.old at) }
    ensures refused { IfErr result (λ e. (is_unreadable memory.old at 8 ≡ true) × (e.number ≡ 14)) }
    ensures kept { memory.new ≡ memory.old }
{
    if at == 0 {
        return Ok(None);
    }
    match memory.read_array::<8>(at) {
        Ok(bytes) => Ok(Some(clean(u64::from_le_bytes(bytes)))),
        Err(_) => Err(Errno::EFAULT),
    }
}

fn may_mask(how: u64, new: Option<u64>) -> bool
    ensures { result ≡ may_be_masked how new }
{
    new.is_none() || how <= 2
}

fn masked(mask: u64, how: u64, set: u64) -> u64
    ensures { result ≡ masked_by mask how set }
{
    match how {
        0 => mask | set,
        1 => mask & !set,
        _ => set,
    }
}

fn set_mask(signals: &mut Signals, how: u64, new: Option<u64>)
    ensures { signals.new ≡ with_mask signals.old how new }
{
    if let Some(set) = new {
        signals.mask = masked(signals.mask, how, set);
    }
}

#[tactic(auto, unfolding(crate::specs::Sigprocmask::mask_changed))]
fn change_mask(
    signals: &mut Signals,
    memory: &mut Space,
    how: u64,
    new: Option<u64>,
    old: u64,
) -> Result<Result<(), Errno>, AllocError>
    ensures answer { IfOk result
        (λ r. outcome r signals.new memory.new ≡ mask_changed signals.old memory.old how new old) }
    ensures same_signals { IfOk result (λ r. Keeps r signals.old signals.new) }
    ensures same_memory { IfOk result (λ r. Keeps r memory.old memory.new) }
    ensures err_signals { OnErr result (signals.new ≡ signals.old) }
    ensures err_memory { OnErr result (memory.new ≡ memory.old) }
{
    if !may_mask(how, new) {
        return Ok(Err(Errno::EINVAL));
    }
    let given = give(memory, old, &signals.mask.to_le_bytes())?;
    if given.is_ok() {
        set_mask(signals, how, new);
    }
    Ok(given)
}

/// rt_sigprocmask(how, set, oldset, sigsetsize), as sigprocmask(2) has it. EINVAL for another size than 8; EFAULT where
/// set can't be read; EINVAL for another how than SIG_BLOCK, SIG_UNBLOCK and SIG_SETMASK, unless set is null; EFAULT
/// where oldset can't be written. A refusal changes nothing.
#[tactic(auto, unfolding(crate::specs::Sigprocmask::sigprocmask))]
pub fn sigprocmask(
    signals: &mut Signals,
    memory: &mut Space,
    call: &Call,
) -> Result<Result<(), Errno>, AllocError>
    ensures answer { IfOk result
        (λ r. outcome r signals.new memory.new ≡ meaning signals.old memory.old call.now) }
    ensures same_signals { IfOk result (λ r. Keeps r signals.old signals.new) }
    ensures same_memory { IfOk result (λ r. Keeps r memory.old memory.new) }
    ensures err_signals { OnErr result (signals.new ≡ signals.old) }
    ensures err_memory { OnErr result (memory.new ≡ memory.old) }
{
    if call.arguments[3] != 8 {
        return Ok(Err(Errno::EINVAL));
    }
    let new = match read_set(memory, call.arguments[1]) {
        Ok(new) => new,
        Err(error) => return Ok(Err(error)),
    };
    change_mask(signals, memory, call.arguments[0], new, call.arguments[2])
}
