//! kill (kill(2)).

ghost use Rattle.std.specs.Prelude.{◌≡◌};
ghost use Rattle.std.specs.FinMap as maps;
ghost use Rattle.lx_proc.specs.State.{changed};
ghost use Rattle.lx_proc.specs.Answers.{answer_of, Kept};
ghost use Rattle.lx_pcalls.specs.Kill.{kill as meaning, kills, sent_to};

use lx_abi::{Call, Cause, Errno, Signal};
use lx_proc::{CallReply, Life, Shared, Table, UserState, send};
use lx_sig::{Aim, aim_of_kill};

/// A process that lives has the signal pending, unless it has it already.
fn send_from(entries: &mut Table, pid: u32, target: u32, signal: Signal)
    ensures { entries.new ≡ changed entries.old target (λ e. sent_to e e.life pid signal) }
{
    let Some(entry) = entries.get(target) else {
        return;
    };
    match entry.life {
        Life::Alive => send(entries, target, signal, Cause::Sent { pid }),
        Life::Dying { .. } | Life::Zombie { .. } => {}
    }
}

fn kill_at(shared: &mut Shared, pid: u32, _user: &UserState, aim: Aim) -> CallReply
    ensures answer { answer_of result shared.new _user.now ≡ kills shared.old pid _user.now aim }
    ensures kept { Kept result shared.old _user.now shared.new _user.now }
{
    if shared.entries.get(aim.pid).is_none() {
        return CallReply::Refused(Errno::ESRCH);
    }
    if let Some(signal) = aim.signal {
        send_from(&mut shared.entries, pid, aim.pid, signal);
    }
    CallReply::Returned(0)
}

/// kill(pid, sig). EINVAL unless pid is above 0 and sig is 0 or a known signal; ESRCH where there is no such process.
/// One that ends or has ended is there, and takes nothing.
#[tactic(auto, unfolding(crate::specs::Kill::kill))]
pub fn kill(shared: &mut Shared, pid: u32, call: &Call, user: &UserState) -> CallReply
    ensures answer { answer_of result shared.new user.now ≡ meaning shared.old pid call.now user.now }
    ensures kept { Kept result shared.old user.now shared.new user.now }
{
    match aim_of_kill(call) {
        None => CallReply::Refused(Errno::EINVAL),
        Some(aim) => kill_at(shared, pid, user, aim),
    }
}
