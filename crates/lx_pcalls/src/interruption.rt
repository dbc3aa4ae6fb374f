//! Calls that block, and signals (signal(7), "Interruption of system calls").

ghost use Rattle.std.specs.Prelude.{◌≡◌};
ghost use Rattle.std.specs.FinMap as maps;
ghost use Rattle.lx_model.specs.Machine.{Blocks};
ghost use Rattle.lx_proc.specs.Answers.{answer_of, Kept};
ghost use Rattle.lx_proc.specs.declared.state.Shared.{Shared};
ghost use Rattle.lx_proc.specs.declared.state.UserState.{UserState};
ghost use Rattle.lx_pcalls.specs.Interruption.{is_interrupted as is_interrupted_by, with_interrupted, interruptible};

use lx_proc::{CallReply, Shared, UserState};
use lx_sig::{Interrupted, may_interrupt};

/// -512, ERESTARTSYS.
const INTERRUPTED_WORD: u64 = 0xffff_ffff_ffff_fe00;

/// A call of the process that blocks would be interrupted: some signal is pending that is neither blocked nor ignored.
pub fn is_interrupted(shared: &Shared, pid: u32) -> bool
    ensures { result ≡ is_interrupted_by (maps.get shared.now.entries pid) }
{
    match shared.entries.get(pid) {
        None => false,
        Some(entry) => may_interrupt(&entry.signals),
    }
}

/// Keeps where the call was made, so that it can be made again.
fn keep_call(user: &mut UserState)
    ensures { user.new ≡ with_interrupted user.old }
{
    user.interrupted = Some(Interrupted {
        pc: user.hart.pc,
        a0: user.hart.registers[10],
    });
}

fn interrupt_blocked(shared: &Shared, pid: u32, user: &mut UserState) -> CallReply
    ensures answer { answer_of result shared.now user.new ≡ interruptible shared.now pid user.old Blocks }
    ensures kept { Kept result shared.now user.old shared.now user.new }
{
    if !is_interrupted(shared, pid) {
        return CallReply::Blocked;
    }
    keep_call(user);
    CallReply::Returned(INTERRUPTED_WORD)
}

/// What a call's reply comes to: where the call would block, a signal that interrupts it makes it return. The parts are
/// as the call left them.
pub fn interrupt(shared: &Shared, pid: u32, user: &mut UserState, reply: CallReply) -> CallReply
    ensures answer { answer_of result shared.now user.new
        ≡ interruptible shared.now pid user.old (answer_of reply shared.now user.old) }
    ensures kept { (s : Shared) (b : UserState)
        → Kept reply s b shared.now user.old → Kept result s b shared.now user.new }
{
    match reply {
        CallReply::Blocked => interrupt_blocked(shared, pid, user),
        other => other,
    }
}
