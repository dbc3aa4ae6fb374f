//! rt_sigreturn (sigreturn(2)).

ghost use Rattle.std.specs.Prelude.{◌≡◌};
ghost use Rattle.lx_proc.specs.Answers.{answer_of, Kept};
ghost use Rattle.lx_pcalls.specs.RtSigreturn.{rt_sigreturn as meaning};

use lx_abi::Errno;
use lx_proc::{CallReply, Shared, UserState, set_signals, signals};
use lx_sig::pop_frame;

/// rt_sigreturn(). EFAULT where the frame can't be read.
pub fn rt_sigreturn(shared: &mut Shared, pid: u32, user: &mut UserState) -> CallReply
    ensures answer { answer_of result shared.new user.new ≡ meaning shared.old pid user.old }
    ensures kept { Kept result shared.old user.old shared.new user.new }
{
    let Some(mut signals) = signals(shared, pid) else {
        return CallReply::Refused(Errno::ESRCH);
    };
    match pop_frame(&mut signals, &mut user.hart, &mut user.memory) {
        Err(_) => CallReply::Refused(Errno::EFAULT),
        Ok(()) => {
            set_signals(shared, pid, signals);
            CallReply::Jumped
        }
    }
}
