//! close(fd)

ghost use Rattle.std.specs.Prelude.{◌≡◌};
ghost use Rattle.lx_proc.specs.Answers.{answer_of, Kept};
ghost use Rattle.lx_fcalls.specs.Close.{close as meaning};

use lx_abi::{Call, Errno};
use lx_proc::{CallReply, Shared, UserState};
use lx_sig::low_argument;

/// close(2). Refused with EBADF.
#[tactic(auto, unfolding(crate::specs::Close::close))]
pub fn close(shared: &mut Shared, pid: u32, call: &Call, user: &mut UserState) -> CallReply
    ensures answer { answer_of result shared.new user.new ≡ meaning shared.old pid call.now user.old }
    ensures kept { Kept result shared.old user.old shared.new user.new }
{
    let fd = low_argument(call, 0);
    if shared.fds.slot(pid, fd).is_none() {
        return CallReply::Refused(Errno::EBADF);
    }
    lx_open::release::close(&mut shared.tree, &mut shared.fds, pid, fd);
    CallReply::Returned(0)
}
