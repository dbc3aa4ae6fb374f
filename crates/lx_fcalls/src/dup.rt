//! dup(fd)

ghost use Rattle.std.specs.Prelude.{◌≡◌, IfOk, OnErr};
ghost use Rattle.lx_proc.specs.Answers.{answer_of, Kept};
ghost use Rattle.lx_fcalls.specs.Dup.{dup as meaning};

use lx_abi::{Call, Errno};
use lx_open::Slot;
use lx_proc::{CallReply, Shared, UserState};
use lx_sig::low_argument;
use std::alloc::AllocError;

/// dup(2). Refused with EBADF or EMFILE.
#[tactic(auto, unfolding(crate::specs::Dup::dup))]
pub fn dup(
    shared: &mut Shared,
    pid: u32,
    call: &Call,
    user: &mut UserState,
) -> Result<CallReply, AllocError>
    ensures answer { IfOk result (λ r. answer_of r shared.new user.new ≡ meaning shared.old pid call.now user.old) }
    ensures kept { IfOk result (λ r. Kept r shared.old user.old shared.new user.new) }
    ensures same { OnErr result (shared.new ≡ shared.old) }
    ensures kept_own { OnErr result (user.new ≡ user.old) }
{
    let Some(slot) = shared.fds.slot(pid, low_argument(call, 0)) else {
        return Ok(CallReply::Refused(Errno::EBADF));
    };
    let Some(fd) = shared.fds.free(pid) else {
        return Ok(CallReply::Refused(Errno::EMFILE));
    };
    let copy = Slot {
        description: slot.description,
        closes_on_exec: false,
    };
    shared.fds.put(pid, fd, copy)?;
    Ok(CallReply::Returned(u64::from(fd)))
}
