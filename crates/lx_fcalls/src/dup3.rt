//! dup3(old, new, flags)

ghost use Rattle.std.specs.Prelude.{◌≡◌, IfOk, OnErr};
ghost use Rattle.lx_proc.specs.Answers.{answer_of, Kept};
ghost use Rattle.lx_fcalls.specs.Dup3.{dup3 as meaning};

use crate::flags::{O_CLOEXEC, has};
use lx_abi::limits::MOST_FDS;
use lx_abi::{Call, Errno};
use lx_open::Slot;
use lx_open::release::replace;
use lx_proc::{CallReply, Shared, UserState};
use lx_sig::low_argument;
use std::alloc::AllocError;

/// dup3(2). Refused with EINVAL for other flags, EBADF, or EINVAL for equal descriptors.
#[tactic(auto, unfolding(crate::specs::Dup3::dup3, lx_open::specs::Releases::replaced))]
pub fn dup3(
    shared: &mut Shared,
    pid: u32,
    call: &Call,
    user: &mut UserState,
) -> Result<CallReply, AllocError>
    ensures answer { IfOk result (λ r. answer_of r shared.new user.new ≡ meaning shared.old pid call.now user.old) }
    ensures kept { IfOk result (λ r. Kept r shared.old user.old shared.new user.new) }
    ensures same { OnErr result (shared.new ≡ shared.old) }
    ensures kept_own { OnErr result (user.new ≡ user.old) }
{
    let flags = call.arguments[2];
    if flags & O_CLOEXEC != flags {
        return Ok(CallReply::Refused(Errno::EINVAL));
    }
    let old = low_argument(call, 0);
    let Some(slot) = shared.fds.slot(pid, old) else {
        return Ok(CallReply::Refused(Errno::EBADF));
    };
    let new = low_argument(call, 1);
    if new >= MOST_FDS {
        return Ok(CallReply::Refused(Errno::EBADF));
    }
    if old == new {
        return Ok(CallReply::Refused(Errno::EINVAL));
    }
    let copy = Slot {
        description: slot.description,
        closes_on_exec: has(flags, O_CLOEXEC),
    };
    replace(&mut shared.tree, &mut shared.fds, pid, new, copy)?;
    Ok(CallReply::Returned(u64::from(new)))
}
