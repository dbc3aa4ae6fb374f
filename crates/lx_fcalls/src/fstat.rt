//! fstat(fd, buf)

ghost use Rattle.std.specs.Prelude.{◌≡◌, IfOk, OnErr};
ghost use Rattle.lx_proc.specs.Answers.{answer_of, Kept};
ghost use Rattle.lx_fcalls.specs.Fstat.{fstat as meaning, tells_object};

use crate::contents::content;
use crate::stat::{DEVICE, FILE, PIPE, give_stat};
use lx_abi::{Call, Errno};
use lx_open::Object;
use lx_proc::{CallReply, Shared, UserState};
use lx_sig::low_argument;
use std::alloc::{AllocError, Global};

fn tell_object(
    alloc: Global,
    shared: &mut Shared,
    user: &mut UserState,
    at: u64,
    object: Object,
) -> Result<CallReply, AllocError>
    ensures answer { IfOk result (λ r. answer_of r shared.new user.new ≡ tells_object shared.old user.old at object) }
    ensures kept { IfOk result (λ r. Kept r shared.old user.old shared.new user.new) }
    ensures same { OnErr result (shared.new ≡ shared.old) }
    ensures kept_own { OnErr result (user.new ≡ user.old) }
{
    match object {
        Object::Input | Object::Console => give_stat(alloc, shared, user, at, DEVICE, 0),
        Object::ReadEnd(_) | Object::WriteEnd(_) => give_stat(alloc, shared, user, at, PIPE, 0),
        Object::Opened(node) => {
            let size = content(&shared.tree, node).len() as u64;
            give_stat(alloc, shared, user, at, FILE, size)
        }
    }
}

/// fstat(2). Refused with EBADF or EFAULT.
#[tactic(auto, unfolding(crate::specs::Fstat::fstat))]
pub fn fstat(
    alloc: Global,
    shared: &mut Shared,
    pid: u32,
    call: &Call,
    user: &mut UserState,
) -> Result<CallReply, AllocError>
    ensures answer { IfOk result (λ r. answer_of r shared.new user.new ≡ meaning shared.old pid call.now user.old) }
    ensures kept { IfOk result (λ r. Kept r shared.old user.old shared.new user.new) }
    ensures same { OnErr result (shared.new ≡ shared.old) }
    ensures kept_own { OnErr result (user.new ≡ user.old) }
{
    let Some(slot) = shared.fds.slot(pid, low_argument(call, 0)) else {
        return Ok(CallReply::Refused(Errno::EBADF));
    };
    let Some(description) = shared.fds.description(slot.description) else {
        return Ok(CallReply::Refused(Errno::EBADF));
    };
    tell_object(alloc, shared, user, call.arguments[1], description.object)
}
