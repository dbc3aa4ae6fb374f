//! ftruncate(fd, length)

ghost use Rattle.std.specs.Prelude.{◌≡◌, IfOk, OnErr};
ghost use Rattle.lx_proc.specs.Answers.{answer_of, Kept};
ghost use Rattle.lx_fcalls.specs.Ftruncate.{ftruncate as meaning, truncates, truncates_node};

use crate::contents::{content, has_space};
use lx_abi::limits::LARGEST_FILE;
use lx_abi::{Call, Errno};
use lx_open::Object;
use lx_proc::{CallReply, Shared, UserState};
use lx_sig::low_argument;
use std::alloc::AllocError;

fn truncate_node(
    shared: &mut Shared,
    user: &mut UserState,
    len: u64,
    node: u32,
) -> Result<CallReply, AllocError>
    ensures answer { IfOk result (λ r. answer_of r shared.new user.new ≡ truncates_node shared.old user.old len node) }
    ensures kept { IfOk result (λ r. Kept r shared.old user.old shared.new user.new) }
    ensures same { OnErr result (shared.new ≡ shared.old) }
    ensures kept_own { OnErr result (user.new ≡ user.old) }
{
    if len > LARGEST_FILE {
        return Ok(CallReply::Refused(Errno::EFBIG));
    }
    let old = content(&shared.tree, node).len() as u64;
    if !has_space(shared, old, len) {
        return Ok(CallReply::Refused(Errno::ENOSPC));
    }
    shared.tree.nodes.resize(node, len as usize)?;
    Ok(CallReply::Returned(0))
}

fn truncate_object(
    shared: &mut Shared,
    user: &mut UserState,
    len: u64,
    object: Object,
) -> Result<CallReply, AllocError>
    ensures answer { IfOk result (λ r. answer_of r shared.new user.new ≡ truncates shared.old user.old len object) }
    ensures kept { IfOk result (λ r. Kept r shared.old user.old shared.new user.new) }
    ensures same { OnErr result (shared.new ≡ shared.old) }
    ensures kept_own { OnErr result (user.new ≡ user.old) }
{
    match object {
        Object::Input | Object::Console | Object::ReadEnd(_) | Object::WriteEnd(_) => {
            Ok(CallReply::Refused(Errno::EINVAL))
        }
        Object::Opened(node) => truncate_node(shared, user, len, node),
    }
}

/// ftruncate(2). Refused with EINVAL for a length below 0, with EBADF, with EINVAL for what is no writable file, or
/// with EFBIG or ENOSPC.
#[tactic(auto, unfolding(crate::specs::Ftruncate::ftruncate))]
pub fn ftruncate(
    shared: &mut Shared,
    pid: u32,
    call: &Call,
    user: &mut UserState,
) -> Result<CallReply, AllocError>
    ensures answer { IfOk result (λ r. answer_of r shared.new user.new ≡ meaning shared.old pid call.now user.old) }
    ensures kept { IfOk result (λ r. Kept r shared.old user.old shared.new user.new) }
    ensures same { OnErr result (shared.new ≡ shared.old) }
    ensures kept_own { OnErr result (user.new ≡ user.old) }
{
    let len = call.arguments[1];
    if len >= 0x8000_0000_0000_0000 {
        return Ok(CallReply::Refused(Errno::EINVAL));
    }
    let Some(slot) = shared.fds.slot(pid, low_argument(call, 0)) else {
        return Ok(CallReply::Refused(Errno::EBADF));
    };
    let Some(description) = shared.fds.description(slot.description) else {
        return Ok(CallReply::Refused(Errno::EBADF));
    };
    if !description.may_write {
        return Ok(CallReply::Refused(Errno::EINVAL));
    }
    truncate_object(shared, user, len, description.object)
}
