//! getcwd(buf, size)

ghost use Rattle.std.specs.Prelude.{◌≡◌, IfOk, OnErr};
ghost use Rattle.lx_proc.specs.Answers.{answer_of, Kept};
ghost use Rattle.lx_fcalls.specs.Getcwd.{getcwd as meaning, shown as shown_of};

use crate::giving::give;
use containers::Bytes;
use lx_abi::{Call, Errno};
use lx_proc::{CallReply, Shared, UserState, directory};
use std::alloc::{AllocError, Global};

/// A path as a text, with its NUL.
fn shown(alloc: Global, path: &[u8]) -> Result<Bytes, AllocError>
    ensures { IfOk result (λ b. b ≡ shown_of path.now) }
{
    if path.len() == 0 {
        return Bytes::from_slice(alloc, b"/\0".as_slice());
    }
    let mut text = Bytes::from_slice(alloc, path)?;
    text.extend(b"\0".as_slice())?;
    Ok(text)
}

/// getcwd(2): the length with the NUL. Refused with ERANGE or EFAULT.
#[tactic(auto, unfolding(crate::specs::Getcwd::getcwd))]
pub fn getcwd(
    alloc: Global,
    shared: &mut Shared,
    pid: u32,
    call: &Call,
    user: &mut UserState,
) -> Result<CallReply, AllocError>
    ensures answer { IfOk result (λ r. answer_of r shared.new user.new ≡ meaning shared.old pid call.now user.old) }
    ensures kept { IfOk result (λ r. Kept r shared.old user.old shared.new user.new) }
    ensures same { OnErr result (shared.new ≡ shared.old) }
    ensures kept_own { OnErr result (user.new ≡ user.old) }
{
    let text = shown(alloc, directory(shared, pid))?;
    if text.len() as u64 > call.arguments[1] {
        return Ok(CallReply::Refused(Errno::ERANGE));
    }
    if !give(&mut user.memory, call.arguments[0], text.as_slice())? {
        return Ok(CallReply::Refused(Errno::EFAULT));
    }
    Ok(CallReply::Returned(text.len() as u64))
}
