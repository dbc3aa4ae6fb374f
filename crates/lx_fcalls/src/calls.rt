//! The calls on files by number.

ghost use Rattle.std.specs.Prelude.{◌≡◌, IfOk, OnErr};
ghost use Rattle.lx_proc.specs.Answers.{answered, KeptIf};
ghost use Rattle.lx_fcalls.specs.Calls.{file_call as meaning};

use crate::{
    chdir, close, dup, dup3, fstat, ftruncate, getcwd, lseek, mkdirat, newfstatat, openat, pipe2,
    read, unlinkat, write,
};
use lx_abi::{Call, sys};
use lx_proc::{CallReply, Shared, UserState};
use std::alloc::{AllocError, Global};

/// A call on files; none where it is another's.
#[tactic(auto, unfolding(crate::specs::Calls::file_call))]
pub fn file_call(
    alloc: Global,
    shared: &mut Shared,
    pid: u32,
    call: &Call,
    user: &mut UserState,
) -> Result<Option<CallReply>, AllocError>
    ensures answer { IfOk result (λ r. answered r shared.new user.new ≡ meaning shared.old pid call.now user.old) }
    ensures kept { IfOk result (λ r. KeptIf r shared.old user.old shared.new user.new) }
    ensures same { OnErr result (shared.new ≡ shared.old) }
    ensures kept_own { OnErr result (user.new ≡ user.old) }
    ensures console { OnErr result (shared.new.console ≡ shared.old.console) }
{
    match call.number {
        sys::SYS_GETCWD => Ok(Some(getcwd::getcwd(alloc, shared, pid, call, user)?)),
        sys::SYS_DUP => Ok(Some(dup::dup(shared, pid, call, user)?)),
        sys::SYS_DUP3 => Ok(Some(dup3::dup3(shared, pid, call, user)?)),
        sys::SYS_MKDIRAT => Ok(Some(mkdirat::mkdirat(alloc, shared, pid, call, user)?)),
        sys::SYS_UNLINKAT => Ok(Some(unlinkat::unlinkat(alloc, shared, pid, call, user)?)),
        sys::SYS_FTRUNCATE => Ok(Some(ftruncate::ftruncate(shared, pid, call, user)?)),
        sys::SYS_CHDIR => Ok(Some(chdir::chdir(alloc, shared, pid, call, user)?)),
        sys::SYS_OPENAT => Ok(Some(openat::openat(alloc, shared, pid, call, user)?)),
        sys::SYS_CLOSE => Ok(Some(close::close(shared, pid, call, user))),
        sys::SYS_PIPE2 => Ok(Some(pipe2::pipe2(alloc, shared, pid, call, user)?)),
        sys::SYS_LSEEK => Ok(Some(lseek::lseek(shared, pid, call, user))),
        sys::SYS_READ => Ok(Some(read::read(shared, pid, call, user)?)),
        sys::SYS_WRITE => Ok(Some(write::write(alloc, shared, pid, call, user)?)),
        sys::SYS_NEWFSTATAT => Ok(Some(newfstatat::newfstatat(alloc, shared, pid, call, user)?)),
        sys::SYS_FSTAT => Ok(Some(fstat::fstat(alloc, shared, pid, call, user)?)),
        _ => Ok(None),
    }
}
