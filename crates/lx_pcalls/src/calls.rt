//! The calls on processes, memory and signals by number.

ghost use Rattle.std.specs.Prelude.{◌≡◌, IfOk, OnErr, None};
ghost use Rattle.std.specs.FinMap as maps;
ghost use Rattle.lx_proc.specs.Answers.{answered, KeptIf};
ghost use Rattle.lx_pcalls.specs.Calls.{process_call as meaning, would_block as would_block_of, is_blocked_if};

use crate::brk::brk;
use crate::clone::clone;
use crate::exit::exit;
use crate::getpid::getpid;
use crate::getppid::getppid;
use crate::kill::kill;
use crate::mmap::mmap;
use crate::munmap::munmap;
use crate::rt_sigaction::rt_sigaction;
use crate::rt_sigprocmask::rt_sigprocmask;
use crate::rt_sigreturn::rt_sigreturn;
use crate::sched_yield::sched_yield;
use crate::wait4::{wait4, wait4_would_block};
use lx_abi::{Call, sys};
use lx_exec::execve::execve;
use lx_proc::{CallReply, Shared, UserState};
use std::alloc::{AllocError, Global};

/// A call on processes, memory or signals; none where it is another's. A child that it makes has the pid `child`.
#[tactic(auto, unfolding(crate::specs::Calls::process_call))]
pub fn process_call(
    alloc: Global,
    shared: &mut Shared,
    child: u32,
    pid: u32,
    call: &Call,
    user: &mut UserState,
) -> Result<Option<CallReply>, AllocError>
    ensures answer { IfOk result
        (λ r. answered r shared.new user.new ≡ meaning shared.old child pid call.now user.old) }
    ensures kept { IfOk result (λ r. KeptIf r shared.old user.old shared.new user.new) }
    ensures same { maps.get shared.old.entries child ≡ None → OnErr result (shared.new ≡ shared.old) }
    ensures kept_own { OnErr result (user.new ≡ user.old) }
    ensures console { OnErr result (shared.new.console ≡ shared.old.console) }
{
    match call.number {
        sys::SYS_EXIT => Ok(Some(exit(shared, call, user))),
        sys::SYS_EXIT_GROUP => Ok(Some(exit(shared, call, user))),
        sys::SYS_SCHED_YIELD => Ok(Some(sched_yield(shared, user))),
        sys::SYS_KILL => Ok(Some(kill(shared, pid, call, user))),
        sys::SYS_RT_SIGACTION => Ok(Some(rt_sigaction(shared, pid, call, user)?)),
        sys::SYS_RT_SIGPROCMASK => Ok(Some(rt_sigprocmask(shared, pid, call, user)?)),
        sys::SYS_RT_SIGRETURN => Ok(Some(rt_sigreturn(shared, pid, user))),
        sys::SYS_GETPID => Ok(Some(getpid(shared, pid, user))),
        sys::SYS_GETPPID => Ok(Some(getppid(shared, pid, user))),
        sys::SYS_GETTID => Ok(Some(getpid(shared, pid, user))),
        sys::SYS_BRK => Ok(Some(brk(shared, call, user)?)),
        sys::SYS_MUNMAP => Ok(Some(munmap(shared, call, user))),
        sys::SYS_CLONE => Ok(Some(clone(alloc, shared, child, pid, call, user)?)),
        sys::SYS_EXECVE => Ok(Some(execve(alloc, shared, pid, call, user)?)),
        sys::SYS_MMAP => Ok(Some(mmap(shared, call, user)?)),
        sys::SYS_WAIT4 => Ok(Some(wait4(shared, pid, call, user)?)),
        _ => Ok(None),
    }
}

/// The call would block. Takes no memory.
#[tactic(auto, unfolding(crate::specs::Calls::would_block))]
pub fn would_block(shared: &Shared, pid: u32, call: &Call) -> bool
    ensures { result ≡ would_block_of shared.now pid call.now }
{
    call.number == sys::SYS_WAIT4 && wait4_would_block(shared, pid, call)
}

/// Of these calls one blocks where it would, and nowhere else.
pub fn process_blocks(_shared: &Shared, _child: u32, _pid: u32, _call: &Call, _user: &UserState)
    ensures { is_blocked_if (meaning _shared.now _child _pid _call.now _user.now)
        ≡ would_block_of _shared.now _pid _call.now }
{}
