//! On which pipe a process is in a call, and which one a call changes.

ghost use Rattle.std.specs.Prelude.{◌≡◌};
ghost use Rattle.lx_model.specs.Finite.{at};
ghost use Rattle.lx_model.specs.declared.stage.Task.TheVariants.{Gone};
ghost use Rattle.lx_kernel.specs.Pipes.{pipe_of as pipe_of_object, pipe_at as pipe_at_descriptor, used_by as used_by_call};
ghost use Rattle.lx_kernel.specs.Pipes.{used_at as used_at_stage, used as used_of, is_narrow as is_narrow_number};
ghost use Rattle.lx_kernel.specs.Pipes.{changed_at as changed_at_stage, changed_in as changed_of};

use lx_abi::{Call, sys};
use lx_model::{Stage, Task};
use lx_open::{FdTable, Object};
use lx_proc::{Shared, UserState};
use lx_sig::low_argument;
use shelves::Shelf;

/// The pipe whose end an object is.
fn pipe_of(object: Object) -> Option<u32>
    ensures { result ≡ pipe_of_object object }
{
    match object {
        Object::ReadEnd(pipe) | Object::WriteEnd(pipe) => Some(pipe),
        Object::Input | Object::Console | Object::Opened(_) => None,
    }
}

/// The pipe whose end a descriptor names.
#[tactic(auto, unfolding(crate::specs::Pipes::pipe_at))]
fn pipe_at(fds: &FdTable, pid: u32, fd: u32) -> Option<u32>
    ensures { result ≡ pipe_at_descriptor fds.now pid fd }
{
    let Some(slot) = fds.slot(pid, fd) else {
        return None;
    };
    let Some(description) = fds.description(slot.description) else {
        return None;
    };
    pipe_of(description.object)
}

/// The pipe that a call reads or writes.
fn used_by(fds: &FdTable, pid: u32, call: &Call) -> Option<u32>
    ensures { result ≡ used_by_call fds.now pid call.now }
{
    if call.number == sys::SYS_READ || call.number == sys::SYS_WRITE {
        pipe_at(fds, pid, low_argument(call, 0))
    } else {
        None
    }
}

fn used_at(fds: &FdTable, pid: u32, stage: Stage) -> Option<u32>
    ensures { result ≡ used_at_stage fds.now pid stage }
{
    match stage {
        Stage::Doing { call } => used_by(fds, pid, &call),
        _ => None,
    }
}

/// The pipe that a process reads or writes, for which it waits if it waits in that call.
pub fn used(shared: &Shared, tasks: &Shelf<Task<UserState>>, pid: u32) -> Option<u32>
    ensures { result ≡ used_of shared.now pid (at Gone tasks.now pid) }
{
    match tasks.get(pid) {
        Some(Task::Alive { stage, .. }) => used_at(&shared.fds, pid, *stage),
        Some(Task::Dying { .. }) => None,
        Some(Task::Gone) | None => None,
    }
}

/// A call that leaves every pipe that was there, but for the one whose end its first argument names.
pub fn is_narrow(number: u64) -> bool
    ensures { result ≡ is_narrow_number number }
{
    number == sys::SYS_READ
        || number == sys::SYS_WRITE
        || number == sys::SYS_CLOSE
        || number == sys::SYS_OPENAT
        || number == sys::SYS_LSEEK
        || number == sys::SYS_NEWFSTATAT
        || number == sys::SYS_FSTAT
        || number == sys::SYS_DUP
        || number == sys::SYS_PIPE2
        || number == sys::SYS_GETCWD
        || number == sys::SYS_CHDIR
        || number == sys::SYS_MKDIRAT
        || number == sys::SYS_UNLINKAT
        || number == sys::SYS_FTRUNCATE
}

fn changed_at(fds: &FdTable, pid: u32, stage: Stage) -> Option<u32>
    ensures { result ≡ changed_at_stage fds.now pid stage }
{
    match stage {
        Stage::Doing { call } => pipe_at(fds, pid, low_argument(&call, 0)),
        _ => None,
    }
}

/// The pipe whose end the first argument of a process's call names, the only one that such a call may change.
pub fn changed_in(shared: &Shared, pid: u32, task: &Task<UserState>) -> Option<u32>
    ensures { result ≡ changed_of shared.now pid task.now }
{
    match task {
        Task::Alive { stage, .. } => changed_at(&shared.fds, pid, *stage),
        Task::Dying { .. } | Task::Gone => None,
    }
}
