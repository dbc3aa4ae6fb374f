//! Whether a call would block.

ghost use Rattle.std.specs.Prelude.{◌≡◌, ◌≤◌};
ghost use Rattle.lx_abi.specs.Limits.{most_moved};
ghost use Rattle.lx_fcalls.specs.Calls.{file_call as file_call_of};
ghost use Rattle.lx_proc.specs.Answers.{is_blocked};
ghost use Rattle.lx_fcalls.specs.Blocking.{passes, reading_waits, writing_waits, write_waits as write_waits_of};
ghost use Rattle.lx_fcalls.specs.Blocking.{read_would_block as read_would_block_of};
ghost use Rattle.lx_fcalls.specs.Blocking.{write_would_block as write_would_block_of, would_block as would_block_of};

use crate::read::waits;
use lx_abi::limits::{MOST_MOVED, PIPE_SIZE};
use lx_abi::{Call, sys};
use lx_open::{Description, FdTable, Object};
use lx_proc::{Shared, UserState};
use lx_sig::low_argument;
use rv_mem::Space;

fn reading(fds: &FdTable, count: usize, object: Object) -> bool
    ensures { result ≡ reading_waits fds.now count object }
{
    match object {
        Object::ReadEnd(pipe) => waits(fds, pipe, count),
        Object::Input | Object::Console | Object::WriteEnd(_) | Object::Opened(_) => false,
    }
}

/// A read would block.
#[tactic(auto, unfolding(crate::specs::Blocking::read_would_block))]
fn read_would_block(shared: &Shared, pid: u32, call: &Call) -> bool
    ensures { result ≡ read_would_block_of shared.now pid call.now }
{
    let Some(slot) = shared.fds.slot(pid, low_argument(call, 0)) else {
        return false;
    };
    let Some(description) = shared.fds.description(slot.description) else {
        return false;
    };
    let count = call.arguments[2].min(MOST_MOVED) as usize;
    description.may_read && reading(&shared.fds, count, description.object)
}

fn writing(fds: &FdTable, count: usize, object: Object) -> bool
    requires { count ≤ most_moved }
    ensures { result ≡ writing_waits fds.now count object }
{
    match object {
        Object::WriteEnd(pipe) => fds.has_readers(pipe) && fds.held(pipe).len() > PIPE_SIZE - count,
        Object::Input | Object::Console | Object::ReadEnd(_) | Object::Opened(_) => false,
    }
}

fn write_waits(
    fds: &FdTable,
    memory: &Space,
    at: u64,
    count: usize,
    description: Description,
) -> bool
    requires { count ≤ most_moved }
    ensures { result ≡ write_waits_of fds.now memory.now at count description }
{
    description.may_write && memory.can_read(at, count) && writing(fds, count, description.object)
}

/// A write would block.
#[tactic(auto, unfolding(crate::specs::Blocking::write_would_block))]
fn write_would_block(shared: &Shared, pid: u32, call: &Call, user: &UserState) -> bool
    ensures { result ≡ write_would_block_of shared.now pid call.now user.now }
{
    let Some(slot) = shared.fds.slot(pid, low_argument(call, 0)) else {
        return false;
    };
    let Some(description) = shared.fds.description(slot.description) else {
        return false;
    };
    let count = call.arguments[2].min(MOST_MOVED) as usize;
    write_waits(
        &shared.fds,
        &user.memory,
        call.arguments[1],
        count,
        description,
    )
}

/// A call on files would block. Takes no memory.
#[tactic(auto, unfolding(crate::specs::Blocking::would_block))]
pub fn would_block(shared: &Shared, pid: u32, call: &Call, user: &UserState) -> bool
    ensures { result ≡ would_block_of shared.now pid call.now user.now }
{
    match call.number {
        sys::SYS_READ => read_would_block(shared, pid, call),
        sys::SYS_WRITE => write_would_block(shared, pid, call, user),
        _ => false,
    }
}

/// A call on files blocks where it would, and nowhere else.
pub fn file_blocks(_shared: &Shared, _pid: u32, _call: &Call, _user: &UserState)
    ensures { passes is_blocked (file_call_of _shared.now _pid _call.now _user.now)
        ≡ would_block_of _shared.now _pid _call.now _user.now }
{}
