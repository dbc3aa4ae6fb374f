//! read(fd, buf, count)

ghost use Rattle.std.specs.Prelude.{◌≡◌, IfOk, OnErr};
ghost use Rattle.lx_proc.specs.Answers.{answer_of, Kept};
ghost use Rattle.lx_fcalls.specs.Read.{read as meaning, reads_object, waits as waits_of};
ghost use Rattle.lx_fcalls.specs.Read.{reads_pipe, reads_file, reads_input};

use crate::contents::{content, part};
use crate::giving::give;
use lx_abi::limits::MOST_MOVED;
use lx_abi::{Call, Errno};
use lx_open::{Description, FdTable, Object, Slot};
use lx_proc::{CallReply, Shared, UserState};
use lx_sig::low_argument;
use std::alloc::AllocError;

/// What is there of the input.
fn read_input(
    shared: &mut Shared,
    user: &mut UserState,
    at: u64,
    count: usize,
) -> Result<CallReply, AllocError>
    ensures answer { IfOk result (λ r. answer_of r shared.new user.new ≡ reads_input shared.old user.old at count) }
    ensures kept { IfOk result (λ r. Kept r shared.old user.old shared.new user.new) }
    ensures same { OnErr result (shared.new ≡ shared.old) }
    ensures kept_own { OnErr result (user.new ≡ user.old) }
{
    let n = count.min(shared.input.len());
    if !give(&mut user.memory, at, &shared.input.as_slice()[..n])? {
        return Ok(CallReply::Refused(Errno::EFAULT));
    }
    shared.input.advance(n);
    Ok(CallReply::Returned(n as u64))
}

fn read_file(
    shared: &mut Shared,
    user: &mut UserState,
    slot: Slot,
    description: Description,
    node: u32,
    at: u64,
    count: usize,
) -> Result<CallReply, AllocError>
    ensures answer { IfOk result (λ r. answer_of r shared.new user.new
        ≡ reads_file shared.old user.old slot description node at count) }
    ensures kept { IfOk result (λ r. Kept r shared.old user.old shared.new user.new) }
    ensures same { OnErr result (shared.new ≡ shared.old) }
    ensures kept_own { OnErr result (user.new ≡ user.old) }
{
    let bytes = part(content(&shared.tree, node), description.offset, count);
    let n = bytes.len() as u64;
    let end = description.offset + n;
    if !give(&mut user.memory, at, bytes)? {
        return Ok(CallReply::Refused(Errno::EFAULT));
    }
    shared.fds.move_to(slot.description, end);
    Ok(CallReply::Returned(n))
}

/// Nothing is in the pipe, and something may come.
pub fn waits(fds: &FdTable, pipe: u32, count: usize) -> bool
    ensures { result ≡ waits_of fds.now pipe count }
{
    fds.held(pipe).len() == 0 && count > 0 && fds.has_writers(pipe)
}

fn read_pipe(
    shared: &mut Shared,
    user: &mut UserState,
    pipe: u32,
    at: u64,
    count: usize,
) -> Result<CallReply, AllocError>
    ensures answer { IfOk result (λ r. answer_of r shared.new user.new
        ≡ reads_pipe shared.old user.old pipe at count) }
    ensures kept { IfOk result (λ r. Kept r shared.old user.old shared.new user.new) }
    ensures same { OnErr result (shared.new ≡ shared.old) }
    ensures kept_own { OnErr result (user.new ≡ user.old) }
{
    if waits(&shared.fds, pipe, count) {
        return Ok(CallReply::Blocked);
    }
    let there = shared.fds.held(pipe);
    let n = count.min(there.len());
    if !give(&mut user.memory, at, &there[..n])? {
        return Ok(CallReply::Refused(Errno::EFAULT));
    }
    shared.fds.take_from_pipe(pipe, n);
    Ok(CallReply::Returned(n as u64))
}

fn read_object(
    shared: &mut Shared,
    user: &mut UserState,
    slot: Slot,
    description: Description,
    at: u64,
    count: usize,
) -> Result<CallReply, AllocError>
    ensures answer { IfOk result (λ r. answer_of r shared.new user.new
        ≡ reads_object shared.old user.old slot description at count description.object) }
    ensures kept { IfOk result (λ r. Kept r shared.old user.old shared.new user.new) }
    ensures same { OnErr result (shared.new ≡ shared.old) }
    ensures kept_own { OnErr result (user.new ≡ user.old) }
{
    match description.object {
        Object::Input => read_input(shared, user, at, count),
        Object::Console | Object::WriteEnd(_) => Ok(CallReply::Refused(Errno::EBADF)),
        Object::ReadEnd(pipe) => read_pipe(shared, user, pipe, at, count),
        Object::Opened(node) => read_file(shared, user, slot, description, node, at, count),
    }
}

/// read(2), of at most 65,536 bytes. Refused with EBADF or EFAULT. Blocks where a pipe with writers is empty.
#[tactic(auto, unfolding(crate::specs::Read::read))]
pub fn read(
    shared: &mut Shared,
    pid: u32,
    call: &Call,
    user: &mut UserState,
) -> Result<CallReply, AllocError>
    ensures answer { IfOk result (λ r. answer_of r shared.new user.new ≡ meaning shared.old pid call.now user.old) }
    ensures kept { IfOk result (λ r. Kept r shared.old user.old shared.new user.new) }
    ensures same { OnErr result (shared.new ≡ shared.old) }
    ensures kept_own { OnErr result (user.new ≡ user.old) }
{
    let Some(slot) = shared.fds.slot(pid, low_argument(call, 0)) else {
        return Ok(CallReply::Refused(Errno::EBADF));
    };
    let Some(description) = shared.fds.description(slot.description) else {
        return Ok(CallReply::Refused(Errno::EBADF));
    };
    if !description.may_read {
        return Ok(CallReply::Refused(Errno::EBADF));
    }
    let count = call.arguments[2].min(MOST_MOVED) as usize;
    read_object(shared, user, slot, description, call.arguments[1], count)
}
