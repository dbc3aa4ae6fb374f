//! write(fd, buf, count)

ghost use Rattle.std.specs.Prelude.{◌≡◌, ◌≤◌, IfOk, length, OnErr};
ghost use Rattle.lx_abi.specs.Limits.{most_moved};
ghost use Rattle.lx_proc.specs.Answers.{answer_of, Kept};
ghost use Rattle.lx_fcalls.specs.Write.{write as meaning, writes_object, writes_pipe, writes_file, writes_at};
ghost use Rattle.lx_fcalls.specs.Write.{writes_console, breaks_pipe as breaks_pipe_of, start_of};

use crate::contents::{content, has_space};
use lx_abi::limits::{LARGEST_FILE, MOST_MOVED, PIPE_SIZE};
use lx_abi::{Call, Cause, Errno, Signal};
use lx_files::nodes::length_after;
use lx_open::{Description, Object, Slot};
use lx_proc::{CallReply, Shared, UserState, send};
use lx_sig::low_argument;
use rv_mem::MemFault;
use std::alloc::{AllocError, Global};

fn write_console(
    shared: &mut Shared,
    user: &mut UserState,
    bytes: &[u8],
) -> Result<CallReply, AllocError>
    ensures answer { IfOk result (λ r. answer_of r shared.new user.new
        ≡ writes_console shared.old user.old bytes.now) }
    ensures kept { IfOk result (λ r. Kept r shared.old user.old shared.new user.new) }
    ensures same { OnErr result (shared.new ≡ shared.old) }
    ensures kept_own { OnErr result (user.new ≡ user.old) }
{
    if !has_space(shared, 0, bytes.len() as u64) {
        return Ok(CallReply::Refused(Errno::ENOSPC));
    }
    shared.console.extend(bytes)?;
    Ok(CallReply::Returned(bytes.len() as u64))
}

fn break_pipe(shared: &mut Shared, pid: u32, user: &mut UserState) -> CallReply
    ensures answer { answer_of result shared.new user.new ≡ breaks_pipe_of shared.old pid user.old }
    ensures kept { Kept result shared.old user.old shared.new user.new }
{
    send(&mut shared.entries, pid, Signal::PIPE, Cause::Sent { pid });
    CallReply::Returned(Errno::EPIPE.word())
}

fn write_pipe(
    alloc: Global,
    shared: &mut Shared,
    pid: u32,
    user: &mut UserState,
    pipe: u32,
    bytes: &[u8],
) -> Result<CallReply, AllocError>
    requires { length bytes.now ≤ most_moved }
    ensures answer { IfOk result (λ r. answer_of r shared.new user.new
        ≡ writes_pipe shared.old pid user.old pipe bytes.now) }
    ensures kept { IfOk result (λ r. Kept r shared.old user.old shared.new user.new) }
    ensures same { OnErr result (shared.new ≡ shared.old) }
    ensures kept_own { OnErr result (user.new ≡ user.old) }
{
    if !shared.fds.has_readers(pipe) {
        return Ok(break_pipe(shared, pid, user));
    }
    if shared.fds.held(pipe).len() > PIPE_SIZE - bytes.len() {
        return Ok(CallReply::Blocked);
    }
    shared.fds.put_in_pipe(alloc, pipe, bytes)?;
    Ok(CallReply::Returned(bytes.len() as u64))
}

fn write_at(
    shared: &mut Shared,
    user: &mut UserState,
    slot: Slot,
    node: u32,
    at: u64,
    bytes: &[u8],
) -> Result<CallReply, AllocError>
    requires { length bytes.now ≤ most_moved }
    ensures answer { IfOk result (λ r. answer_of r shared.new user.new
        ≡ writes_at shared.old user.old slot node at bytes.now) }
    ensures kept { IfOk result (λ r. Kept r shared.old user.old shared.new user.new) }
    ensures same { OnErr result (shared.new ≡ shared.old) }
    ensures kept_own { OnErr result (user.new ≡ user.old) }
{
    let n = bytes.len() as u64;
    if at > LARGEST_FILE - n {
        return Ok(CallReply::Refused(Errno::EFBIG));
    }
    let old = content(&shared.tree, node).len();
    let after = length_after(old, at as usize, bytes.len());
    if !has_space(shared, old as u64, after as u64) {
        return Ok(CallReply::Refused(Errno::ENOSPC));
    }
    shared.tree.nodes.overwrite(node, at as usize, bytes)?;
    shared.fds.move_to(slot.description, at + n);
    Ok(CallReply::Returned(n))
}

/// Where a write begins.
fn start(shared: &Shared, description: Description, node: u32) -> u64
    ensures { result ≡ start_of shared.now description node }
{
    if description.appends {
        content(&shared.tree, node).len() as u64
    } else {
        description.offset
    }
}

fn write_file(
    shared: &mut Shared,
    user: &mut UserState,
    slot: Slot,
    description: Description,
    node: u32,
    bytes: &[u8],
) -> Result<CallReply, AllocError>
    requires { length bytes.now ≤ most_moved }
    ensures answer { IfOk result (λ r. answer_of r shared.new user.new
        ≡ writes_file shared.old user.old slot description node bytes.now) }
    ensures kept { IfOk result (λ r. Kept r shared.old user.old shared.new user.new) }
    ensures same { OnErr result (shared.new ≡ shared.old) }
    ensures kept_own { OnErr result (user.new ≡ user.old) }
{
    if bytes.len() == 0 {
        return Ok(CallReply::Returned(0));
    }
    let at = start(shared, description, node);
    write_at(shared, user, slot, node, at, bytes)
}

fn write_object(
    alloc: Global,
    shared: &mut Shared,
    pid: u32,
    user: &mut UserState,
    slot: Slot,
    description: Description,
    bytes: &[u8],
) -> Result<CallReply, AllocError>
    requires { length bytes.now ≤ most_moved }
    ensures answer { IfOk result (λ r. answer_of r shared.new user.new
        ≡ writes_object shared.old pid user.old slot description bytes.now description.object) }
    ensures kept { IfOk result (λ r. Kept r shared.old user.old shared.new user.new) }
    ensures same { OnErr result (shared.new ≡ shared.old) }
    ensures kept_own { OnErr result (user.new ≡ user.old) }
{
    match description.object {
        Object::Console => write_console(shared, user, bytes),
        Object::Input | Object::ReadEnd(_) => Ok(CallReply::Refused(Errno::EBADF)),
        Object::WriteEnd(pipe) => write_pipe(alloc, shared, pid, user, pipe, bytes),
        Object::Opened(node) => write_file(shared, user, slot, description, node, bytes),
    }
}

/// write(2), of at most 65,536 bytes: all or none. Refused with EBADF, EFAULT, EFBIG or ENOSPC. Without readers a
/// pipe gives SIGPIPE and EPIPE. Blocks where a pipe with readers has no room for all.
#[tactic(auto, unfolding(crate::specs::Write::write))]
pub fn write(
    alloc: Global,
    shared: &mut Shared,
    pid: u32,
    call: &Call,
    user: &mut UserState,
) -> Result<CallReply, AllocError>
    ensures answer { IfOk result (λ r. answer_of r shared.new user.new ≡ meaning shared.old pid call.now user.old) }
    ensures kept { IfOk result (λ r. Kept r shared.old user.old shared.new user.new) }
    ensures same { OnErr result (shared.new ≡ shared.old) }
    ensures kept_own { OnErr result (user.new ≡ user.old) }
{
    let Some(slot) = shared.fds.slot(pid, low_argument(call, 0)) else {
        return Ok(CallReply::Refused(Errno::EBADF));
    };
    let Some(description) = shared.fds.description(slot.description) else {
        return Ok(CallReply::Refused(Errno::EBADF));
    };
    if !description.may_write {
        return Ok(CallReply::Refused(Errno::EBADF));
    }
    let count = call.arguments[2].min(MOST_MOVED) as usize;
    match user.memory.read(call.arguments[1], count) {
        Ok(bytes) => write_object(
            alloc,
            shared,
            pid,
            user,
            slot,
            description,
            bytes.as_slice(),
        ),
        Err(MemFault::Memory) => Err(AllocError),
        Err(_) => Ok(CallReply::Refused(Errno::EFAULT)),
    }
}
