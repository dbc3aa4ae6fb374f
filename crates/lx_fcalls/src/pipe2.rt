//! pipe2(fds, flags)

ghost use Rattle.std.specs.Prelude.{◌≡◌, ◌<◌, ◌++◌, ◌==◌, [], Bool, false, IfOk, OnOk, OnErr};
ghost use Rattle.std.specs.Int.{w32, to_le_bytes};
ghost use Rattle.containers.specs.Vacant.{vacant};
ghost use Rattle.lx_abi.specs.Limits.{most_fds};
ghost use Rattle.lx_open.specs.Opens.{with_pipe, IsFree};
ghost use Rattle.lx_open.specs.declared.fd_table.FdTable.{FdTable};
ghost use Rattle.lx_proc.specs.Answers.{answer_of, Kept};
ghost use Rattle.lx_fcalls.specs.Pipe2.{pipe2 as meaning, pipes, end_of, both_ends};

use crate::flags::{O_CLOEXEC, has};
use crate::giving::give;
use containers::Bytes;
use lx_abi::{Call, Errno};
use lx_open::{Description, FdTable, Object};
use lx_proc::{CallReply, Shared, UserState};
use std::alloc::{AllocError, Global};

/// Two descriptors as a guest has them in its memory.
fn two(alloc: Global, first: u32, second: u32) -> Result<Bytes, AllocError>
    ensures { IfOk result (λ b. b ≡ to_le_bytes w32 first ++ to_le_bytes w32 second) }
{
    let mut bytes = Bytes::from_slice(alloc, &first.to_le_bytes())?;
    bytes.extend(&second.to_le_bytes())?;
    Ok(bytes)
}

fn end(object: Object, reads: bool) -> Description
    ensures { result ≡ end_of object reads }
{
    Description {
        object,
        offset: 0,
        may_read: reads,
        may_write: !reads,
        appends: false,
    }
}

/// A descriptor for each end of a pipe.
fn open_ends(
    fds: &mut FdTable,
    pid: u32,
    pipe: u32,
    first: u32,
    second: u32,
    closes: bool,
) -> Result<(), AllocError>
    requires first { first < most_fds }
    requires second { second < most_fds }
    requires free { IsFree fds.old pid first }
    ensures ok { OnOk result (fds.new ≡ both_ends fds.old pid pipe first second closes) }
    ensures err { OnErr result (fds.new ≡ fds.old) }
{
    fds.open(pid, first, end(Object::ReadEnd(pipe), true), closes)?;
    match fds.open(pid, second, end(Object::WriteEnd(pipe), false), closes) {
        Ok(()) => Ok(()),
        Err(error) => {
            fds.take_back(pid, first);
            Err(error)
        }
    }
}

/// A new pipe, and a descriptor for each of its ends.
fn open_pipe(
    alloc: Global,
    fds: &mut FdTable,
    pid: u32,
    pipe: u32,
    first: u32,
    second: u32,
    closes: bool,
) -> Result<(), AllocError>
    requires new { pipe ≡ vacant fds.old.pipes }
    requires first { first < most_fds }
    requires second { second < most_fds }
    requires free { IsFree fds.old pid first }
    ensures ok { OnOk result (fds.new ≡ both_ends (with_pipe fds.old pipe []) pid pipe first second closes) }
    ensures err { OnErr result (fds.new ≡ fds.old) }
{
    fds.add_pipe(alloc, pipe)?;
    match open_ends(fds, pid, pipe, first, second, closes) {
        Ok(()) => Ok(()),
        Err(error) => {
            fds.take_pipe_back(pipe);
            Err(error)
        }
    }
}

/// What `open_pipe` did is undone.
fn take_pipe_back(fds: &mut FdTable, pid: u32, pipe: u32, first: u32, second: u32)
    requires first { first < most_fds }
    requires second { second < most_fds }
    ensures { (was : FdTable) (closes : Bool) → pipe ≡ vacant was.pipes → IsFree was pid first → IsFree was pid second
        → (second == first) ≡ false → fds.old ≡ both_ends (with_pipe was pipe []) pid pipe first second closes
        → fds.new ≡ was }
{
    fds.take_back(pid, second);
    fds.take_back(pid, first);
    fds.take_pipe_back(pipe);
}

/// The pipe comes before its descriptors are told, since it can be taken back without memory.
fn make_pipe(
    alloc: Global,
    shared: &mut Shared,
    pid: u32,
    user: &mut UserState,
    at: u64,
    closes: bool,
    pipe: u32,
) -> Result<CallReply, AllocError>
    requires { pipe ≡ vacant shared.old.fds.pipes }
    ensures answer { IfOk result (λ r. answer_of r shared.new user.new
        ≡ pipes shared.old pid user.old at closes pipe) }
    ensures kept { IfOk result (λ r. Kept r shared.old user.old shared.new user.new) }
    ensures same { OnErr result (shared.new ≡ shared.old) }
    ensures kept_own { OnErr result (user.new ≡ user.old) }
{
    let Some(first) = shared.fds.free(pid) else {
        return Ok(CallReply::Refused(Errno::EMFILE));
    };
    let Some(second) = shared.fds.free_after(pid, first) else {
        return Ok(CallReply::Refused(Errno::EMFILE));
    };
    let numbers = two(alloc, first, second)?;
    open_pipe(alloc, &mut shared.fds, pid, pipe, first, second, closes)?;
    match give(&mut user.memory, at, numbers.as_slice()) {
        Ok(true) => Ok(CallReply::Returned(0)),
        Ok(false) => {
            take_pipe_back(&mut shared.fds, pid, pipe, first, second);
            Ok(CallReply::Refused(Errno::EFAULT))
        }
        Err(error) => {
            take_pipe_back(&mut shared.fds, pid, pipe, first, second);
            Err(error)
        }
    }
}

/// pipe2(2). Refused with EINVAL for other flags, EMFILE or EFAULT.
#[tactic(auto, unfolding(crate::specs::Pipe2::pipe2))]
pub fn pipe2(
    alloc: Global,
    shared: &mut Shared,
    pid: u32,
    call: &Call,
    user: &mut UserState,
) -> Result<CallReply, AllocError>
    ensures answer { IfOk result (λ r. answer_of r shared.new user.new ≡ meaning shared.old pid call.now user.old) }
    ensures kept { IfOk result (λ r. Kept r shared.old user.old shared.new user.new) }
    ensures same { OnErr result (shared.new ≡ shared.old) }
    ensures kept_own { OnErr result (user.new ≡ user.old) }
{
    let flags = call.arguments[1];
    if flags & O_CLOEXEC != flags {
        return Ok(CallReply::Refused(Errno::EINVAL));
    }
    let pipe = shared.fds.vacant_pipe()?;
    make_pipe(
        alloc,
        shared,
        pid,
        user,
        call.arguments[0],
        has(flags, O_CLOEXEC),
        pipe,
    )
}
