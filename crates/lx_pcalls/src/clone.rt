//! clone of a whole process (clone(2), fork(2)).

ghost use Rattle.std.specs.Prelude.{◌≡◌, IfOk, OnErr, None};
ghost use Rattle.std.specs.FinMap as maps;
ghost use Rattle.lx_model.specs.Machine.{Bears};
ghost use Rattle.lx_proc.specs.Answers.{answer_of, Kept};
ghost use Rattle.lx_pcalls.specs.Clone.{clone as meaning, with_child, child_entry, child_user};
ghost use Rattle.lx_pcalls.specs.Clone.{child_hart as hart_of_child};
ghost use Rattle.lx_pcalls.specs.Clone.{has_room as has_room_for};

use containers::Bytes;
use lx_abi::{Call, Errno};
use lx_proc::{CallReply, Entry, Life, Shared, UserState};
use lx_sig::for_child;
use rv_hart::Hart;
use std::alloc::{AllocError, Global};

/// SIGCHLD.
const FORK_FLAGS: u64 = 17;

/// One process more is within the limits.
fn has_room(shared: &Shared, child: u32) -> bool
    ensures { result ≡ has_room_for shared.now child }
{
    let limits = shared.limits;
    shared.entries.len() < usize::from(limits.live) && child <= u32::from(limits.last_pid)
}

fn entry_for_child(alloc: Global, entry: &Entry, parent: u32) -> Result<Entry, AllocError>
    ensures { IfOk result (λ e. e ≡ child_entry entry.now parent) }
{
    Ok(Entry {
        life: Life::Alive,
        news: None,
        parent,
        directory: Bytes::from_slice(alloc, entry.directory.as_slice())?,
        signals: for_child(&entry.signals),
    })
}

fn child_hart(hart: &Hart, stack: u64) -> Hart
    ensures { result ≡ hart_of_child hart.now stack }
{
    let mut registers = hart.registers;
    registers[10] = 0;
    if stack != 0 {
        registers[2] = stack;
    }
    Hart {
        pc: hart.pc.wrapping_add(4),
        registers,
    }
}

/// A child's body is made, its entry and descriptors stand in the table, and its body is handed out.
fn bear(
    alloc: Global,
    shared: &mut Shared,
    child: u32,
    pid: u32,
    stack: u64,
    user: &UserState,
    entry: Entry,
) -> Result<CallReply, AllocError>
    ensures answer { IfOk result (λ r. answer_of r shared.new user.now
        ≡ Bears (with_child shared.old child pid entry) user.now (child_user user.now stack)) }
    ensures kept { IfOk result (λ r. Kept r shared.old user.now shared.new user.now) }
    ensures same { maps.get shared.old.entries child ≡ None → OnErr result (shared.new ≡ shared.old) }
    ensures console { OnErr result (shared.new.console ≡ shared.old.console) }
{
    let newborn = UserState {
        hart: child_hart(&user.hart, stack),
        memory: user.memory.fork()?,
        heap: user.heap,
        interrupted: user.interrupted,
    };
    let newborn = Box::new(alloc, newborn)?;
    shared.entries.insert(child, entry)?;
    match shared.fds.inherit(pid, child) {
        Ok(()) => Ok(CallReply::Bore(newborn)),
        Err(error) => {
            shared.entries.remove(child);
            Err(error)
        }
    }
}

/// clone(flags, stack), of a child with this pid. EINVAL for other flags than SIGCHLD; EAGAIN where the table is full,
/// or there is no such pid. Where memory is refused and no process had the pid, nothing is changed.
#[inline(never)]
#[tactic(auto, unfolding(crate::specs::Clone::clone))]
pub fn clone(
    alloc: Global,
    shared: &mut Shared,
    child: u32,
    pid: u32,
    call: &Call,
    user: &UserState,
) -> Result<CallReply, AllocError>
    ensures answer { IfOk result
        (λ r. answer_of r shared.new user.now ≡ meaning shared.old child pid call.now user.now) }
    ensures kept { IfOk result (λ r. Kept r shared.old user.now shared.new user.now) }
    ensures same { maps.get shared.old.entries child ≡ None → OnErr result (shared.new ≡ shared.old) }
    ensures console { OnErr result (shared.new.console ≡ shared.old.console) }
{
    if call.arguments[0] != FORK_FLAGS {
        return Ok(CallReply::Refused(Errno::EINVAL));
    }
    let Some(parent) = shared.entries.get(pid) else {
        return Ok(CallReply::Refused(Errno::ESRCH));
    };
    if !has_room(shared, child) {
        return Ok(CallReply::Refused(Errno::EAGAIN));
    }
    let entry = entry_for_child(alloc, parent, pid)?;
    bear(alloc, shared, child, pid, call.arguments[1], user, entry)
}
