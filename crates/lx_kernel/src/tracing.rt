//! One process as a tracer reaches it: its registers, its memory, and the signal of a call or of a stop.

ghost use Rattle.std.specs.Prelude.{◌≡◌, IfOk, IsTrue, Some, is_some, option_map};
ghost use Rattle.lx_model.specs.Finite.{at};
ghost use Rattle.lx_model.specs.Machine.{a7_of};
ghost use Rattle.lx_model.specs.Rows.{row};
ghost use Rattle.lx_model.specs.declared.stage.Task.TheVariants.{Gone};
ghost use Rattle.lx_kernel.specs.Tracing.{regs_of, peek_of, call_of, call_at, signal_of, listens_of, with_regs, with_change};
ghost use Rattle.lx_kernel.specs.Tracing.{with_part_at, IsPart, IsChanged, changed};

use containers::Bytes;
use lx_abi::{Call, Cause, RegisterSet, Registers, Signal};
use lx_model::{Stage, Task};
use lx_proc::{UserState, call as asked, registers_of, set_registers};
use shelves::Shelf;
use std::alloc::{AllocError, Global};

/// pc and x1 to x31 of a process that lives.
pub fn regs(
    alloc: Global,
    tasks: &Shelf<Task<UserState>>,
    pid: u32,
) -> Result<Option<RegisterSet>, AllocError>
    ensures { IfOk result (λ registers. registers ≡ regs_of (at Gone tasks.now pid)) }
{
    match tasks.get(pid) {
        Some(Task::Alive { user, .. }) => {
            let registers = registers_of(alloc, user)?;
            Ok(Some(registers))
        }
        Some(Task::Dying { .. } | Task::Gone) | None => Ok(None),
    }
}

/// The number of the call that the registers of a process ask for, if it lives.
pub fn asked_call(tasks: &Shelf<Task<UserState>>, pid: u32) -> Option<u64>
    ensures { result ≡ option_map a7_of (regs_of (at Gone tasks.now pid)) }
{
    match tasks.get(pid) {
        Some(Task::Alive { user, .. }) => Some(asked(user).number),
        Some(Task::Dying { .. } | Task::Gone) | None => None,
    }
}

/// The bytes from an address on, up to the first that is not mapped.
pub fn peek(
    tasks: &Shelf<Task<UserState>>,
    pid: u32,
    address: u64,
    length: usize,
) -> Result<Option<Bytes>, AllocError>
    ensures { IfOk result (λ bytes. bytes ≡ peek_of (at Gone tasks.now pid) address length) }
{
    match tasks.get(pid) {
        Some(Task::Alive { user, .. }) => {
            let bytes = user.memory.peek(address, length)?;
            Ok(Some(Bytes::from_vec(bytes)))
        }
        Some(Task::Dying { .. } | Task::Gone) | None => Ok(None),
    }
}

/// The call that a stage is in.
fn call_at(stage: Stage) -> Option<Call>
    ensures { result ≡ call_at stage }
{
    match stage {
        Stage::Doing { call } => Some(call),
        _ => None,
    }
}

/// The call that a process is in.
pub fn call(tasks: &Shelf<Task<UserState>>, pid: u32) -> Option<Call>
    ensures { result ≡ call_of (at Gone tasks.now pid) }
{
    match tasks.get(pid) {
        Some(Task::Alive { stage, .. }) => call_at(*stage),
        Some(Task::Dying { .. } | Task::Gone) | None => None,
    }
}

/// The signal that a process has taken, and why it came.
pub fn signal(tasks: &Shelf<Task<UserState>>, pid: u32) -> Option<(Signal, Cause)>
    ensures { result ≡ signal_of (at Gone tasks.now pid) }
{
    match tasks.get(pid) {
        Some(Task::Alive { stage, .. }) => stage.info(),
        Some(Task::Dying { .. } | Task::Gone) | None => None,
    }
}

/// The process is in a group stop, where it stays by PTRACE_LISTEN.
pub fn listens(tasks: &Shelf<Task<UserState>>, pid: u32) -> bool
    ensures { result ≡ listens_of (at Gone tasks.now pid) }
{
    match tasks.get(pid) {
        Some(Task::Alive { stage, .. }) => stage.listen().is_some(),
        Some(Task::Dying { .. } | Task::Gone) | None => false,
    }
}

fn set_task_regs(task: &mut Task<UserState>, registers: &Registers) -> bool
    ensures { IsPart (with_regs registers.now task.old) task.old task.new result }
{
    match task {
        Task::Alive { user, .. } => {
            set_registers(user, registers);
            true
        }
        Task::Dying { .. } | Task::Gone => false,
    }
}

/// Sets pc and x1 to x31 of a process that lives.
pub fn set_regs(tasks: &mut Shelf<Task<UserState>>, pid: u32, registers: &Registers) -> bool
    ensures part { tasks.new ≡ with_part_at tasks.old pid (with_regs registers.now (at Gone tasks.old pid)) }
    ensures there { result ≡ is_some (with_regs registers.now (at Gone tasks.old pid)) }
{
    match tasks.get_mut(pid) {
        None => false,
        Some(task) => set_task_regs(task, registers),
    }
}

/// How a tracer changes where a process stands.
#[derive(Clone, Copy, Debug, PartialEq, Eq)]
pub enum Change {
    /// Another signal is joined to a call that was entered.
    Join { signal: Option<Signal> },
    /// A signal that was taken is dropped, or a group stop ended.
    Skip,
    /// PTRACE_SYSCALL with this signal's number, 0 for none.
    Resume { number: u32 },
}

/// The stage so changed; none where it can't be.
fn change_stage(stage: &Stage, change: Change) -> Option<Stage>
    ensures { result ≡ changed change stage.now }
{
    match (change, stage) {
        (Change::Join { signal }, Stage::Entered { .. }) => Some(Stage::Entered { joined: signal }),
        (Change::Skip, Stage::Taken { .. }) => Some(Stage::Dropped),
        (Change::Skip, Stage::Stopped { .. }) => Some(Stage::Released),
        (Change::Resume { number }, _) => stage.resume(number),
        _ => None,
    }
}

/// The stop of a call to which no signal is joined.
#[tactic(auto, unfolding(lx_abi::specs::Signals::signal_numbered))]
fn is_at_call(stage: &Stage) -> bool
    ensures { IsTrue result → (row stage.now).resume 0 ≡ Some stage.now }
{
    match stage {
        Stage::Finished => true,
        Stage::Entered { joined: None } => true,
        _ => false,
    }
}

/// The process stands already where the change sets it.
fn is_there_already(stage: &Stage, change: Change) -> bool
    ensures { IsTrue result → changed change stage.now ≡ Some stage.now }
{
    match change {
        Change::Resume { number: 0 } => is_at_call(stage),
        Change::Resume { .. } | Change::Join { .. } | Change::Skip => false,
    }
}

fn change_live(stage: &mut Stage, change: Change) -> bool
    ensures { IsChanged (changed change stage.old) stage.old stage.new result }
{
    if is_there_already(stage, change) {
        return true;
    }
    match change_stage(stage, change) {
        None => false,
        Some(changed) => {
            *stage = changed;
            true
        }
    }
}

fn change_task(task: &mut Task<UserState>, change: Change) -> bool
    ensures { IsPart (with_change change task.old) task.old task.new result }
{
    match task {
        Task::Alive { stage, .. } => change_live(stage, change),
        Task::Dying { .. } | Task::Gone => false,
    }
}

/// Changes where a process stands that lives: false, and nothing is changed, where it can't be so.
pub fn set_stage(tasks: &mut Shelf<Task<UserState>>, pid: u32, change: Change) -> bool
    ensures part { tasks.new ≡ with_part_at tasks.old pid (with_change change (at Gone tasks.old pid)) }
    ensures there { result ≡ is_some (with_change change (at Gone tasks.old pid)) }
{
    match tasks.get_mut(pid) {
        None => false,
        Some(task) => change_task(task, change),
    }
}
