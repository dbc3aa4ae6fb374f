//! Whom the turn of a process wakes: nobody, by a look at where the process stands before the turn and after it.

ghost use Rattle.std.specs.Prelude.{◌≡◌, IfOk, OnErr, IsOkAnd, IsTrue, None, is_none};
ghost use Rattle.std.specs.FinMap as maps;
ghost use Rattle.lx_model.specs.declared.event.PtraceEvent.TheVariants.{Plain};
ghost use Rattle.lx_model.specs.declared.stage.Task.TheVariants.{Gone};
ghost use Rattle.lx_model.specs.Turn.{turn};
ghost use Rattle.lx_turn.specs.Injection.{choice_of_task};
ghost use Rattle.lx_turn.specs.Linux.{linux};
ghost use Rattle.lx_turn.specs.Modes.{task_mode as task_mode_of};
ghost use Rattle.lx_turn.specs.Turned.{turned, unboxed, is_gone};
ghost use Rattle.lx_kernel.specs.Waking.{is_calm_number as is_calm_number_of, is_few_number, is_few_task, few_after};
ghost use Rattle.lx_kernel.specs.Waking.{LeavesStopped, WakesFew};
ghost use Rattle.lx_kernel.specs.Waking.{told_by, told_in, aimed_at, told_by_call, told_by_signal};
ghost use Rattle.lx_kernel.specs.Waking.{told_at as told_at_of};
ghost use Rattle.lx_sig.specs.Kill.{aim as aim_of};

use crate::pipes::{changed_in, is_narrow};
use crate::run_queue::{Hints, Wakes};
use lx_abi::{Call, Item, Signal, calls, sys};
use lx_model::{Stage, Task};
use lx_proc::{Shared, UserState};
use lx_sig::{aim_of_kill, is_stop};
use lx_turn::{Injection, Transition, turn_task};
use std::alloc::{AllocError, Global};

/// No process has the pid.
fn is_free(shared: &Shared, pid: u32) -> bool
    ensures { result ≡ is_none (maps.get shared.now.entries pid) }
{
    shared.entries.get(pid).is_none()
}

/// A call that leaves the descriptors, the signals and the children of each other process as they are, but for one that
/// is told and, under the next child's pid, the child.
fn leaves_others(shared: &Shared, child: u32, number: u64) -> bool
    ensures { result ≡ is_calm_number_of shared.now child number }
{
    calls::is_calm(number)
        || number == sys::SYS_KILL
        || (number == sys::SYS_CLONE && is_free(shared, child))
}

/// A call that wakes none but one that is told and those who read or write the pipe that it changes.
fn wakes_few(shared: &Shared, child: u32, number: u64) -> bool
    ensures { result ≡ is_few_number shared.now child number }
{
    is_narrow(number) || leaves_others(shared, child, number)
}

/// So does a turn from where the process stands, where it lives on.
fn is_few(shared: &Shared, child: u32, task: &Task<UserState>) -> bool
    ensures { result ≡ is_few_task shared.now child task.now }
{
    match task {
        Task::Alive {
            stage: Stage::Doing { call },
            ..
        } => wakes_few(shared, child, call.number),
        _ => true,
    }
}

/// A process's parent.
fn parent_of(shared: &Shared, pid: u32) -> u32
    ensures { result ≡ told_by pid (maps.get shared.now.entries pid) }
{
    match shared.entries.get(pid) {
        None => pid,
        Some(entry) => entry.parent,
    }
}

/// Whom a kill is sent to.
fn target_of(pid: u32, call: &Call) -> u32
    ensures { result ≡ aimed_at pid (aim_of call.now) }
{
    match aim_of_kill(call) {
        None => pid,
        Some(aim) => aim.pid,
    }
}

/// Whom a call tells.
fn told_by_call(pid: u32, call: &Call) -> u32
    ensures { result ≡ told_by_call pid call.now }
{
    if call.number == sys::SYS_KILL {
        target_of(pid, call)
    } else {
        pid
    }
}

/// Whom a signal tells that the process takes.
fn told_by_signal(shared: &Shared, pid: u32, signal: Signal) -> u32
    ensures { result ≡ told_by_signal shared.now pid signal.number }
{
    if is_stop(signal.number) {
        parent_of(shared, pid)
    } else {
        pid
    }
}

/// Whom a turn of the living process tells.
fn told_at(shared: &Shared, pid: u32, stage: Stage) -> u32
    ensures { result ≡ told_at_of shared.now pid stage }
{
    match stage {
        Stage::Doing { call } => told_by_call(pid, &call),
        Stage::Taken { signal, .. } => told_by_signal(shared, pid, signal),
        Stage::Stopped { .. } => parent_of(shared, pid),
        _ => pid,
    }
}

/// Whom a turn of the process tells.
fn told_of(shared: &Shared, pid: u32, task: &Task<UserState>) -> u32
    ensures { result ≡ told_in shared.now pid task.now }
{
    match task {
        Task::Alive { stage, .. } => told_at(shared, pid, *stage),
        Task::Dying { .. } => parent_of(shared, pid),
        Task::Gone => pid,
    }
}

/// So did a turn that left its process so.
fn woke_few(task: &Task<UserState>, few: bool, ends_kept: bool) -> bool
    ensures { result ≡ few_after task.now few ends_kept }
{
    match task {
        Task::Alive { .. } => few,
        Task::Dying { .. } => ends_kept,
        Task::Gone => true,
    }
}

/// The process is in a call that may wait, a read, a write or a wait4, or it is stopped.
fn may_wait(task: &Task<UserState>) -> bool {
    match task {
        Task::Alive {
            stage: Stage::Doing { call },
            ..
        } => calls::may_wait(call.number),
        Task::Alive {
            stage: Stage::Stopped { .. },
            ..
        } => true,
        _ => false,
    }
}

/// One turn of a process with a part of its own, what it logs, and whom it wakes.
pub fn take_turn(
    alloc: Global,
    shared: &mut Shared,
    injection: &Injection,
    child: u32,
    pid: u32,
    task: &mut Task<UserState>,
    item: &mut Option<Item>,
) -> Result<(Transition, Wakes), AllocError>
    requires { item.old ≡ None }
    ensures turned { IfOk result (λ t. turned (turn linux
        (choice_of_task injection.now pid task.old) shared.old child pid task.old) ≡
        record { shared = shared.new; task = task.new; item = item.new; event = unboxed t.0.done }) }
    ensures before { IfOk result (λ t. t.0.before ≡ task_mode_of (maps.get shared.old.entries pid) task.old) }
    ensures after { IfOk result (λ t. t.0.after ≡ task_mode_of (maps.get shared.new.entries pid) task.new) }
    ensures gone { IfOk result (λ t. t.0.gone ≡ is_gone task.new) }
    ensures few { IfOk result (λ t. IsTrue t.1.few
        → WakesFew shared.old shared.new child pid t.1.told t.1.changed (unboxed t.0.done)) }
    ensures stopped { IfOk result (λ t. LeavesStopped shared.old shared.new child pid t.1.told (unboxed t.0.done)) }
    ensures absent { task.old ≡ Gone → IsOkAnd result (λ t. (item.new ≡ None) × (unboxed t.0.done ≡ Plain)) }
    ensures console { OnErr result (shared.new.console ≡ shared.old.console) }
{
    let few = is_few(shared, child, task);
    let changed = changed_in(shared, pid, task);
    let told = told_of(shared, pid, task);
    let transition = turn_task(alloc, shared, injection, child, pid, task, item)?;
    let wakes = Wakes {
        few: woke_few(task, few, transition.ends_kept),
        changed,
        told,
        hints: Hints {
            may_wait: may_wait(task),
            gone: transition.gone,
        },
    };
    Ok((transition, wakes))
}
