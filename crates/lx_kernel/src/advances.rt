//! Turns of one process in a row that are made in place, on its own part: from the end of a call to the next call, from
//! there to its end, where the call asks for nothing else, and those that only change where the process stands.

ghost use Rattle.std.specs.Prelude.{◌≡◌, ◌≤◌, ◌<◌, ℕ, suc, None, false, IfOk, OnOk, OnErr, IsOkAnd, IsTrue};
ghost use Rattle.std.specs.FinMap as maps;
ghost use Rattle.lx_model.specs.Finite.{at};
ghost use Rattle.lx_model.specs.declared.stage.Stage.TheVariants as stages;
ghost use Rattle.lx_model.specs.declared.stage.Task.TheVariants.{Alive, Gone};
ghost use Rattle.lx_turn.specs.Modes.{task_mode as task_mode_of};
ghost use Rattle.lx_turn.specs.Reactions.{next_of, is_killed as is_killed_at};
ghost use Rattle.lx_model.specs.declared.event.PtraceEvent.TheVariants.{Plain};
ghost use Rattle.lx_kernel.specs.Advances.{Leads, PartLeads, RunLeads, Fits, IsDone, own_result, is_own as is_own_number};
ghost use Rattle.lx_kernel.specs.Advances.{IsGoneThrough, IsEntered};
ghost use Rattle.lx_kernel.specs.Advances.{with_log, with_tasks};
ghost use Rattle.lx_kernel.specs.Runs.{Run as KernelRun};
ghost use Rattle.lx_kernel.specs.Sleeping.{IsKept};

use crate::instructions::{is_undisturbed, run_user};
use crate::kernel::Advanced;
use lx_abi::{Call, Item, Mode, calls, sys};
use lx_model::{PtraceEvent, Stage, Task};
use lx_pcalls::process_call;
use lx_proc::{CallReply, Shared, UserState, call, return_from_call};
use lx_turn::{Injection, mode_of_gone};
use rv_hart::Step;
use shelves::Shelf;
use std::alloc::{AllocError, Global};

/// A call that asks only for its process's own part, or tells a number: others see nothing of it.
fn is_own(number: u64) -> bool
    ensures { result ≡ is_own_number number }
{
    number == sys::SYS_SCHED_YIELD
        || number == sys::SYS_GETPID
        || number == sys::SYS_GETPPID
        || number == sys::SYS_GETTID
        || number == sys::SYS_BRK
        || number == sys::SYS_MUNMAP
        || number == sys::SYS_MMAP
}

/// What such a call leaves in a0; it answers in no third way.
fn result_of(reply: &Option<CallReply>) -> u64
    ensures { result ≡ own_result reply.now }
{
    match reply {
        Some(CallReply::Refused(error)) => error.word(),
        Some(CallReply::Returned(result)) => *result,
        _ => 0,
    }
}

/// Such a call is done, and its result stands in its place.
fn do_own(
    alloc: Global,
    shared: &mut Shared,
    child: u32,
    pid: u32,
    call: &Call,
    user: &mut UserState,
) -> Result<u64, AllocError>
    requires { IsTrue (is_own_number call.now.number) }
    ensures done { IfOk result (λ x. IsDone shared.old child pid call.now user.old user.new x) }
    ensures same { OnOk result (shared.new ≡ shared.old) }
    ensures console { OnErr result (shared.new.console ≡ shared.old.console) }
{
    let reply = process_call(alloc, shared, child, pid, call, user)?;
    let result = result_of(&reply);
    return_from_call(user, result);
    Ok(result)
}

/// Such a call from where it was entered to its end.
fn go_through_call(
    alloc: Global,
    shared: &mut Shared,
    child: u32,
    pid: u32,
    call: Call,
    user: &mut UserState,
    stage: &mut Stage,
    item: &mut Option<Item>,
) -> Result<(), AllocError>
    requires { IsTrue (is_own_number call.number) }
    ensures done { OnOk result (IsGoneThrough shared.old child pid call user.old user.new stage.new item.new) }
    ensures same { OnOk result (shared.new ≡ shared.old) }
    ensures console { OnErr result (shared.new.console ≡ shared.old.console) }
{
    let result = do_own(alloc, shared, child, pid, &call, user)?;
    *stage = Stage::Finished;
    *item = Some(Item::Done {
        pid,
        call,
        result,
        replaced: false,
    });
    Ok(())
}

/// The turn that enters a call. One that may wait isn't entered so: whoever waits is put to sleep.
fn enter(call: Call, stage: &mut Stage) -> u64
    ensures entered { IsEntered call result stage.old stage.new }
    ensures within { result ≤ 1 }
{
    if calls::may_wait(call.number) {
        return 0;
    }
    *stage = Stage::Doing { call };
    1
}

/// Turns from where a call was entered that its script leaves alone: three to its end, where it asks only for its
/// process's own part, and else the one that enters it.
fn go_into_call(
    alloc: Global,
    shared: &mut Shared,
    injection: &Injection,
    child: u32,
    pid: u32,
    limit: u64,
    user: &mut UserState,
    stage: &mut Stage,
    item: &mut Option<Item>,
) -> Result<u64, AllocError>
    requires some { 0 < limit }
    requires entered { stage.old ≡ stages.Entered None }
    requires nothing { item.old ≡ None }
    requires alive { is_killed_at (maps.get shared.old.entries pid) ≡ false }
    ensures leads { IfOk result (λ n. PartLeads injection.now shared.old child pid n (Alive user.old stage.old) item.new
        (Alive user.new stage.new)) }
    ensures within { IfOk result (λ n. n ≤ limit) }
    ensures same { OnOk result (shared.new ≡ shared.old) }
    ensures console { OnErr result (shared.new.console ≡ shared.old.console) }
{
    let call = call(user);
    let choice = injection.choice(pid, call.number);
    if choice.result.is_some() || choice.signal.is_some() {
        return Ok(0);
    }
    if limit < 3 || !is_own(call.number) {
        return Ok(enter(call, stage));
    }
    go_through_call(alloc, shared, child, pid, call, user, stage, item)?;
    Ok(3)
}

/// Turns of a process that runs instructions, to its next call if that comes in time: how many there were.
fn run_to_call(
    pid: u32,
    limit: u64,
    user: &mut UserState,
    stage: &mut Stage,
    item: &mut Option<Item>,
) -> Result<u64, AllocError>
    requires in_run { stage.old ≡ stages.Run }
    requires nothing { item.old ≡ None }
    ensures leads { IfOk result (λ n. RunLeads pid n user.old item.new (Alive user.new stage.new)) }
    ensures within { IfOk result (λ n. n ≤ limit) }
{
    let progress = run_user(user, limit)?;
    match progress.step {
        Step::Call if progress.ran < limit => {
            let call = call(user);
            *stage = Stage::Entered { joined: None };
            *item = Some(Item::Enter { pid, call });
            Ok(progress.ran + 1)
        }
        _ => Ok(progress.ran),
    }
}

/// Turns of a process that goes on into Run, and then runs instructions: how many there were.
fn go_to_call(
    pid: u32,
    limit: u64,
    user: &mut UserState,
    stage: &mut Stage,
    item: &mut Option<Item>,
) -> Result<u64, AllocError>
    requires some { 0 < limit }
    requires nothing { item.old ≡ None }
    ensures leads { IfOk result (λ n. (m : ℕ) × (n ≡ suc m)
        × RunLeads pid m user.old item.new (Alive user.new stage.new)) }
    ensures within { IfOk result (λ n. n ≤ limit) }
{
    *stage = Stage::Run;
    let ran = run_to_call(pid, limit - 1, user, stage, item)?;
    Ok(ran + 1)
}

/// Turns of a living process that no signal disturbs: how many there were.
fn go_on(
    alloc: Global,
    shared: &mut Shared,
    injection: &Injection,
    child: u32,
    pid: u32,
    limit: u64,
    user: &mut UserState,
    stage: &mut Stage,
    item: &mut Option<Item>,
) -> Result<u64, AllocError>
    requires nothing { item.old ≡ None }
    requires alive { is_killed_at (maps.get shared.old.entries pid) ≡ false }
    requires calm { next_of (maps.get shared.old.entries pid) ≡ None }
    ensures leads { IfOk result (λ n. PartLeads injection.now shared.old child pid n (Alive user.old stage.old) item.new
        (Alive user.new stage.new)) }
    ensures within { IfOk result (λ n. n ≤ limit) }
    ensures same { OnOk result (shared.new ≡ shared.old) }
    ensures kept { OnOk result (IsKept shared.old pid (Alive user.old stage.old) (Alive user.new stage.new)) }
    ensures console { OnErr result (shared.new.console ≡ shared.old.console) }
{
    match *stage {
        Stage::Run => {
            let ran = run_to_call(pid, limit, user, stage, item)?;
            Ok(ran)
        }
        Stage::Born | Stage::Finished | Stage::Woken if limit > 0 => {
            let ran = go_to_call(pid, limit, user, stage, item)?;
            Ok(ran)
        }
        Stage::Entered { joined: None } if limit > 0 => {
            let ran = go_into_call(
                alloc, shared, injection, child, pid, limit, user, stage, item,
            )?;
            Ok(ran)
        }
        Stage::Acted {
            call,
            result,
            replaced,
        } if limit > 0 => {
            *stage = Stage::Finished;
            *item = Some(Item::Done {
                pid,
                call,
                result,
                replaced,
            });
            Ok(1)
        }
        _ => Ok(0),
    }
}

/// Turns of a living process: none where a signal comes first.
fn advance_alive(
    alloc: Global,
    shared: &mut Shared,
    injection: &Injection,
    child: u32,
    pid: u32,
    limit: u64,
    user: &mut UserState,
    stage: &mut Stage,
    item: &mut Option<Item>,
) -> Result<u64, AllocError>
    requires { item.old ≡ None }
    ensures leads { IfOk result (λ n. PartLeads injection.now shared.old child pid n (Alive user.old stage.old) item.new
        (Alive user.new stage.new)) }
    ensures within { IfOk result (λ n. n ≤ limit) }
    ensures same { OnOk result (shared.new ≡ shared.old) }
    ensures kept { OnOk result (IsKept shared.old pid (Alive user.old stage.old) (Alive user.new stage.new)) }
    ensures console { OnErr result (shared.new.console ≡ shared.old.console) }
{
    if !is_undisturbed(shared, pid) {
        return Ok(0);
    }
    let turns = go_on(
        alloc, shared, injection, child, pid, limit, user, stage, item,
    )?;
    Ok(turns)
}

/// No turn of a process that stands so.
fn none(mode: Option<Mode>) -> Advanced
    ensures turns { result.turns ≡ 0 }
    ensures before { result.before ≡ mode }
    ensures after { result.after ≡ mode }
    ensures event { result.event ≡ Plain }
{
    Advanced {
        turns: 0,
        before: mode,
        after: mode,
        event: PtraceEvent::Plain,
    }
}

/// Turns of a process with a part of its own.
fn advance_task(
    alloc: Global,
    shared: &mut Shared,
    injection: &Injection,
    child: u32,
    pid: u32,
    limit: u64,
    task: &mut Task<UserState>,
    item: &mut Option<Item>,
) -> Result<Advanced, AllocError>
    requires { item.old ≡ None }
    ensures leads { IfOk result (λ a. PartLeads injection.now shared.old child pid a.turns task.old item.new task.new) }
    ensures within { IfOk result (λ a. a.turns ≤ limit) }
    ensures before { IfOk result (λ a. a.before ≡ task_mode_of (maps.get shared.old.entries pid) task.old) }
    ensures after { IfOk result (λ a. a.after ≡ task_mode_of (maps.get shared.new.entries pid) task.new) }
    ensures event { IfOk result (λ a. a.event ≡ Plain) }
    ensures same { OnOk result (shared.new ≡ shared.old) }
    ensures kept { OnOk result (IsKept shared.old pid task.old task.new) }
    ensures console { OnErr result (shared.new.console ≡ shared.old.console) }
    ensures absent { task.old ≡ Gone → IsOkAnd result (λ _. item.new ≡ None) }
{
    match task {
        Task::Alive { user, stage } => {
            let before = Some(stage.mode());
            let turns = advance_alive(
                alloc, shared, injection, child, pid, limit, user, stage, item,
            )?;
            Ok(Advanced {
                turns,
                before,
                after: Some(stage.mode()),
                event: PtraceEvent::Plain,
            })
        }
        Task::Dying { .. } => Ok(none(Some(Mode::Dying))),
        Task::Gone => Ok(none(mode_of_gone(shared, pid))),
    }
}

/// Turns of a process that are made in place, at most so many.
pub fn advance_at(
    alloc: Global,
    shared: &mut Shared,
    tasks: &mut Shelf<Task<UserState>>,
    injection: &Injection,
    child: u32,
    pid: u32,
    limit: u64,
    item: &mut Option<Item>,
) -> Result<Advanced, AllocError>
    requires { item.old ≡ None }
    ensures leads { IfOk result (λ a. (k : KernelRun) → Fits k injection.now shared.old child pid
        → k.running.tasks ≡ tasks.old
        → Leads k pid a.turns item.new Plain (with_log (with_tasks k tasks.new) item.new)) }
    ensures within { IfOk result (λ a. a.turns ≤ limit) }
    ensures before { IfOk result (λ a. a.before
        ≡ task_mode_of (maps.get shared.old.entries pid) (at Gone tasks.old pid)) }
    ensures after { IfOk result (λ a. a.after
        ≡ task_mode_of (maps.get shared.new.entries pid) (at Gone tasks.new pid)) }
    ensures event { IfOk result (λ a. a.event ≡ Plain) }
    ensures same { OnOk result (shared.new ≡ shared.old) }
    ensures kept { OnOk result ((q : ℕ) → IsKept shared.old q (at Gone tasks.old q) (at Gone tasks.new q)) }
    ensures console { OnErr result (shared.new.console ≡ shared.old.console) }
    ensures absent { at Gone tasks.old pid ≡ Gone → IsOkAnd result (λ _. item.new ≡ None) }
{
    match tasks.get_mut(pid) {
        None => Ok(none(mode_of_gone(shared, pid))),
        Some(task) => {
            let advanced = advance_task(alloc, shared, injection, child, pid, limit, task, item)?;
            Ok(advanced)
        }
    }
}
