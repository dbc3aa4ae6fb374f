//! One turn of one process, with a part of its own or without.

ghost use Rattle.std.specs.Prelude.{◌≡◌, IfOk, OnErr, IsOkAnd, IsTrue, None, false, true};
ghost use Rattle.std.specs.FinMap as maps;
ghost use Rattle.lx_model.specs.declared.event.PtraceEvent.TheVariants.{Plain};
ghost use Rattle.lx_model.specs.Turn.{turn};
ghost use Rattle.lx_open.specs.Releases.{AreEndsKept};
ghost use Rattle.lx_model.specs.declared.stage.Task.TheVariants.{Alive, Dying, Gone};
ghost use Rattle.lx_turn.specs.Linux.{linux};
ghost use Rattle.lx_turn.specs.Modes.{task_mode as task_mode_of, life_mode};
ghost use Rattle.lx_turn.specs.Injection.{choice_of_call, choice_of_task};
ghost use Rattle.lx_turn.specs.Turned.{turned, turned_by, unboxed, is_gone, EndsSame};

use crate::injection::Injection;
use crate::signals::is_killed;
use crate::stages::{Course, go};
use lx_abi::{Item, Mode};
use lx_model::{PtraceEvent, Stage, Task};
use lx_pcalls::{die, release_task};
use lx_proc::{Life, Shared, UserState};
use std::alloc::{AllocError, Global};
use std::ops::ControlFlow;

/// The wait word of an end by SIGKILL.
const KILL_WORD: u32 = 9;

/// Where a process stood before a turn and stands after it, and what was done beside.
#[derive(Drop)]
pub struct Transition {
    pub before: Option<Mode>,
    pub after: Option<Mode>,
    pub done: PtraceEvent<Box<UserState>>,
    /// The process is gone.
    pub gone: bool,
    /// The process ended, and each description that it named stays, since another process names it too.
    pub ends_kept: bool,
}

impl Transition {
    /// A turn that leaves its process gone.
    pub fn of_gone(before: Option<Mode>, after: Option<Mode>) -> Transition
        ensures { result ≡ record {
          before = before;
          after = after;
          done = PtraceEvent.Plain;
          gone = true;
          ends_kept = false;
        } }
    {
        Transition {
            before,
            after,
            done: PtraceEvent::Plain,
            gone: true,
            ends_kept: false,
        }
    }
}

/// One turn of a living process, and what it logs.
fn turn_alive(
    alloc: Global,
    shared: &mut Shared,
    injection: &Injection,
    child: u32,
    pid: u32,
    user: &mut UserState,
    stage: &mut Stage,
    item: &mut Option<Item>,
) -> Result<Course, AllocError>
    requires { item.old ≡ None }
    ensures turned { IfOk result (λ w. turned (turn linux
        (choice_of_call injection.now pid user.old) shared.old child pid (Alive user.old stage.old))
        ≡ turned_by w shared.new user.new pid stage.old stage.new item.new) }
    ensures ends { IfOk result (λ w. EndsSame w shared.old shared.new) }
    ensures console { OnErr result (shared.new.console ≡ shared.old.console) }
{
    if is_killed(shared, pid) {
        return Ok(ControlFlow::Break(KILL_WORD));
    }
    let course = go(alloc, shared, injection, child, pid, user, stage, item)?;
    Ok(course)
}

/// The process is gone. Apart, since a function pays at its entry for the size of its locals.
#[inline(never)]
fn leave(task: &mut Task<UserState>)
    ensures { task.new ≡ Gone }
{
    *task = Task::Gone;
}

/// The process is dying.
#[inline(never)]
fn end(task: &mut Task<UserState>, word: u32)
    ensures { task.new ≡ Dying word }
{
    *task = Task::Dying { word };
}

/// One turn of a process with a part of its own, and what it logs.
pub fn turn_task(
    alloc: Global,
    shared: &mut Shared,
    injection: &Injection,
    child: u32,
    pid: u32,
    task: &mut Task<UserState>,
    item: &mut Option<Item>,
) -> Result<Transition, AllocError>
    requires { item.old ≡ None }
    ensures turned { IfOk result (λ t. turned (turn linux
        (choice_of_task injection.now pid task.old) shared.old child pid task.old) ≡
        record { shared = shared.new; task = task.new; item = item.new; event = unboxed t.done }) }
    ensures before { IfOk result (λ t. t.before ≡ task_mode_of (maps.get shared.old.entries pid) task.old) }
    ensures after { IfOk result (λ t. t.after ≡ task_mode_of (maps.get shared.new.entries pid) task.new) }
    ensures gone { IfOk result (λ t. t.gone ≡ is_gone task.new) }
    ensures ends { IfOk result (λ t. IsTrue t.ends_kept → AreEndsKept shared.old.fds shared.new.fds) }
    ensures absent { task.old ≡ Gone → IsOkAnd result (λ t. (item.new ≡ None) × (unboxed t.done ≡ Plain)) }
    ensures console { OnErr result (shared.new.console ≡ shared.old.console) }
{
    match task {
        Task::Gone => {
            let mode = mode_of_gone(shared, pid);
            Ok(Transition::of_gone(mode, mode))
        }
        Task::Dying { word } => {
            release_task(shared, pid, *word)?;
            leave(task);
            let mode = mode_of_gone(shared, pid);
            Ok(Transition::of_gone(Some(Mode::Dying), mode))
        }
        Task::Alive { user, stage } => {
            let left = stage.mode();
            match turn_alive(alloc, shared, injection, child, pid, user, stage, item)? {
                ControlFlow::Continue(done) => Ok(Transition {
                    before: Some(left),
                    after: Some(stage.mode()),
                    done,
                    gone: false,
                    ends_kept: false,
                }),
                ControlFlow::Break(word) => {
                    let ends_kept = die(shared, pid, word)?;
                    end(task, word);
                    *item = Some(Item::Exit { pid, word, left });
                    Ok(Transition {
                        before: Some(left),
                        after: Some(Mode::Dying),
                        done: PtraceEvent::Plain,
                        gone: false,
                        ends_kept,
                    })
                }
            }
        }
    }
}

/// Where a process stands whose own part is given up.
pub fn mode_of_gone(shared: &Shared, pid: u32) -> Option<Mode>
    ensures { result ≡ life_mode (maps.get shared.now.entries pid) }
{
    match shared.entries.get(pid)?.life {
        Life::Zombie { .. } => Some(Mode::Zombie),
        Life::Alive | Life::Dying { .. } => None,
    }
}
