//! The kernel: one turn of one process at a time.

ghost use Rattle.std.specs.Prelude.{◌≡◌, ◌≤◌, ◌<◌, ◌↔◌, ◌++◌, ◌+◌, [], None, true, false, is_some};
ghost use Rattle.std.specs.Prelude.{if◌then◌else◌, IfOk, IfSome, OnSome, OnOk, OnErr, IsOk, IsErr, IsOkAnd, IsSome, IsTrue, option_map, ℕ};
ghost use Rattle.std.specs.FinMap as maps;
ghost use Rattle.std.specs.Option.{option_to_list};
ghost use Rattle.lx_abi.specs.Log.{is_entry};
ghost use Rattle.lx_abi.specs.Occurrences.{count_of};
ghost use Rattle.lx_model.specs.Finite.{at, item_of};
ghost use Rattle.lx_model.specs.Events.{by_pid};
ghost use Rattle.lx_model.specs.declared.event.PtraceEvent.TheVariants.{Plain};
ghost use Rattle.lx_model.specs.Machine.{a7_of};
ghost use Rattle.lx_model.specs.Turn.{turn};
ghost use Rattle.lx_model.specs.declared.stage.Task.TheVariants.{Alive, Gone};
ghost use Rattle.lx_model.specs.declared.stage.Stage.TheVariants.{Born};
ghost use Rattle.lx_proc.specs.WaitWords.{ends_of};
ghost use Rattle.lx_turn.specs.Linux.{linux};
ghost use Rattle.lx_turn.specs.Modes.{task_mode as task_mode_of};
ghost use Rattle.lx_turn.specs.Injection.{choice_of_task};
ghost use Rattle.lx_turn.specs.Turned.{turned, unboxed, IsLeft, IsBirth};
ghost use Rattle.lx_kernel.specs.Advances.{Leads};
ghost use Rattle.lx_kernel.specs.Choices.{under, turn_choosing_in, after_choosing};
ghost use Rattle.lx_kernel.specs.Occurrences.{Agree};
ghost use Rattle.lx_kernel.specs.Outcomes.{outcome_in};
ghost use Rattle.lx_kernel.specs.Runs.{turn_in, after_turn, is_able_in, mode_in, kept_log};
ghost use Rattle.lx_kernel.specs.Scheduling.{IsNextOf};
ghost use Rattle.lx_kernel.specs.Tracing.{task_in, regs_of, peek_of, call_of, signal_of, listens_of};
ghost use Rattle.lx_kernel.specs.Tracing.{with_regs, with_change, with_part};
ghost use Rattle.lx_kernel.specs.Turns.{Turns, without_gone, tasks_with, next_child};
ghost use Rattle.lx_kernel.specs.Waking.{WakesFew, LeavesStopped};

use crate::advances::advance_at;
use crate::choosing::always;
use crate::log::Log;
use crate::outcome::{outcome, outcome_unlisted};
use crate::run_queue::{RunQueue, Wakes};
use crate::scheduling::{can_turn_at, next_in_cycle};
use crate::tracing;
use crate::tracing::Change;
use crate::waking::take_turn;
use containers::{Bytes, Seq};
use lx_abi::{
    Call, Cause, Choice, Ended, Item, Mode, Occurrences, Outcome, RegisterSet, Registers, Script,
    Signal,
};
use lx_model::{PtraceEvent, Stage, Task};
use lx_proc::{ProcessLimits, Shared, UserState};
use lx_turn::{Injection, Transition, is_killed, mode_of_gone};
use shelves::Shelf;
use std::alloc::{AllocError, Global};
use std::marker::Model;
use std::mem;

/// Want of memory was met, now or before: every turn answers this from then on.
#[derive(Clone, Copy, Debug, PartialEq, Eq)]
pub struct Failed;

impl From<AllocError> for Failed {
    fn from(_error: AllocError) -> Self {
        Failed
    }
}

/// A process's mode before a turn and after it, what was logged, and what its call did beside, a child by its pid; no
/// mode where it isn't in the table.
#[derive(Clone, Copy, Debug, PartialEq, Eq)]
pub struct Moved {
    pub before: Option<Mode>,
    pub after: Option<Mode>,
    pub item: Option<Item>,
    pub event: PtraceEvent<u32>,
}

/// How many turns there were in a row, a process's mode before them and after them, and what the last did beside, a
/// child by its pid; no mode where it isn't in the table.
#[derive(Clone, Copy, Debug, PartialEq, Eq)]
pub struct Advanced {
    pub turns: u64,
    pub before: Option<Mode>,
    pub after: Option<Mode>,
    pub event: PtraceEvent<u32>,
}

/// A process leaves the table.
#[inline(never)]
fn remove(tasks: &mut Shelf<Task<UserState>>, pid: u32)
    ensures { tasks.new ≡ maps.remove tasks.old pid }
{
    tasks.remove(pid);
}

/// Who is gone leaves the table.
fn remove_gone(tasks: &mut Shelf<Task<UserState>>, pid: u32, gone: bool)
    ensures { tasks.new ≡ without_gone tasks.old pid gone }
{
    if gone {
        remove(tasks, pid);
    }
}

/// One turn of a process, if it has a part of its own, and what it logs; who is gone leaves the table.
fn turn_at(
    alloc: Global,
    shared: &mut Shared,
    tasks: &mut Shelf<Task<UserState>>,
    injection: &Injection,
    child: u32,
    pid: u32,
    item: &mut Option<Item>,
) -> Result<(Transition, Wakes), AllocError>
    requires { item.old ≡ None }
    ensures turns { IfOk result (λ t. Turns (turned (turn linux (choice_of_task injection.now pid
        (at Gone tasks.old pid)) shared.old child pid
        (at Gone tasks.old pid))) tasks.old pid item.new t.0.done shared.new tasks.new) }
    ensures before { IfOk result (λ t. t.0.before
        ≡ task_mode_of (maps.get shared.old.entries pid) (at Gone tasks.old pid)) }
    ensures after { IfOk result
        (λ t. t.0.after ≡ task_mode_of (maps.get shared.new.entries pid) (at Gone tasks.new pid)) }
    ensures few { IfOk result (λ t. IsTrue t.1.few
        → WakesFew shared.old shared.new child pid t.1.told t.1.changed (unboxed t.0.done)) }
    ensures stopped { IfOk result (λ t. LeavesStopped shared.old shared.new child pid t.1.told (unboxed t.0.done)) }
    ensures absent { at Gone tasks.old pid ≡ Gone
        → IsOkAnd result (λ t. (item.new ≡ None) × (unboxed t.0.done ≡ Plain)) }
    ensures console { OnErr result (shared.new.console ≡ shared.old.console) }
{
    let (transition, wakes) = match tasks.get_mut(pid) {
        None => {
            let mode = mode_of_gone(shared, pid);
            return Ok((Transition::of_gone(mode, mode), Wakes::nobody(pid)));
        }
        Some(task) => take_turn(alloc, shared, injection, child, pid, task, item)?,
    };
    remove_gone(tasks, pid, transition.gone);
    Ok((transition, wakes))
}

/// A child's body stands under its pid.
#[inline(never)]
fn place_user(
    tasks: &mut Shelf<Task<UserState>>,
    child: u32,
    user: Box<UserState>,
) -> Result<(), AllocError>
    ensures { OnOk result (tasks.new ≡ maps.insert tasks.old child (Alive user.value Born)) }
{
    let user = Box::into_inner(user);
    let stage = Stage::Born;
    tasks.insert(child, Task::Alive { user, stage })?;
    Ok(())
}

/// A child that is born has a part of its own, under the next pid.
fn place_child(
    tasks: &mut Shelf<Task<UserState>>,
    child: &mut u32,
    last_pid: u16,
    done: PtraceEvent<Box<UserState>>,
) -> Result<(), AllocError>
    requires { IsLeft last_pid done child.old }
    ensures tasks { OnOk result (tasks.new ≡ tasks_with tasks.old child.old (unboxed done)) }
    ensures child { OnOk result (child.new ≡ next_child child.old (unboxed done)) }
    ensures plain { unboxed done ≡ Plain → IsOk result }
    ensures born { OnErr result (IsBirth (unboxed done)) }
{
    match done {
        PtraceEvent::Plain | PtraceEvent::Execed => Ok(()),
        PtraceEvent::Forked(user) => {
            place_user(tasks, *child, user)?;
            prove!(*child <= u32::from(last_pid));
            *child += 1;
            Ok(())
        }
    }
}

/// The untraced kernel under a script.
#[derive(Drop)]
pub struct Kernel {
    alloc: Global,
    shared: Shared,
    tasks: Shelf<Task<UserState>>,
    run_queue: RunQueue,
    /// The next pid.
    child: u32,
    log: Log,
    occurrences: Occurrences,
    script: Script,
    follow: bool,
    failed: bool,
}

impl Model for Kernel {
    ghost use Rattle.std.specs.Prelude.{◌≡◌, false};
    ghost use Rattle.std.specs.Coded.{codes};
    ghost use Rattle.std.specs.FinMap as maps;
    ghost use Rattle.lx_kernel.specs.Runs.{Run};
    ghost use Rattle.lx_kernel.specs.Occurrences.{Agree};
    ghost use Rattle.lx_kernel.specs.Sleeping.{Watch, Filing};

    ghost Value = { Run };

    ghost coded = { Prim.hlevel (codes, maps.code) };

    ghost view = { λ k. record {
      running = record { shared = k.shared; tasks = k.tasks; child = k.child; log = k.log.items };
      script = k.script;
      follow = k.follow;
      failed = k.failed;
      keeps_log = k.log.keeps;
    } };

    ghost invariant = { λ k. k.failed ≡ false → Agree k.occurrences k.log.items
        × Watch k.run_queue k.shared k.tasks × Filing k.run_queue k.shared k.tasks };
}

/// Where a process stands.
fn mode_of(shared: &Shared, tasks: &Shelf<Task<UserState>>, pid: u32) -> Option<Mode>
    ensures { result ≡ task_mode_of (maps.get shared.now.entries pid) (at Gone tasks.now pid) }
{
    match tasks.get(pid) {
        Some(Task::Alive { stage, .. }) => Some(stage.mode()),
        Some(Task::Dying { .. }) => Some(Mode::Dying),
        Some(Task::Gone) | None => mode_of_gone(shared, pid),
    }
}

/// Where a process stands after a turn that did this, where it stood so before a child was placed.
fn mode_after(
    shared: &Shared,
    tasks: &Shelf<Task<UserState>>,
    pid: u32,
    event: PtraceEvent<u32>,
    mode: Option<Mode>,
) -> Option<Mode>
    requires { (IsBirth event → ⊥) → mode ≡ task_mode_of (maps.get shared.now.entries pid) (at Gone tasks.now pid) }
    ensures { result ≡ task_mode_of (maps.get shared.now.entries pid) (at Gone tasks.now pid) }
{
    match event {
        PtraceEvent::Forked(_) => mode_of(shared, tasks, pid),
        PtraceEvent::Plain | PtraceEvent::Execed => mode,
    }
}

/// Counts an entry into a call.
fn count_item(occurrences: &mut Occurrences, item: &Item) -> Result<(), AllocError>
    ensures { OnOk result ((p n : ℕ) → count_of occurrences.new p n
        ≡ (if is_entry p n item.now then 1 else 0) + count_of occurrences.old p n) }
{
    match item {
        Item::Enter { pid, call } => occurrences.count(*pid, call.number),
        Item::Done { .. } | Item::Taken { .. } | Item::Stopped { .. } | Item::Exit { .. } => Ok(()),
    }
}

/// Logs what a turn logged, and counts it.
fn log_item(
    log: &mut Log,
    occurrences: &mut Occurrences,
    item: &Option<Item>,
) -> Result<(), AllocError>
    ensures log { OnOk result (log.new ≡ record log.old { items = log.old.items ++ option_to_list item.now }) }
    ensures counted { OnOk result (Agree occurrences.old log.old.items → Agree occurrences.new log.new.items) }
    ensures kept { OnErr result (log.new ≡ log.old) }
    ensures none { item.now ≡ None → IsOk result }
    ensures some { OnErr result (IsSome item.now) }
{
    let Some(item) = item else {
        return Ok(());
    };
    count_item(occurrences, item)?;
    log.push(item)?;
    Ok(())
}

impl Kernel {
    /// A kernel that has logged nothing; the next pid is 2.
    pub(crate) fn new(
        alloc: Global,
        shared: Shared,
        tasks: Shelf<Task<UserState>>,
        script: Script,
        follow: bool,
        keeps_log: bool,
    ) -> Self
        requires { (q : ℕ) → (q ≡ 1 → ⊥) → at Gone tasks q ≡ Gone }
        ensures { result ≡ record {
          running =
              record { shared = shared; tasks = tasks; child = 2; log = [] };
          script = script;
          follow = follow;
          failed = false;
          keeps_log = keeps_log;
        } }
    {
        let mut run_queue = RunQueue::new(alloc);
        run_queue.wake(1);
        Kernel {
            alloc,
            shared,
            tasks,
            run_queue,
            child: 2,
            log: Log::new(alloc, keeps_log),
            occurrences: Occurrences::new(alloc),
            script,
            follow,
            failed: false,
        }
    }

    /// One turn of a process, of any kind. Apart, since a function pays at its entry for the size of its locals.
    #[inline(never)]
    fn turn_whole(&mut self, pid: u32, item: &mut Option<Item>) -> Result<Advanced, Failed>
        requires { item.old ≡ None }
        ensures one { IfOk result (λ a. a.turns ≡ 1) }
        ensures before { IfOk result (λ a. a.before ≡ mode_in self.old pid) }
        ensures after { IfOk result (λ a. a.after ≡ mode_in self.new pid) }
        ensures item { OnOk result (item.new ≡ item_of (turn_in self.old pid)) }
        ensures event { IfOk result (λ a. a.event ≡ by_pid self.old.running.child (turn_in self.old pid).event) }
        ensures turned { OnOk result (self.new ≡ after_turn self.old pid) }
        ensures failed { OnErr result (IsTrue self.new.failed) }
        ensures failed_before { IsTrue self.old.failed → IsErr result }
        ensures log { OnErr result (self.new.running.log ≡ self.old.running.log) }
        ensures console { OnErr result (self.new.running.shared.console ≡ self.old.running.shared.console) }
        ensures absent { self.old.failed ≡ false → task_in self.old pid ≡ Gone → IsOk result }
    {
        if self.failed {
            return Err(Failed);
        }
        self.failed = true;
        let injection = Injection {
            script: &self.script,
            occurrences: &self.occurrences,
            follow: self.follow,
        };
        let last_pid = self.shared.limits.last_pid;
        let (transition, wakes) = turn_at(
            self.alloc,
            &mut self.shared,
            &mut self.tasks,
            &injection,
            self.child,
            pid,
            item,
        )?;
        let event = transition.done.by_pid(self.child);
        self.run_queue.welcome(&transition.done, self.child);
        place_child(&mut self.tasks, &mut self.child, last_pid, transition.done)?;
        self.run_queue
            .wake_told(&self.shared, &self.tasks, pid, wakes.told);
        self.run_queue.pass(&self.shared, &self.tasks, pid, wakes);
        log_item(&mut self.log, &mut self.occurrences, item)?;
        let after = mode_after(&self.shared, &self.tasks, pid, event, transition.after);
        self.failed = false;
        Ok(Advanced {
            turns: 1,
            before: transition.before,
            after,
            event,
        })
    }

    /// The next turns of a process, as far as they can be made in place.
    fn advance_in_place(
        &mut self,
        pid: u32,
        limit: u64,
        item: &mut Option<Item>,
    ) -> Result<Advanced, Failed>
        requires { item.old ≡ None }
        ensures leads { IfOk result (λ a. Leads self.old pid a.turns item.new Plain self.new) }
        ensures within { IfOk result (λ a. a.turns ≤ limit) }
        ensures before { IfOk result (λ a. a.before ≡ mode_in self.old pid) }
        ensures after { IfOk result (λ a. a.after ≡ mode_in self.new pid) }
        ensures event { IfOk result (λ a. a.event ≡ Plain) }
        ensures failed { OnErr result (IsTrue self.new.failed) }
        ensures failed_before { IsTrue self.old.failed → IsErr result }
        ensures log { OnErr result (self.new.running.log ≡ self.old.running.log) }
        ensures console { OnErr result (self.new.running.shared.console ≡ self.old.running.shared.console) }
        ensures absent { self.old.failed ≡ false → task_in self.old pid ≡ Gone → IsOk result }
    {
        if self.failed {
            return Err(Failed);
        }
        self.failed = true;
        let injection = Injection {
            script: &self.script,
            occurrences: &self.occurrences,
            follow: self.follow,
        };
        let advanced = advance_at(
            self.alloc,
            &mut self.shared,
            &mut self.tasks,
            &injection,
            self.child,
            pid,
            limit,
            item,
        )?;
        log_item(&mut self.log, &mut self.occurrences, item)?;
        self.failed = false;
        Ok(advanced)
    }

    /// Turns of a process in a row, at most `limit`, of which all but the last log nothing, do nothing beside, and
    /// leave it able, where it runs instructions or is in a call. What the last logs is put into `item`.
    ///
    /// From the end of a call to the next call they are made at once, and so is a call that asks only for its process's
    /// own part; elsewhere it is one turn. There is no other way to make a turn.
    pub fn advance(
        &mut self,
        pid: u32,
        limit: u64,
        item: &mut Option<Item>,
    ) -> Result<Advanced, Failed>
        ensures leads { IfOk result (λ a. Leads self.old pid a.turns item.new a.event self.new) }
        ensures some { IfOk result (λ a. 0 < limit → 0 < a.turns) }
        ensures within { IfOk result (λ a. a.turns ≤ limit) }
        ensures before { IfOk result (λ a. a.before ≡ mode_in self.old pid) }
        ensures after { IfOk result (λ a. a.after ≡ mode_in self.new pid) }

        // Once want of memory was met, every call answers so; the log and the console stay as they were.
        ensures failed { OnErr result (IsTrue self.new.failed) }
        ensures failed_before { IsTrue self.old.failed → IsErr result }
        ensures log { OnErr result (self.new.running.log ≡ self.old.running.log) }
        ensures console { OnErr result (self.new.running.shared.console ≡ self.old.running.shared.console) }

        // A process that isn't there needs no memory.
        ensures absent { self.old.failed ≡ false → task_in self.old pid ≡ Gone → IsOk result }
    {
        *item = None;
        let advanced = self.advance_in_place(pid, limit, item)?;
        if advanced.turns > 0 || limit == 0 {
            return Ok(advanced);
        }
        let turned = self.turn_whole(pid, item)?;
        Ok(turned)
    }

    /// One turn of a process. A pid that isn't in the table changes nothing.
    pub fn turn(&mut self, pid: u32) -> Result<Moved, Failed>
        ensures before { IfOk result (λ m. m.before ≡ mode_in self.old pid) }
        ensures after { IfOk result (λ m. m.after ≡ mode_in self.new pid) }
        ensures item { IfOk result (λ m. m.item ≡ item_of (turn_in self.old pid)) }
        ensures event { IfOk result (λ m. m.event ≡ by_pid self.old.running.child (turn_in self.old pid).event) }
        ensures turned { OnOk result (self.new ≡ after_turn self.old pid) }

        // Once want of memory was met, every turn answers so; the log and the console stay as they were.
        ensures failed { OnErr result (IsTrue self.new.failed) }
        ensures failed_before { IsTrue self.old.failed → IsErr result }
        ensures log { OnErr result (self.new.running.log ≡ self.old.running.log) }
        ensures console { OnErr result (self.new.running.shared.console ≡ self.old.running.shared.console) }

        // A process that isn't there needs no memory.
        ensures absent { self.old.failed ≡ false → task_in self.old pid ≡ Gone → IsOk result }
    {
        let mut item = None;
        let advanced = self.advance(pid, 1, &mut item)?;
        Ok(Moved {
            before: advanced.before,
            after: advanced.after,
            item,
            event: advanced.event,
        })
    }

    /// One turn of a process under another script, of whom it is asked for too; the kernel's own stays.
    fn turn_under(&mut self, pid: u32, script: Script) -> Result<Moved, Failed>
        ensures before { IfOk result (λ m. m.before ≡ mode_in self.old pid) }
        ensures after { IfOk result (λ m. m.after ≡ mode_in self.new pid) }
        ensures item { IfOk result (λ m. m.item ≡ item_of (turn_in (under self.old script) pid)) }
        ensures event { IfOk result
            (λ m. m.event ≡ by_pid self.old.running.child (turn_in (under self.old script) pid).event) }
        ensures turned { OnOk result
            (self.new ≡ record self.old { running = (after_turn (under self.old script) pid).running }) }
        ensures failed { OnErr result (IsTrue self.new.failed) }
        ensures failed_before { IsTrue self.old.failed → IsErr result }
        ensures log { OnErr result (self.new.running.log ≡ self.old.running.log) }
        ensures console { OnErr result (self.new.running.shared.console ≡ self.old.running.shared.console) }
    {
        let own = mem::replace(&mut self.script, script);
        let follow = mem::replace(&mut self.follow, true);
        let moved = self.turn(pid);
        drop(mem::replace(&mut self.script, own));
        self.follow = follow;
        moved
    }

    /// One turn of a process in which this is done to the call that it has entered, whatever the script does to it, and
    /// whether the process is a tracee or not.
    pub fn turn_choosing(&mut self, pid: u32, choice: Choice) -> Result<Moved, Failed>
        ensures before { IfOk result (λ m. m.before ≡ mode_in self.old pid) }
        ensures after { IfOk result (λ m. m.after ≡ mode_in self.new pid) }
        ensures item { IfOk result (λ m. m.item ≡ item_of (turn_choosing_in self.old pid choice)) }
        ensures event { IfOk result
            (λ m. m.event ≡ by_pid self.old.running.child (turn_choosing_in self.old pid choice).event) }
        ensures turned { OnOk result (self.new ≡ after_choosing self.old pid choice) }

        // As of a turn. This one needs memory.
        ensures failed { OnErr result (IsTrue self.new.failed) }
        ensures failed_before { IsTrue self.old.failed → IsErr result }
        ensures log { OnErr result (self.new.running.log ≡ self.old.running.log) }
        ensures console { OnErr result (self.new.running.shared.console ≡ self.old.running.shared.console) }
    {
        match always(self.alloc, choice) {
            Ok(script) => self.turn_under(pid, script),
            Err(_) => {
                self.failed = true;
                Err(Failed)
            }
        }
    }

    /// A turn of the process would run an instruction or change its mode: it is in the table, and neither waits nor is
    /// stopped.
    pub fn able(&self, pid: u32) -> bool
        ensures { IsTrue result ↔ is_able_in self.now pid }
    {
        can_turn_at(&self.shared, &self.tasks, pid)
    }

    /// The next process that can take a turn, in the cycle of pids: the first above this pid, or else the first.
    pub fn next_able(&self, after: u32) -> Option<u32>
        ensures { IsNextOf self.now after result }
    {
        if self.failed || !self.run_queue.known {
            next_in_cycle(&self.shared, &self.tasks, &self.tasks, after)
        } else {
            next_in_cycle(&self.shared, &self.tasks, &self.run_queue.awake, after)
        }
    }

    /// Where the process stands, if it is in the table.
    pub fn mode(&self, pid: u32) -> Option<Mode>
        ensures { result ≡ mode_in self.now pid }
    {
        mode_of(&self.shared, &self.tasks, pid)
    }

    /// How many processes there may be.
    pub fn limits(&self) -> ProcessLimits
        ensures { result ≡ self.now.running.shared.limits }
    {
        self.shared.limits
    }

    /// The pid that the next child gets, if one is left.
    pub fn next_pid(&self) -> u32
        ensures { result ≡ self.now.running.child }
    {
        self.child
    }

    /// SIGKILL is pending for the process.
    pub fn is_killed(&self, pid: u32) -> bool
        ensures { result ≡ linux.killed self.now.running.shared pid }
    {
        is_killed(&self.shared, pid)
    }

    /// pc and x1 to x31 of the process, if it lives.
    pub fn regs(&self, pid: u32) -> Result<Option<RegisterSet>, AllocError>
        ensures { IfOk result (λ registers. registers ≡ regs_of (task_in self.now pid)) }
    {
        tracing::regs(self.alloc, &self.tasks, pid)
    }

    /// The number of the call that the registers of a process ask for, if it lives.
    pub fn asked_call(&self, pid: u32) -> Option<u64>
        ensures { result ≡ option_map a7_of (regs_of (task_in self.now pid)) }
    {
        tracing::asked_call(&self.tasks, pid)
    }

    /// The bytes of the process's memory from an address on, up to the first that is not mapped, if it lives.
    pub fn peek(&self, pid: u32, address: u64, length: usize) -> Result<Option<Bytes>, AllocError>
        ensures { IfOk result (λ bytes. bytes ≡ peek_of (task_in self.now pid) address length) }
    {
        tracing::peek(&self.tasks, pid, address, length)
    }

    /// The signal that the process has taken and stands at, and why it came first.
    pub fn siginfo(&self, pid: u32) -> Option<(Signal, Cause)>
        ensures { result ≡ signal_of (task_in self.now pid) }
    {
        tracing::signal(&self.tasks, pid)
    }

    /// The call that the process is in: it does it, or waits.
    pub fn call(&self, pid: u32) -> Option<Call>
        ensures { result ≡ call_of (task_in self.now pid) }
    {
        tracing::call(&self.tasks, pid)
    }

    /// The process is in a group stop, where it stays by PTRACE_LISTEN.
    pub fn listens(&self, pid: u32) -> bool
        ensures { result ≡ listens_of (task_in self.now pid) }
    {
        tracing::listens(&self.tasks, pid)
    }

    /// Sets pc and x1 to x31 of the process: false, and nothing is changed, where it doesn't live.
    pub fn set_regs(&mut self, pid: u32, registers: &Registers) -> bool
        ensures part { self.new ≡ with_part self.old pid (with_regs registers.now (task_in self.old pid)) }
        ensures there { result ≡ is_some (with_regs registers.now (task_in self.old pid)) }
    {
        tracing::set_regs(&mut self.tasks, pid, registers)
    }

    fn set_stage(&mut self, pid: u32, change: Change) -> bool
        ensures part { self.new ≡ with_part self.old pid (with_change change (task_in self.old pid)) }
        ensures there { result ≡ is_some (with_change change (task_in self.old pid)) }
    {
        // a stopped process may go on from there
        self.run_queue.keep_awake(pid);
        tracing::set_stage(&mut self.tasks, pid, change)
    }

    /// Sets the signal that the next turn joins to the call that the process has entered: false, and nothing is
    /// changed, where it stands elsewhere.
    pub fn join(&mut self, pid: u32, signal: Option<Signal>) -> bool
        ensures part { self.new ≡ with_part self.old pid (with_change (Change.Join signal) (task_in self.old pid)) }
        ensures there { result ≡ is_some (with_change (Change.Join signal) (task_in self.old pid)) }
    {
        self.set_stage(pid, Change::Join { signal })
    }

    /// Drops the signal that the process has taken, or ends its group stop: false, and nothing is changed, where it
    /// stands elsewhere.
    pub fn skip(&mut self, pid: u32) -> bool
        ensures part { self.new ≡ with_part self.old pid (with_change Change.Skip (task_in self.old pid)) }
        ensures there { result ≡ is_some (with_change Change.Skip (task_in self.old pid)) }
    {
        self.set_stage(pid, Change::Skip)
    }

    /// Sets from where the process goes on by PTRACE_SYSCALL with this signal's number, 0 for none: false, and nothing
    /// is changed, where that is EIO.
    pub fn resume(&mut self, pid: u32, number: u32) -> bool
        ensures part { self.new ≡ with_part self.old pid (with_change (Change.Resume number) (task_in self.old pid)) }
        ensures there { result ≡ is_some (with_change (Change.Resume number) (task_in self.old pid)) }
    {
        self.set_stage(pid, Change::Resume { number })
    }

    /// What was logged so far; nothing where the log isn't kept.
    pub fn log(&self) -> &[Item]
        ensures { result.now ≡ kept_log self.now }
    {
        self.log.kept()
    }

    /// Gives away what was logged so far, and keeps no log any more.
    pub fn take_log(&mut self) -> Vec<Item>
        ensures log { result.items ≡ kept_log self.old }
        ensures rest { self.new ≡ record self.old { keeps_log = false } }
    {
        self.log.take_kept(self.alloc)
    }

    /// The processes that have ended so far, each with its wait word, by pid.
    pub fn ended(&self) -> Result<Seq<Ended>, AllocError>
        ensures { IfOk result (λ ended. ended ≡ ends_of self.now.running.shared.ended) }
    {
        self.shared.ended.list(self.alloc)
    }

    /// What is left of the run so far.
    pub fn outcome(&self) -> Result<Outcome, AllocError>
        ensures { IfOk result (λ o. o ≡ outcome_in self.now.running.shared) }
    {
        let outcome = outcome(self.alloc, &self.shared)?;
        Ok(outcome)
    }

    /// The same, with the files left unlisted: no program can read them.
    pub fn outcome_unlisted(&self) -> Result<Outcome, AllocError>
        ensures { IfOk result (λ o. o ≡ outcome_in self.now.running.shared) }
    {
        let outcome = outcome_unlisted(self.alloc, &self.shared)?;
        Ok(outcome)
    }

    /// What was written to the console so far.
    pub fn console(&self) -> &[u8]
        ensures { result.now ≡ self.now.running.shared.console }
    {
        self.shared.console.as_slice()
    }
}

fn copy_log(log: &Log, occurrences: &Occurrences) -> Result<(Log, Occurrences), AllocError>
    ensures log { IfOk result (λ c. c.0 ≡ log.now) }
    ensures occurrences { IfOk result
        (λ c. (pid number : ℕ) → count_of c.1 pid number ≡ count_of occurrences.now pid number) }
{
    let occurrences = occurrences.clone()?;
    let log = log.clone()?;
    Ok((log, occurrences))
}

fn copy_processes(
    shared: &Shared,
    tasks: &Shelf<Task<UserState>>,
) -> Result<(Shared, Shelf<Task<UserState>>), AllocError>
    ensures { IfOk result (λ c. (c.0 ≡ shared.now) × (c.1 ≡ tasks.now)) }
{
    let tasks = tasks.clone()?;
    match shared.clone() {
        Ok(shared) => Ok((shared, tasks)),
        Err(error) => {
            drop(tasks);
            Err(error)
        }
    }
}

impl Clone for Kernel {
    ghost is_clone = { λ a b. b ≡ a };

    fn clone(&self) -> Result<Self, AllocError> {
        let script = self.script.clone()?;
        let run_queue = match self.run_queue.clone() {
            Ok(run_queue) => run_queue,
            Err(error) => {
                drop(script);
                return Err(error);
            }
        };
        let (log, occurrences) = match copy_log(&self.log, &self.occurrences) {
            Ok(copies) => copies,
            Err(error) => {
                drop(run_queue);
                drop(script);
                return Err(error);
            }
        };
        let (shared, tasks) = match copy_processes(&self.shared, &self.tasks) {
            Ok(copies) => copies,
            Err(error) => {
                drop(occurrences);
                drop(log);
                drop(run_queue);
                drop(script);
                return Err(error);
            }
        };
        Ok(Kernel {
            alloc: self.alloc,
            shared,
            tasks,
            run_queue,
            child: self.child,
            log,
            occurrences,
            script,
            follow: self.follow,
            failed: self.failed,
        })
    }
}
