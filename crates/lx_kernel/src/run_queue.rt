//! Which processes a search for the next turn looks at.
//!
//! Two sets of pids: who is awake, and who sleeps, that is, waits in a read or a write of a pipe, or in wait4, with no
//! signal that would end the wait. `next_able` looks at those that are awake alone, so what it costs grows with them,
//! and with the logarithm of all. A process is put to sleep by its own turn that leaves it blocked, and wakes by
//! another's: each turn says whom it may have woken. After a read, a write or a close these are the sleepers by one
//! pipe, or nobody where it was of none; after an execve, or an end that takes the last end of a pipe along, all that
//! sleep are looked at, each once. Where a process is told, as by a kill, or by the end of its child, it alone is
//! looked at. A stopped process, to which neither SIGCONT nor SIGKILL was sent, is in neither set: only a turn that
//! tells it lets it go on, or its tracer, so no other turn looks at it. What the sets say is proved; that they are kept
//! affects only speed: once memory for them was refused, a search looks at every process, and answers the same.

ghost use Rattle.std.specs.Prelude.{◌≡◌, ◌<◌, ℕ, Some, None, true, is_some, OnOk};
ghost use Rattle.std.specs.FinMap as maps;
ghost use Rattle.lx_model.specs.Finite.{at};
ghost use Rattle.lx_model.specs.declared.stage.Task.TheVariants.{Gone};
ghost use Rattle.lx_turn.specs.Turned.{unboxed};
ghost use Rattle.lx_kernel.specs.Blocking.{rests as rests_of};
ghost use Rattle.lx_kernel.specs.Sleeping.{IsWatched, IsSameBut, AreListed, AreOthersListed, Watch, welcomed};
ghost use Rattle.lx_kernel.specs.Sleeping.{IsFiled, Filing, AreApartWatched, AreOthersPairs, SleepsBy};
ghost use Rattle.lx_kernel.specs.Pipes.{IsApart};

use crate::pipes::used;
use crate::scheduling::can_turn_at;
use lx_model::{PtraceEvent, Stage, Task};
use lx_proc::{Pairs, Shared, UserState};
use shelves::Shelf;
use std::alloc::{AllocError, Global};

/// The processes that may be able, and those that wait in a call, which a search passes over.
#[derive(Drop)]
pub struct RunQueue {
    pub awake: Shelf<()>,
    /// Each with the pipe that it reads or writes, if it does.
    pub asleep: Shelf<Option<u32>>,
    /// Those of them that read or write a pipe, by the pipe.
    pub by_pipe: Pairs,
    /// No memory was refused to the sets. Once some was, they say nothing, and a search looks at each process.
    pub known: bool,
}

/// Whom a turn may have woken, and what it may have done to its own process.
#[derive(Clone, Copy)]
pub struct Wakes {
    /// Beside the one that is told, none but those who read or write the pipe that was changed; else it may be anyone.
    pub few: bool,
    /// The pipe that was changed, if one was.
    pub changed: Option<u32>,
    /// Whom a kill was sent to, or the parent of a process that has ended, or may have been stopped or continued; the
    /// process itself where nobody is told.
    pub told: u32,
    pub hints: Hints,
}

/// What the turn may have done to its own process.
#[derive(Clone, Copy)]
pub struct Hints {
    /// Its process is in a call that may wait, or is stopped.
    pub may_wait: bool,
    /// Its process is gone.
    pub gone: bool,
}

impl Wakes {
    /// The turn of a process that is gone wakes nobody.
    pub fn nobody(pid: u32) -> Self
        ensures few { result.few ≡ true }
        ensures changed { result.changed ≡ None }
        ensures told { result.told ≡ pid }
    {
        Wakes {
            few: true,
            changed: None,
            told: pid,
            hints: Hints {
                may_wait: false,
                gone: true,
            },
        }
    }
}

impl Hints {
    fn may_be_blocked(self) -> bool {
        self.may_wait || self.gone
    }
}

/// The process is stopped, or gone.
fn rests(tasks: &Shelf<Task<UserState>>, pid: u32) -> bool
    ensures { result ≡ rests_of (at Gone tasks.now pid) }
{
    match tasks.get(pid) {
        Some(Task::Alive { stage, .. }) => matches!(stage, Stage::Stopped { .. }),
        Some(Task::Dying { .. }) => false,
        Some(Task::Gone) | None => true,
    }
}

/// It may be in any set.
const ANY: Hints = Hints {
    may_wait: true,
    gone: true,
};

/// The pipe by which the process sleeps.
fn pipe_of(asleep: &Shelf<Option<u32>>, pid: u32) -> Option<u32> {
    match asleep.get(pid) {
        None => None,
        Some(pipe) => *pipe,
    }
}

/// The process sleeps by no pipe from now on.
fn take_from_pipe(by_pipe: &mut Pairs, asleep: &Shelf<Option<u32>>, pid: u32)
    ensures { AreOthersPairs pid by_pipe.old by_pipe.new }
{
    match pipe_of(asleep, pid) {
        None => {}
        Some(pipe) => by_pipe.remove(pipe, pid),
    }
}

/// The process sleeps by a pipe, if there is one.
fn put_by_pipe(by_pipe: &mut Pairs, pipe: Option<u32>, pid: u32) -> Result<(), AllocError>
    ensures there { OnOk result (SleepsBy by_pipe.new pipe pid) }
    ensures others { AreOthersPairs pid by_pipe.old by_pipe.new }
{
    match pipe {
        None => Ok(()),
        Some(pipe) => match by_pipe.set(pipe, pid, true) {
            Ok(()) => Ok(()),
            Err(error) => Err(error),
        },
    }
}

impl RunQueue {
    /// Both sets are empty.
    pub fn new(alloc: Global) -> Self
        ensures awake { result.awake ≡ maps.empty }
        ensures asleep { result.asleep ≡ maps.empty }
        ensures known { result.known ≡ true }
    {
        RunQueue {
            awake: Shelf::new(alloc),
            asleep: Shelf::new(alloc),
            by_pipe: Pairs::new(alloc),
            known: true,
        }
    }

    /// A process is awake.
    pub fn wake(&mut self, pid: u32)
        ensures awake { self.new.known ≡ true → self.new.awake ≡ maps.insert self.old.awake pid tt }
        ensures asleep { self.new.asleep ≡ maps.remove self.old.asleep pid }
        ensures by_pipe { self.new.by_pipe ≡ self.old.by_pipe }
        ensures known { self.new.known ≡ true → self.old.known ≡ true }
    {
        if self.awake.insert(pid, ()).is_err() {
            self.known = false;
        }
        self.asleep.remove(pid);
    }

    fn is_awake(&self, pid: u32) -> bool
        ensures { result ≡ is_some (maps.get self.now.awake pid) }
    {
        self.awake.get(pid).is_some()
    }

    /// A process is awake from now on, if it wasn't: the set of those that sleep may be large, and isn't searched for
    /// one that is awake.
    pub fn keep_awake(&mut self, pid: u32)
        ensures itself { self.new.known ≡ true → maps.get self.new.awake pid ≡ None → ⊥ }
        ensures others { self.new.known ≡ true → IsSameBut self.old self.new pid }
    {
        if !self.is_awake(pid) {
            take_from_pipe(&mut self.by_pipe, &self.asleep, pid);
            self.wake(pid);
        }
    }

    /// A child that is born is awake.
    pub fn welcome(&mut self, done: &PtraceEvent<Box<UserState>>, child: u32)
        ensures sets { self.new.known ≡ true → self.new ≡ welcomed self.old child (unboxed done.now) }
        ensures known { self.new.known ≡ true → self.old.known ≡ true }
    {
        match done {
            PtraceEvent::Forked(_) => self.wake(child),
            PtraceEvent::Plain | PtraceEvent::Execed => {}
        }
    }

    /// A process that sleeps does so by this pipe, or by none.
    fn file(&mut self, pid: u32, pipe: Option<u32>)
        ensures awake { self.new.awake ≡ self.old.awake }
        ensures asleep { self.new.asleep ≡ self.old.asleep }
        ensures there { self.new.known ≡ true → SleepsBy self.new.by_pipe pipe pid }
        ensures others { AreOthersPairs pid self.old.by_pipe self.new.by_pipe }
        ensures known { self.new.known ≡ true → self.old.known ≡ true }
    {
        take_from_pipe(&mut self.by_pipe, &self.asleep, pid);
        if put_by_pipe(&mut self.by_pipe, pipe, pid).is_err() {
            self.known = false;
        }
    }

    /// A process sleeps, by this pipe or by none.
    fn put_to_sleep(&mut self, pid: u32, pipe: Option<u32>)
        ensures awake { self.new.awake ≡ maps.remove self.old.awake pid }
        ensures asleep { self.new.known ≡ true → self.new.asleep ≡ maps.insert self.old.asleep pid pipe }
        ensures there { self.new.known ≡ true → SleepsBy self.new.by_pipe pipe pid }
        ensures others { AreOthersPairs pid self.old.by_pipe self.new.by_pipe }
        ensures known { self.new.known ≡ true → self.old.known ≡ true }
    {
        self.file(pid, pipe);
        if self.asleep.insert(pid, pipe).is_err() {
            self.known = false;
        }
        self.awake.remove(pid);
    }

    /// A process is in neither set.
    fn forget(&mut self, pid: u32)
        ensures awake { self.new.awake ≡ maps.remove self.old.awake pid }
        ensures asleep { self.new.asleep ≡ maps.remove self.old.asleep pid }
        ensures others { AreOthersPairs pid self.old.by_pipe self.new.by_pipe }
        ensures known { self.new.known ≡ self.old.known }
    {
        take_from_pipe(&mut self.by_pipe, &self.asleep, pid);
        self.awake.remove(pid);
        self.asleep.remove(pid);
    }

    /// The process is put into its set.
    fn sort(&mut self, shared: &Shared, tasks: &Shelf<Task<UserState>>, pid: u32, hints: Hints)
        ensures itself { self.new.known ≡ true → IsWatched self.new shared.now pid (at Gone tasks.now pid) }
        ensures filed { self.new.known ≡ true → IsFiled self.new shared.now pid (at Gone tasks.now pid) }
        ensures others { self.new.known ≡ true → IsSameBut self.old self.new pid }
    {
        if hints.may_be_blocked() && !can_turn_at(shared, tasks, pid) {
            if rests(tasks, pid) {
                self.forget(pid);
            } else {
                let pipe = used(shared, tasks, pid);
                self.put_to_sleep(pid, pipe);
            }
        } else {
            self.keep_awake(pid);
        }
    }

    /// Those wake who are blocked no longer.
    fn wake_unblocked(&mut self, shared: &Shared, tasks: &Shelf<Task<UserState>>)
        requires { self.old.known ≡ true → AreListed self.old shared.now tasks.now }
        ensures watch { Watch self.new shared.now tasks.now }
        ensures filing { Filing self.new shared.now tasks.now }
    {
        let mut passed = 0;
        while let Some(pid) = self.asleep.next_key(passed) {
            self.sort(shared, tasks, pid, ANY);
            passed = pid;
        }
    }

    /// Those wake who sleep by a pipe and are blocked no longer.
    fn wake_by(&mut self, shared: &Shared, tasks: &Shelf<Task<UserState>>, pipe: u32)
        requires filed { Filing self.old shared.now tasks.now }
        requires apart { self.old.known ≡ true → AreApartWatched self.old shared.now tasks.now (Some pipe) }
        ensures watch { Watch self.new shared.now tasks.now }
        ensures filing { Filing self.new shared.now tasks.now }
    {
        let mut passed = 0;
        while let Some(pid) = self.by_pipe.next(pipe, passed) {
            self.sort(shared, tasks, pid, ANY);
            passed = pid;
        }
    }

    /// Those wake who sleep by the pipe that was changed, if one was.
    fn wake_changed(
        &mut self,
        shared: &Shared,
        tasks: &Shelf<Task<UserState>>,
        changed: Option<u32>,
    )
        requires filed { Filing self.old shared.now tasks.now }
        requires apart { self.old.known ≡ true → AreApartWatched self.old shared.now tasks.now changed }
        ensures watch { Watch self.new shared.now tasks.now }
        ensures filing { Filing self.new shared.now tasks.now }
    {
        match changed {
            None => {}
            Some(pipe) => self.wake_by(shared, tasks, pipe),
        }
    }

    /// A process that another's turn has told is put into its set.
    pub fn wake_told(
        &mut self,
        shared: &Shared,
        tasks: &Shelf<Task<UserState>>,
        pid: u32,
        told: u32,
    )
        requires { self.old.known ≡ true → AreOthersListed self.old shared.now tasks.now pid told }
        ensures listed { self.new.known ≡ true → AreListed self.new shared.now tasks.now }
        ensures itself { self.new.known ≡ true → (told ≡ pid → ⊥)
            → IsWatched self.new shared.now told (at Gone tasks.now told) }
        ensures filed { self.new.known ≡ true → (told ≡ pid → ⊥)
            → IsFiled self.new shared.now told (at Gone tasks.now told) }
        ensures others { self.new.known ≡ true → IsSameBut self.old self.new told }
    {
        if told != pid {
            self.sort(shared, tasks, told, ANY);
        }
    }

    /// A turn of a process has passed, by which only those can have woken who read or write the pipe that it changed,
    /// or anyone.
    pub fn pass(&mut self, shared: &Shared, tasks: &Shelf<Task<UserState>>, pid: u32, wakes: Wakes)
        requires listed { self.old.known ≡ true → AreListed self.old shared.now tasks.now }
        requires watched { wakes.few ≡ true → self.old.known ≡ true → (q : ℕ) → 0 < q → (q ≡ pid → ⊥)
            → IsApart wakes.changed shared.now q (at Gone tasks.now q)
            → IsWatched self.old shared.now q (at Gone tasks.now q) }
        requires filed { wakes.few ≡ true → self.old.known ≡ true → (q : ℕ) → 0 < q → (q ≡ pid → ⊥)
            → IsFiled self.old shared.now q (at Gone tasks.now q) }
        ensures watch { Watch self.new shared.now tasks.now }
        ensures filing { Filing self.new shared.now tasks.now }
    {
        if self.asleep.len() == 0 && !wakes.hints.may_be_blocked() {
            return;
        }
        self.sort(shared, tasks, pid, wakes.hints);
        if wakes.few {
            self.wake_changed(shared, tasks, wakes.changed);
        } else {
            self.wake_unblocked(shared, tasks);
        }
    }
}

impl Clone for RunQueue {
    ghost is_clone = { λ a b. b ≡ a };

    fn clone(&self) -> Result<Self, AllocError> {
        let awake = self.awake.clone()?;
        let asleep = match self.asleep.clone() {
            Ok(asleep) => asleep,
            Err(error) => {
                drop(awake);
                return Err(error);
            }
        };
        let by_pipe = match self.by_pipe.clone() {
            Ok(by_pipe) => by_pipe,
            Err(error) => {
                drop(asleep);
                drop(awake);
                return Err(error);
            }
        };
        Ok(RunQueue {
            awake,
            asleep,
            by_pipe,
            known: self.known,
        })
    }
}
