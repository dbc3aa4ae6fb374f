//! What each process of a run has told.

ghost use Rattle.std.specs.Prelude.{◌≡◌, ◌++◌, ◌∷◌, [], List, None, OnOk};
ghost use Rattle.std.specs.FinMap as maps;
ghost use Rattle.lx_abi.specs.declared.log.Item.{Item as LogItem};
ghost use Rattle.sweep_rows.specs.Likeness.{are_whole, GoBeside};
ghost use Rattle.sweep_rows.specs.declared.calls.Calls.{Calls as CallsMade};
ghost use Rattle.sweep_faults.specs.Courses.{AreCourses};
ghost use Rattle.sweep_faults.specs.Processes.{after_end, after_entry, first_process, process_at};
ghost use Rattle.sweep_faults.specs.Processes.{course_in, likeness_in};

use crate::courses::{Course, FIRST_COURSE};
use lx_abi::{Call, Ended, Item};
use shelves::Shelf;
use std::alloc::{AllocError, Global};
use sweep_rows::{Calls, Likeness};

/// What a process has told.
#[derive(Clone, Copy, Debug, PartialEq, Eq)]
pub struct Process {
    pub course: Course,
    /// How its calls go beside those of the reference.
    pub likeness: Likeness,
}

/// What each process has told that has entered a call.
#[derive(Drop)]
pub struct Processes {
    of: Shelf<Process>,
}

const FIRST: Process = Process {
    course: FIRST_COURSE,
    likeness: Likeness::Same(0),
};

impl Process {
    /// It enters a call.
    fn enter(&mut self, pid: u32, call: &Call, calls: &Calls) -> Result<(), AllocError>
        ensures { OnOk result (self.new ≡ after_entry calls.now pid call.now self.old) }
    {
        self.likeness = self.likeness.next(calls, pid, call.number)?;
        self.course = self.course.entered(call);
        Ok(())
    }

    /// It has done a call.
    fn end(&mut self, call: &Call)
        ensures { self.new ≡ after_end call.now self.old }
    {
        self.course = self.course.ended(call);
    }
}

/// A process enters its first call. Apart, since it comes once a process.
#[inline(never)]
fn enter_first(
    of: &mut Shelf<Process>,
    pid: u32,
    call: &Call,
    calls: &Calls,
) -> Result<(), AllocError>
    ensures { OnOk result (of.new ≡ maps.insert of.old pid (after_entry calls.now pid call.now first_process)) }
{
    let mut process = FIRST;
    process.enter(pid, call, calls)?;
    of.insert(pid, process)?;
    Ok(())
}

/// A process enters a call.
#[inline(always)]
fn enter(of: &mut Shelf<Process>, pid: u32, call: &Call, calls: &Calls) -> Result<(), AllocError>
    ensures { OnOk result (of.new
        ≡ maps.insert of.old pid (after_entry calls.now pid call.now (process_at of.old pid))) }
{
    match of.get_mut(pid) {
        Some(process) => {
            process.enter(pid, call, calls)?;
            Ok(())
        }
        None => enter_first(of, pid, call, calls),
    }
}

/// A process of which nothing was told has done a call. Apart, as above.
#[inline(never)]
fn end_first(of: &mut Shelf<Process>, pid: u32, call: &Call) -> Result<(), AllocError>
    ensures { OnOk result (of.new ≡ maps.insert of.old pid (after_end call.now first_process)) }
{
    let mut process = FIRST;
    process.end(call);
    of.insert(pid, process)?;
    Ok(())
}

/// A process has done a call.
#[inline(always)]
fn end(of: &mut Shelf<Process>, pid: u32, call: &Call) -> Result<(), AllocError>
    ensures { OnOk result (of.new ≡ maps.insert of.old pid (after_end call.now (process_at of.old pid))) }
{
    match of.get_mut(pid) {
        Some(process) => {
            process.end(call);
            Ok(())
        }
        None => end_first(of, pid, call),
    }
}

impl Processes {
    /// Those of a run that begins.
    pub(crate) fn new(alloc: Global) -> Self
        ensures courses { AreCourses (course_in result) [] }
        ensures beside { (calls : CallsMade) → GoBeside calls (likeness_in result) [] }
    {
        Processes {
            of: Shelf::new(alloc),
        }
    }

    fn of(&self, pid: u32) -> Process
        ensures { result ≡ process_at self.now.of pid }
    {
        match self.of.get(pid) {
            Some(process) => *process,
            None => FIRST,
        }
    }

    /// What a process has done.
    pub(crate) fn course(&self, pid: u32) -> Course
        ensures { result ≡ course_in self.now pid }
    {
        self.of(pid).course
    }

    /// One item more of the log, beside the calls of the reference.
    #[inline(always)]
    pub(crate) fn add(&mut self, calls: &Calls, item: &Item) -> Result<(), AllocError>
        ensures courses { OnOk result ((past : List LogItem) → AreCourses (course_in self.old) past
            → AreCourses (course_in self.new) (past ++ item.now ∷ [])) }
        ensures beside { OnOk result ((past : List LogItem) → GoBeside calls.now (likeness_in self.old) past
            → GoBeside calls.now (likeness_in self.new) (past ++ item.now ∷ [])) }
    {
        match item {
            Item::Enter { pid, call } => {
                enter(&mut self.of, *pid, call, calls)?;
                Ok(())
            }
            Item::Done { pid, call, .. } => {
                end(&mut self.of, *pid, call)?;
                Ok(())
            }
            _ => Ok(()),
        }
    }

    /// Each of these processes has made all calls of the reference's, and no other.
    #[tactic(auto, unfolding(sweep_rows::specs::Likeness::are_whole))]
    pub(crate) fn are_whole(&self, calls: &Calls, ended: &[Ended]) -> bool
        ensures { result ≡ are_whole calls.now (likeness_in self.now) ended.now }
    {
        let mut left = ended;
        while let Some((one, rest)) = left.split_first() {
            if !self.of(one.pid).likeness.is_whole(calls, one.pid) {
                return false;
            }
            left = rest;
        }
        true
    }
}

impl Clone for Processes {
    ghost is_clone = { λ a b. b ≡ a };

    fn clone(&self) -> Result<Self, AllocError> {
        Ok(Processes {
            of: self.of.clone()?,
        })
    }
}
