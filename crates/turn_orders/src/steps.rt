//! The steps of a run, by its log.

ghost use Rattle.std.specs.Prelude.{◌≡◌, ◌++◌, [], ◌∷◌, cond, IfOk, OnOk};
ghost use Rattle.std.specs.Option.{option_to_list};
ghost use Rattle.turn_orders.specs.Steps.{doer, current_after, begins, births, no_steps, steps_with, steps_of};

use containers::Seq;
use lx_abi::Item;
use lx_abi::sys::SYS_CLONE;
use std::alloc::{AllocError, Global};

/// What a log tells so far.
#[derive(Drop)]
pub struct Steps {
    /// Whose each step is.
    pub pids: Seq<u32>,
    /// The processes, in the order of their births.
    pub born: Seq<u32>,
    /// The process whose step is under way.
    pub current: Option<u32>,
}

/// Who did what an item tells.
pub(crate) fn doer(item: &Item) -> u32
    ensures { result ≡ doer item.now }
{
    match item {
        Item::Enter { pid, .. }
        | Item::Done { pid, .. }
        | Item::Taken { pid, .. }
        | Item::Stopped { pid, .. }
        | Item::Exit { pid, .. } => *pid,
    }
}

/// Whose step is under way after an item.
fn current_after(item: &Item) -> Option<u32>
    ensures { result ≡ current_after item.now }
{
    match item {
        Item::Done { .. } => None,
        Item::Enter { pid, .. }
        | Item::Taken { pid, .. }
        | Item::Stopped { pid, .. }
        | Item::Exit { pid, .. } => Some(*pid),
    }
}

/// A step begins with what this process does.
pub(crate) fn begins(current: Option<u32>, pid: u32) -> bool
    ensures { result ≡ begins current pid }
{
    match current {
        None => true,
        Some(other) => other != pid,
    }
}

/// The child that an item tells the birth of.
fn child(item: &Item) -> Option<u32>
    ensures { option_to_list result ≡ births item.now }
{
    match item {
        Item::Done { call, result, .. } if call.number == SYS_CLONE => u32::try_from(*result).ok(),
        _ => None,
    }
}

impl Steps {
    /// Before a log: no step, and the first process alone.
    pub fn none(alloc: Global) -> Result<Self, AllocError>
        ensures { IfOk result (λ s. s ≡ no_steps) }
    {
        let mut born = Seq::new(alloc);
        born.push(1)?;
        Ok(Steps {
            pids: Seq::new(alloc),
            born,
            current: None,
        })
    }

    /// A process does something: a step begins, if its own isn't under way.
    fn step(&mut self, pid: u32) -> Result<(), AllocError>
        ensures pids { OnOk result (self.new.pids
            ≡ self.old.pids ++ cond (begins self.old.current pid) (pid ∷ []) []) }
        ensures born { self.new.born ≡ self.old.born }
    {
        if begins(self.current, pid) {
            self.pids.push(pid)?;
        }
        Ok(())
    }

    /// A child is born, if there is one.
    fn bear(&mut self, child: Option<u32>) -> Result<(), AllocError>
        ensures born { OnOk result (self.new.born ≡ self.old.born ++ option_to_list child) }
        ensures pids { self.new.pids ≡ self.old.pids }
    {
        if let Some(child) = child {
            self.born.push(child)?;
        }
        Ok(())
    }

    /// One item more of the log.
    pub fn add(&mut self, item: &Item) -> Result<(), AllocError>
        ensures { OnOk result (self.new ≡ steps_with self.old item.now) }
    {
        self.step(doer(item))?;
        self.bear(child(item))?;
        self.current = current_after(item);
        Ok(())
    }
}

/// The steps of a log, and the processes that it has.
#[tactic(auto, unfolding(crate::specs::Steps::steps_of))]
pub fn steps_of(alloc: Global, log: &[Item]) -> Result<Steps, AllocError>
    ensures { IfOk result (λ s. s ≡ steps_of log.now) }
{
    let mut steps = Steps::none(alloc)?;
    let mut left = log;
    while let Some((item, rest)) = left.split_first() {
        steps.add(item)?;
        left = rest;
    }
    Ok(steps)
}
