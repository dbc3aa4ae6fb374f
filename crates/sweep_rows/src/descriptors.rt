//! What each descriptor of each process stands for, as a log tells it.

ghost use Rattle.std.specs.Prelude.{◌≡◌, ◌++◌, ◌∷◌, ◌==◌, [], ℕ, suc, true, not, filter, IfOk, OnOk};
ghost use Rattle.std.specs.FinMap as maps;
ghost use Rattle.sweep_rows.specs.Descriptors.{low, descriptor, is_failure, is_dup, unwritten, standard, at_boot};
ghost use Rattle.sweep_rows.specs.Descriptors.{with_use, with_child, after_call, after_item, use_in, held_of};
ghost use Rattle.sweep_rows.specs.Descriptors.{uses_in};

use containers::Map;
use lx_abi::{Call, Item, sys};
use std::alloc::{AllocError, Global};
use std::marker::Model;

/// What a descriptor stands for.
#[derive(Clone, Copy, Debug, PartialEq, Eq)]
pub enum Target {
    Input,
    Output,
    Error,
    /// What an openat opened, whose end stands here in the log.
    File(usize),
    /// A pipe, or nothing.
    Other,
}

/// What a descriptor stands for, and whether it was written to by it.
#[derive(Clone, Copy, Debug, PartialEq, Eq)]
pub struct Use {
    pub target: Target,
    pub wrote: bool,
}

/// A descriptor of a process.
#[derive(Clone, Copy, Debug, PartialEq, Eq)]
pub struct Held {
    pub number: u32,
    pub used: Use,
}

/// The descriptors of a process that something was told of. The others are as they were when the run began.
#[derive(Drop)]
pub(crate) struct Own {
    held: Vec<Held>,
}

impl Model for Own {
    ghost use Rattle.std.specs.Prelude.{List};
    ghost use Rattle.sweep_rows.specs.declared.descriptors.Held.{Held};

    ghost Value = { List Held };

    ghost view = { λ o. o.held.items };
}

/// What each descriptor of each process stands for after so many items of a log.
#[derive(Drop)]
pub struct Descriptors {
    alloc: Global,
    pub(crate) at: usize,
    processes: Map<Own>,
}

/// The word is an error's (syscall(2)).
pub fn is_failure(word: u64) -> bool
    ensures { result ≡ is_failure word }
{
    word > u64::MAX - 4095
}

fn is_dup(number: u64) -> bool
    ensures { result ≡ is_dup number }
{
    number == sys::SYS_DUP || number == sys::SYS_DUP3
}

/// A descriptor has the low 32 bits of a word.
fn low(word: u64) -> u32
    ensures { result ≡ low word }
{
    (word % (1 << 32)) as u32
}

/// The descriptor that a call has as its first argument.
pub fn descriptor(call: &Call) -> u32
    ensures { result ≡ descriptor call.now }
{
    low(call.arguments[0])
}

/// What a descriptor stands for when a run begins.
fn standard(number: u32) -> Target
    ensures { result ≡ standard number }
{
    if number == 0 {
        Target::Input
    } else if number == 1 {
        Target::Output
    } else if number == 2 {
        Target::Error
    } else {
        Target::Other
    }
}

fn unwritten(target: Target) -> Use
    ensures { result ≡ unwritten target }
{
    Use {
        target,
        wrote: false,
    }
}

fn find(held: &[Held], number: u32) -> Use
    ensures { result ≡ use_in held.now number }
{
    let mut left = held;
    while let Some((one, rest)) = left.split_first() {
        if number == one.number {
            return one.used;
        }
        left = rest;
    }
    unwritten(standard(number))
}

/// A descriptor stands for this from now on.
fn set_in(held: &mut Vec<Held>, number: u32, used: Use) -> Result<(), AllocError>
    ensures { OnOk result (held.new.items ≡ filter (λ h. not (number == h.number)) held.old.items
        ++ (record { number = number; used = used }) ∷ []) }
{
    held.retain(|one| number != one.number);
    held.push(Held { number, used })?;
    Ok(())
}

impl Own {
    fn new(alloc: Global) -> Self
        ensures { result ≡ [] }
    {
        Own {
            held: Vec::new(alloc),
        }
    }

    fn as_slice(&self) -> &[Held]
        ensures { result.now ≡ self.now }
    {
        self.held.as_slice()
    }

    /// A descriptor stands for this from now on.
    fn set(&mut self, number: u32, used: Use) -> Result<(), AllocError>
        ensures { OnOk result (self.new
            ≡ filter (λ h. not (number == h.number)) self.old ++ (record { number = number; used = used }) ∷ []) }
    {
        set_in(&mut self.held, number, used)?;
        Ok(())
    }
}

impl Clone for Own {
    ghost is_clone = { λ a b. b ≡ a };

    fn clone(&self) -> Result<Self, AllocError> {
        Ok(Own {
            held: self.held.clone()?,
        })
    }
}

impl Descriptors {
    pub fn new(alloc: Global) -> Self
        ensures uses { uses_in result ≡ at_boot }
        ensures at { result.at ≡ 0 }
    {
        Descriptors {
            alloc,
            at: 0,
            processes: Map::new(alloc),
        }
    }

    /// What a descriptor of a process stands for.
    pub fn use_of(&self, pid: u32, number: u32) -> Use
        ensures { result ≡ uses_in self.now pid number }
    {
        match self.processes.get(pid) {
            Some(own) => find(own.as_slice(), number),
            None => unwritten(standard(number)),
        }
    }

    /// Takes the descriptors of a process out.
    fn take(&mut self, pid: u32) -> Own
        ensures own { result ≡ held_of (maps.get self.old.processes pid) }
        ensures rest { self.new.processes ≡ maps.remove self.old.processes pid }
        ensures at { self.new.at ≡ self.old.at }
    {
        match self.processes.remove(pid) {
            Some(own) => own,
            None => Own::new(self.alloc),
        }
    }

    /// A descriptor of a process stands for this from now on.
    fn set(&mut self, pid: u32, number: u32, used: Use) -> Result<(), AllocError>
        ensures uses { OnOk result (uses_in self.new ≡ with_use pid number used (uses_in self.old)) }
        ensures at { self.new.at ≡ self.old.at }
    {
        let mut own = self.take(pid);
        own.set(number, used)?;
        self.processes.insert(pid, own)?;
        Ok(())
    }

    /// A descriptor of a process was written to, for the first time or again.
    fn write(&mut self, pid: u32, number: u32) -> Result<(), AllocError>
        ensures uses { OnOk result (uses_in self.new
            ≡ with_use pid number (record (uses_in self.old pid number) { wrote = true }) (uses_in self.old)) }
        ensures at { self.new.at ≡ self.old.at }
    {
        let used = self.use_of(pid, number);
        if used.wrote {
            return Ok(());
        }
        let wrote = true;
        self.set(pid, number, Use { wrote, ..used })?;
        Ok(())
    }

    /// A copy of the descriptors of a process.
    fn copy_of(&self, pid: u32) -> Result<Own, AllocError>
        ensures { IfOk result (λ own. own ≡ held_of (maps.get self.now.processes pid)) }
    {
        match self.processes.get(pid) {
            Some(own) => own.clone(),
            None => Ok(Own::new(self.alloc)),
        }
    }

    /// A child has its parent's.
    fn inherit(&mut self, parent: u32, child: u32) -> Result<(), AllocError>
        ensures uses { OnOk result (uses_in self.new ≡ with_child parent child (uses_in self.old)) }
        ensures at { self.new.at ≡ self.old.at }
    {
        let own = self.copy_of(parent)?;
        self.processes.insert(child, own)?;
        Ok(())
    }

    /// A call of a process was done, and has given this word.
    #[inline(always)]
    #[tactic(auto, unfolding(crate::specs::Descriptors::after_call))]
    fn add_call(&mut self, pid: u32, call: &Call, word: u64) -> Result<(), AllocError>
        ensures uses { OnOk result (uses_in self.new
            ≡ after_call self.old.at (uses_in self.old) pid call.now word) }
        ensures at { self.new.at ≡ self.old.at }
    {
        let number = descriptor(call);
        if call.number == sys::SYS_OPENAT {
            self.set(pid, low(word), unwritten(Target::File(self.at)))?;
            return Ok(());
        }
        if is_dup(call.number) {
            let used = self.use_of(pid, number);
            self.set(pid, low(word), used)?;
            return Ok(());
        }
        if call.number == sys::SYS_CLOSE {
            self.set(pid, number, unwritten(Target::Other))?;
            return Ok(());
        }
        if call.number == sys::SYS_WRITE {
            self.write(pid, number)?;
            return Ok(());
        }
        if call.number == sys::SYS_CLONE {
            self.inherit(pid, low(word))?;
        }
        Ok(())
    }

    /// One item more, wherever it stands.
    #[inline(always)]
    #[tactic(auto, unfolding(crate::specs::Descriptors::after_item))]
    fn add_item(&mut self, item: &Item) -> Result<(), AllocError>
        ensures uses { OnOk result (uses_in self.new ≡ after_item self.old.at item.now (uses_in self.old)) }
        ensures at { self.new.at ≡ self.old.at }
    {
        if let Item::Done {
            pid,
            call,
            result: word,
            replaced,
        } = item
        {
            if *replaced || is_failure(*word) {
                return Ok(());
            }
            self.add_call(*pid, call, *word)?;
        }
        Ok(())
    }

    /// One item more of the log.
    #[inline(always)]
    pub fn add(&mut self, item: &Item) -> Result<(), AllocError>
        ensures uses { OnOk result (uses_in self.new ≡ after_item self.old.at item.now (uses_in self.old)) }
        ensures at { OnOk result (self.new.at ≡ suc self.old.at) }
    {
        // More items than a word counts are more than any memory holds.
        let Some(next) = self.at.checked_add(1) else {
            return Err(AllocError);
        };
        self.add_item(item)?;
        self.at = next;
        Ok(())
    }
}

impl Clone for Descriptors {
    ghost is_clone = { λ a b. b ≡ a };

    fn clone(&self) -> Result<Self, AllocError> {
        Ok(Descriptors {
            alloc: self.alloc,
            at: self.at,
            processes: self.processes.clone()?,
        })
    }
}
