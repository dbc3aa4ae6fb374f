//! How often each process has entered each call.

ghost use Rattle.std.specs.Prelude.{◌≡◌, ◌≤◌, ◌<◌, ◌+◌, ◌-◌, ◌==◌, ◌&&◌, ◌↔◌, ◌++◌, ◌∷◌, [], List, ℕ, IsTrue, OnOk};
ghost use Rattle.std.specs.Prelude.{if◌then◌else◌};
ghost use Rattle.std.specs.List.{list_any, range_with_len};
ghost use Rattle.lx_abi.specs.declared.log.Item.{Item as LogItem};
ghost use Rattle.lx_abi.specs.Occurrences.{count_of};
ghost use Rattle.sweep_faults.specs.Entries.{AreEntries};
ghost use Rattle.sweep_faults.specs.Words.{AreFewer, is_others};

use crate::faults::Fault;
use lx_abi::{Item, Occurrences};
use std::alloc::{AllocError, Global};

/// Entries of each process into each call.
#[derive(Drop)]
pub struct Entries {
    counts: Occurrences,
    /// No process from this number on has entered any.
    above: u32,
}

impl Entries {
    /// None so far.
    pub(crate) fn new(alloc: Global) -> Self
        ensures { AreEntries result [] }
    {
        Entries {
            counts: Occurrences::new(alloc),
            above: 0,
        }
    }

    /// How often a process has entered a call.
    pub(crate) fn of(&self, pid: u32, call: u64) -> u64
        ensures { result ≡ count_of self.now.counts pid call }
    {
        self.counts.latest(pid, call)
    }

    /// A process has entered a call.
    fn count(&mut self, pid: u32, call: u64) -> Result<(), AllocError>
        ensures counts { OnOk result ((p n : ℕ) → count_of self.new.counts p n
            ≡ (if (p == pid) && (n == call) then 1 else 0) + count_of self.old.counts p n) }
        ensures before { OnOk result (self.old.above ≤ self.new.above) }
        ensures above { OnOk result (pid < self.new.above) }
    {
        // Processes that 32 bits don't number are more than any memory holds.
        let Some(above) = pid.checked_add(1) else {
            return Err(AllocError);
        };
        self.counts.count(pid, call)?;
        self.above = self.above.max(above);
        Ok(())
    }

    /// One item more of the log.
    pub(crate) fn add(&mut self, item: &Item) -> Result<(), AllocError>
        ensures { OnOk result
            ((past : List LogItem) → AreEntries self.old past → AreEntries self.new (past ++ item.now ∷ [])) }
    {
        let Item::Enter { pid, call } = item else {
            return Ok(());
        };
        self.count(*pid, call.number)?;
        Ok(())
    }

    /// It is another process than the failure's, and has entered the call so often.
    fn is_others(&self, fault: Fault, pid: u32) -> bool
        ensures { result ≡ is_others fault self.now.counts pid }
    {
        pid != fault.pid && fault.n <= self.counts.latest(pid, fault.call)
    }

    /// One has.
    fn has_others(&self, fault: Fault) -> bool
        ensures { result ≡ list_any (is_others fault self.now.counts) (range_with_len 0 (self.now.above - 0)) }
    {
        (0..self.above).any(|pid| self.is_others(fault, pid))
    }

    /// No other process has entered the failure's call so often.
    pub(crate) fn are_fewer(&self, fault: Fault) -> bool
        ensures { (log : List LogItem) → AreEntries self.now log → IsTrue result ↔ AreFewer fault log }
    {
        if fault.n == 0 {
            return false;
        }
        !self.has_others(fault)
    }
}

impl Clone for Entries {
    ghost use Rattle.std.specs.Prelude.{◌≡◌, List};
    ghost use Rattle.lx_abi.specs.declared.log.Item.{Item as LogItem};
    ghost use Rattle.sweep_faults.specs.Entries.{AreEntries};

    ghost is_clone = { λ a b. (log : List LogItem) → AreEntries a log → AreEntries b log };

    fn clone(&self) -> Result<Self, AllocError> {
        Ok(Entries {
            counts: self.counts.clone()?,
            above: self.above,
        })
    }
}
