//! What is heard of a run, item by item.

ghost use Rattle.std.specs.Prelude.{◌≡◌, ◌-◌, ◌++◌, ◌∷◌, ◌↔◌, [], List, false, IfOk, IsTrue, OnOk};
ghost use Rattle.std.specs.Option.{option_to_list};
ghost use Rattle.lx_abi.specs.declared.log.Item.{Item as LogItem};
ghost use Rattle.lx_abi.specs.Log.{entries};
ghost use Rattle.sweep_rows.specs.Calls.{AreCalls, same_calls};
ghost use Rattle.sweep_rows.specs.Known.{IsKnown};
ghost use Rattle.sweep_rows.specs.Streams.{streams_of};
ghost use Rattle.sweep_rows.specs.declared.calls.Calls.{Calls as CallsMade};
ghost use Rattle.sweep_faults.specs.Faults.{last_asked, was_last};
ghost use Rattle.sweep_faults.specs.Heard.{Hears, HearsBeside};
ghost use Rattle.sweep_faults.specs.Led.{entered};
ghost use Rattle.sweep_faults.specs.Words.{AreFewer};

use crate::entries::Entries;
use crate::faults::{Fault, Place};
use crate::processes::Processes;
use history::History;
use lx_abi::{Ended, Item};
use std::alloc::{AllocError, Global};
use sweep_rows::{Calls, Known, RunLog, Said, Streams};

/// What a run has told so far, whichever failure it has.
#[derive(Drop)]
pub struct Heard {
    log: History<Item>,
    entries: Entries,
    processes: Processes,
    known: Known,
    said: Said,
}

impl Heard {
    /// A run that begins has told nothing.
    pub fn new(alloc: Global) -> Self
        ensures { (calls : CallsMade) → HearsBeside calls result [] }
    {
        Heard {
            log: History::new(),
            entries: Entries::new(alloc),
            processes: Processes::new(alloc),
            known: Known::new(alloc),
            said: Said::new(alloc),
        }
    }

    #[inline(always)]
    fn hear_item(&mut self, item: &Item, calls: &Calls) -> Result<(), AllocError>
        ensures { OnOk result ((log : List LogItem) → HearsBeside calls.now self.old log
            → HearsBeside calls.now self.new (log ++ item.now ∷ [])) }
    {
        self.entries.add(item)?;
        self.processes.add(calls, item)?;
        self.said.add(&self.known, item)?;
        self.known.add(item)?;
        self.log = self.log.and(item);
        Ok(())
    }

    /// A turn has logged this, beside a reference that made these calls.
    #[inline(always)]
    #[tactic(auto, using(crate::proofs::Hearing::still_heard))]
    pub(crate) fn hear(&mut self, item: &Option<Item>, calls: &Calls) -> Result<(), AllocError>
        ensures { OnOk result ((log : List LogItem) → HearsBeside calls.now self.old log
            → HearsBeside calls.now self.new (log ++ option_to_list item.now)) }
    {
        match item {
            None => Ok(()),
            Some(item) => self.hear_item(item, calls),
        }
    }

    /// How often a process has entered a call.
    pub(crate) fn entries(&self, pid: u32, call: u64) -> u64
        ensures { (log : List LogItem) → Hears self.now log → result ≡ entries pid call log }
    {
        self.entries.of(pid, call)
    }

    /// How many entries come up to a place; none where it has come.
    pub(crate) fn left_to(&self, place: Place) -> u64
        ensures { (log : List LogItem) → Hears self.now log → result ≡ place.n - entered place log }
    {
        place.n.saturating_sub(self.entries(place.pid, place.call))
    }

    /// The call is the one that a process has done last.
    pub(crate) fn was_last(&self, pid: u32, call: u64) -> bool
        ensures { (log : List LogItem) → Hears self.now log → result ≡ was_last pid call false log }
    {
        self.processes.course(pid).is_done(call)
    }

    /// The count that a process's last entry into a call asks for.
    pub(crate) fn asked(&self, pid: u32) -> u64
        ensures { (log : List LogItem) → Hears self.now log → result ≡ last_asked pid 0 log }
    {
        self.processes.course(pid).asked
    }

    pub(crate) fn known(&self) -> &Known
        ensures { (log : List LogItem) → Hears self.now log → IsKnown log result.now }
    {
        &self.known
    }

    /// No other process has entered the failure's call so often.
    pub(crate) fn are_fewer(&self, fault: Fault) -> bool
        ensures { (log : List LogItem) → Hears self.now log → IsTrue result ↔ AreFewer fault log }
    {
        self.entries.are_fewer(fault)
    }

    /// What was logged, which nobody kept.
    pub fn log(&self) -> RunLog
        ensures { (log : List LogItem) → Hears self.now log → result.items ≡ log }
    {
        RunLog::unkept(self.log.again())
    }

    /// The console of the run, parted.
    pub fn streams(&self, alloc: Global, console: &[u8]) -> Result<Streams, AllocError>
        ensures { IfOk result (λ s. (log : List LogItem) → Hears self.now log → s ≡ streams_of log console.now) }
    {
        let streams = self.said.streams(alloc, console)?;
        Ok(streams)
    }

    /// Each of these processes made the same calls as in the reference, which made these.
    pub fn are_alike(&self, calls: &Calls, ended: &[Ended]) -> bool
        ensures { (reference log : List LogItem) → AreCalls calls.now reference → HearsBeside calls.now self.now log
            → result ≡ same_calls reference log ended.now }
    {
        self.processes.are_whole(calls, ended)
    }
}

impl Clone for Heard {
    ghost use Rattle.std.specs.Prelude.{List};
    ghost use Rattle.lx_abi.specs.declared.log.Item.{Item as LogItem};
    ghost use Rattle.sweep_rows.specs.declared.calls.Calls.{Calls as CallsMade};
    ghost use Rattle.sweep_faults.specs.Heard.{HearsBeside};

    ghost is_clone = { λ a b. (calls : CallsMade) (log : List LogItem)
        → HearsBeside calls a log → HearsBeside calls b log };

    fn clone(&self) -> Result<Self, AllocError> {
        Ok(Heard {
            log: self.log.again(),
            entries: self.entries.clone()?,
            processes: self.processes.clone()?,
            known: self.known.clone()?,
            said: self.said.clone()?,
        })
    }
}
