//! Which calls the processes of a run made.

ghost use Rattle.std.specs.Prelude.{◌≡◌, ◌==◌, ◌++◌, ◌∷◌, [], List, ℕ, cond, IfOk, OnOk};
ghost use Rattle.std.specs.FinMap as maps;
ghost use Rattle.lx_abi.specs.declared.log.Item.{Item as LogItem};
ghost use Rattle.sweep_rows.specs.Calls.{calls_in, numbers_in, AreCalls};

use containers::Seq;
use lx_abi::Item;
use shelves::Shelf;
use std::alloc::{AllocError, Global};

/// The numbers of each process's calls, in their order.
#[derive(Drop)]
pub struct Calls {
    alloc: Global,
    made: Shelf<Seq<u64>>,
}

impl Calls {
    /// Those of a run that begins.
    pub fn new(alloc: Global) -> Self
        ensures { AreCalls result [] }
    {
        Calls {
            alloc,
            made: Shelf::new(alloc),
        }
    }

    /// Those of a log.
    pub fn of(alloc: Global, log: &[Item]) -> Result<Self, AllocError>
        ensures { IfOk result (λ calls. AreCalls calls log.now) }
    {
        let mut calls = Calls::new(alloc);
        let mut left = log;
        while let Some((item, rest)) = left.split_first() {
            calls.add(item)?;
            left = rest;
        }
        Ok(calls)
    }

    /// Those of a process.
    pub(crate) fn by(&self, pid: u32) -> &[u64]
        ensures { result.now ≡ calls_in self.now pid }
    {
        match self.made.get(pid) {
            Some(numbers) => numbers.as_slice(),
            None => &[],
        }
    }

    /// Takes those of a process out.
    fn take(&mut self, pid: u32) -> Seq<u64>
        ensures numbers { result ≡ calls_in self.old pid }
        ensures rest { self.new.made ≡ maps.remove self.old.made pid }
    {
        match self.made.remove(pid) {
            Some(numbers) => numbers,
            None => Seq::new(self.alloc),
        }
    }

    /// A process has made one more.
    fn push(&mut self, pid: u32, number: u64) -> Result<(), AllocError>
        ensures { OnOk result ((p : ℕ)
            → calls_in self.new p ≡ calls_in self.old p ++ cond (pid == p) (number ∷ []) []) }
    {
        let mut numbers = self.take(pid);
        numbers.push(number)?;
        self.made.insert(pid, numbers)?;
        Ok(())
    }

    /// One item more of the log.
    #[tactic(auto, using(crate::proofs::Numbers::none_more))]
    fn add(&mut self, item: &Item) -> Result<(), AllocError>
        ensures { OnOk result
            ((past : List LogItem) → AreCalls self.old past → AreCalls self.new (past ++ item.now ∷ [])) }
    {
        let Item::Enter { pid, call } = item else {
            return Ok(());
        };
        self.push(*pid, call.number)?;
        Ok(())
    }
}
