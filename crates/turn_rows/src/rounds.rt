//! Rounds of turns: what they are, and one turn more.

ghost use Rattle.std.specs.Prelude.{◌≡◌, ◌++◌, ◌∷◌, [], if◌then◌else◌, IfOk, take};
ghost use Rattle.turn_rows.specs.Cycles.{cycled, LengthensTo};

use crate::cycle::Cycle;
use std::alloc::{AllocError, Global};

/// A row of fewer turns than this is written out where it doesn't go on as it began, and begins anew.
const SHORT: u64 = 256;

impl Cycle {
    /// A round of two turns.
    pub(crate) fn of(alloc: Global, first: u32, second: u32) -> Result<Self, AllocError>
        ensures { IfOk result (λ c. cycled c ≡ first ∷ second ∷ []) }
    {
        let mut pids = Vec::new(alloc);
        pids.push(first)?;
        pids.push(second)?;
        Ok(Cycle {
            pids,
            rounds: 1,
            at: 0,
        })
    }

    /// The processes of a round.
    pub(crate) fn round(&self) -> &[u32]
        ensures { result.now ≡ self.now.pids.items }
    {
        self.pids.as_slice()
    }

    /// How many whole rounds there were.
    pub(crate) fn rounds(&self) -> u64
        ensures { result ≡ self.now.rounds }
    {
        self.rounds
    }

    /// The turns behind them.
    pub(crate) fn rest(&self) -> &[u32]
        ensures { result.now ≡ take self.now.at self.now.pids.items }
    {
        &self.pids.as_slice()[..self.at]
    }

    /// One more turn, where it is the one that comes next.
    pub(crate) fn goes_on(&mut self, pid: u32) -> bool
        ensures { cycled self.new ≡ (if result then cycled self.old ++ pid ∷ [] else cycled self.old) }
    {
        if self.pids[self.at] != pid || self.rounds == u64::MAX {
            return false;
        }
        if self.at + 1 == self.pids.len() {
            self.rounds += 1;
            self.at = 0;
        } else {
            self.at += 1;
        }
        true
    }

    /// There were so few turns that they may be written out.
    fn is_short(&self) -> bool {
        let length = self.pids.len() as u64;
        self.rounds < SHORT && length < SHORT && self.rounds * length + (self.at as u64) < SHORT
    }

    /// The turns one by one.
    fn written_out(&self, alloc: Global) -> Result<Vec<u32>, AllocError>
        ensures { IfOk result (λ pids. pids.items ≡ cycled self.now) }
    {
        let mut pids = Vec::new(alloc);
        for _ in 0..self.rounds {
            pids.extend_from_slice(self.pids.as_slice())?;
        }
        pids.extend_from_slice(self.rest())?;
        Ok(pids)
    }

    /// One more turn in a longer round, where there were few.
    pub(crate) fn lengthen(&mut self, alloc: Global, pid: u32) -> Result<bool, AllocError>
        ensures { LengthensTo (cycled self.old) pid result (cycled self.new) }
    {
        if !self.is_short() {
            return Ok(false);
        }
        let mut pids = self.written_out(alloc)?;
        pids.push(pid)?;
        self.pids = pids;
        self.rounds = 1;
        self.at = 0;
        Ok(true)
    }
}
