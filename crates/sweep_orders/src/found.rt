//! The results of runs, each told once.

ghost use Rattle.std.specs.Prelude.{◌≡◌, IfOk, OnOk};
ghost use Rattle.std.specs.Bool.{Decides};
ghost use Rattle.sweep_orders.specs.Found.{IsSame, CountsIn, Counts, CountsAll, IsPlace, more, times_after, none_told};
ghost use Rattle.sweep_orders.specs.Orders.{told_of};

use crate::trials::Trial;
use containers::Seq;
use lx_abi::Word;
use std::alloc::{AllocError, Global};
use std::collections::VecDeque;
use sweep_rows::{Ending, ends_as, leaves_the_same};
use turn_orders::Met;

/// A result, and a schedule by which a run has it.
#[derive(Drop)]
pub struct Found {
    pub ending: Ending,
    /// How many different orders had it.
    pub times: u64,
    /// The schedule's words, as few as any that was tried.
    pub words: Seq<Word>,
}

/// Both have come to their end or neither, with one status, console and files.
fn is_same(a: &Ending, b: &Ending) -> Result<bool, AllocError>
    ensures { IfOk result (λ same. Decides same (IsSame a.now b.now)) }
{
    let leaves = leaves_the_same(&a.outcome, &b.outcome)?;
    Ok(a.alive == b.alive && ends_as(a, b) && leaves)
}

/// The place of the result that a run has, if one was found.
fn place_of(found: &[Found], ending: &Ending) -> Result<Option<usize>, AllocError>
    ensures { IfOk result (IsPlace found.now ending.now) }
{
    let mut place = 0;
    while place < found.len() {
        if is_same(&found[place].ending, ending)? {
            return Ok(Some(place));
        }
        place += 1;
    }
    Ok(None)
}

/// How many different orders have a result, of which there was one more run, by a new order or not.
fn times_after(times: u64, new: bool) -> u64
    ensures { result ≡ times_after times new }
{
    if new { times.saturating_add(1) } else { times }
}

impl Found {
    /// Once more, by a new order or not, and by these words where they are fewer.
    fn again(&mut self, new: bool, words: Seq<Word>)
        ensures { self.new ≡ more self.old new words }
    {
        self.times = times_after(self.times, new);
        if words.as_slice().len() < self.words.as_slice().len() {
            self.words = words;
        }
    }
}

/// Counts a run by these words that left this, by a new order or not.
fn count(
    found: &mut Vec<Found>,
    new: bool,
    ending: Ending,
    words: Seq<Word>,
) -> Result<(), AllocError>
    ensures { OnOk result (CountsIn found.old.items new ending words found.new.items) }
{
    match place_of(found.as_slice(), &ending)? {
        Some(place) => found[place].again(new, words),
        None => found.push(Found {
            ending,
            times: 1,
            words,
        })?,
    }
    Ok(())
}

/// What is told of runs: their results, and the orders that they had.
#[derive(Drop)]
pub struct Results {
    pub found: Vec<Found>,
    pub met: Met,
}

impl Results {
    pub fn new(alloc: Global) -> Self
        ensures { told_of result ≡ none_told }
    {
        Results {
            found: Vec::new(alloc),
            met: Met::new(alloc),
        }
    }

    /// Counts a run.
    fn count(&mut self, trial: Trial) -> Result<(), AllocError>
        ensures { OnOk result (Counts (told_of self.old) trial (told_of self.new)) }
    {
        let Trial {
            words,
            ending,
            order,
        } = trial;
        let new = self.met.add(order)?;
        count(&mut self.found, new, ending, words)?;
        Ok(())
    }

    /// Counts the runs by the plans from a number on.
    pub fn count_all(&mut self, trials: &mut VecDeque<Trial>) -> Result<(), AllocError>
        ensures { OnOk result (CountsAll trials.old.items (told_of self.old) (told_of self.new)) }
    {
        while let Some(trial) = trials.pop_front() {
            self.count(trial)?;
        }
        Ok(())
    }
}
