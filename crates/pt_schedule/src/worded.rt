//! Words, and then the default schedule.

ghost use Rattle.std.specs.Prelude.{◌≡◌, ◌-◌, ◌<◌, min, []};
ghost use Rattle.pt_schedule.specs.Schedules.{turn_with, turn_of, serve_of, end_of, next_row, go_on, by_default, by_word, goes_on, after_serves, next_worded, left_in_row};
ghost use Rattle.pt_schedule.specs.Turns.{from_turn};
ghost use Rattle.pt_schedule.specs.Rows.{by_row, by_return, by_either, by_last, row_after, worded_after};

use crate::cycle::next_able;
use crate::queue::TurnQueue;
use crate::schedule::TurnRun;
use crate::system::Schedulable;
use lx_abi::{Event, Word};
use std::alloc::AllocError;

/// The most turns in a row that one process has while another is able.
const MOST_IN_A_ROW: u32 = 1000;

/// Whose turn was last, and how many more it may have in a row.
#[derive(Clone, Copy, Debug, PartialEq, Eq)]
pub struct Row {
    pub pid: u32,
    pub left: u32,
}

/// A word `p.` under way: whether the last turn of its process began where a call was finished.
#[derive(Clone, Copy, Debug, PartialEq, Eq)]
pub struct Returning {
    pub pid: u32,
    pub finished: bool,
}

/// Words, and then the default schedule.
#[derive(Drop)]
pub struct Worded {
    pub words: TurnQueue<Word>,
    /// Requests are served while one is ready.
    pub serving: bool,
    pub returning: Option<Returning>,
    pub row: Option<Row>,
    /// How many events may still come.
    pub left: u64,
}

impl Clone for Worded {
    ghost is_clone = { λ a b. b ≡ a };

    fn clone(&self) -> Result<Self, AllocError> {
        Ok(Worded {
            words: self.words.clone()?,
            serving: self.serving,
            returning: self.returning,
            row: self.row,
            left: self.left,
        })
    }
}

impl Worded {
    /// A turn of a process, which may have so many more in a row.
    #[inline(always)]
    fn turn(&mut self, pid: u32, left: u32) -> Option<Event>
        requires { 0 < self.old.left }
        ensures { record { event = result; schedule = self.new } ≡ turn_with self.old pid left }
    {
        self.row = Some(Row { pid, left });
        self.left -= 1;
        Some(Event::Turn { pid })
    }

    /// How many more turns a process may have in a row after its next one.
    fn left_in_row(&self, pid: u32) -> u32
        ensures { result ≡ left_in_row pid self.now.row }
    {
        match self.row {
            Some(row) if row.pid == pid => row.left.saturating_sub(1),
            Some(_) | None => MOST_IN_A_ROW - 1,
        }
    }

    #[inline(always)]
    fn serve(&mut self) -> Option<Event>
        requires { 0 < self.old.left }
        ensures { record { event = result; schedule = self.new } ≡ serve_of self.old }
    {
        self.left -= 1;
        Some(Event::Serve)
    }

    /// It ends for good.
    fn end(&mut self) -> Option<Event>
        ensures { record { event = result; schedule = self.new } ≡ end_of self.old }
    {
        self.left = 0;
        None
    }

    fn next_row(&mut self, next: Option<u32>) -> Option<Event>
        requires { 0 < self.old.left }
        ensures { record { event = result; schedule = self.new } ≡ next_row self.old next }
    {
        match next {
            None => self.end(),
            Some(pid) => self.turn(pid, MOST_IN_A_ROW - 1),
        }
    }

    /// A turn by the default schedule.
    #[inline(always)]
    fn go_on<S: Schedulable>(&mut self, system: &S) -> Option<Event>
        requires { 0 < self.old.left }
        ensures { record { event = result; schedule = self.new }
            ≡ go_on self.old (S.readiness system.now) self.old.row }
    {
        match self.row {
            None => self.next_row(next_able(system, 0)),
            Some(row) => {
                if system.is_able(row.pid) && row.left > 0 {
                    self.turn(row.pid, row.left - 1)
                } else {
                    self.next_row(next_able(system, row.pid))
                }
            }
        }
    }

    #[inline(always)]
    fn next_by_default<S: Schedulable>(&mut self, system: &S) -> Option<Event>
        requires { 0 < self.old.left }
        ensures { record { event = result; schedule = self.new } ≡ by_default self.old (S.readiness system.now) }
    {
        if system.is_ready() {
            self.serve()
        } else {
            self.go_on(system)
        }
    }

    /// A turn by a word, after which requests may be served.
    #[inline(always)]
    fn turn_by_word(
        &mut self,
        pid: u32,
        serving: bool,
        returning: Option<Returning>,
    ) -> Option<Event>
        requires { 0 < self.old.left }
        ensures { record { event = result; schedule = self.new }
            ≡ turn_of (record self.old { serving = serving; returning = returning }) pid }
    {
        self.serving = serving;
        self.returning = returning;
        let left = self.left_in_row(pid);
        self.turn(pid, left)
    }

    /// The next word begins.
    #[inline(always)]
    fn next_word<S: Schedulable>(&mut self, system: &S) -> Option<Event>
        requires { 0 < self.old.left }
        ensures { record { event = result; schedule = self.new }
            ≡ by_word self.old (S.readiness system.now) self.old.words }
    {
        match self.words.pop() {
            None => {
                self.serving = true;
                self.returning = None;
                self.next_by_default(system)
            }
            Some(Word::Turn { pid }) => self.turn_by_word(pid, true, None),
            Some(Word::TurnAlone { pid }) => self.turn_by_word(pid, false, None),
            Some(Word::Serve) => {
                self.serving = false;
                self.returning = None;
                self.serve()
            }
            Some(Word::UntilReturn { pid }) => {
                let finished = system.has_finished(pid);
                self.turn_by_word(pid, true, Some(Returning { pid, finished }))
            }
        }
    }

    /// What comes once requests were served.
    #[inline(always)]
    fn after_serves<S: Schedulable>(&mut self, system: &S) -> Option<Event>
        requires { 0 < self.old.left }
        ensures { record { event = result; schedule = self.new }
            ≡ after_serves self.old (S.readiness system.now) self.old.returning }
    {
        match self.returning {
            Some(Returning { pid, finished }) if goes_on(system, pid, finished) => {
                let finished = system.has_finished(pid);
                let serving = self.serving;
                self.turn_by_word(pid, serving, Some(Returning { pid, finished }))
            }
            Some(_) | None => self.next_word(system),
        }
    }

    #[inline(always)]
    pub fn next<S: Schedulable>(&mut self, system: &S) -> Option<Event>
        ensures { record { event = result; schedule = self.new } ≡ next_worded self.old (S.readiness system.now) }
    {
        if self.left == 0 {
            return None;
        }
        if self.serving && system.is_ready() {
            self.serve()
        } else {
            self.after_serves(system)
        }
    }

    /// The words before the next turn are passed over.
    pub fn pass_serves(&mut self)
        ensures { self.new ≡ record self.old { words = from_turn self.old.words } }
    {
        self.words.pass_serves();
    }

    /// Turns of the process whose turn was last.
    fn run_of(&self, row: Row) -> Option<TurnRun>
        ensures { result ≡ by_either self.now row self.now.returning }
    {
        match self.returning {
            None if self.words.first().is_none() => by_row(self.serving, self.left, row),
            None => None,
            Some(returning) => by_return(self.left, row, returning),
        }
    }

    /// Turns of one process that come next, as long as nothing else does.
    pub fn run(&self) -> Option<TurnRun>
        ensures { result ≡ by_last self.now self.now.row }
    {
        match self.row {
            None => None,
            Some(row) => self.run_of(row),
        }
    }

    /// So many turns of the last process were made.
    pub fn pass(&mut self, turns: u64)
        ensures { self.new ≡ worded_after self.old turns }
    {
        self.row = row_after(turns, self.row);
        self.left = self.left.saturating_sub(turns);
    }
}

/// The turns that a row of the default schedule still has.
fn by_row(serving: bool, left: u64, row: Row) -> Option<TurnRun>
    ensures { result ≡ by_row serving left row [] }
{
    if serving {
        Some(TurnRun {
            pid: row.pid,
            turns: left.min(u64::from(row.left)),
        })
    } else {
        None
    }
}

/// The turns by a word `p.` whose last turn did not begin at the end of a call.
fn by_return(left: u64, row: Row, returning: Returning) -> Option<TurnRun>
    ensures { result ≡ by_return left row returning }
{
    if returning.pid == row.pid && !returning.finished {
        Some(TurnRun {
            pid: row.pid,
            turns: left,
        })
    } else {
        None
    }
}

/// A row after so many of its turns.
fn row_after(turns: u64, row: Option<Row>) -> Option<Row>
    ensures { result ≡ row_after turns row }
{
    let row = row?;
    let left = u64::from(row.left).saturating_sub(turns);
    Some(Row {
        pid: row.pid,
        left: left as u32,
    })
}

/// A word `p.` goes on.
fn goes_on<S: Schedulable>(system: &S, pid: u32, finished: bool) -> bool
    ensures { result ≡ goes_on (S.readiness system.now) (record { pid = pid; finished = finished }) }
{
    system.is_able(pid) && !(finished && !system.has_finished(pid))
}
