//! A row of turns.

ghost use Rattle.std.specs.Prelude.{◌≡◌, ◌++◌, ◌∷◌, [], if◌then◌else◌, MatchOption, IfOk, replicate};
ghost use Rattle.turn_rows.specs.Cycles.{turns_in, round_in, rounds_in, rest_in, LengthensTo};

use crate::cycle::Cycle;
use std::alloc::{AllocError, Global};
use std::slice::from_ref;

/// Turns of one process in a row, or of several in a cycle.
#[derive(Drop)]
pub enum TurnRow {
    Run { pid: u32, turns: u64 },
    Cycle(Box<Cycle>),
}

impl TurnRow {
    /// The processes of a round.
    pub fn round(&self) -> &[u32]
        ensures { result.now ≡ round_in self.now }
    {
        match self {
            TurnRow::Run { pid, .. } => from_ref(pid),
            TurnRow::Cycle(cycle) => cycle.round(),
        }
    }

    /// How many rounds there were.
    pub fn rounds(&self) -> u64
        ensures { result ≡ rounds_in self.now }
    {
        match self {
            TurnRow::Run { turns, .. } => *turns,
            TurnRow::Cycle(cycle) => cycle.rounds(),
        }
    }

    /// The turns behind them.
    pub fn rest(&self) -> &[u32]
        ensures { result.now ≡ rest_in self.now }
    {
        match self {
            TurnRow::Run { pid, .. } => &from_ref(pid)[..0],
            TurnRow::Cycle(cycle) => cycle.rest(),
        }
    }
}

/// More turns of a row, where they are its process's.
pub(crate) fn add(row: &mut TurnRow, pid: u32, more: u64) -> bool
    ensures { turns_in row.new ≡ (if result then turns_in row.old ++ replicate more pid else turns_in row.old) }
{
    match row {
        TurnRow::Run { pid: last, turns } if *last == pid && *turns <= u64::MAX - more => {
            *turns += more;
            true
        }
        _ => false,
    }
}

/// One more turn of a row as it goes on: of its process, or of the one that comes next in its cycle.
pub(crate) fn goes_on(row: &mut TurnRow, pid: u32) -> bool
    ensures { turns_in row.new ≡ (if result then turns_in row.old ++ pid ∷ [] else turns_in row.old) }
{
    if let TurnRow::Cycle(cycle) = row {
        return cycle.goes_on(pid);
    }
    add(row, pid, 1)
}

/// What a row of one turn becomes by a turn of another process.
fn cycle_of(alloc: Global, row: &TurnRow, pid: u32) -> Result<Option<TurnRow>, AllocError>
    ensures { IfOk result (λ longer. MatchOption longer (Unit {0}) (λ r. turns_in r ≡ turns_in row.now ++ pid ∷ [])) }
{
    match row {
        TurnRow::Run { pid: last, turns } if *turns == 1 => {
            let cycle = Box::new(alloc, Cycle::of(alloc, *last, pid)?)?;
            Ok(Some(TurnRow::Cycle(cycle)))
        }
        _ => Ok(None),
    }
}

/// One more turn of a row that doesn't go on with it, where it isn't another row's.
pub(crate) fn lengthen(alloc: Global, row: &mut TurnRow, pid: u32) -> Result<bool, AllocError>
    ensures { LengthensTo (turns_in row.old) pid result (turns_in row.new) }
{
    if let TurnRow::Cycle(cycle) = row {
        return cycle.lengthen(alloc, pid);
    }
    match cycle_of(alloc, row, pid)? {
        None => Ok(false),
        Some(longer) => {
            *row = longer;
            Ok(true)
        }
    }
}
