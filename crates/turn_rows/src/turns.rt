//! Turns in the order in which they were made.

ghost use Rattle.std.specs.Prelude.{◌≡◌, ◌++◌, [], ◌∷◌, OnOk, OnErr, if◌then◌else◌, replicate};
ghost use Rattle.turn_rows.specs.Cycles.{turns_in, all_turns, LengthensTo};

use crate::row::{TurnRow, add, goes_on, lengthen};
use std::alloc::{AllocError, Global};
use std::marker::Model;

/// Turns, which contracts see as the list of their pids. Many in a row of one process take no room, nor do many rounds
/// of several processes; any others take some five bytes each.
#[derive(Drop)]
pub struct Turns {
    alloc: Global,
    rows: Vec<TurnRow>,
}

impl Model for Turns {
    ghost use Rattle.std.specs.Prelude.{ℕ, List};
    ghost use Rattle.turn_rows.specs.Cycles.{all_turns};

    ghost Value = { List ℕ };

    ghost view = { λ t. all_turns t.rows.items };
}

/// One more turn of the last row as it goes on.
fn last_goes_on(rows: &mut Vec<TurnRow>, pid: u32) -> bool
    ensures { all_turns rows.new.items
        ≡ (if result then all_turns rows.old.items ++ pid ∷ [] else all_turns rows.old.items) }
{
    if rows.is_empty() {
        return false;
    }
    let at = rows.len() - 1;
    goes_on(&mut rows[at], pid)
}

/// One more turn of the last row that doesn't go on with it, where it isn't another row's.
fn lengthen_last(alloc: Global, rows: &mut Vec<TurnRow>, pid: u32) -> Result<bool, AllocError>
    ensures { LengthensTo (all_turns rows.old.items) pid result (all_turns rows.new.items) }
{
    if rows.is_empty() {
        return Ok(false);
    }
    let at = rows.len() - 1;
    lengthen(alloc, &mut rows[at], pid)
}

/// More turns of the last row, where they are its process's.
fn lengthen_run(rows: &mut Vec<TurnRow>, pid: u32, more: u64) -> bool
    ensures { all_turns rows.new.items
        ≡ (if result then all_turns rows.old.items ++ replicate more pid else all_turns rows.old.items) }
{
    if rows.is_empty() {
        return false;
    }
    let at = rows.len() - 1;
    add(&mut rows[at], pid, more)
}

/// One more turn, where the last row doesn't go on with it. Apart, since a function pays at its entry for the size of its
/// locals.
#[inline(never)]
fn push_apart(alloc: Global, rows: &mut Vec<TurnRow>, pid: u32) -> Result<(), AllocError>
    ensures ok { OnOk result (all_turns rows.new.items ≡ all_turns rows.old.items ++ pid ∷ []) }
    ensures err { OnErr result (all_turns rows.new.items ≡ all_turns rows.old.items) }
{
    if lengthen_last(alloc, rows, pid)? {
        return Ok(());
    }
    rows.push(TurnRow::Run { pid, turns: 1 })?;
    Ok(())
}

impl Turns {
    pub fn new(alloc: Global) -> Self
        ensures { result ≡ [] }
    {
        Turns {
            alloc,
            rows: Vec::new(alloc),
        }
    }

    /// The turns as rows.
    pub fn rows(&self) -> &[TurnRow]
        ensures { all_turns result.now ≡ self.now }
    {
        self.rows.as_slice()
    }

    /// One more turn.
    pub fn push(&mut self, pid: u32) -> Result<(), AllocError>
        ensures ok { OnOk result (self.new ≡ self.old ++ pid ∷ []) }
        ensures err { OnErr result (self.new ≡ self.old) }
    {
        if last_goes_on(&mut self.rows, pid) {
            return Ok(());
        }
        push_apart(self.alloc, &mut self.rows, pid)
    }

    /// So many turns of a process.
    pub fn extend(&mut self, pid: u32, turns: u64) -> Result<(), AllocError>
        ensures ok { OnOk result (self.new ≡ self.old ++ replicate turns pid) }
        ensures err { OnErr result (self.new ≡ self.old) }
    {
        if turns == 0 || lengthen_run(&mut self.rows, pid, turns) {
            return Ok(());
        }
        if turns == 1 {
            return self.push(pid);
        }
        self.rows.push(TurnRow::Run { pid, turns })?;
        Ok(())
    }
}
