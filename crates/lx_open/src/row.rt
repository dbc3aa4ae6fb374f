//! The slots of one process.

ghost use Rattle.std.specs.Prelude.{◌≡◌, ◌==◌, ◌<◌, ◌≤◌, ◌-◌, ◌&&◌, ℕ, [], length, get_or, slice_get, find, is_some, is_none};
ghost use Rattle.std.specs.Prelude.{not, false, IsTrue, None, Some, IsSome, IfSome, OnOk, OnErr, IfOk};
ghost use Rattle.std.specs.Option.{option_copied};
ghost use Rattle.std.specs.List.{range_with_len};
ghost use Rattle.lx_abi.specs.Limits.{most_fds};
ghost use Rattle.lx_open.specs.Rows.{HasAt, AreAlike, IsNextIn, row_slot};

use crate::description::Slot;
use lx_abi::limits::MOST_FDS;
use std::alloc::{AllocError, Global};
use std::marker::Model;

/// Slots by descriptor, up to the last open one.
#[derive(Drop)]
pub struct Row {
    slots: Vec<Option<Slot>>,
}

impl Model for Row {
    ghost use Rattle.std.specs.Prelude.{List, Option};
    ghost use Rattle.lx_open.specs.declared.description.Slot.{Slot};

    ghost Value = { List (Option Slot) };

    ghost view = { λ r. r.slots.items };
}

/// Slots up to this descriptor's; new ones are empty.
fn lengthen(slots: &mut Vec<Option<Slot>>, fd: u32) -> Result<(), AllocError>
    ensures there { OnOk result (fd < length slots.new.items) }
    ensures same { AreAlike slots.old.items slots.new.items }
{
    let wanted = fd as usize + 1;
    if slots.len() < wanted {
        slots.resize(wanted, None)?;
    }
    Ok(())
}

/// The last slot is there, and empty.
fn ends_empty(slots: &[Option<Slot>]) -> bool
    ensures { IsTrue result → slice_get slots.now (length slots.now - 1) ≡ Some None }
{
    match slots.last() {
        None => false,
        Some(slot) => slot.is_none(),
    }
}

/// Empty slots at the end go.
fn trim(slots: &mut Vec<Option<Slot>>)
    ensures { AreAlike slots.old.items slots.new.items }
{
    while ends_empty(slots) {
        slots.pop();
    }
}

/// The first open descriptor from one up to another.
fn find_open(row: &Row, from: u32, end: u32) -> Option<u32>
    ensures { result ≡ find (λ q. is_some (get_or row.now q None)) (range_with_len from (end - from)) }
{
    (from..end).find(|fd| row.get(*fd).is_some())
}

/// What a descriptor names; without a row, nothing.
fn slot_in(row: Option<&Row>, fd: u32) -> Option<Slot>
    ensures { result ≡ row_slot (option_copied row.entry) fd }
{
    match row {
        None => None,
        Some(row) => row.get(fd),
    }
}

/// The lowest free descriptor.
pub fn find_free(row: Option<&Row>) -> Option<u32>
    ensures value { result ≡ find (λ q. is_none (row_slot (option_copied row.entry) q)) (range_with_len 0 most_fds) }
    ensures small { IfSome result (λ fd. fd < most_fds) }
    ensures free { IfSome result (λ fd. row_slot (option_copied row.entry) fd ≡ None) }
{
    (0..MOST_FDS).find(|fd| slot_in(row, *fd).is_none())
}

/// The lowest free descriptor but one.
pub fn find_free_beside(row: Option<&Row>, first: u32) -> Option<u32>
    ensures value { result
        ≡ find (λ q. not (q == first) && is_none (row_slot (option_copied row.entry) q)) (range_with_len 0 most_fds) }
    ensures small { IfSome result (λ fd. fd < most_fds) }
    ensures free { IfSome result (λ fd. row_slot (option_copied row.entry) fd ≡ None) }
    ensures other { IfSome result (λ fd. (fd == first) ≡ false) }
{
    (0..MOST_FDS).find(|fd| *fd != first && slot_in(row, *fd).is_none())
}

impl Row {
    pub fn new(alloc: Global) -> Self
        ensures { result ≡ [] }
    {
        Row {
            slots: Vec::new(alloc),
        }
    }

    pub fn is_empty(&self) -> bool
        ensures { result ≡ (length self.now == 0) }
    {
        self.slots.is_empty()
    }

    pub fn copy(&self, alloc: Global) -> Result<Self, AllocError>
        ensures { IfOk result (λ row. row ≡ self.now) }
    {
        let slots = self.slots.to_vec(alloc)?;
        Ok(Row { slots })
    }

    /// From this descriptor on none is open.
    pub fn end(&self) -> u32
        ensures within { result ≤ most_fds }
        ensures none { (q : ℕ) → result ≤ q → q < most_fds → get_or self.now q None ≡ None }
    {
        let len = self.slots.len();
        if len < MOST_FDS as usize {
            len as u32
        } else {
            MOST_FDS
        }
    }

    /// What a descriptor names.
    pub fn get(&self, fd: u32) -> Option<Slot>
        ensures { result ≡ get_or self.now fd None }
    {
        match self.slots.get(fd as usize) {
            None => None,
            Some(slot) => *slot,
        }
    }

    /// A descriptor names what a slot says.
    pub fn put(&mut self, fd: u32, slot: Slot) -> Result<(), AllocError>
        ensures ok { OnOk result (HasAt self.old fd (Some slot) self.new) }
        ensures err { OnErr result (AreAlike self.old self.new) }
    {
        lengthen(&mut self.slots, fd)?;
        self.slots[fd as usize] = Some(slot);
        Ok(())
    }

    /// A descriptor that names something names what a slot says. Takes no memory.
    pub fn overwrite(&mut self, fd: u32, slot: Slot)
        requires { IsSome (get_or self.old fd None) }
        ensures { HasAt self.old fd (Some slot) self.new }
    {
        let at = fd as usize;
        if at < self.slots.len() {
            self.slots[at] = Some(slot);
        }
    }

    /// A descriptor names nothing.
    fn clear(&mut self, fd: u32)
        ensures { HasAt self.old fd None self.new }
    {
        let at = fd as usize;
        if at < self.slots.len() {
            self.slots[at] = None;
        }
        trim(&mut self.slots);
    }

    /// A descriptor names nothing: what it named.
    pub fn take(&mut self, fd: u32) -> Option<Slot>
        ensures value { result ≡ get_or self.old fd None }
        ensures rest { HasAt self.old fd None self.new }
    {
        let was = self.get(fd);
        self.clear(fd);
        was
    }

    /// The lowest open descriptor at or above one.
    pub fn next_open(&self, fd: u32) -> Option<u32>
        requires { fd ≤ most_fds }
        ensures { IsNextIn self.now fd result }
    {
        find_open(self, fd, self.end())
    }
}

impl Clone for Row {
    ghost is_clone = { λ a b. b ≡ a };

    fn clone(&self) -> Result<Self, AllocError> {
        Ok(Row {
            slots: self.slots.clone()?,
        })
    }
}
