//! Slots by pair of process and descriptor.

ghost use Rattle.std.specs.Prelude.{◌≡◌, ◌≤◌, ◌<◌, ◌/◌, ◌%◌, ◌==◌, [], OnOk, OnErr, IfOk, IfSome, IfNone, IsSome, Some, None};
ghost use Rattle.std.specs.Prelude.{false};
ghost use Rattle.std.specs.Option.{option_copied};
ghost use Rattle.std.specs.FinMap as maps;
ghost use Rattle.lx_abi.specs.Limits.{most_fds};
ghost use Rattle.lx_open.specs.Nexts.{IsNextOpen};
ghost use Rattle.lx_open.specs.Opens.{pair as pair_of, free as free_of, free_but};
ghost use Rattle.lx_open.specs.Rows.{AreOfPids, IsRowOf, flat, with_row, slot_at as slot_of};

use crate::description::Slot;
use crate::row::{Row, find_free, find_free_beside};
use lx_abi::limits::MOST_FDS;
use shelves::Shelf;
use std::alloc::{AllocError, Global};
use std::marker::Model;

/// A map from pair, as one number, to slot: a row of slots for each process that has any.
#[derive(Drop)]
pub struct SlotTable {
    alloc: Global,
    rows: Shelf<Row>,
}

impl Model for SlotTable {
    ghost use Rattle.std.specs.Coded.{codes};
    ghost use Rattle.std.specs.FinMap as maps;
    ghost use Rattle.lx_open.specs.Kinds.{SlotMap};
    ghost use Rattle.lx_open.specs.Rows.{AreOfPids, flat};

    ghost Value = { SlotMap };

    ghost coded = { Prim.hlevel (codes, maps.code) };

    ghost view = { λ s. flat s.rows };

    ghost invariant = { λ s. AreOfPids s.rows };
}

/// The process of a pair, if a pid is that large.
fn pid_of(pair: u64) -> Option<u32>
    ensures some { IfSome result (λ pid. pid ≡ pair / most_fds) }
    ensures none { IfNone result (4294967296 ≤ pair / most_fds) }
{
    let pid = pair / u64::from(MOST_FDS);
    if pid <= u64::from(u32::MAX) {
        Some(pid as u32)
    } else {
        None
    }
}

/// The descriptor of a pair.
fn fd_of(pair: u64) -> u32
    ensures { result ≡ pair % most_fds }
{
    (pair % u64::from(MOST_FDS)) as u32
}

/// What a descriptor of a process names.
fn slot_at(rows: &Shelf<Row>, pid: u32, fd: u32) -> Option<Slot>
    ensures { result ≡ slot_of rows.now pid fd }
{
    match rows.get(pid) {
        None => None,
        Some(row) => row.get(fd),
    }
}

/// The process has a row.
fn make_row(rows: &mut Shelf<Row>, alloc: Global, pid: u32) -> Result<(), AllocError>
    ensures pids { AreOfPids rows.old → AreOfPids rows.new }
    ensures same { flat rows.new ≡ flat rows.old }
{
    match rows.get(pid) {
        Some(_) => Ok(()),
        None => {
            rows.insert(pid, Row::new(alloc))?;
            Ok(())
        }
    }
}

/// A descriptor of a process that has a row names what a slot says.
fn put(rows: &mut Shelf<Row>, pid: u32, fd: u32, slot: Slot) -> Result<(), AllocError>
    requires { fd < most_fds }
    ensures pids { AreOfPids rows.old → AreOfPids rows.new }
    ensures ok { OnOk result (flat rows.new ≡ maps.insert (flat rows.old) (pair_of pid fd) slot) }
    ensures err { OnErr result (flat rows.new ≡ flat rows.old) }
{
    let Some(row) = rows.get_mut(pid) else {
        return Err(AllocError);
    };
    row.put(fd, slot)?;
    Ok(())
}

/// A descriptor of a process names nothing: what it named. A row without slots goes.
fn take(rows: &mut Shelf<Row>, pid: u32, fd: u32) -> Option<Slot>
    requires { fd < most_fds }
    ensures value { result ≡ slot_of rows.old pid fd }
    ensures pids { AreOfPids rows.old → AreOfPids rows.new }
    ensures rest { flat rows.new ≡ maps.remove (flat rows.old) (pair_of pid fd) }
{
    match rows.get_mut(pid) {
        None => None,
        Some(row) => {
            let was = row.take(fd);
            if row.is_empty() {
                rows.remove(pid);
            }
            was
        }
    }
}

/// A descriptor of a process that names something names what a slot says. Takes no memory.
fn overwrite(rows: &mut Shelf<Row>, pid: u32, fd: u32, slot: Slot)
    requires small { fd < most_fds }
    requires there { IsSome (slot_of rows.old pid fd) }
    ensures pids { AreOfPids rows.old → AreOfPids rows.new }
    ensures put { flat rows.new ≡ maps.insert (flat rows.old) (pair_of pid fd) slot }
{
    let Some(row) = rows.get_mut(pid) else {
        return;
    };
    row.overwrite(fd, slot);
}

impl SlotTable {
    pub fn new(alloc: Global) -> Self
        ensures { result ≡ maps.empty }
    {
        SlotTable {
            alloc,
            rows: Shelf::new(alloc),
        }
    }

    pub fn get(&self, pair: u64) -> Option<Slot>
        ensures { result ≡ maps.get self.now pair }
    {
        match pid_of(pair) {
            None => None,
            Some(pid) => slot_at(&self.rows, pid, fd_of(pair)),
        }
    }

    /// The lowest open descriptor of a process at or above one.
    pub fn next_open(&self, pid: u32, fd: u32) -> Option<u32>
        requires { fd ≤ most_fds }
        ensures { IsNextOpen self.now pid fd result }
    {
        match self.rows.get(pid) {
            None => None,
            Some(row) => row.next_open(fd),
        }
    }

    /// The lowest free descriptor of a process.
    pub fn free(&self, pid: u32) -> Option<u32>
        ensures value { result ≡ free_of self.now pid }
        ensures small { IfSome result (λ fd. fd < most_fds) }
        ensures free { IfSome result (λ fd. maps.get self.now (pair_of pid fd) ≡ None) }
    {
        find_free(self.rows.get(pid))
    }

    /// The lowest free descriptor of a process but one.
    pub fn free_beside(&self, pid: u32, first: u32) -> Option<u32>
        ensures value { result ≡ free_but self.now pid first }
        ensures small { IfSome result (λ fd. fd < most_fds) }
        ensures free { IfSome result (λ fd. maps.get self.now (pair_of pid fd) ≡ None) }
        ensures other { IfSome result (λ fd. (fd == first) ≡ false) }
    {
        find_free_beside(self.rows.get(pid), first)
    }

    /// The slots of a process that has any.
    pub fn row(&self, pid: u32) -> Option<&Row>
        ensures { IsRowOf self.now pid (option_copied result) }
    {
        self.rows.get(pid)
    }

    /// A copy of the slots of a process that has any.
    pub fn copy_row(&self, pid: u32) -> Result<Option<Row>, AllocError>
        ensures { IfOk result (λ row. IsRowOf self.now pid row) }
    {
        match self.rows.get(pid) {
            None => Ok(None),
            Some(row) => {
                let copy = row.copy(self.alloc)?;
                Ok(Some(copy))
            }
        }
    }

    /// A process has the slots of a row alone.
    pub fn set_row(&mut self, pid: u32, row: Row) -> Result<(), AllocError>
        ensures ok { OnOk result (self.new ≡ with_row self.old pid row most_fds) }
        ensures err { OnErr result (self.new ≡ self.old) }
    {
        self.rows.insert(pid, row)?;
        Ok(())
    }

    /// A process has no slots.
    pub fn drop_row(&mut self, pid: u32)
        ensures { self.new ≡ with_row self.old pid [] most_fds }
    {
        self.rows.remove(pid);
    }

    pub fn remove(&mut self, pair: u64) -> Option<Slot>
        ensures value { result ≡ maps.get self.old pair }
        ensures rest { self.new ≡ maps.remove self.old pair }
    {
        match pid_of(pair) {
            None => None,
            Some(pid) => take(&mut self.rows, pid, fd_of(pair)),
        }
    }

    /// Err also at a pair of a process that no pid names.
    pub fn insert(&mut self, pair: u64, slot: Slot) -> Result<(), AllocError>
        ensures ok { OnOk result (self.new ≡ maps.insert self.old pair slot) }
        ensures err { OnErr result (self.new ≡ self.old) }
    {
        let Some(pid) = pid_of(pair) else {
            return Err(AllocError);
        };
        make_row(&mut self.rows, self.alloc, pid)?;
        put(&mut self.rows, pid, fd_of(pair), slot)?;
        Ok(())
    }

    /// The slot at a pair that has one is another. Takes no memory.
    pub fn write(&mut self, pair: u64, slot: Slot)
        requires { IsSome (maps.get self.old pair) }
        ensures { self.new ≡ maps.insert self.old pair slot }
    {
        match pid_of(pair) {
            None => {}
            Some(pid) => overwrite(&mut self.rows, pid, fd_of(pair), slot),
        }
    }
}

impl Clone for SlotTable {
    ghost is_clone = { λ a b. b ≡ a };

    fn clone(&self) -> Result<Self, AllocError> {
        Ok(SlotTable {
            alloc: self.alloc,
            rows: self.rows.clone()?,
        })
    }
}
