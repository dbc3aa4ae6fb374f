//! Slots, and how many name each description.

ghost use Rattle.std.specs.Prelude.{◌≡◌, ◌≤◌, ◌<◌, ◌==◌, OnOk, OnErr, IfSome, None, false};
ghost use Rattle.std.specs.FinMap as maps;
ghost use Rattle.std.specs.List.{range_with_len};
ghost use Rattle.lx_abi.specs.Limits.{most_fds};
ghost use Rattle.lx_files.specs.Tallies.{holds};
ghost use Rattle.lx_open.specs.Kinds.{names_description};
ghost use Rattle.lx_open.specs.Nexts.{IsNextOpen};
ghost use Rattle.lx_open.specs.Opens.{pair as pair_of, free as free_of, free_but, inherited_each};

use crate::description::Slot;
use crate::sharing::{forget, inherit, share};
use crate::slot_map::SlotTable;
use lx_files::Counts;
use std::alloc::{AllocError, Global};
use std::marker::Model;

#[derive(Drop)]
pub struct Slots {
    map: SlotTable,
    counts: Counts,
}

impl Model for Slots {
    ghost use Rattle.std.specs.Coded.{codes};
    ghost use Rattle.std.specs.FinMap as maps;
    ghost use Rattle.lx_files.specs.Tallies.{Agree};
    ghost use Rattle.lx_open.specs.Kinds.{SlotMap, names_description};

    ghost Value = { SlotMap };

    ghost coded = { Prim.hlevel (codes, maps.code) };

    ghost view = { λ s. s.map };

    ghost invariant = { λ s. Agree s.counts names_description s.map };
}

impl Slots {
    pub fn new(alloc: Global) -> Self
        ensures { result ≡ maps.empty }
    {
        Slots {
            map: SlotTable::new(alloc),
            counts: Counts::new(alloc),
        }
    }

    pub fn get(&self, pair: u64) -> Option<Slot>
        ensures { result ≡ maps.get self.now pair }
    {
        self.map.get(pair)
    }

    /// Some slot names the description.
    pub fn has(&self, description: u32) -> bool
        ensures { result ≡ holds (names_description description) self.now }
    {
        self.counts.count(description) > 0
    }

    /// The lowest open descriptor of a process at or above one.
    pub fn next_open(&self, pid: u32, fd: u32) -> Option<u32>
        requires { fd ≤ most_fds }
        ensures { IsNextOpen self.now pid fd result }
    {
        self.map.next_open(pid, fd)
    }

    /// The lowest free descriptor of a process.
    pub fn free(&self, pid: u32) -> Option<u32>
        ensures value { result ≡ free_of self.now pid }
        ensures small { IfSome result (λ fd. fd < most_fds) }
        ensures free { IfSome result (λ fd. maps.get self.now (pair_of pid fd) ≡ None) }
    {
        self.map.free(pid)
    }

    /// The lowest free descriptor of a process but one.
    pub fn free_beside(&self, pid: u32, first: u32) -> Option<u32>
        ensures value { result ≡ free_but self.now pid first }
        ensures small { IfSome result (λ fd. fd < most_fds) }
        ensures free { IfSome result (λ fd. maps.get self.now (pair_of pid fd) ≡ None) }
        ensures other { IfSome result (λ fd. (fd == first) ≡ false) }
    {
        self.map.free_beside(pid, first)
    }

    pub fn remove(&mut self, pair: u64) -> Option<Slot>
        ensures value { result ≡ maps.get self.old pair }
        ensures rest { self.new ≡ maps.remove self.old pair }
    {
        match self.map.remove(pair) {
            None => None,
            Some(slot) => {
                self.counts.subtract(slot.description);
                Some(slot)
            }
        }
    }

    pub fn insert(&mut self, pair: u64, slot: Slot) -> Result<(), AllocError>
        ensures ok { OnOk result (self.new ≡ maps.insert self.old pair slot) }
        ensures err { OnErr result (self.new ≡ self.old) }
    {
        let was = share(&mut self.map, &mut self.counts, pair, slot)?;
        forget(&mut self.counts, was);
        Ok(())
    }

    /// A child has its parent's descriptors, of the same descriptions (POSIX fork).
    pub fn inherit(&mut self, parent: u32, child: u32) -> Result<(), AllocError>
        ensures ok { OnOk result (self.new ≡ inherited_each self.old parent child (range_with_len 0 most_fds)) }
        ensures err { OnErr result (self.new ≡ self.old) }
    {
        inherit(&mut self.map, &mut self.counts, parent, child)
    }
}

impl Clone for Slots {
    ghost is_clone = { λ a b. b ≡ a };

    fn clone(&self) -> Result<Self, AllocError> {
        Ok(Slots {
            map: self.map.clone()?,
            counts: self.counts.clone()?,
        })
    }
}
