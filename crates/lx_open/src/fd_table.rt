//! What the descriptors of each process name.

ghost use Rattle.std.specs.Prelude.{◌≡◌, ◌<◌, ◌≤◌, ◌++◌, [], drop, length, Bool, OnOk, OnErr, IfOk, IfSome, None, ◌==◌, false};
ghost use Rattle.lx_abi.specs.Limits.{most_fds};
ghost use Rattle.lx_open.specs.Opens.{pair as pair_of, slot as slot_of, free as free_of, opened, held as held_of};
ghost use Rattle.lx_open.specs.Opens.{with_held, with_offset, with_pipe, with_slot};
ghost use Rattle.lx_open.specs.Opens.{description as description_of, has_readers as has_readers_of, has_writers as has_writers_of};
ghost use Rattle.containers.specs.Vacant.{vacant};
ghost use Rattle.std.specs.FinMap as maps;
ghost use Rattle.lx_open.specs.Opens.{no_fds, inherited, IsFree};
ghost use Rattle.lx_open.specs.Nexts.{IsNextOpen};
ghost use Rattle.lx_open.specs.declared.description.Slot.{Slot};
ghost use Rattle.lx_open.specs.declared.description.Description.{Description};
ghost use Rattle.lx_open.specs.declared.fd_table.FdTable.{FdTable};

use crate::description::{Description, Slot};
use crate::descriptions::Descriptions;
use crate::queue::PipeBuffer;
use crate::slots::Slots;
use lx_abi::limits::MOST_FDS;
use shelves::Numbered;
use std::alloc::{AllocError, Global};

/// Slots by process and descriptor, descriptions and pipes by number.
#[derive(Drop)]
pub struct FdTable {
    pub(crate) slots: Slots,
    pub(crate) descriptions: Descriptions,
    pub(crate) pipes: Numbered<PipeBuffer>,
}

/// A process and a descriptor as one number.
pub fn pair(pid: u32, fd: u32) -> u64
    requires { fd < most_fds }
    ensures { result ≡ pair_of pid fd }
{
    u64::from(pid) * u64::from(MOST_FDS) + u64::from(fd)
}

impl FdTable {
    /// No descriptor is open.
    pub fn new(alloc: Global) -> Self
        ensures { result ≡ no_fds }
    {
        FdTable {
            slots: Slots::new(alloc),
            descriptions: Descriptions::new(alloc),
            pipes: Numbered::new(alloc),
        }
    }

    /// What a descriptor names.
    pub fn slot(&self, pid: u32, fd: u32) -> Option<Slot>
        ensures { result ≡ slot_of self.now pid fd }
    {
        if fd < MOST_FDS {
            self.slots.get(pair(pid, fd))
        } else {
            None
        }
    }

    /// The lowest open descriptor at or above one.
    pub fn next_open(&self, pid: u32, fd: u32) -> Option<u32>
        requires { fd ≤ most_fds }
        ensures { IsNextOpen self.now.slots pid fd result }
    {
        self.slots.next_open(pid, fd)
    }

    /// The lowest free descriptor.
    pub fn free(&self, pid: u32) -> Option<u32>
        ensures value { result ≡ free_of self.now.slots pid }
        ensures small { IfSome result (λ fd. fd < most_fds) }
        ensures free { IfSome result (λ fd. IsFree self.now pid fd) }
    {
        self.slots.free(pid)
    }

    /// The lowest free descriptor once another one is taken.
    pub fn free_after(&self, pid: u32, first: u32) -> Option<u32>
        ensures value { (s : Slot) → result ≡ free_of (maps.insert self.now.slots (pair_of pid first) s) pid }
        ensures small { IfSome result (λ fd. fd < most_fds) }
        ensures free { IfSome result (λ fd. IsFree self.now pid fd) }
        ensures other { IfSome result (λ fd. (fd == first) ≡ false) }
    {
        self.slots.free_beside(pid, first)
    }

    /// The description that a slot names by number.
    pub fn description(&self, number: u32) -> Option<Description>
        ensures { result ≡ description_of self.now number }
    {
        self.descriptions.get(number)
    }

    /// A descriptor names what a slot says.
    pub fn put(&mut self, pid: u32, fd: u32, slot: Slot) -> Result<(), AllocError>
        requires { fd < most_fds }
        ensures ok { OnOk result (self.new ≡ with_slot self.old pid fd slot) }
        ensures err { OnErr result (self.new ≡ self.old) }
    {
        self.slots.insert(pair(pid, fd), slot)?;
        Ok(())
    }

    /// The description is at another offset.
    pub fn move_to(&mut self, number: u32, offset: u64)
        ensures { self.new ≡ with_offset self.old number offset }
    {
        self.descriptions.move_to(number, offset);
    }

    /// Some description reads from the pipe.
    pub fn has_readers(&self, pipe: u32) -> bool
        ensures { result ≡ has_readers_of self.now pipe }
    {
        self.descriptions.has_readers(pipe)
    }

    /// Some description writes to the pipe.
    pub fn has_writers(&self, pipe: u32) -> bool
        ensures { result ≡ has_writers_of self.now pipe }
    {
        self.descriptions.has_writers(pipe)
    }

    /// The lowest number that no pipe has.
    pub fn vacant_pipe(&self) -> Result<u32, AllocError>
        ensures { IfOk result (λ n. n ≡ vacant self.now.pipes) }
    {
        self.pipes.vacant()
    }

    /// An empty pipe by this number.
    pub fn add_pipe(&mut self, alloc: Global, pipe: u32) -> Result<(), AllocError>
        ensures ok { OnOk result (self.new ≡ with_pipe self.old pipe []) }
        ensures err { OnErr result (self.new ≡ self.old) }
    {
        self.pipes.insert(pipe, PipeBuffer::new(alloc))?;
        Ok(())
    }

    /// A descriptor names a new description.
    pub fn open(
        &mut self,
        pid: u32,
        fd: u32,
        description: Description,
        closes_on_exec: bool,
    ) -> Result<(), AllocError>
        requires { fd < most_fds }
        ensures ok { OnOk result (self.new ≡ opened self.old pid fd description closes_on_exec) }
        ensures err { OnErr result (self.new ≡ self.old) }
    {
        let number = self.descriptions.vacant()?;
        self.descriptions.insert(number, description)?;
        let slot = Slot {
            description: number,
            closes_on_exec,
        };
        match self.slots.insert(pair(pid, fd), slot) {
            Ok(()) => Ok(()),
            Err(error) => {
                self.descriptions.remove(number);
                Err(error)
            }
        }
    }

    /// What was written to a pipe and not read.
    pub fn held(&self, pipe: u32) -> &[u8]
        ensures { result.now ≡ held_of self.now pipe }
    {
        match self.pipes.get(pipe) {
            Some(queue) => queue.as_slice(),
            None => b"".as_slice(),
        }
    }

    /// Takes bytes from a pipe.
    pub fn take_from_pipe(&mut self, pipe: u32, count: usize)
        requires { count ≤ length (held_of self.old pipe) }
        ensures { self.new ≡ with_held self.old pipe (drop count) }
    {
        let Some(queue) = self.pipes.get_mut(pipe) else {
            return;
        };
        queue.advance(count);
    }

    /// Puts bytes in a pipe.
    pub fn put_in_pipe(&mut self, alloc: Global, pipe: u32, bytes: &[u8]) -> Result<(), AllocError>
        ensures ok { OnOk result (self.new ≡ with_held self.old pipe (λ q. q ++ bytes.now)) }
        ensures err { OnErr result (self.new ≡ self.old) }
    {
        let Some(queue) = self.pipes.get_mut(pipe) else {
            return Ok(());
        };
        queue.extend(alloc, bytes)?;
        Ok(())
    }

    /// Takes back what `open` did. Takes no memory.
    pub fn take_back(&mut self, pid: u32, fd: u32)
        requires { fd < most_fds }
        ensures { (was : FdTable) (d : Description) (closes : Bool)
            → IsFree was pid fd → self.old ≡ opened was pid fd d closes → self.new ≡ was }
    {
        let Some(slot) = self.slots.remove(pair(pid, fd)) else {
            return;
        };
        self.descriptions.remove(slot.description);
    }

    /// Takes back what `add_pipe` did. Takes no memory.
    pub fn take_pipe_back(&mut self, pipe: u32)
        ensures { (was : FdTable) → pipe ≡ vacant was.pipes → self.old ≡ with_pipe was pipe [] → self.new ≡ was }
    {
        self.pipes.remove(pipe);
    }

    /// A child has its parent's descriptors, of the same descriptions (POSIX fork).
    #[tactic(auto, unfolding(crate::specs::Opens::inherited))]
    pub fn inherit(&mut self, parent: u32, child: u32) -> Result<(), AllocError>
        ensures ok { OnOk result (self.new ≡ inherited self.old parent child) }
        ensures err { OnErr result (self.new ≡ self.old) }
    {
        self.slots.inherit(parent, child)?;
        Ok(())
    }
}

impl Clone for FdTable {
    ghost is_clone = { λ a b. b ≡ a };

    fn clone(&self) -> Result<Self, AllocError> {
        let slots = self.slots.clone()?;
        let descriptions = match self.descriptions.clone() {
            Ok(descriptions) => descriptions,
            Err(error) => {
                drop(slots);
                return Err(error);
            }
        };
        let pipes = match self.pipes.clone() {
            Ok(pipes) => pipes,
            Err(error) => {
                drop(descriptions);
                drop(slots);
                return Err(error);
            }
        };
        Ok(FdTable {
            slots,
            descriptions,
            pipes,
        })
    }
}
