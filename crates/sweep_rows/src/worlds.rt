//! Worlds in which calls of every process fail.

ghost use Rattle.std.specs.Prelude.{◌≡◌};
ghost use Rattle.sweep_rows.specs.Worlds.{is_file, may_make, must_make, takes_room, transfers, changes};
ghost use Rattle.sweep_rows.specs.Worlds.{takes_descriptor, takes_memory, forbids, number_of, error_in};

use crate::descriptors::Target;
use lx_abi::{Call, Errno, sys};

// Flags of open(2).

const O_ACCMODE: u64 = 3;

const O_CREAT: u64 = 0x40;

const O_EXCL: u64 = 0x80;

/// What goes wrong, for every process. Console and pipes go on, so that errors can be told.
#[derive(Clone, Copy, Debug, PartialEq, Eq)]
pub enum World {
    /// The disk is full: ENOSPC.
    Full,
    /// The disk is broken: EIO.
    Broken,
    /// The disk can only be read: EROFS.
    ReadOnly,
    /// There are no more descriptors: EMFILE.
    NoFiles,
    /// There is no more memory: ENOMEM.
    NoMemory,
}

fn is_file(target: Target) -> bool
    ensures { result ≡ is_file target }
{
    matches!(target, Target::File(_))
}

fn may_make(flags: u64) -> bool
    ensures { result ≡ may_make flags }
{
    flags / O_CREAT % 2 == 1
}

fn must_make(flags: u64) -> bool
    ensures { result ≡ must_make flags }
{
    may_make(flags) && flags / O_EXCL % 2 == 1
}

#[tactic(auto, unfolding(crate::specs::Worlds::takes_room))]
fn takes_room(call: &Call, target: Target) -> bool
    ensures { result ≡ takes_room call.now target }
{
    if call.number == sys::SYS_WRITE {
        is_file(target)
    } else if call.number == sys::SYS_OPENAT {
        must_make(call.arguments[2])
    } else {
        call.number == sys::SYS_MKDIRAT
    }
}

#[tactic(auto, unfolding(crate::specs::Worlds::transfers))]
fn transfers(call: &Call, target: Target) -> bool
    ensures { result ≡ transfers call.now target }
{
    (call.number == sys::SYS_READ || call.number == sys::SYS_WRITE) && is_file(target)
}

#[tactic(auto, unfolding(crate::specs::Worlds::changes))]
fn changes(call: &Call, target: Target) -> bool
    ensures { result ≡ changes call.now target }
{
    if call.number == sys::SYS_WRITE {
        is_file(target)
    } else if call.number == sys::SYS_OPENAT {
        may_make(call.arguments[2]) || call.arguments[2] % (O_ACCMODE + 1) != 0
    } else {
        call.number == sys::SYS_MKDIRAT
            || call.number == sys::SYS_UNLINKAT
            || call.number == sys::SYS_FTRUNCATE
    }
}

#[tactic(auto, unfolding(crate::specs::Worlds::takes_descriptor))]
fn takes_descriptor(call: &Call) -> bool
    ensures { result ≡ takes_descriptor call.now }
{
    call.number == sys::SYS_OPENAT || call.number == sys::SYS_PIPE2 || call.number == sys::SYS_DUP
}

#[tactic(auto, unfolding(crate::specs::Worlds::takes_memory))]
fn takes_memory(call: &Call) -> bool
    ensures { result ≡ takes_memory call.now }
{
    if call.number == sys::SYS_BRK {
        call.arguments[0] != 0
    } else {
        call.number == sys::SYS_MMAP || call.number == sys::SYS_CLONE
    }
}

impl World {
    fn forbids(self, call: &Call, target: Target) -> bool
        ensures { result ≡ forbids self call.now target }
    {
        match self {
            World::Full => takes_room(call, target),
            World::Broken => transfers(call, target),
            World::ReadOnly => changes(call, target),
            World::NoFiles => takes_descriptor(call),
            World::NoMemory => takes_memory(call),
        }
    }

    /// The number of the error that calls have there (errno(3)).
    pub fn number(self) -> u16
        ensures { result ≡ number_of self }
    {
        match self {
            World::Full => 28,
            World::Broken => 5,
            World::ReadOnly => 30,
            World::NoFiles => 24,
            World::NoMemory => 12,
        }
    }

    /// The error that a call has there, whose descriptor stands for this.
    #[tactic(auto, unfolding(crate::specs::Worlds::error_in))]
    pub fn error(self, call: &Call, target: Target) -> Option<Errno>
        ensures { result ≡ error_in self call.now target }
    {
        if self.forbids(call, target) {
            Errno::from_number(u64::from(self.number()))
        } else {
            None
        }
    }
}
