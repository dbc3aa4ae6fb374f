//! The children of each process.

ghost use Rattle.std.specs.Prelude.{◌≡◌, ℕ, ◌&&◌, OnOk, OnErr, IsTrue, nat_lt, false};
ghost use Rattle.lx_proc.specs.Pairs.{has, Sets};
ghost use Rattle.lx_proc.specs.Families.{Listed, KeptBut};

use crate::pairs::Pairs;
use std::alloc::{AllocError, Global};

/// The children of each process, as pairs of its pid and theirs, and which of them are zombies. Orphans, whose parent
/// is 0, are in neither set.
#[derive(Drop)]
pub struct Families {
    pub children: Pairs,
    pub zombies: Pairs,
}

impl Families {
    pub fn new(alloc: Global) -> Self
        ensures children { (p n : ℕ) → has result.children p n ≡ false }
        ensures zombies { (p n : ℕ) → has result.zombies p n ≡ false }
    {
        Families {
            children: Pairs::new(alloc),
            zombies: Pairs::new(alloc),
        }
    }

    /// A process is listed, unless it is an orphan.
    pub fn add(&mut self, parent: u32, pid: u32, zombie: bool) -> Result<(), AllocError>
        ensures ok { OnOk result (Listed parent pid (nat_lt 0 parent) (zombie && nat_lt 0 parent) self.old self.new) }
        ensures err { OnErr result (KeptBut parent pid self.old self.new) }
    {
        self.children.set(parent, pid, parent > 0)?;
        self.zombies.set(parent, pid, zombie && parent > 0)?;
        Ok(())
    }

    /// Whether a process is a zombie.
    pub fn set_zombie(&mut self, parent: u32, pid: u32, zombie: bool) -> Result<(), AllocError>
        ensures zombies { OnOk result (Sets parent pid (zombie && nat_lt 0 parent) self.old.zombies self.new.zombies) }
        ensures children { self.new.children ≡ self.old.children }
        ensures err { OnErr result (self.new ≡ self.old) }
        ensures only { OnErr result (IsTrue zombie) }
    {
        self.zombies.set(parent, pid, zombie && parent > 0)?;
        Ok(())
    }

    pub fn remove(&mut self, parent: u32, pid: u32)
        ensures { Listed parent pid false false self.old self.new }
    {
        self.children.remove(parent, pid);
        self.zombies.remove(parent, pid);
    }
}

impl Clone for Families {
    ghost is_clone = { λ a b. b ≡ a };

    fn clone(&self) -> Result<Self, AllocError> {
        Ok(Families {
            children: self.children.clone()?,
            zombies: self.zombies.clone()?,
        })
    }
}
