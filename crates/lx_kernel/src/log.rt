//! What was logged.

ghost use Rattle.std.specs.Prelude.{◌≡◌, ◌++◌, [], ◌∷◌, false, OnOk, OnErr};
ghost use Rattle.lx_kernel.specs.Logs.{kept_of};

use history::History;
use lx_abi::Item;
use std::alloc::{AllocError, Global};
use std::marker::Model;
use std::mem;

/// A log. Contracts see all its items; those that programs can read are kept only where that is asked.
#[derive(Drop)]
pub struct Log {
    all: History<Item>,
    kept: Vec<Item>,
    keeps: bool,
}

impl Model for Log {
    ghost use Rattle.std.specs.Prelude.{◌≡◌};
    ghost use Rattle.lx_kernel.specs.Logs.{Logged, kept_of};

    ghost Value = { Logged };

    ghost view = { λ l. record { items = l.all.items; keeps = l.keeps } };

    ghost invariant = { λ l. l.kept.items ≡ kept_of l.keeps l.all.items };
}

impl Log {
    /// Nothing was logged.
    pub fn new(alloc: Global, keeps: bool) -> Self
        ensures { result ≡ record { items = []; keeps = keeps } }
    {
        Log {
            all: History::new(),
            kept: Vec::new(alloc),
            keeps,
        }
    }

    /// Logs an item.
    pub fn push(&mut self, item: &Item) -> Result<(), AllocError>
        ensures ok { OnOk result (self.new ≡ record self.old { items = self.old.items ++ item.now ∷ [] }) }
        ensures err { OnErr result (self.new ≡ self.old) }
    {
        if self.keeps {
            self.kept.push(*item)?;
        }
        self.all = self.all.and(item);
        Ok(())
    }

    /// What is kept.
    pub fn kept(&self) -> &[Item]
        ensures { result.now ≡ kept_of self.now.keeps self.now.items }
    {
        self.kept.as_slice()
    }

    /// Gives away what is kept, and keeps nothing more.
    pub fn take_kept(&mut self, alloc: Global) -> Vec<Item>
        ensures items { result.items ≡ kept_of self.old.keeps self.old.items }
        ensures rest { self.new ≡ record self.old { keeps = false } }
    {
        self.keeps = false;
        mem::replace(&mut self.kept, Vec::new(alloc))
    }
}

impl Clone for Log {
    ghost is_clone = { λ a b. b ≡ a };

    fn clone(&self) -> Result<Self, AllocError> {
        Ok(Log {
            all: self.all.again(),
            kept: self.kept.clone()?,
            keeps: self.keeps,
        })
    }
}
