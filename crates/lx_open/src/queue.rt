//! Bytes that are put in at one end and taken from the other.

ghost use Rattle.std.specs.Prelude.{◌≡◌, ◌++◌, ◌≤◌, [], length, take, drop, OnOk, OnErr};

use std::alloc::{AllocError, Global};
use std::marker::Model;

/// A queue of bytes, which contracts see as the list of those that are in it.
#[derive(Drop)]
pub struct PipeBuffer {
    items: Vec<u8>,
    // how many of the first are taken
    taken: usize,
}

impl Model for PipeBuffer {
    ghost use Rattle.std.specs.Prelude.{ℕ, List, drop, length, ◌≤◌};

    ghost Value = { List ℕ };

    ghost view = { λ q. drop q.taken q.items.items };

    ghost invariant = { λ q. q.taken ≤ length q.items.items };
}

/// So many bytes that were taken are given up together.
const MOST_TAKEN: usize = 65_536;

impl PipeBuffer {
    pub fn new(alloc: Global) -> Self
        ensures { result ≡ [] }
    {
        PipeBuffer {
            items: Vec::new(alloc),
            taken: 0,
        }
    }

    /// The bytes, the first first.
    pub fn from_vec(items: Vec<u8>) -> Self
        ensures { result ≡ items.items }
    {
        PipeBuffer { items, taken: 0 }
    }

    pub fn len(&self) -> usize
        ensures { result ≡ length self.now }
    {
        self.items.len() - self.taken
    }

    /// The bytes in the queue, the first first.
    pub fn as_slice(&self) -> &[u8]
        ensures { result.now ≡ self.now }
    {
        &self.items[self.taken..]
    }

    /// Takes bytes away.
    pub fn advance(&mut self, count: usize)
        requires { count ≤ length self.old }
        ensures { self.new ≡ drop count self.old }
    {
        self.taken += count;
    }

    /// Gives up what was taken, if that is much.
    fn compact(&mut self, alloc: Global) -> Result<(), AllocError>
        ensures { self.new ≡ self.old }
    {
        if self.taken < MOST_TAKEN {
            return Ok(());
        }
        self.items = self.items[self.taken..].to_vec(alloc)?;
        self.taken = 0;
        Ok(())
    }

    pub fn extend(&mut self, alloc: Global, more: &[u8]) -> Result<(), AllocError>
        ensures ok { OnOk result (self.new ≡ self.old ++ more.now) }
        ensures err { OnErr result (self.new ≡ self.old) }
    {
        self.compact(alloc)?;
        self.items.extend_from_slice(more)?;
        Ok(())
    }
}

impl Clone for PipeBuffer {
    ghost is_clone = { λ a b. b ≡ a };

    fn clone(&self) -> Result<Self, AllocError> {
        Ok(PipeBuffer {
            items: self.items.clone()?,
            taken: self.taken,
        })
    }
}
