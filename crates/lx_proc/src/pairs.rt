//! Sets of pairs of numbers.

ghost use Rattle.std.specs.Prelude.{◌≡◌, ℕ, OnOk, OnErr, IsTrue, true, false};
ghost use Rattle.lx_proc.specs.Pairs.{key as key_of, second_in, has, Sets, IsNextThat};

use std::alloc::{AllocError, Global};
use std::collections::BTreeMap;
use std::marker::Model;
use std::ops::Bound;

/// As many numbers as a pair may have second.
const SPAN: u64 = 1 << 32;

/// A set of pairs, each kept as one number.
#[derive(Drop)]
pub struct Pairs {
    tree: BTreeMap<u64, ()>,
}

impl Model for Pairs {
    ghost use Rattle.std.specs.Coded.{codes};
    ghost use Rattle.std.specs.FinMap as maps;
    ghost use Rattle.lx_proc.specs.Pairs.{PairSet};

    ghost Value = { PairSet };

    ghost coded = { Prim.hlevel (codes, maps.code) };

    ghost view = { λ p. maps.from_entries p.tree.entries };
}

fn key(first: u32, second: u32) -> u64
    ensures { result ≡ key_of first second }
{
    u64::from(first) * SPAN + u64::from(second)
}

/// The second number of a key, where the first is this one.
fn second_of(key: u64, first: u32) -> Option<u32>
    ensures { result ≡ second_in key first }
{
    if key / SPAN == u64::from(first) {
        Some((key % SPAN) as u32)
    } else {
        None
    }
}

impl Pairs {
    pub fn new(alloc: Global) -> Self
        ensures { (p n : ℕ) → has result p n ≡ false }
    {
        Pairs {
            tree: BTreeMap::new(alloc),
        }
    }

    fn insert(&mut self, first: u32, second: u32) -> Result<(), AllocError>
        ensures ok { OnOk result (Sets first second true self.old self.new) }
        ensures err { OnErr result (self.new ≡ self.old) }
    {
        self.tree.insert(key(first, second), ())?;
        Ok(())
    }

    pub fn remove(&mut self, first: u32, second: u32)
        ensures { Sets first second false self.old self.new }
    {
        self.tree.remove(&key(first, second));
    }

    /// A pair is in the set, or isn't.
    pub fn set(&mut self, first: u32, second: u32, there: bool) -> Result<(), AllocError>
        ensures ok { OnOk result (Sets first second there self.old self.new) }
        ensures err { OnErr result (self.new ≡ self.old) }
        ensures only { OnErr result (IsTrue there) }
    {
        if there {
            self.insert(first, second)?;
        } else {
            self.remove(first, second);
        }
        Ok(())
    }

    /// The least number above one that is the second of a pair with this first.
    pub fn next(&self, first: u32, after: u32) -> Option<u32>
        ensures { IsNextThat (has self.now first) after result }
    {
        let above = (Bound::Excluded(key(first, after)), Bound::Unbounded);
        match self.tree.range(above).next() {
            None => None,
            Some((key, _unit)) => second_of(*key, first),
        }
    }
}

impl Clone for Pairs {
    ghost is_clone = { λ a b. b ≡ a };

    fn clone(&self) -> Result<Self, AllocError> {
        Ok(Pairs {
            tree: self.tree.clone()?,
        })
    }
}
