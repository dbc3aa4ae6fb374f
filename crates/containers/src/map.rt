//! A map from numbers, as clauses see it.
ghost use Rattle.std.specs.List.{list_any};
ghost use Rattle.std.specs.Prelude.{◌≡◌, ◌==◌, ◌↔◌, OnOk, OnErr, IsTrue, is_some};
ghost use Rattle.std.specs.Ordering.{nat_cmp};
ghost use Rattle.std.specs.Option.{option_copied};
ghost use Rattle.std.specs.FinMap as maps;
ghost use Rattle.std.specs.Coded.{coded_ℕ};
ghost use Rattle.std.specs.Prelude.{IfOk, map};
ghost use Rattle.containers.specs.Keys.{IsNextKey};
ghost use Rattle.containers.specs.Vacant.{vacant, IsFullBelow};

use std::alloc::{AllocError, Global};
use std::collections::BTreeMap;
use std::marker::Model;
use std::ops::Bound;

#[derive(Drop)]
pub struct Map<V> {
    tree: BTreeMap<u32, V>,
}

impl<V> Model for Map<V> {
    ghost Value = { maps.FinMap nat_cmp V };

    ghost coded = { maps.code coded_ℕ V.code };

    ghost view = { λ m. maps.from_entries m.tree.entries };
}

impl<V> Map<V> {
    pub fn new(alloc: Global) -> Self
        ensures { result ≡ maps.empty }
    {
        Map {
            tree: BTreeMap::new(alloc),
        }
    }

    pub fn get(&self, key: u32) -> Option<&V>
        ensures { option_copied result ≡ maps.get self.now key }
    {
        self.tree.get(&key)
    }

    /// The least key above a number.
    pub fn next_key(&self, number: u32) -> Option<u32>
        ensures { IsNextKey self.now number result }
    {
        let above = (Bound::Excluded(number), Bound::Unbounded);
        match self.tree.range(above).next() {
            None => None,
            Some((key, _value)) => Some(*key),
        }
    }

    /// How many keys there are.
    pub fn len(&self) -> usize
        ensures { result ≡ maps.len self.now }
    {
        self.tree.len()
    }

    /// The values, that of the least key first.
    pub fn values(&self, alloc: Global) -> Result<Vec<&V>, AllocError>
        ensures { IfOk result (λ v. map (λ r. r.now) v.items ≡ maps.values self.now) }
    {
        // The keys rise.
        self.tree.len();
        values_in(alloc, &self.tree)
    }

    /// The least number that is no key, where each number below `from` is one. Err where no number of 32 bits is left.
    pub fn vacant(&self, from: u32) -> Result<u32, AllocError>
        requires { IsFullBelow self.now from }
        ensures { IfOk result (λ n. n ≡ vacant self.now) }
    {
        for number in from..u32::MAX {
            if self.get(number).is_none() {
                return Ok(number);
            }
        }
        Err(AllocError)
    }
}

impl<V> Map<V> {
    ghost use Rattle.std.specs.Borrow.{sem};
    ghost use Rattle.std.specs.Option.{option_copied_mut};
    ghost use Rattle.containers.specs.Lending.{lends_at};

    /// The value at the key, for writing.
    pub fn get_mut(&mut self, key: u32) -> Option<&mut V>
        ensures* writes_back { sem 𝓛 (lends_at V.row self.entry key result) }
        ensures value { option_copied_mut result ≡ maps.get self.old key }
    {
        self.tree.get_mut(&key)
    }
}

impl<V: Drop> Map<V> {
    pub fn insert(&mut self, key: u32, value: V) -> Result<(), AllocError>
        ensures ok { OnOk result (self.new ≡ maps.insert self.old key value) }
        ensures err { OnErr result (self.new ≡ self.old) }
    {
        self.tree.insert(key, value)?;
        Ok(())
    }

    pub fn remove(&mut self, key: u32) -> Option<V>
        ensures value { result ≡ maps.get self.old key }
        ensures rest { self.new ≡ maps.remove self.old key }
    {
        self.tree.remove(&key)
    }

    /// Keeps the keys of the list alone.
    pub fn keep(&mut self, kept: &[u32])
        ensures { self.new ≡ maps.retain_keys self.old (λ k. list_any (λ n. n == k) kept.now) }
    {
        self.tree.retain(|key, _value| is_among(kept, *key));
    }
}

fn is_among(numbers: &[u32], number: u32) -> bool
    ensures { result ≡ list_any (λ n. n == number) numbers.now }
{
    numbers.iter().any(|n| *n == number)
}

/// The values of a tree, in the order of its keys.
fn values_in<V>(alloc: Global, tree: &BTreeMap<u32, V>) -> Result<Vec<&V>, AllocError>
    ensures { IfOk result (λ v. map (λ r. r.now) v.items ≡ map (λ e. e.1) tree.now.entries) }
{
    let mut list = Vec::new(alloc);
    for (_key, value) in tree.iter() {
        list.push(value)?;
    }
    Ok(list)
}

impl<V: Clone> Clone for Map<V> {
    // Where copies of values are the same, the map is.
    ghost is_clone = { λ a b. ((v w : V) → V.is_clone v w → w ≡ v) → b ≡ a };

    fn clone(&self) -> Result<Self, AllocError> {
        Ok(Map {
            tree: self.tree.clone()?,
        })
    }
}
