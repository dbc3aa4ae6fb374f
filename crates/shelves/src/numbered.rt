//! A map from numbers, whose least number without a value is found in one step.

ghost use Rattle.std.specs.Prelude.{◌≡◌, OnOk, OnErr, IfOk, IfSome};
ghost use Rattle.std.specs.Ordering.{nat_cmp};
ghost use Rattle.std.specs.Option.{option_copied};
ghost use Rattle.std.specs.FinMap as maps;
ghost use Rattle.std.specs.Coded.{coded_ℕ};
ghost use Rattle.containers.specs.Vacant.{vacant};
ghost use Rattle.shelves.specs.Lacking.{Knows};

use crate::shelf::Shelf;
use crate::vacancies::Vacancies;
use std::alloc::{AllocError, Global};
use std::marker::Model;

/// A shelf, and the numbers that it lacks. What is known of these affects only speed.
#[derive(Drop)]
pub struct Numbered<V> {
    shelf: Shelf<V>,
    vacancies: Vacancies,
}

impl<V> Model for Numbered<V> {
    ghost Value = { maps.FinMap nat_cmp V };

    ghost coded = { maps.code coded_ℕ V.code };

    ghost view = { λ n. n.shelf };

    ghost invariant = { λ n. Knows n.shelf n.vacancies };
}

/// The least number that is no key.
fn least<V>(shelf: &Shelf<V>, vacancies: &Vacancies) -> Result<u32, AllocError>
    requires { Knows shelf.now vacancies.now }
    ensures { IfOk result (λ n. n ≡ vacant shelf.now) }
{
    match vacancies.least() {
        Some(number) => Ok(number),
        None => shelf.vacant(0),
    }
}

impl<V> Numbered<V> {
    pub fn new(alloc: Global) -> Self
        ensures { result ≡ maps.empty }
    {
        Numbered {
            shelf: Shelf::new(alloc),
            vacancies: Vacancies::new(alloc),
        }
    }

    pub fn get(&self, key: u32) -> Option<&V>
        ensures { option_copied result ≡ maps.get self.now key }
    {
        self.shelf.get(key)
    }

    /// How many keys there are.
    pub fn len(&self) -> usize
        ensures { result ≡ maps.len self.now }
    {
        self.shelf.len()
    }

    /// The least number that is no key. Err where no number of 32 bits is left.
    pub fn vacant(&self) -> Result<u32, AllocError>
        ensures { IfOk result (λ n. n ≡ vacant self.now) }
    {
        least(&self.shelf, &self.vacancies)
    }
}

impl<V> Numbered<V> {
    ghost use Rattle.std.specs.Borrow.{sem};
    ghost use Rattle.std.specs.Option.{option_copied_mut};
    ghost use Rattle.shelves.specs.LendingNumbered.{lends_at};

    /// The value at the key, for writing.
    pub fn get_mut(&mut self, key: u32) -> Option<&mut V>
        ensures* writes_back { sem 𝓛 (lends_at V.row self.entry key result) }
        ensures value { option_copied_mut result ≡ maps.get self.old key }
    {
        match self.shelf.get_mut(key) {
            None => None,
            Some(value) => Some(value),
        }
    }
}

impl<V: Drop> Numbered<V> {
    pub fn insert(&mut self, key: u32, value: V) -> Result<(), AllocError>
        ensures ok { OnOk result (self.new ≡ maps.insert self.old key value) }
        ensures err { OnErr result (self.new ≡ self.old) }
    {
        let Ok(()) = self.shelf.insert(key, value) else {
            return Err(AllocError);
        };
        self.vacancies.take(key);
        Ok(())
    }

    pub fn remove(&mut self, key: u32) -> Option<V>
        ensures value { result ≡ maps.get self.old key }
        ensures rest { self.new ≡ maps.remove self.old key }
    {
        match self.shelf.remove(key) {
            None => None,
            Some(value) => {
                self.vacancies.leave(key);
                Some(value)
            }
        }
    }
}

impl<V: Clone> Clone for Numbered<V> {
    ghost use Rattle.shelves.specs.Clones.{IsShelfClone};

    ghost is_clone = { IsShelfClone V.is_clone };

    fn clone(&self) -> Result<Self, AllocError> {
        Ok(Numbered {
            shelf: self.shelf.clone()?,
            vacancies: self.vacancies.clone()?,
        })
    }
}
