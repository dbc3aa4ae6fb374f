//! Which numbers a map lacks.

ghost use Rattle.std.specs.Prelude.{◌≡◌, ◌≤◌, ◌<◌, IfSome, true};
ghost use Rattle.std.specs.FinMap as maps;
ghost use Rattle.shelves.specs.Lacking.{taken, left, IsFirstHole};

use containers::Map;
use std::alloc::{AllocError, Global};

/// The least number that a map lacks, found in one step: of those that it lacks, all below the first from which on it
/// has none.
#[derive(Drop)]
pub struct Vacancies {
    pub holes: Map<()>,
    pub top: u32,
    /// Not once memory for the holes was refused, or a number was taken above the top.
    pub known: bool,
}

impl Vacancies {
    /// Of a map that is empty.
    pub fn new(alloc: Global) -> Self
        ensures { result ≡ record { holes = maps.empty; top = 0; known = true } }
    {
        Vacancies {
            holes: Map::new(alloc),
            top: 0,
            known: true,
        }
    }

    /// A number is there.
    pub fn take(&mut self, number: u32)
        ensures known { self.new.known ≡ true → self.old.known ≡ true }
        ensures within { self.new.known ≡ true → number ≤ self.old.top }
        ensures taken { self.new.known ≡ true → self.new ≡ taken self.old number }
    {
        if number < self.top {
            self.holes.remove(number);
        } else if number == self.top && number < u32::MAX {
            self.top = number + 1;
        } else {
            self.known = false;
        }
    }

    /// A number is there no longer.
    pub fn leave(&mut self, number: u32)
        ensures known { self.new.known ≡ true → self.old.known ≡ true }
        ensures within { self.new.known ≡ true → number < self.old.top }
        ensures left { self.new.known ≡ true → self.new ≡ left self.old number }
    {
        if number >= self.top {
            self.known = false;
        } else if number == self.top - 1 {
            self.top = number;
        } else if self.holes.insert(number, ()).is_err() {
            self.known = false;
        }
    }

    /// The least that isn't there, if it is known.
    pub fn least(&self) -> Option<u32>
        ensures { IfSome result (λ n. IsFirstHole self.now n) }
    {
        if !self.known {
            return None;
        }
        if self.holes.get(0).is_some() {
            return Some(0);
        }
        match self.holes.next_key(0) {
            Some(hole) => Some(hole),
            None => Some(self.top),
        }
    }
}

impl Clone for Vacancies {
    ghost is_clone = { λ a b. b ≡ a };

    fn clone(&self) -> Result<Self, AllocError> {
        Ok(Vacancies {
            holes: self.holes.clone()?,
            top: self.top,
            known: self.known,
        })
    }
}
