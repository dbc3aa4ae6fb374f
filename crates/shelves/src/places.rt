//! Where the values of a shelf stand, by number.

ghost use Rattle.std.specs.Prelude.{◌≡◌, ◌<◌, ℕ, map, length, set, get_or, None, IfOk, OnOk, OnErr};
ghost use Rattle.std.specs.Ordering.{nat_cmp};
ghost use Rattle.std.specs.FinMap as maps;
ghost use Rattle.std.specs.Coded.{coded_ℕ};
ghost use Rattle.containers.specs.Keys.{IsNextKey};
ghost use Rattle.containers.specs.Vacant.{vacant, IsFullBelow};
ghost use Rattle.shelves.specs.Rows.{AreRows, row_count};

use containers::Map;
use std::alloc::{AllocError, Global};
use std::marker::Model;

/// Numbers below this have a row each, as soon as one from there on has a place: every pid does.
const ROWS: u32 = 32_768;

/// The places of numbers: a tree that has all of them in order, and beside it a row for each number below 32,768, so
/// that a place is found in one step. A row takes 16 bytes, so all of them take 512 KiB at most, whatever the numbers
/// are; a larger number is looked for in the tree.
#[derive(Drop)]
pub struct Places {
    ordered: Map<usize>,
    rows: Vec<Option<usize>>,
}

impl Model for Places {
    ghost Value = { maps.FinMap nat_cmp ℕ };

    ghost coded = { maps.code coded_ℕ coded_ℕ };

    ghost view = { λ p. p.ordered };

    ghost invariant = { λ p. AreRows p.rows.items p.ordered };
}

/// What a row says; one that isn't there is empty.
fn row_at(rows: &[Option<usize>], number: u32) -> Option<usize>
    ensures { result ≡ get_or rows.now number None }
{
    match rows.get(number as usize) {
        None => None,
        Some(row) => *row,
    }
}

/// Writes a row that is there.
fn set_row(rows: &mut Vec<Option<usize>>, number: u32, row: Option<usize>)
    ensures { rows.new.items ≡ set rows.old.items number row }
{
    let at = number as usize;
    if at < rows.len() {
        rows[at] = row;
    }
}

/// Rows up to this number's; new ones are empty.
fn lengthen(rows: &mut Vec<Option<usize>>, number: u32) -> Result<(), AllocError>
    ensures there { OnOk result (number < length rows.new.items) }
    ensures same { (q : ℕ) → get_or rows.new.items q None ≡ get_or rows.old.items q None }
{
    let wanted = number as usize + 1;
    if rows.len() < wanted {
        rows.resize(wanted, None)?;
    }
    Ok(())
}

/// The number will have a row, if it is one that has.
fn make_row(rows: &mut Vec<Option<usize>>, number: u32) -> Result<(), AllocError>
    ensures there { OnOk result (number < row_count → number < length rows.new.items) }
    ensures same { (q : ℕ) → get_or rows.new.items q None ≡ get_or rows.old.items q None }
{
    if number < ROWS {
        lengthen(rows, number)
    } else {
        Ok(())
    }
}

impl Places {
    pub fn new(alloc: Global) -> Self
        ensures { result ≡ maps.empty }
    {
        Places {
            ordered: Map::new(alloc),
            rows: Vec::new(alloc),
        }
    }

    pub fn get(&self, number: u32) -> Option<usize>
        ensures { result ≡ maps.get self.now number }
    {
        if number < ROWS {
            row_at(&self.rows, number)
        } else {
            self.ordered.get(number).copied()
        }
    }

    /// The least number with a place above a number.
    pub fn next_key(&self, number: u32) -> Option<u32>
        ensures { IsNextKey self.now number result }
    {
        self.ordered.next_key(number)
    }

    /// How many numbers have a place.
    pub fn len(&self) -> usize
        ensures { result ≡ maps.len self.now }
    {
        self.ordered.len()
    }

    /// The places, that of the least number first.
    pub fn values(&self, alloc: Global) -> Result<Vec<&usize>, AllocError>
        ensures { IfOk result (λ v. map (λ r. r.now) v.items ≡ maps.values self.now) }
    {
        self.ordered.values(alloc)
    }

    /// The least number without a place, where each number below `from` has one. Err where no number of 32 bits is
    /// left.
    pub fn vacant(&self, from: u32) -> Result<u32, AllocError>
        requires { IsFullBelow self.now from }
        ensures { IfOk result (λ n. n ≡ vacant self.now) }
    {
        self.ordered.vacant(from)
    }

    pub fn insert(&mut self, number: u32, place: usize) -> Result<(), AllocError>
        ensures ok { OnOk result (self.new ≡ maps.insert self.old number place) }
        ensures err { OnErr result (self.new ≡ self.old) }
    {
        let Ok(()) = make_row(&mut self.rows, number) else {
            return Err(AllocError);
        };
        let Ok(()) = self.ordered.insert(number, place) else {
            return Err(AllocError);
        };
        set_row(&mut self.rows, number, Some(place));
        Ok(())
    }

    pub fn remove(&mut self, number: u32) -> Option<usize>
        ensures value { result ≡ maps.get self.old number }
        ensures rest { self.new ≡ maps.remove self.old number }
    {
        match self.get(number) {
            None => None,
            Some(_) => {
                set_row(&mut self.rows, number, None);
                self.ordered.remove(number)
            }
        }
    }
}

impl Clone for Places {
    ghost is_clone = { λ a b. b ≡ a };

    fn clone(&self) -> Result<Self, AllocError> {
        Ok(Places {
            ordered: self.ordered.clone()?,
            rows: self.rows.clone()?,
        })
    }
}
