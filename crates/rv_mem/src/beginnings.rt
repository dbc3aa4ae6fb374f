//! Where the runs of pages begin, and how many pages are missing before each.
ghost use Rattle.std.specs.Prelude.{◌≡◌, ℕ, ◌<◌, ◌≤◌, ◌⊎◌, ◌≢◌, length, IsSome, IfSome, IfOk, OnOk, true};
ghost use Rattle.std.specs.Ordering.{nat_cmp};
ghost use Rattle.std.specs.BTreeMap as tree;
ghost use Rattle.std.specs.BTreeSet.{contains};
ghost use Rattle.rv_mem.specs.Beginnings.{Begun, IsAboveGap, IsMarked, Marks, class_of, is_in_class};
ghost use Rattle.rv_mem.specs.Pages.{IsTable, Lacks, contents};

use crate::table::PageTable;
use std::alloc::{AllocError, Global};
use std::collections::{BTreeMap, BTreeSet};

/// A mark at the number of each page before which none stands, in the set of the class of how many are missing there.
/// So the gaps of lower classes than that of the room that is wanted are passed over at once. Those of the same class
/// that are too small are looked at one by one: none for up to eight pages, and beyond that those that are too small by
/// less than a fifth.
#[derive(Drop)]
pub struct Beginnings {
    alloc: Global,
    // the marked numbers of each class
    pub gaps: Vec<BTreeSet<u64>>,
    // the class of each marked number
    pub classes: BTreeMap<u64, usize>,
    // false once there was no memory for a mark; pages are passed over one by one then
    pub known: bool,
}

impl Beginnings {
    pub(crate) fn new(alloc: Global) -> Beginnings {
        Beginnings {
            alloc,
            gaps: Vec::new(alloc),
            classes: BTreeMap::new(alloc),
            known: true,
        }
    }

    /// The greatest number up to that of a page below which so many pages may be missing, or zero.
    pub(crate) fn room_below(&self, number: u64, pages: u64) -> u64
        ensures at_most { result ≤ number }
        ensures passed { (n : ℕ) → result < n → n ≤ number → Marks self.now n pages → ⊥ }
    {
        if !self.known {
            return number;
        }
        let mut greatest: u64 = 0;
        let mut class = class(pages);
        while class < self.gaps.len() {
            let last = last_up_to(&self.gaps[class], number);
            greatest = greatest.max(last);
            class += 1;
        }
        greatest
    }

    /// Sets the marks anew where the pages from a number up to another were all added, or all taken out. That changes
    /// the gap before the next page too.
    pub(crate) fn renew(&mut self, table: &PageTable, first: u64, end: u64)
        requires whole { IsTable table.now }
        requires rising { first ≤ end }
        requires below { (n pages : ℕ) → n < first → IsAboveGap (contents table.now) n pages → Marks self.old n pages }
        requires inside { (n pages : ℕ) → first < n → n < end → IsAboveGap (contents table.now) n pages → ⊥ }
        requires above { (n pages k : ℕ) → end ≤ k → k < n → (Lacks table.now.pages.items k → ⊥)
            → IsAboveGap (contents table.now) n pages → Marks self.old n pages }
        ensures { Begun self.new (contents table.now) }
    {
        let last = table.number_from(end).unwrap_or(end);
        self.clear(first, last);
        self.note(table, first);
        self.note(table, last);
    }

    /// Takes out the marks from a number up to another, that one too.
    fn clear(&mut self, first: u64, last: u64)
        requires { first ≤ last }
        ensures { (n pages : ℕ) → (n < first) ⊎ (last < n) → Marks self.old n pages → Marks self.new n pages }
    {
        while let Some((number, class)) = self.mark_within(first, last) {
            self.classes.remove(&number);
            self.take_out(number, class);
        }
    }

    /// A mark from a number up to another, that one too, and its class.
    fn mark_within(&self, first: u64, last: u64) -> Option<(u64, usize)>
        requires { first ≤ last }
        ensures there { IfSome result (λ mark. IsSome (tree.get nat_cmp self.now.classes mark.0)) }
        ensures within { IfSome result (λ mark. (first ≤ mark.0) × (mark.0 ≤ last)) }
    {
        let (number, class) = self.classes.range(first..=last).next()?;
        Some((*number, *class))
    }

    /// Takes a number out of the set of a class.
    fn take_out(&mut self, number: u64, class: usize)
        ensures kept { (c n : ℕ) → n ≢ number → IsMarked self.old c n → IsMarked self.new c n }
        ensures classes { self.new.classes ≡ self.old.classes }
        ensures known { self.new.known ≡ self.old.known }
    {
        if class < self.gaps.len() {
            self.gaps[class].remove(&number);
        }
    }

    /// Marks a number if pages are missing before its page.
    fn note(&mut self, table: &PageTable, number: u64)
        requires { IsTable table.now }
        ensures marked { (pages : ℕ) → IsAboveGap (contents table.now) number pages → Marks self.new number pages }
        ensures kept { (n pages : ℕ) → Marks self.old n pages → Marks self.new n pages }
    {
        let gap = gap_before(table, number);
        if gap == 0 {
            return;
        }
        self.mark(number, class(gap));
    }

    /// Marks a number in a class.
    fn mark(&mut self, number: u64, class: usize)
        ensures marked { self.new.known ≡ true → IsMarked self.new class number }
        ensures kept { (c n : ℕ) → IsMarked self.old c n → IsMarked self.new c n }
        ensures known { self.new.known ≡ true → self.old.known ≡ true }
    {
        if self.try_mark(number, class).is_err() {
            self.known = false;
        }
    }

    /// As `mark`, if there is memory for it.
    fn try_mark(&mut self, number: u64, class: usize) -> Result<(), AllocError>
        ensures marked { OnOk result (IsMarked self.new class number) }
        ensures kept { (c n : ℕ) → IsMarked self.old c n → IsMarked self.new c n }
        ensures known { self.new.known ≡ self.old.known }
    {
        self.add_classes(class)?;
        self.classes.insert(number, class)?;
        self.gaps[class].insert(number)?;
        Ok(())
    }

    /// Adds empty sets, up to that of a class.
    fn add_classes(&mut self, class: usize) -> Result<(), AllocError>
        ensures there { OnOk result (class < length self.new.gaps.items) }
        ensures kept { (c n : ℕ) → IsMarked self.old c n → IsMarked self.new c n }
        ensures known { self.new.known ≡ self.old.known }
    {
        while self.gaps.len() <= class {
            self.gaps.push(BTreeSet::new(self.alloc))?;
        }
        Ok(())
    }

    /// The same marks again.
    pub(crate) fn copy(&self) -> Result<Beginnings, AllocError>
        ensures known { IfOk result (λ copy. copy.known ≡ self.now.known) }
        ensures marks { IfOk result (λ copy. (c n : ℕ) → IsMarked self.now c n → IsMarked copy c n) }
    {
        Ok(Beginnings {
            alloc: self.alloc,
            gaps: copy_sets(&self.gaps, self.alloc)?,
            classes: self.classes.clone()?,
            known: self.known,
        })
    }
}

/// The class of a number of pages.
fn class(pages: u64) -> usize
    ensures { result ≡ class_of pages }
{
    let mut class = 0;
    let mut rest = pages;
    while rest >= 8 {
        class += 4;
        rest /= 2;
    }
    class + rest as usize
}

/// The greatest number of a set up to another, or zero.
fn last_up_to(set: &BTreeSet<u64>, number: u64) -> u64
    ensures at_most { result ≤ number }
    ensures greatest { (n : ℕ) → result < n → n ≤ number → contains nat_cmp set.now n ≡ true → ⊥ }
{
    // most sets are empty
    if set.is_empty() {
        return 0;
    }
    match set.range(..=number).next_back() {
        Some(last) => *last,
        None => 0,
    }
}

/// How many pages are missing just before a page; zero where there is no page of that number.
fn gap_before(table: &PageTable, number: u64) -> u64
    requires { IsTable table.now }
    ensures { (pages : ℕ) → IsAboveGap (contents table.now) number pages → (0 < result) × (pages ≤ result) }
{
    if table.place(number).is_none() {
        return 0;
    }
    match table.number_below(number) {
        Some(below) => number - (below + 1),
        None => number,
    }
}

/// Sets once more, in the same order.
fn copy_sets(sets: &[BTreeSet<u64>], alloc: Global) -> Result<Vec<BTreeSet<u64>>, AllocError>
    ensures { IfOk result (λ copy. (c n : ℕ) → is_in_class sets.now c n ≡ true → is_in_class copy.items c n ≡ true) }
{
    let mut copy = Vec::with_capacity(alloc, sets.len())?;
    for set in sets {
        copy.push(copy_set(set)?)?;
    }
    Ok(copy)
}

/// A set once more.
fn copy_set(set: &BTreeSet<u64>) -> Result<BTreeSet<u64>, AllocError>
    ensures { IfOk result (λ copy. copy.keys ≡ set.now.keys) }
{
    Ok(set.clone()?)
}
