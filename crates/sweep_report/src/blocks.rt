//! Runs told together: a block for each site of a call, and in it a line for each outcome.

use crate::entries::{Entry, rising};
use crate::told::Told;
use std::alloc::{AllocError, Global};

/// Runs with one outcome, by their places among all.
#[derive(Drop)]
pub struct Line {
    pub rank: u8,
    pub places: Vec<usize>,
}

/// Runs in which calls of one site fail.
#[derive(Drop)]
pub struct Block {
    pub worst: u8,
    pub lines: Vec<Line>,
}

/// The first run of a line.
pub fn first_of<'t>(rows: &'t [Told], line: &Line) -> Option<&'t Told> {
    let place = line.places.first()?;
    rows.get(*place)
}

/// The first run of a block.
pub fn first_in<'t>(rows: &'t [Told], block: &Block) -> Option<&'t Told> {
    let line = block.lines.first()?;
    first_of(rows, line)
}

fn is_at(rows: &[Told], block: &Block, site: &str) -> bool {
    match first_in(rows, block) {
        Some(told) => told.site.as_str() == site,
        None => false,
    }
}

fn has_outcome(rows: &[Told], line: &Line, outcome: &str) -> bool {
    match first_of(rows, line) {
        Some(told) => told.outcome.as_str() == outcome,
        None => false,
    }
}

/// Adds the entries into a line's calls.
fn push_entries(entries: &mut Vec<Entry>, rows: &[Told], line: &Line) -> Result<(), AllocError> {
    for place in line.places.iter().copied() {
        if let Some(told) = rows.get(place) {
            entries.push(told.entry())?;
        }
    }
    Ok(())
}

impl Line {
    /// The entries into its calls, rising.
    pub fn entries(&self, alloc: Global, rows: &[Told]) -> Result<Vec<Entry>, AllocError> {
        let mut all = Vec::new(alloc);
        push_entries(&mut all, rows, self)?;
        rising(&mut all)?;
        Ok(all)
    }
}

impl Block {
    /// The entries into its calls, rising.
    pub fn entries(&self, alloc: Global, rows: &[Told]) -> Result<Vec<Entry>, AllocError> {
        let mut all = Vec::new(alloc);
        for line in &self.lines {
            push_entries(&mut all, rows, line)?;
        }
        rising(&mut all)?;
        Ok(all)
    }

    /// Adds the run in a place.
    fn add(
        &mut self,
        alloc: Global,
        rows: &[Told],
        place: usize,
        told: &Told,
    ) -> Result<(), AllocError> {
        self.worst = self.worst.min(told.rank);
        let outcome = told.outcome.as_str();
        let same = self
            .lines
            .iter()
            .position(|line| has_outcome(rows, line, outcome));
        if let Some(number) = same {
            if let Some(line) = self.lines.get_mut(number) {
                line.places.push(place)?;
            }
            return Ok(());
        }
        let mut places = Vec::new(alloc);
        places.push(place)?;
        let rank = told.rank;
        self.lines.push(Line { rank, places })?;
        Ok(())
    }
}

/// Adds the run in a place to the block of its site.
fn add(
    alloc: Global,
    blocks: &mut Vec<Block>,
    rows: &[Told],
    place: usize,
    told: &Told,
) -> Result<(), AllocError> {
    let site = told.site.as_str();
    let same = blocks.iter().position(|block| is_at(rows, block, site));
    if let Some(number) = same {
        if let Some(block) = blocks.get_mut(number) {
            block.add(alloc, rows, place, told)?;
        }
        return Ok(());
    }
    let mut block = Block {
        worst: told.rank,
        lines: Vec::new(alloc),
    };
    block.add(alloc, rows, place, told)?;
    blocks.push(block)?;
    Ok(())
}

/// The blocks of these runs, and in each its lines, the worst first.
pub fn blocks_of(alloc: Global, rows: &[Told]) -> Result<Vec<Block>, AllocError> {
    let mut blocks = Vec::new(alloc);
    for (place, told) in rows.iter().enumerate() {
        add(alloc, &mut blocks, rows, place, told)?;
    }
    for block in blocks.iter_mut() {
        block.lines.sort_by_key(|line| line.rank)?;
    }
    blocks.sort_by_key(|block| block.worst)?;
    Ok(blocks)
}
