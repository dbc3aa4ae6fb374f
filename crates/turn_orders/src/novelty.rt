//! Which of many things of some kinds come first, where not all of them may be tried.

ghost use Rattle.std.specs.Prelude.{◌≡◌, ◌++◌, [], ◌∷◌, cond, map, IfOk, OnOk};
ghost use Rattle.turn_orders.specs.Novelty.{places_from, element, spread_over, block_of, blocks_from, round};
ghost use Rattle.turn_orders.specs.Novelty.{rounds_from, novel};

use crate::places::spread;
use std::alloc::{AllocError, Global};

/// The places of one kind, in the order in which they come.
#[derive(Drop)]
pub struct Block {
    pub places: Vec<usize>,
}

fn add_if(places: &mut Vec<usize>, place: usize, is_added: bool) -> Result<(), AllocError>
    ensures { OnOk result (places.new.items ≡ places.old.items ++ cond is_added (place ∷ []) []) }
{
    if is_added {
        places.push(place)?;
    }
    Ok(())
}

/// The places of a kind.
fn places_of(alloc: Global, kinds: &[usize], kind: usize) -> Result<Vec<usize>, AllocError>
    ensures { IfOk result (λ places. places.items ≡ places_from 0 kind kinds.now) }
{
    let mut places = Vec::new(alloc);
    let mut here: usize = 0;
    let mut left = kinds;
    while let Some((one, rest)) = left.split_first() {
        add_if(&mut places, here, *one == kind)?;
        here += 1;
        left = rest;
    }
    Ok(places)
}

fn add_element(places: &mut Vec<usize>, from: &[usize], at: usize) -> Result<(), AllocError>
    ensures { OnOk result (places.new.items ≡ places.old.items ++ element from.now at) }
{
    if let Some(place) = from.get(at) {
        places.push(*place)?;
    }
    Ok(())
}

/// Those first that are far from the others.
fn spread_over(alloc: Global, places: &[usize]) -> Result<Vec<usize>, AllocError>
    ensures { IfOk result (λ far. far.items ≡ spread_over places.now) }
{
    let order = spread(alloc, places.len())?;
    let mut far = Vec::new(alloc);
    let mut left = order.as_slice();
    while let Some((at, rest)) = left.split_first() {
        add_element(&mut far, places, *at)?;
        left = rest;
    }
    Ok(far)
}

fn block_of(alloc: Global, kinds: &[usize], kind: usize) -> Result<Block, AllocError>
    ensures { IfOk result (λ block. block.places.items ≡ block_of kinds.now kind) }
{
    let places = places_of(alloc, kinds, kind)?;
    let places = spread_over(alloc, places.as_slice())?;
    Ok(Block { places })
}

fn blocks_of(alloc: Global, kinds: &[usize], count: usize) -> Result<Vec<Block>, AllocError>
    ensures { IfOk result (λ blocks. map (λ b. b.places.items) blocks.items ≡ blocks_from kinds.now 0 count) }
{
    let mut blocks = Vec::new(alloc);
    let mut kind: usize = 0;
    let mut left = count;
    while left > 0 {
        blocks.push(block_of(alloc, kinds, kind)?)?;
        kind += 1;
        left -= 1;
    }
    Ok(blocks)
}

/// Adds one place of each block.
fn add_round(places: &mut Vec<usize>, blocks: &[Block], number: usize) -> Result<(), AllocError>
    ensures { OnOk result (places.new.items
        ≡ places.old.items ++ round (map (λ b. b.places.items) blocks.now) number) }
{
    let mut left = blocks;
    while let Some((block, rest)) = left.split_first() {
        add_element(places, block.places.as_slice(), number)?;
        left = rest;
    }
    Ok(())
}

/// So many rounds, in each of which each block gives one place.
fn rounds(alloc: Global, blocks: &[Block], count: usize) -> Result<Vec<usize>, AllocError>
    ensures { IfOk result (λ places. places.items
        ≡ rounds_from (map (λ b. b.places.items) blocks.now) 0 count) }
{
    let mut places = Vec::new(alloc);
    let mut number: usize = 0;
    let mut left = count;
    while left > 0 {
        add_round(&mut places, blocks, number)?;
        number += 1;
        left -= 1;
    }
    Ok(places)
}

/// The places of things of so many kinds: of each kind the first, then of each the last, and then the middles of gaps.
/// A kind is a number, the first being 0.
#[tactic(auto, unfolding(crate::specs::Novelty::novel))]
pub fn novel(alloc: Global, kinds: &[usize], count: usize) -> Result<Vec<usize>, AllocError>
    ensures { IfOk result (λ places. places.items ≡ novel kinds.now count) }
{
    let blocks = blocks_of(alloc, kinds, count)?;
    let places = rounds(alloc, blocks.as_slice(), kinds.len())?;
    Ok(places)
}
