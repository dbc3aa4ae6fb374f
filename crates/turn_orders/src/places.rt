//! Places spread over a list: the first, the last, and then the halves of the gaps between them.

ghost use Rattle.std.specs.Prelude.{◌≡◌, ◌++◌, IfOk, OnOk};
ghost use Rattle.turn_orders.specs.Places.{gap_between, halves, middles, ends, spread};

use std::alloc::{AllocError, Global};
use std::collections::VecDeque;

/// Two places, and one between them.
#[derive(Clone, Copy, Debug, PartialEq, Eq)]
pub struct Gap {
    pub from: usize,
    pub middle: usize,
    pub to: usize,
}

/// The gap between two places waits behind the others, if another place is between them.
fn add_gap(gaps: &mut VecDeque<Gap>, from: usize, to: usize) -> Result<(), AllocError>
    ensures { OnOk result (gaps.new.items ≡ gaps.old.items ++ gap_between from to) }
{
    let width = to.saturating_sub(from);
    if width > 1 {
        let middle = from + width / 2;
        gaps.push_back(Gap { from, middle, to })?;
    }
    Ok(())
}

fn add_halves(gaps: &mut VecDeque<Gap>, gap: Gap) -> Result<(), AllocError>
    ensures { OnOk result (gaps.new.items ≡ gaps.old.items ++ halves gap) }
{
    add_gap(gaps, gap.from, gap.middle)?;
    add_gap(gaps, gap.middle, gap.to)?;
    Ok(())
}

/// Adds the middles of these gaps and of their halves, so many at most.
fn add_middles(
    places: &mut Vec<usize>,
    gaps: &mut VecDeque<Gap>,
    most: usize,
) -> Result<(), AllocError>
    ensures { OnOk result (places.new.items ≡ places.old.items ++ middles most gaps.old.items) }
{
    let mut left = most;
    while left > 0 {
        let Some(gap) = gaps.pop_front() else {
            return Ok(());
        };
        places.push(gap.middle)?;
        add_halves(gaps, gap)?;
        left -= 1;
    }
    Ok(())
}

/// The first and the last of so many places.
fn add_ends(places: &mut Vec<usize>, count: usize) -> Result<(), AllocError>
    ensures { OnOk result (places.new.items ≡ places.old.items ++ ends count) }
{
    if count > 0 {
        places.push(0)?;
    }
    if count > 1 {
        places.push(count - 1)?;
    }
    Ok(())
}

/// So many places, those first that are far from the others.
#[tactic(auto, unfolding(crate::specs::Places::spread))]
pub fn spread(alloc: Global, count: usize) -> Result<Vec<usize>, AllocError>
    ensures { IfOk result (λ places. places.items ≡ spread count) }
{
    let mut places = Vec::new(alloc);
    let mut gaps = VecDeque::new(alloc);
    add_ends(&mut places, count)?;
    add_gap(&mut gaps, 0, count.saturating_sub(1))?;
    add_middles(&mut places, &mut gaps, count)?;
    Ok(places)
}
