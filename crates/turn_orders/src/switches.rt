//! Where an order can differ from that of a run: another process goes on where a step begins.

ghost use Rattle.std.specs.Prelude.{◌≡◌, ◌++◌, [], ◌∷◌, cond, map, IfOk, OnOk};
ghost use Rattle.std.specs.List.{filter, flat_map, slice_get};
ghost use Rattle.std.specs.Option.{option_to_list};
ghost use Rattle.turn_orders.specs.Steps.{no_steps};
ghost use Rattle.turn_orders.specs.Switches.{acts, might, switch_to, switches_at, switches_of, spread_out};

use crate::places::spread;
use crate::steps::{Steps, begins, doer};
use lx_abi::Item;
use std::alloc::{AllocError, Global};

/// Behind so many steps of a run this process goes on.
#[derive(Clone, Copy, Debug, PartialEq, Eq)]
pub struct Switch {
    pub steps: usize,
    pub pid: u32,
}

/// The process still does something.
fn acts(log: &[Item], pid: u32) -> bool
    ensures { result ≡ acts log.now pid }
{
    log.iter().any(|item| doer(item) == pid)
}

/// Another process than this one, which still does something.
fn might(pid: u32, later: &[Item], other: u32) -> bool
    ensures { result ≡ might pid later.now other }
{
    other != pid && acts(later, other)
}

/// Adds a switch, if it can be.
fn add_switch(switches: &mut Vec<Switch>, switch: Switch, can: bool) -> Result<(), AllocError>
    ensures { OnOk result (switches.new.items ≡ switches.old.items ++ cond can (switch ∷ []) []) }
{
    if can {
        switches.push(switch)?;
    }
    Ok(())
}

/// Adds the switches to some of these processes, where this one begins a step.
fn add_switches(
    switches: &mut Vec<Switch>,
    steps: usize,
    born: &[u32],
    pid: u32,
    later: &[Item],
) -> Result<(), AllocError>
    ensures { OnOk result (switches.new.items
        ≡ switches.old.items ++ map (switch_to steps) (filter (might pid later.now) born.now)) }
{
    let mut left = born;
    while let Some((other, rest)) = left.split_first() {
        let switch = Switch { steps, pid: *other };
        add_switch(switches, switch, might(pid, later, *other))?;
        left = rest;
    }
    Ok(())
}

/// Adds the switches that come before this item.
fn add_before(
    switches: &mut Vec<Switch>,
    steps: &Steps,
    item: &Item,
    later: &[Item],
) -> Result<(), AllocError>
    ensures { OnOk result (switches.new.items ≡ switches.old.items ++ switches_at steps.now item.now later.now) }
{
    if begins(steps.current, doer(item)) {
        let made = steps.pids.as_slice().len();
        add_switches(switches, made, steps.born.as_slice(), doer(item), later)?;
    }
    Ok(())
}

/// The switches that a run with this log can have, in its order.
#[tactic(auto, unfolding(crate::specs::Switches::switches_of))]
pub fn switches_of(alloc: Global, log: &[Item]) -> Result<Vec<Switch>, AllocError>
    ensures { IfOk result (λ switches. switches.items ≡ switches_of log.now) }
{
    let mut switches = Vec::new(alloc);
    let mut steps = Steps::none(alloc)?;
    let mut left = log;
    while let Some((item, rest)) = left.split_first() {
        add_before(&mut switches, &steps, item, rest)?;
        steps.add(item)?;
        left = rest;
    }
    Ok(switches)
}

/// Adds the switch at this place.
fn add_at(spread: &mut Vec<Switch>, switches: &[Switch], place: usize) -> Result<(), AllocError>
    ensures { OnOk result (spread.new.items
        ≡ spread.old.items ++ option_to_list (slice_get switches.now place)) }
{
    if let Some(switch) = switches.get(place) {
        spread.push(*switch)?;
    }
    Ok(())
}

/// Those first that are far from the others.
#[tactic(auto, unfolding(crate::specs::Switches::spread_out))]
pub fn spread_out(alloc: Global, switches: &[Switch]) -> Result<Vec<Switch>, AllocError>
    ensures { IfOk result (λ r. r.items ≡ spread_out switches.now) }
{
    let places = spread(alloc, switches.len())?;
    let mut far = Vec::new(alloc);
    let mut left = places.as_slice();
    while let Some((place, rest)) = left.split_first() {
        add_at(&mut far, switches, *place)?;
        left = rest;
    }
    Ok(far)
}
