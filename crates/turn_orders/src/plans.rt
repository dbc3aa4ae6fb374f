//! Which order comes when.

ghost use Rattle.std.specs.Prelude.{◌≡◌, IfOk};
ghost use Rattle.turn_orders.specs.Plans.{IsSource, plan_of, switched_of, words_of, switched};

use crate::steps::{Steps, steps_of};
use crate::switches::{Switch, spread_out, switches_of};
use containers::Seq;
use lx_abi::{Item, Word};
use std::alloc::{AllocError, Global};

/// What orders are made from.
#[derive(Drop)]
pub struct Source {
    /// The steps of the run by the default order.
    pub steps: Steps,
    /// The switches that it can have, those first that are far from the others.
    pub switches: Vec<Switch>,
    /// Where the generator begins.
    pub seed: u64,
}

impl Source {
    /// By the log of the run by the default order.
    pub fn new(alloc: Global, log: &[Item], seed: u64) -> Result<Self, AllocError>
        ensures { IfOk result (IsSource log.now seed) }
    {
        let steps = steps_of(alloc, log)?;
        let switches = switches_of(alloc, log)?;
        Ok(Source {
            steps,
            switches: spread_out(alloc, switches.as_slice())?,
            seed,
        })
    }
}

/// How an order comes about.
#[derive(Clone, Copy, Debug, PartialEq, Eq)]
pub enum Plan {
    Default,
    Switched(Switch),
    /// By chance, as the generator's stream with this number says.
    ByChance(u64),
}

/// The order with this number, the first being 0.
pub fn plan_of(switches: &[Switch], number: usize) -> Plan
    ensures { result ≡ plan_of switches.now number }
{
    if number == 0 {
        return Plan::Default;
    }
    if number % 2 == 1 {
        return Plan::ByChance(number as u64);
    }
    match switches.get((number - 1) / 2) {
        Some(switch) => Plan::Switched(*switch),
        None => Plan::ByChance(number as u64),
    }
}

/// How many of so many orders have a switch, where there are so many switches.
pub fn switched_of(orders: usize, switches: usize) -> usize
    ensures { result ≡ switched_of orders switches }
{
    (orders.saturating_sub(1) / 2).min(switches)
}

/// A word for each step.
pub fn words_of(alloc: Global, pids: &[u32]) -> Result<Seq<Word>, AllocError>
    ensures { IfOk result (λ words. words ≡ words_of pids.now) }
{
    let mut words = Seq::new(alloc);
    let mut left = pids;
    while let Some((pid, rest)) = left.split_first() {
        words.push(Word::UntilReturn { pid: *pid })?;
        left = rest;
    }
    Ok(words)
}

/// Whose the steps of an order with a switch are, up to the switch.
#[tactic(auto, using(crate::proofs::Lists::take_least))]
pub fn switched(alloc: Global, steps: &Steps, switch: Switch) -> Result<Vec<u32>, AllocError>
    ensures { IfOk result (λ pids. pids.items ≡ switched steps.now switch) }
{
    let all = steps.pids.as_slice();
    let (first, _) = all.split_at(switch.steps.min(all.len()));
    let mut pids = Vec::new(alloc);
    pids.extend_from_slice(first)?;
    pids.push(switch.pid)?;
    Ok(pids)
}
