//! Runs by many orders, several at once.

ghost use Rattle.std.specs.Prelude.{◌≡◌, ◌<◌, ◌≤◌, ◌+◌, ◌^◌, IfOk, OnOk};
ghost use Rattle.std.specs.Thread.{IsSync};
ghost use Rattle.sweep_orders.specs.Found.{none_told};
ghost use Rattle.sweep_orders.specs.Orders.{told_of, AreMade, Explores, AreOrders};

use crate::found::{Found, Results};
use crate::trials::{Trial, try_all};
use lx_abi::Item;
use std::alloc::{AllocError, Global};
use std::collections::VecDeque;
use std::thread::{Threads, join};
use sweep_rows::Setup;
use sweep_runs::Progress;
use turn_orders::{Source, switched_of};

/// A thread makes so many runs of a batch.
const RUNS: usize = 8;

/// What orders came to.
#[derive(Drop)]
pub struct Explored {
    /// The results, in the order in which they were found.
    pub found: Vec<Found>,
    /// How many orders runs had.
    pub different: usize,
    /// How many of the orders have a switch, and how many such orders there are.
    pub switched: usize,
    pub switches: usize,
}

/// Makes so many runs, by the orders from a number on, in so many threads: the first ones in one, and the others in the
/// rest.
#[cycle(split)]
#[tactic(auto, using(crate::proofs::Joined::made_joined))]
fn try_split<R: Threads + Sync>(
    rt: &R,
    alloc: Global,
    jobs: u8,
    setup: &Setup,
    source: &Source,
    number: usize,
    count: usize,
) -> Result<Vec<Trial>, AllocError>
    requires { number + count < 2 ^ 64 }
    ensures { IfOk result (λ trials. AreMade setup.now source.now number count trials.items) }
{
    if jobs < 2 {
        return try_all(alloc, setup, source, number, count);
    }
    let first = count / usize::from(jobs);
    let others = count - first;
    let next = number + first;
    let (front, back) = join(
        rt,
        || -> Result<Vec<Trial>, AllocError>
            requires { number + first < 2 ^ 64 }
            ensures { IfOk result (λ trials. AreMade setup.entry.now source.entry.now number first trials.items) }
        { try_all(alloc, setup, source, number, first) },
        || -> Result<Vec<Trial>, AllocError>
            requires { IsSync R.row × (2 ≤ jobs) × (next + others < 2 ^ 64) }
            ensures { IfOk result (λ trials. AreMade setup.entry.now source.entry.now next others trials.items) }
        { try_split(rt, alloc, jobs - 1, setup, source, next, others) },
    );
    let mut trials = front?;
    let mut more = back?;
    trials.append(&mut more)?;
    Ok(trials)
}

/// How many runs are made before they are counted.
fn batch_size(jobs: u8) -> usize
    ensures { 0 < result }
{
    if jobs < 2 {
        1
    } else {
        usize::from(jobs) * RUNS
    }
}

/// Makes so many runs, by the orders from a number on, and counts them.
fn try_batch<R: Threads + Sync>(
    rt: &R,
    alloc: Global,
    jobs: u8,
    setup: &Setup,
    source: &Source,
    number: usize,
    count: usize,
    results: &mut Results,
) -> Result<(), AllocError>
    requires { number + count < 2 ^ 64 }
    ensures { OnOk result (Explores setup.now source.now number count (told_of results.old) (told_of results.new)) }
{
    let trials = try_split(rt, alloc, jobs, setup, source, number, count)?;
    let mut trials = VecDeque::from_vec(trials);
    results.count_all(&mut trials)?;
    Ok(())
}

/// Makes so many runs, each by an order of its own, and counts them.
fn try_orders<R: Threads + Sync, P: Progress>(
    rt: &R,
    alloc: Global,
    jobs: u8,
    setup: &Setup,
    source: &Source,
    orders: usize,
    progress: &mut P,
) -> Result<Results, AllocError>
    ensures { IfOk result (λ r. Explores setup.now source.now 0 orders none_told (told_of r)) }
{
    let most = batch_size(jobs);
    let mut results = Results::new(alloc);
    let mut made = 0;
    while made < orders {
        let count = most.min(orders - made);
        try_batch(rt, alloc, jobs, setup, source, made, count, &mut results)?;
        made += count;
        progress.tell(made, orders);
    }
    Ok(results)
}

/// Tries so many orders, from a seed on, each without a failure, with the runs in so many threads; the run by the default
/// order has this log. The boot is one that is accepted, so no run is refused but for want of memory.
pub fn explore_on_threads<R: Threads + Sync, P: Progress>(
    rt: &R,
    alloc: Global,
    jobs: u8,
    setup: &Setup,
    log: &[Item],
    orders: usize,
    seed: u64,
    progress: &mut P,
) -> Result<Explored, AllocError>
    ensures { IfOk result (AreOrders setup.now log.now orders seed) }
{
    let source = Source::new(alloc, log, seed)?;
    let results = try_orders(rt, alloc, jobs, setup, &source, orders, progress)?;
    let switches = source.switches.len();
    let different = results.met.len();
    Ok(Explored {
        found: results.found,
        different,
        switched: switched_of(orders, switches),
        switches,
    })
}
