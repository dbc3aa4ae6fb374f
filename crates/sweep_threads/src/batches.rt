//! The runs of a sweep, batch by batch.

ghost use Rattle.std.specs.Prelude.{IfOk};
ghost use Rattle.sweep_runs.specs.Rows.{AreRows};

use crate::splitting::run_split;
use std::alloc::{AllocError, Global};
use std::thread::Threads;
use sweep_rows::{Case, Reached, Row, Setup};
use sweep_runs::{Progress, run_cases};

/// A batch has this share of all cases, and so many more.
const BATCHES: usize = 32;

const LEAST: usize = 64;

/// Makes the run of each case, of a boot that is accepted, in so many threads. A batch begins when the one before it is
/// done.
fn run_batches<R: Threads + Sync, P: Progress>(
    rt: &R,
    alloc: Global,
    jobs: u8,
    setup: &Setup,
    reference: &Reached,
    cases: &[Case],
    progress: &mut P,
) -> Result<Vec<Row>, AllocError>
    ensures { IfOk result (λ rows. AreRows setup.now reference.now cases.now rows.items) }
{
    let size = cases.len() / BATCHES + LEAST;
    let mut rows = Vec::new(alloc);
    let mut left = cases;
    while !left.is_empty() {
        let (batch, rest) = left.split_at(size.min(left.len()));
        let mut more = run_split(rt, alloc, jobs, setup, reference, batch)?;
        rows.append(&mut more)?;
        left = rest;
        progress.tell(rows.len(), cases.len());
    }
    Ok(rows)
}

/// Makes the run of each case, of a boot that is accepted, in so many threads: the rows are those that one thread
/// makes.
pub fn rows_on_threads<R: Threads + Sync, P: Progress>(
    rt: &R,
    alloc: Global,
    jobs: u8,
    setup: &Setup,
    reference: &Reached,
    cases: &[Case],
    progress: &mut P,
) -> Result<Vec<Row>, AllocError>
    ensures { IfOk result (λ rows. AreRows setup.now reference.now cases.now rows.items) }
{
    if jobs < 2 {
        return run_cases(alloc, setup, reference, cases, progress);
    }
    run_batches(rt, alloc, jobs, setup, reference, cases, progress)
}
