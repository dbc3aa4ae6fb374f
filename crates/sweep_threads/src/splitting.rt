//! Runs in threads, each of which makes those of some cases in a row.

ghost use Rattle.std.specs.Prelude.{◌≤◌, IfOk};
ghost use Rattle.std.specs.Thread.{IsSync};
ghost use Rattle.sweep_runs.specs.Rows.{AreRows};

use std::alloc::{AllocError, Global};
use std::thread::{Threads, join};
use sweep_rows::{Case, Reached, Row, Setup};
use sweep_runs::{Silent, run_cases};

/// Makes the run of each case, of a boot that is accepted, in so many threads: those of the first cases in one, and the
/// others in the rest.
#[cycle(split)]
#[tactic(auto, using(crate::proofs::Joining::rows_are_joined))]
pub fn run_split<R: Threads + Sync>(
    rt: &R,
    alloc: Global,
    jobs: u8,
    setup: &Setup,
    reference: &Reached,
    cases: &[Case],
) -> Result<Vec<Row>, AllocError>
    ensures { IfOk result (λ rows. AreRows setup.now reference.now cases.now rows.items) }
{
    if jobs < 2 {
        return run_cases(alloc, setup, reference, cases, &mut Silent);
    }
    let (first, others) = cases.split_at(cases.len() / usize::from(jobs));
    let (front, back) = join(
        rt,
        || -> Result<Vec<Row>, AllocError>
            ensures { IfOk result (λ rows. AreRows setup.entry.now reference.entry.now first.entry.now rows.items) }
        { run_cases(alloc, setup, reference, first, &mut Silent) },
        || -> Result<Vec<Row>, AllocError>
            requires { IsSync R.row × (2 ≤ jobs) }
            ensures { IfOk result (λ rows. AreRows setup.entry.now reference.entry.now others.entry.now rows.items) }
        { run_split(rt, alloc, jobs - 1, setup, reference, others) },
    );
    let mut rows = front?;
    let mut more = back?;
    rows.append(&mut more)?;
    Ok(rows)
}
