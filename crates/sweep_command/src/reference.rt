//! The run without a failure, which has to come to its end.

ghost use Rattle.std.specs.Prelude.{[], IfOk};
ghost use Rattle.sweep_runs.specs.Runs.{Reaches};

use clap::ArgMatches;
use front_boot::refuse_boot;
use front_end::Fault;
use lx_abi::Script;
use lx_boot::BootFault;
use lx_kernel::Kernel;
use std::alloc::{AllocError, Global};
use sweep_rows::{Case, Reached, Setup};
use sweep_runs::{fault_of, refer, run_accepted, run_failing};
use sweep_trials::explain;
use sweep_words::plan::Plan;
use sweep_words::words::Words;

fn referred(alloc: Global, setup: &Setup) -> Result<Reached, BootFault>
    ensures { IfOk result (Reaches setup.now []) }
{
    let reference = refer(alloc, setup)?;
    Ok(reference)
}

/// The run without a failure is tried with so many turns, where the words have no limit.
const TRIED: [u64; 2] = [10_000, 100_000];

/// So many turns more than ten times its own a run with a failure may take then.
const MORE_TURNS: u64 = 1_000_000;

/// The run without a failure ends within so many turns.
fn ends_within(alloc: Global, setup: &mut Setup, turns: u64) -> Result<bool, Fault> {
    setup.limit = turns;
    match referred(alloc, setup) {
        Ok(reached) => Ok(!reached.ending.alive),
        Err(fault) => Err(refuse_boot(alloc, fault)),
    }
}

/// Lowers the limit of all runs to ten times the turns of the one without a failure, rounded up to a power of ten, and
/// a million, if it ends within few.
fn lower_limit(alloc: Global, setup: &mut Setup) -> Result<(), Fault> {
    let most = setup.limit;
    for turns in TRIED {
        if ends_within(alloc, setup, turns)? {
            setup.limit = turns.saturating_mul(10).saturating_add(MORE_TURNS);
            return Ok(());
        }
    }
    setup.limit = most;
    Ok(())
}

/// The plan with the limit of its runs, where the words have none; runs by orders of turns have the usual one.
pub fn limited(
    alloc: Global,
    matches: &ArgMatches,
    words: Words,
    plan: Plan,
) -> Result<Plan, Fault> {
    let mut limited = plan;
    if words.orders.is_none() && matches.get_str("limit").is_none() {
        lower_limit(alloc, &mut limited.setup)?;
    }
    Ok(limited)
}

/// The kernel that the run without a failure leaves.
fn kernel(alloc: Global, setup: &Setup) -> Result<Kernel, AllocError> {
    run_accepted(alloc, setup, Script::empty(alloc))
}

/// The kernel that the run of a case leaves.
fn kernel_of(alloc: Global, setup: &Setup, case: Case) -> Result<Kernel, AllocError> {
    run_failing(alloc, setup, fault_of(case))
}

/// Why the run of a case is out of turns.
pub fn explain_case(alloc: Global, setup: &Setup, case: Case) -> Result<String, AllocError> {
    let kernel = kernel_of(alloc, setup, case)?;
    explain(alloc, kernel, setup.limit)
}

/// Why the run without a failure is out of turns.
fn explain_reference(alloc: Global, setup: &Setup) -> Result<String, AllocError> {
    let kernel = kernel(alloc, setup)?;
    explain(alloc, kernel, setup.limit)
}

/// The run without a failure.
pub fn reference(alloc: Global, setup: &Setup, explained: bool) -> Result<Reached, Fault>
    ensures { IfOk result (Reaches setup.now []) }
{
    let reference = match referred(alloc, setup) {
        Ok(reference) => reference,
        Err(fault) => return Err(refuse_boot(alloc, fault)),
    };
    if !reference.ending.alive {
        return Ok(reference);
    }
    let reason = if explained {
        Some(explain_reference(alloc, setup)?)
    } else {
        None
    };
    Err(Fault::OutOfTurns(reason))
}
