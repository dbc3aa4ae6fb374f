//! The run that words name.

ghost use Rattle.std.specs.Prelude.{◌≡◌, true, IfOk, IfSome};
ghost use Rattle.sweep_deep.specs.Naming.{IsThat, names};

use crate::rows::logged;
use front_end::Fault;
use std::alloc::{AllocError, Global};
use sweep_rows::{Case, Reached, Setup};
use sweep_runs::{DeepCase, cases};
use sweep_words::calls::{error_name, name_of};
use sweep_words::plan::Plan;
use sweep_words::show::{NamedDeep, NamedRun};
use sweep_words::wanted::wanted_by;

/// The words name this case.
pub fn names(run: NamedRun, case: &Case) -> bool
    ensures { result ≡ names run case.now }
{
    run.pid == u64::from(case.occurrence.pid)
        && run.call == case.occurrence.call.number
        && (run.n == case.occurrence.n && run.error.number == case.error.number)
}

/// The first of these cases that the words name.
fn first_named(run: NamedRun, cases: &[Case]) -> Option<Case>
    ensures { IfSome result (λ case. names run case ≡ true) }
{
    for case in cases {
        if names(run, case) {
            return Some(*case);
        }
    }
    None
}

/// The failure that words name, of the run without one.
fn first_case(
    alloc: Global,
    plan: &Plan,
    reference: &Reached,
    run: NamedRun,
) -> Result<Option<Case>, AllocError>
    ensures { IfOk result (λ case. IfSome case (λ case. names run case ≡ true)) }
{
    let wanted = wanted_by(alloc, run)?;
    let log = reference.log.as_slice()?;
    let cases = cases(alloc, log, &[wanted], plan.setup.boot.follow)?;
    Ok(first_named(run, cases.as_slice()))
}

/// The one that they name behind it.
fn second_case(
    alloc: Global,
    setup: &Setup,
    first: Case,
    run: NamedRun,
) -> Result<Option<Case>, AllocError>
    ensures { IfOk result (λ case. IfSome case (λ case. names run case ≡ true)) }
{
    let wanted = wanted_by(alloc, run)?;
    let cases = logged(alloc, setup, &wanted, first)?;
    Ok(first_named(run, cases.as_slice()))
}

/// The process doesn't make the call so often.
fn absent(alloc: Global, run: NamedRun) -> Result<String, AllocError> {
    let name = name_of(alloc, run.call)?;
    format!(in alloc;
        "--show: process {} has no call {} of {name}",
        run.pid, run.n
    )
}

/// It doesn't make it so often behind the failure.
fn absent_behind(alloc: Global, first: NamedRun, run: NamedRun) -> Result<String, AllocError> {
    let name = name_of(alloc, run.call)?;
    let failed = name_of(alloc, first.call)?;
    let error = error_name(alloc, first.error)?;
    format!(in alloc;
        "--show: behind {failed}:{error}:{} process {} has no call {} of {name}",
        first.n, run.pid, run.n
    )
}

/// The run that words name.
pub fn named_case(
    alloc: Global,
    plan: &Plan,
    reference: &Reached,
    named: NamedDeep,
) -> Result<DeepCase, Fault>
    ensures { IfOk result (IsThat named) }
{
    let Some(first) = first_case(alloc, plan, reference, named.first)? else {
        return Err(Fault::usage(absent(alloc, named.first)));
    };
    let Some(second) = second_case(alloc, &plan.setup, first, named.second)? else {
        return Err(Fault::usage(absent_behind(alloc, named.first, named.second)));
    };
    Ok(DeepCase { first, second })
}
