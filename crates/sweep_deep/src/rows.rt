//! What came of the runs.

ghost use Rattle.std.specs.Prelude.{◌≡◌, IfOk};
ghost use Rattle.sweep_deep.specs.Rows.{AreBehind, AreLogged, AreSeconds, AreTriedDeep, EndsBehind, IsBehind};
ghost use Rattle.sweep_deep.specs.Rows.{IsSecondEnd, IsTriedDeep, SecondsBy};
ghost use Rattle.sweep_runs.specs.Cases.{cases_of};
ghost use Rattle.sweep_runs.specs.Deep.{case_in};

use front_end::Fault;
use std::alloc::{AllocError, Global};
use sweep_rows::{Case, Reached, Row, Setup, Wanted};
use sweep_runs::{
    DeepCase, DeepRow, cases, fault_of, is_borne, log_failing, reach_deep, run_case, run_deep_row,
    seconds,
};
use sweep_trials::second::{SecondEnd, end_on};
use sweep_words::plan::Plan;
use sweep_words::trials::Second;

/// What came of a run, and of the second program behind it.
#[derive(Drop)]
pub struct TriedDeep {
    pub made: DeepRow,
    /// None where there is no second program.
    pub second: Option<SecondEnd>,
}

/// What came of a failure, and of those behind it.
#[derive(Drop)]
pub struct Behind {
    pub first: Row,
    pub rows: Vec<TriedDeep>,
}

/// How a second program ends behind a run, which is made again for it.
fn end_behind(
    alloc: Global,
    setup: &Setup,
    reference: &Reached,
    second: &Second,
    case: DeepCase,
) -> Result<SecondEnd, Fault>
    ensures { IfOk result (EndsBehind setup.now second.now case) }
{
    let compared = reach_deep(alloc, setup, reference, case)?;
    let left = compared.reached.ending.outcome.files.as_slice()?;
    let end = end_on(alloc, setup, second, left)?;
    Ok(end)
}

/// How that of a plan ends, where there is one.
fn second_end(
    alloc: Global,
    plan: &Plan,
    reference: &Reached,
    case: DeepCase,
) -> Result<Option<SecondEnd>, Fault>
    ensures { IfOk result (IsSecondEnd plan.now.setup plan.now.second case) }
{
    match &plan.second {
        None => Ok(None),
        Some(second) => {
            let end = end_behind(alloc, &plan.setup, reference, second, case)?;
            Ok(Some(end))
        }
    }
}

/// Makes the run in which both calls fail, of a boot that is accepted, and that of the second program.
pub fn run_tried_deep(
    alloc: Global,
    plan: &Plan,
    reference: &Reached,
    case: DeepCase,
) -> Result<TriedDeep, Fault>
    ensures row { IfOk result (IsTriedDeep plan.now reference.now) }
    ensures case { IfOk result (λ r. case_in r.made ≡ case) }
{
    let made = run_deep_row(alloc, &plan.setup, reference, case)?;
    let second = second_end(alloc, plan, reference, case)?;
    Ok(TriedDeep { made, second })
}

/// The calls of a set that the run with a failure has behind it.
pub fn logged(
    alloc: Global,
    setup: &Setup,
    wanted: &Wanted,
    first: Case,
) -> Result<Vec<Case>, AllocError>
    ensures { IfOk result (λ cases. AreLogged setup.now wanted.now first cases.items) }
{
    let fault = fault_of(first);
    let items = log_failing(alloc, setup, fault)?;
    let follow = setup.boot.follow;
    let cases = seconds(alloc, items.as_slice(), wanted, fault.place(), follow)?;
    Ok(cases)
}

/// Those that fail behind it, where the program has borne it.
fn seconds_if(
    alloc: Global,
    setup: &Setup,
    wanted: &Wanted,
    first: Case,
    borne: bool,
) -> Result<Vec<Case>, AllocError>
    ensures { IfOk result (λ cases. SecondsBy borne setup.now wanted.now first cases.items) }
{
    if !borne {
        return Ok(Vec::new(alloc));
    }
    let cases = logged(alloc, setup, wanted, first)?;
    Ok(cases)
}

/// Those that fail behind one which has come to this.
fn seconds_of(
    alloc: Global,
    setup: &Setup,
    wanted: &Wanted,
    first: &Row,
) -> Result<Vec<Case>, AllocError>
    ensures { IfOk result (λ cases. AreSeconds setup.now wanted.now first.now cases.items) }
{
    let borne = is_borne(first.verdict);
    let cases = seconds_if(alloc, setup, wanted, first.case, borne)?;
    Ok(cases)
}

/// Makes the runs in which these calls fail behind the first.
fn run_seconds(
    alloc: Global,
    plan: &Plan,
    reference: &Reached,
    first: Case,
    seconds: &[Case],
) -> Result<Vec<TriedDeep>, Fault>
    ensures { IfOk result (λ rows. AreTriedDeep plan.now reference.now first seconds.now rows.items) }
{
    let mut rows = Vec::new(alloc);
    let mut left = seconds;
    while let Some((second, rest)) = left.split_first() {
        let case = DeepCase {
            first,
            second: *second,
        };
        let row = run_tried_deep(alloc, plan, reference, case)?;
        rows.push(row)?;
        left = rest;
    }
    Ok(rows)
}

/// Makes the run of a failure, and those of what fails behind it.
fn run_behind(
    alloc: Global,
    plan: &Plan,
    reference: &Reached,
    wanted: &Wanted,
    case: Case,
) -> Result<Behind, Fault>
    ensures row { IfOk result (IsBehind plan.now reference.now wanted.now) }
    ensures case { IfOk result (λ b. b.first.case ≡ case) }
{
    let first = run_case(alloc, &plan.setup, reference, case)?;
    let seconds = seconds_of(alloc, &plan.setup, wanted, &first)?;
    let rows = run_seconds(alloc, plan, reference, case, seconds.as_slice())?;
    Ok(Behind { first, rows })
}

/// Makes those of each of these failures.
fn run_each(
    alloc: Global,
    plan: &Plan,
    reference: &Reached,
    wanted: &Wanted,
    cases: &[Case],
) -> Result<Vec<Behind>, Fault>
    ensures { IfOk result (λ all. AreBehind plan.now reference.now wanted.now cases.now all.items) }
{
    let mut all = Vec::new(alloc);
    let mut left = cases;
    while let Some((case, rest)) = left.split_first() {
        let behind = run_behind(alloc, plan, reference, wanted, *case)?;
        all.push(behind)?;
        left = rest;
    }
    Ok(all)
}

/// Makes the runs of the failures that the words ask for, and those of the calls of a set that fail behind them.
pub fn deep_rows(
    alloc: Global,
    plan: &Plan,
    reference: &Reached,
    wanted: &Wanted,
) -> Result<Vec<Behind>, Fault>
    ensures { IfOk result (λ all. AreBehind plan.now reference.now wanted.now
        (cases_of plan.now.wanted.items plan.now.setup.boot.follow reference.now.log.items) all.items) }
{
    let log = reference.log.as_slice()?;
    let cases = cases(alloc, log, plan.wanted.as_slice(), plan.setup.boot.follow)?;
    let all = run_each(alloc, plan, reference, wanted, cases.as_slice())?;
    Ok(all)
}
