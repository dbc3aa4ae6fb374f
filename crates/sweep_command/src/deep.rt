//! The report on runs in which a call fails behind another, and one of these, as strace(1) shows it.

ghost use Rattle.std.specs.Prelude.{◌≡◌, IfOk};
ghost use Rattle.std.specs.List.{list_any};
ghost use Rattle.sweep_command.specs.Deep.{IsOfDeep, IsOfDeepRun, has_runs};

use crate::nothing::{is_some, status_if};
use crate::outputs::write;
use crate::show::write_trace;
use clap::ArgMatches;
use front_end::Fault;
use std::alloc::{AllocError, Global};
use std::io::Write;
use sweep_deep::{
    Behind, deep_rows, named_case, run_tried_deep, shown_text, status_of, status_of_one, text_of,
    verdict_of,
};
use sweep_rows::{Reached, Wanted};
use sweep_runs::DeepCase;
use sweep_trace::{ShownRun, show_deep, shown_options, traced_calls};
use sweep_trials::check_second;
use sweep_words::plan::Plan;
use sweep_words::show::NamedDeep;
use sweep_words::words::Words;

/// Some run was made behind this failure.
fn has_runs(behind: &Behind) -> bool
    ensures { result ≡ has_runs behind.now }
{
    is_some(behind.rows.len())
}

fn tries_some(all: &[Behind]) -> bool
    ensures { result ≡ list_any has_runs all.now }
{
    all.iter().any(|behind| has_runs(behind))
}

/// Makes the runs of failures, and those of the calls that fail behind them, and reports the latter; gives the exit
/// status.
pub fn deep_reported<W: Write>(
    alloc: Global,
    matches: &ArgMatches,
    words: Words,
    plan: &Plan,
    wanted: &Wanted,
    reference: &Reached,
    writer: &mut W,
) -> Result<u8, Fault>
    ensures { IfOk result (IsOfDeep plan.now reference.now wanted.now) }
{
    check_second(alloc, plan, reference)?;
    let calls = traced_calls(alloc, &plan.setup, reference.log.as_slice()?)?;
    let all = deep_rows(alloc, plan, reference, wanted)?;
    let all = all.as_slice();
    let text = text_of(alloc, matches, words, plan, reference, &calls, all)?;
    write(alloc, text.as_str(), writer)?;
    let status = status_of(alloc, plan.strict, all)?;
    Ok(status_if(tries_some(all), status))
}

/// The run as strace shows it.
fn shown(alloc: Global, plan: &Plan, case: DeepCase) -> Result<ShownRun, AllocError> {
    let options = shown_options(alloc, plan.setup.boot.follow);
    show_deep(alloc, &plan.setup, case.deep(), options)
}

/// Writes the run that words name, and gives the exit status.
pub fn deep_shown<W: Write>(
    alloc: Global,
    matches: &ArgMatches,
    plan: &Plan,
    reference: &Reached,
    named: NamedDeep,
    writer: &mut W,
) -> Result<u8, Fault>
    ensures { IfOk result (IsOfDeepRun plan.now reference.now named) }
{
    check_second(alloc, plan, reference)?;
    let case = named_case(alloc, plan, reference, named)?;
    let row = run_tried_deep(alloc, plan, reference, case)?;
    let calls = traced_calls(alloc, &plan.setup, reference.log.as_slice()?)?;
    let shown = shown(alloc, plan, case)?;
    write_trace(alloc, shown.trace.as_slice(), writer)?;
    let console = shown.console.as_slice();
    let text = shown_text(alloc, matches, plan, reference, &calls, &row, console)?;
    write(alloc, text.as_str(), writer)?;
    let verdict = verdict_of(&row);
    drop(row);
    Ok(status_of_one(plan.strict, verdict))
}
