//! One run in which something else happens to a call than that it has an error, as strace(1) shows it, and what it
//! leaves.

ghost use Rattle.std.specs.Prelude.{IfOk};
ghost use Rattle.sweep_command.specs.Trials.{IsOfTrial};

use crate::outputs::write;
use crate::show::write_trace;
use clap::ArgMatches;
use front_end::Fault;
use std::alloc::{AllocError, Global};
use std::io::Write;
use sweep_rows::Reached;
use sweep_runs::Trial;
use sweep_trace::{ShownRun, show_failing, shown_options, traced_calls};
use sweep_trials::{check_second, named_trial, run_tried, shown_text, status_of_one, verdict_of};
use sweep_words::plan::Plan;
use sweep_words::show::NamedTrial;

/// The run as strace shows it.
fn shown(alloc: Global, plan: &Plan, trial: Trial) -> Result<ShownRun, AllocError> {
    let options = shown_options(alloc, plan.setup.boot.follow);
    show_failing(alloc, &plan.setup, trial.fault(), options)
}

/// What ends a trace whose last line is open: that of the call which is entered, if nobody else's came behind it.
fn end_of(trace: &[u8]) -> &'static str {
    match trace.last() {
        None | Some(b'\n') => "",
        Some(_) => " <unfinished ...>\n",
    }
}

/// Writes the run of a trial, and gives the exit status.
pub fn show_trial<W: Write>(
    alloc: Global,
    matches: &ArgMatches,
    plan: &Plan,
    reference: &Reached,
    named: NamedTrial,
    writer: &mut W,
) -> Result<u8, Fault>
    ensures { IfOk result (IsOfTrial plan.now reference.now named) }
{
    check_second(alloc, plan, reference)?;
    let trial = named_trial(alloc, plan, reference, named)?;
    let row = run_tried(alloc, plan, reference, trial)?;
    let calls = traced_calls(alloc, &plan.setup, reference.log.as_slice()?)?;
    let shown = shown(alloc, plan, trial)?;
    write_trace(alloc, shown.trace.as_slice(), writer)?;
    write(alloc, end_of(shown.trace.as_slice()), writer)?;
    let console = shown.console.as_slice();
    let text = shown_text(alloc, matches, plan, reference, &calls, &row, console)?;
    write(alloc, text.as_str(), writer)?;
    let verdict = verdict_of(&row);
    drop(row);
    Ok(status_of_one(plan.strict, verdict))
}
