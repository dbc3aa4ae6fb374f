//! One run with a failure as strace(1) shows it, and what it leaves.

ghost use Rattle.std.specs.Prelude.{◌≡◌, [], ◌∷◌, true, IfOk, IfSome};
ghost use Rattle.sweep_deep.specs.Naming.{names as names_case};
ghost use Rattle.sweep_command.specs.Reports.{IsOfRun};
ghost use Rattle.sweep_report.specs.Findings.{status_of as status_by};

use crate::naming::absence_of;
use crate::outputs::write;
use crate::rows::by_the_end;
use crate::telling::told;
use clap::ArgMatches;
use front_end::Fault;
use std::alloc::{AllocError, Global};
use std::io::Write;
use sweep_deep::naming::names;
use sweep_report::findings;
use sweep_report::texts::quoted_bytes;
use sweep_report::told::Told;
use sweep_report::traced::TracedCalls;
use sweep_rows::{Case, Reached, Row};
use sweep_runs::{cases, fault_of, run_case};
use sweep_trace::{ShownRun, show_failing, shown_options, traced_calls};
use sweep_words::plan::Plan;
use sweep_words::show::NamedRun;
use sweep_words::wanted::wanted_by;

/// So many bytes are shown of the console.
const MOST_PRINTED: usize = 4096;

/// The first case that is the run's.
fn first_named(cases: &[Case], run: NamedRun) -> Option<Case>
    ensures { IfSome result (λ case. names_case run case ≡ true) }
{
    for case in cases {
        if names(run, case) {
            return Some(*case);
        }
    }
    None
}

/// The case of a run; none where its process doesn't make the call so often.
fn case_of(
    alloc: Global,
    plan: &Plan,
    reference: &Reached,
    calls: &TracedCalls,
    run: NamedRun,
) -> Result<Option<Case>, AllocError>
    ensures { IfOk result (λ case. IfSome case (λ case. names_case run case ≡ true)) }
{
    let wanted = wanted_by(alloc, run)?;
    let log = reference.log.as_slice()?;
    let cases = cases(alloc, log, &[wanted], plan.setup.boot.follow)?;
    let cases = by_the_end(alloc, reference, calls, cases.as_slice())?;
    Ok(first_named(cases.as_slice(), run))
}

/// Its process doesn't make the call so often.
fn absent(alloc: Global, plan: &Plan, run: NamedRun) -> Fault {
    match absence_of(alloc, plan, run) {
        Ok(reason) => Fault::usage(format!(in alloc; "--show: {reason}")),
        Err(error) => Fault::from(error),
    }
}

/// The run as strace shows it.
fn shown(alloc: Global, plan: &Plan, case: Case) -> Result<ShownRun, AllocError> {
    let options = shown_options(alloc, plan.setup.boot.follow);
    show_failing(alloc, &plan.setup, fault_of(case), options)
}

/// Writes a trace, whose bytes are ASCII.
pub fn write_trace<W: Write>(alloc: Global, trace: &[u8], writer: &mut W) -> Result<(), Fault> {
    match str::from_utf8(trace) {
        Ok(text) => write(alloc, text, writer),
        Err(_) => Err(Fault::Memory),
    }
}

/// That a call was done, and failed then; nothing, where it wasn't done: its line tells so.
fn failed_late(alloc: Global, told: &Told, case: Case) -> Result<String, AllocError> {
    if fault_of(case).kind.is_undone() {
        return Ok(String::new(alloc));
    }
    format!(in alloc;
        "{} #{}: done, and then fails with {}\n",
        told.call, told.n, told.error
    )
}

/// What stands behind the trace: how a call failed that was done, the console, and what came of the run.
fn behind(
    alloc: Global,
    matches: &ArgMatches,
    plan: &Plan,
    reference: &Reached,
    calls: &TracedCalls,
    row: &Row,
    console: &[u8],
) -> Result<String, AllocError> {
    let told = told(alloc, matches, plan, reference, calls, row)?;
    let mut word = String::from_str(alloc, told.verdict)?;
    if told.finding {
        word.make_ascii_uppercase();
    }
    let mut text = failed_late(alloc, &told, row.case)?;
    if !console.is_empty() {
        let printed = quoted_bytes(alloc, console, MOST_PRINTED)?;
        text.push_str(format!(in alloc; "console: {printed}\n")?.as_str())?;
    }
    format!(in alloc; "{text}{word}: {}\n", told.told)
}

/// 0 only where the run is no finding.
fn status_of(strict: bool, row: &Row) -> u8
    ensures { result ≡ status_by strict (row.now.verdict ∷ []) }
{
    findings::status_of(strict, &[row.verdict])
}

/// Writes the run of a failure, and gives the exit status.
pub fn show<W: Write>(
    alloc: Global,
    matches: &ArgMatches,
    plan: &Plan,
    reference: &Reached,
    run: NamedRun,
    writer: &mut W,
) -> Result<u8, Fault>
    ensures { IfOk result (IsOfRun plan.now reference.now run) }
{
    let calls = traced_calls(alloc, &plan.setup, reference.log.as_slice()?)?;
    let Some(case) = case_of(alloc, plan, reference, &calls, run)? else {
        return Err(absent(alloc, plan, run));
    };
    let row = run_case(alloc, &plan.setup, reference, case)?;
    let shown = shown(alloc, plan, case)?;
    write_trace(alloc, shown.trace.as_slice(), writer)?;
    let console = shown.console.as_slice();
    let text = behind(alloc, matches, plan, reference, &calls, &row, console)?;
    write(alloc, text.as_str(), writer)?;
    Ok(status_of(plan.strict, &row))
}
