//! The report on runs in which a call fails behind another.

use crate::judging::tally_of;
use crate::rows::{Behind, TriedDeep};
use crate::telling::{all_told, told_deep};
use clap::ArgMatches;
use front_end::Fault;
use std::alloc::{AllocError, Global};
use sweep_report::entries::{Entry, entry_text};
use sweep_report::report::verdict_text;
use sweep_report::texts::quoted_bytes;
use sweep_report::traced::TracedCalls;
use sweep_rows::{Case, Reached};
use sweep_runs::fault_of;
use sweep_trials::reporting::report_of;
use sweep_words::calls::{error_name, name_of};
use sweep_words::plan::Plan;
use sweep_words::words::Words;

/// So many bytes are shown of the console.
const MOST_PRINTED: usize = 4096;

/// The report on these runs, in the format that the words ask for.
pub fn text_of(
    alloc: Global,
    matches: &ArgMatches,
    words: Words,
    plan: &Plan,
    reference: &Reached,
    calls: &TracedCalls,
    all: &[Behind],
) -> Result<String, Fault> {
    let tally = tally_of(alloc, plan, all)?;
    let told = all_told(alloc, matches, plan, reference, calls, all)?;
    report_of(alloc, words, plan, reference, told.as_slice(), tally)
}

/// Adds that a call was done, and failed then; nothing, where it wasn't done: its line tells so.
fn push_failed_late(text: &mut String, alloc: Global, case: Case) -> Result<(), AllocError> {
    if fault_of(case).kind.is_undone() {
        return Ok(());
    }
    let call = name_of(alloc, case.occurrence.call.number)?;
    let error = error_name(alloc, case.error)?;
    let entry = Entry {
        pid: case.occurrence.pid,
        n: case.occurrence.n,
    };
    let entry = entry_text(alloc, entry)?;
    let late = format!(in alloc; "{call} {entry}: done, and then fails with {error}\n")?;
    text.push_str(late.as_str())
}

/// What stands behind the trace of a run: how a call failed that was done, the console, and what came of it.
pub fn shown_text(
    alloc: Global,
    matches: &ArgMatches,
    plan: &Plan,
    reference: &Reached,
    calls: &TracedCalls,
    row: &TriedDeep,
    console: &[u8],
) -> Result<String, AllocError> {
    let told = told_deep(alloc, matches, plan, reference, calls, row)?;
    let mut text = String::new(alloc);
    push_failed_late(&mut text, alloc, row.made.first)?;
    push_failed_late(&mut text, alloc, row.made.row.case)?;
    if !console.is_empty() {
        let printed = quoted_bytes(alloc, console, MOST_PRINTED)?;
        text.push_str(format!(in alloc; "console: {printed}\n")?.as_str())?;
    }
    let word = verdict_text(alloc, &told)?;
    if told.told.is_empty() {
        return format!(in alloc; "{text}{word}\n");
    }
    format!(in alloc; "{text}{word}: {}\n", told.told)
}
