//! What came of each run, as it is told.

use crate::knowing::is_mark;
use crate::reference::explain_case;
use clap::ArgMatches;
use std::alloc::{AllocError, Global};
use sweep_report::sites::place_of;
use sweep_report::told::{Told, tell_row};
use sweep_report::traced::TracedCalls;
use sweep_rows::{Reached, Row, Verdict, rank};
use sweep_trials::hung_by;
use sweep_words::plan::Plan;

/// Why the run of a row did not end.
fn why_hung(alloc: Global, plan: &Plan, row: &Row) -> Result<Option<String>, AllocError> {
    if row.verdict != Verdict::Hung {
        return Ok(None);
    }
    let reason = explain_case(alloc, &plan.setup, row.case)?;
    Ok(Some(hung_by(alloc, reason)?))
}

/// A row as it is told.
pub fn told(
    alloc: Global,
    matches: &ArgMatches,
    plan: &Plan,
    reference: &Reached,
    calls: &TracedCalls,
    row: &Row,
) -> Result<Told, AllocError> {
    let hung = why_hung(alloc, plan, row)?;
    let place = place_of(alloc, calls, reference, &row.case.occurrence)?;
    let hung = hung.as_ref().map(|reason| reason.as_str());
    let known = is_mark(alloc, plan, reference, calls, row)?;
    tell_row(
        alloc,
        matches,
        reference,
        row,
        place,
        hung,
        plan.strict,
        known,
    )
}

/// The rows as they are told.
pub fn all_told(
    alloc: Global,
    matches: &ArgMatches,
    plan: &Plan,
    reference: &Reached,
    calls: &TracedCalls,
    rows: &[Row],
) -> Result<Vec<Told>, AllocError> {
    let mut all = Vec::new(alloc);
    for row in rows {
        all.push(told(alloc, matches, plan, reference, calls, row)?)?;
    }
    Ok(all)
}

/// The first of the worst rows.
pub fn worst(rows: &[Row]) -> Option<&Row> {
    rows.iter().min_by_key(|row| rank(row.verdict))
}
