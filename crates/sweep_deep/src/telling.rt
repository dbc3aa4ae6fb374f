//! A run in which a call fails behind another, as it is told: at the call that fails first.

use crate::judging::verdict_of;
use crate::rows::{Behind, TriedDeep};
use clap::ArgMatches;
use std::alloc::{AllocError, Global};
use sweep_report::findings::counts;
use sweep_report::sites::place_of;
use sweep_report::texts::{push_part, without_numbers};
use sweep_report::told::{Told, tell_row};
use sweep_report::traced::TracedCalls;
use sweep_rows::{Case, Reached, Setup, Verdict};
use sweep_runs::{DeepCase, run_deep_case};
use sweep_trials::telling::{rank_of, second_text, word_of};
use sweep_trials::{SecondEnd, explain, hung_by};
use sweep_words::calls::{error_name, name_of};
use sweep_words::plan::Plan;
use sweep_words::shell::{Shower, deep_words, typed, words_with};

/// Both cases of a run.
fn case_of(row: &TriedDeep) -> DeepCase {
    DeepCase {
        first: row.made.first,
        second: row.made.row.case,
    }
}

/// Why a run is out of turns.
fn explain_deep(alloc: Global, setup: &Setup, case: DeepCase) -> Result<String, AllocError> {
    let kernel = run_deep_case(alloc, setup, case)?;
    explain(alloc, kernel, setup.limit)
}

/// Why a run did not end, where that is told.
fn hung_text(alloc: Global, plan: &Plan, row: &TriedDeep) -> Result<Option<String>, AllocError> {
    if row.made.row.verdict != Verdict::Hung {
        return Ok(None);
    }
    let reason = explain_deep(alloc, &plan.setup, case_of(row))?;
    Ok(Some(hung_by(alloc, reason)?))
}

/// What fails behind another failure, as `--show` takes it.
fn behind_text(alloc: Global, second: &Case) -> Result<String, AllocError> {
    let call = name_of(alloc, second.occurrence.call.number)?;
    let error = error_name(alloc, second.error)?;
    let (pid, n) = (second.occurrence.pid, second.occurrence.n);
    if pid == 1 {
        format!(in alloc; "{call}:{error}:{n}")
    } else {
        format!(in alloc; "{call}@{pid}:{error}:{n}")
    }
}

/// What came of the second program, and then of the run.
fn told_then(alloc: Global, end: SecondEnd, own: &str) -> Result<String, AllocError> {
    let mut text = second_text(alloc, end)?;
    if !own.is_empty() {
        push_part(&mut text, own, "; ")?;
    }
    Ok(text)
}

/// What came of a run: of the second program first.
fn outcome_text(alloc: Global, row: &TriedDeep, own: String) -> Result<String, AllocError> {
    match row.second {
        Some(end) => told_then(alloc, end, own.as_str()),
        None => Ok(own),
    }
}

/// The words of a run by both of its failures, where the verdict is that of the run and of the second program.
fn with_both(
    alloc: Global,
    matches: &ArgMatches,
    plan: &Plan,
    row: &TriedDeep,
    own: Told,
) -> Result<Told, AllocError> {
    let case = case_of(row);
    let first = &case.first;
    let verdict = verdict_of(row);
    let behind = behind_text(alloc, &case.second)?;
    let error = error_name(alloc, first.error)?;
    let words = deep_words(alloc, matches, first, &case.second)?;
    let told = outcome_text(alloc, row, own.told)?;
    let masked = without_numbers(alloc, told.as_str(), false)?;
    Ok(Told {
        verdict: word_of(verdict),
        finding: verdict.is_some_and(|verdict| counts(plan.strict, verdict)),
        known: false,
        pid: first.occurrence.pid,
        call: name_of(alloc, first.occurrence.call.number)?,
        n: first.occurrence.n,
        error: format!(in alloc; "{error}+{behind}")?,
        text: own.text,
        function: own.function,
        status: own.status,
        told,
        files: own.files,
        words: words_with(alloc, matches, Shower::Sweep, words.as_slice())?,
        failure: typed(alloc, words.as_slice())?,
        rank: rank_of(verdict),
        site: own.site,
        outcome: format!(in alloc; "{} {masked}", word_of(verdict))?,
    })
}

/// A run as it is told.
pub fn told_deep(
    alloc: Global,
    matches: &ArgMatches,
    plan: &Plan,
    reference: &Reached,
    calls: &TracedCalls,
    row: &TriedDeep,
) -> Result<Told, AllocError> {
    let hung = hung_text(alloc, plan, row)?;
    let hung = hung.as_ref().map(|reason| reason.as_str());
    let place = place_of(alloc, calls, reference, &row.made.first.occurrence)?;
    let own = tell_row(
        alloc,
        matches,
        reference,
        &row.made.row,
        place,
        hung,
        plan.strict,
        false,
    )?;
    with_both(alloc, matches, plan, row, own)
}

/// The runs as they are told.
pub fn all_told(
    alloc: Global,
    matches: &ArgMatches,
    plan: &Plan,
    reference: &Reached,
    calls: &TracedCalls,
    all: &[Behind],
) -> Result<Vec<Told>, AllocError> {
    let mut told = Vec::new(alloc);
    for behind in all {
        for row in &behind.rows {
            told.push(told_deep(alloc, matches, plan, reference, calls, row)?)?;
        }
    }
    Ok(told)
}
