//! A trial as it is told.

use crate::judging::{is_by_files, own_verdict, verdict_of};
use crate::rows::TriedRow;
use crate::second::SecondEnd;
use clap::ArgMatches;
use lx_abi::Status;
use lx_kernel::Kernel;
use pt_schedule::explain_turns;
use std::alloc::{AllocError, Global};
use sweep_report::findings::counts;
use sweep_report::sites::{place_of, site_of};
use sweep_report::texts::{push_part, without_numbers};
use sweep_report::told::{Came, Told, ToldFile, end_text, push_files, told_files, told_text};
use sweep_report::traced::TracedCalls;
use sweep_rows::{Kind, Reached, Setup, Verdict, name_of as verdict_name, rank};
use sweep_runs::{Trial, TrialRow, run_failing};
use sweep_words::calls::{error_name, name_of};
use sweep_words::plan::Plan;
use sweep_words::shell::{Shower, trial_words, typed, words_with};
use sweep_words::worlds::world_word;

/// The word of a run that leaves each file whole.
const WHOLE: &str = "whole";

pub fn word_of(verdict: Option<Verdict>) -> &'static str {
    match verdict {
        Some(verdict) => verdict_name(verdict),
        None => WHOLE,
    }
}

/// A trial's place among all, the worst being 0.
pub fn rank_of(verdict: Option<Verdict>) -> u8 {
    rank(verdict.unwrap_or(Verdict::Ignored))
}

/// What happens to the call, as `--show` takes it.
fn kind_text(alloc: Global, kind: Kind) -> Result<String, AllocError> {
    match kind {
        Kind::Stop => String::from_str(alloc, "stop"),
        Kind::Killed => String::from_str(alloc, "kill"),
        Kind::Short(count) => format!(in alloc; "short={count}"),
        Kind::World(world) => String::from_str(alloc, world_word(world)),
        Kind::Undone(error) | Kind::Done(error) => error_name(alloc, error),
    }
}

/// How the second program ended.
pub fn second_text(alloc: Global, end: SecondEnd) -> Result<String, AllocError> {
    match end.word {
        Some(word) => format!(in alloc; "then {}", end_text(alloc, word)?),
        None => format!(in alloc; "then doesn't end"),
    }
}

/// Why the run that left this kernel is out of so many turns.
pub fn explain(alloc: Global, kernel: Kernel, limit: u64) -> Result<String, AllocError> {
    let text = explain_turns(alloc, &kernel, limit, "turns");
    drop(kernel);
    text
}

/// What is told of a run that is out of turns for this reason.
pub fn hung_by(alloc: Global, reason: String) -> Result<String, AllocError> {
    if reason.starts_with("every") {
        return Ok(reason);
    }
    String::from_str(alloc, "runs on")
}

/// Why the run of a trial is out of turns.
fn explain_trial(alloc: Global, setup: &Setup, trial: Trial) -> Result<String, AllocError> {
    let kernel = run_failing(alloc, setup, trial.fault())?;
    explain(alloc, kernel, setup.limit)
}

/// Why a run did not end, where that is told.
fn hung_text(alloc: Global, plan: &Plan, made: &TrialRow) -> Result<Option<String>, AllocError> {
    if own_verdict(made) != Some(Verdict::Hung) {
        return Ok(None);
    }
    let reason = explain_trial(alloc, &plan.setup, made.trial)?;
    Ok(Some(hung_by(alloc, reason)?))
}

fn came_of(made: &TrialRow) -> Came<'_> {
    Came {
        verdict: own_verdict(made).unwrap_or(Verdict::Ignored),
        word: made.word,
        ended: made.ended.as_slice(),
        streams: &made.streams,
    }
}

/// What came of the trial's own run.
fn own_text(
    alloc: Global,
    plan: &Plan,
    reference: &Reached,
    made: &TrialRow,
    files: &[ToldFile],
) -> Result<String, AllocError> {
    if is_by_files(made) {
        let mut text = String::new(alloc);
        push_files(&mut text, alloc, files)?;
        return Ok(text);
    }
    let hung = hung_text(alloc, plan, made)?;
    let hung = hung.as_ref().map(|reason| reason.as_str());
    told_text(alloc, reference, came_of(made), files, hung)
}

/// What came of a trial: of the second program first.
fn outcome_text(
    alloc: Global,
    plan: &Plan,
    reference: &Reached,
    row: &TriedRow,
    files: &[ToldFile],
) -> Result<String, AllocError> {
    let own = own_text(alloc, plan, reference, &row.made, files)?;
    let Some(end) = row.second else {
        return Ok(own);
    };
    let mut text = second_text(alloc, end)?;
    if !own.is_empty() {
        push_part(&mut text, own.as_str(), "; ")?;
    }
    Ok(text)
}

/// A trial as it is told.
pub fn told_trial(
    alloc: Global,
    matches: &ArgMatches,
    plan: &Plan,
    reference: &Reached,
    calls: &TracedCalls,
    row: &TriedRow,
) -> Result<Told, AllocError> {
    let occurrence = &row.made.trial.occurrence;
    let place = place_of(alloc, calls, reference, occurrence)?;
    let site = site_of(alloc, &place)?;
    let verdict = verdict_of(row);
    let files = told_files(alloc, row.made.files.as_slice())?;
    let told = outcome_text(alloc, plan, reference, row, files.as_slice())?;
    let masked = without_numbers(alloc, told.as_str(), false)?;
    let kind = kind_text(alloc, row.made.trial.kind)?;
    let own = trial_words(alloc, matches, occurrence, kind.as_str())?;
    Ok(Told {
        verdict: word_of(verdict),
        finding: verdict.is_some_and(|verdict| counts(plan.strict, verdict)),
        known: false,
        pid: occurrence.pid,
        call: name_of(alloc, occurrence.call.number)?,
        n: occurrence.n,
        error: kind,
        text: place.text,
        function: place.function,
        status: row.made.word.map(|word| Status { word }.shell_status()),
        told,
        files,
        words: words_with(alloc, matches, Shower::Sweep, own.as_slice())?,
        failure: typed(alloc, own.as_slice())?,
        rank: rank_of(verdict),
        site,
        outcome: format!(in alloc; "{} {masked}", word_of(verdict))?,
    })
}

/// The trials as they are told.
pub fn all_told(
    alloc: Global,
    matches: &ArgMatches,
    plan: &Plan,
    reference: &Reached,
    calls: &TracedCalls,
    rows: &[TriedRow],
) -> Result<Vec<Told>, AllocError> {
    let mut all = Vec::new(alloc);
    for row in rows {
        all.push(told_trial(alloc, matches, plan, reference, calls, row)?)?;
    }
    Ok(all)
}
