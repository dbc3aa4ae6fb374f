//! The report on trials, in the formats of a sweep's.

use crate::judging::tally_of;
use crate::rows::TriedRow;
use crate::telling::{all_told, told_trial};
use crate::trials::asked_of;
use clap::ArgMatches;
use front_end::Fault;
use std::alloc::{AllocError, Global};
use sweep_report::entries::entry_text;
use sweep_report::junit::junit;
use sweep_report::report::{counts_object, foot, head, line, object, table, verdict_text};
use sweep_report::tally::Tally;
use sweep_report::texts::quoted_bytes;
use sweep_report::told::Told;
use sweep_report::traced::TracedCalls;
use sweep_report::untried::Untried;
use sweep_rows::{Kind, Reached};
use sweep_runs::Trial;
use sweep_words::plan::Plan;
use sweep_words::trials::Deed;
use sweep_words::words::{Format, Style, Words};
use sweep_words::worlds::world_text;

/// So many bytes are shown of the console.
const MOST_PRINTED: usize = 4096;

/// What is counted; nothing is, where there is no run.
fn shown_tally(alloc: Global, tally: Tally) -> Tally {
    if tally.runs > 0 {
        return tally;
    }
    Tally {
        kinds: Vec::new(alloc),
        ..tally
    }
}

/// An object a run, and one with the counts.
fn objects(alloc: Global, told: &[Told], tally: &Tally) -> Result<String, Fault> {
    let mut text = String::new(alloc);
    for one in told {
        match object(alloc, one) {
            Ok(object) => text.push_str(object.as_str())?,
            Err(_) => return Err(Fault::Memory),
        }
    }
    match counts_object(alloc, tally, 0) {
        Ok(counts) => text.push_str(counts.as_str())?,
        Err(_) => return Err(Fault::Memory),
    }
    Ok(text)
}

/// A line a run.
fn lines(
    alloc: Global,
    plan: &Plan,
    reference: &Reached,
    told: &[Told],
    tally: &Tally,
    style: Style,
) -> Result<String, AllocError> {
    let mut text = head(alloc, &plan.setup, reference, tally.runs)?;
    for one in told {
        text.push_str(line(alloc, one, style.colors)?.as_str())?;
    }
    let worst = told.iter().min_by_key(|one| one.rank);
    text.push_str(foot(alloc, &plan.setup, worst, tally, 0)?.as_str())?;
    Ok(text)
}

/// The report on runs that are told so, in the format that the words ask for.
pub fn report_of(
    alloc: Global,
    words: Words,
    plan: &Plan,
    reference: &Reached,
    told: &[Told],
    tally: Tally,
) -> Result<String, Fault> {
    let tally = shown_tally(alloc, tally);
    let style = words.style;
    match words.format {
        Format::Json => objects(alloc, told, &tally),
        Format::Junit => Ok(junit(alloc, plan.case.as_ref(), &plan.setup, told, 0)?),
        Format::Table if style.each => Ok(lines(alloc, plan, reference, told, &tally, style)?),
        Format::Table => {
            let untried = Untried {
                sites: Vec::new(alloc),
                runs: 0,
            };
            Ok(table(alloc, &plan.setup, reference, told, &tally, style, &untried)?)
        }
    }
}

/// The report on these trials.
pub fn text_of(
    alloc: Global,
    matches: &ArgMatches,
    words: Words,
    plan: &Plan,
    deed: Deed,
    reference: &Reached,
    calls: &TracedCalls,
    rows: &[TriedRow],
) -> Result<String, Fault> {
    let tally = tally_of(alloc, plan, deed, rows)?;
    let told = all_told(alloc, matches, plan, reference, calls, rows)?;
    report_of(alloc, words, plan, reference, told.as_slice(), tally)
}

/// What happens to the call of a trial.
fn happening(alloc: Global, trial: &Trial) -> Result<String, AllocError> {
    match trial.kind {
        Kind::Stop => String::from_str(alloc, "all ends as it is entered"),
        Kind::Killed => String::from_str(alloc, "its process is killed as it is entered"),
        Kind::Short(count) => {
            let asked = asked_of(&trial.occurrence);
            format!(in alloc; "asked for {asked} bytes, done with {count}")
        }
        Kind::World(world) => format!(in alloc; "from here on {}", world_text(world)),
        Kind::Undone(_) | Kind::Done(_) => String::from_str(alloc, "fails"),
    }
}

/// What stands behind the trace of a trial: what happens to its call, the console, and what came of it.
pub fn shown_text(
    alloc: Global,
    matches: &ArgMatches,
    plan: &Plan,
    reference: &Reached,
    calls: &TracedCalls,
    row: &TriedRow,
    console: &[u8],
) -> Result<String, AllocError> {
    let told = told_trial(alloc, matches, plan, reference, calls, row)?;
    let entry = entry_text(alloc, told.entry())?;
    let what = happening(alloc, &row.made.trial)?;
    let mut text = format!(in alloc; "{} {entry}: {what}\n", told.call)?;
    if !console.is_empty() {
        let printed = quoted_bytes(alloc, console, MOST_PRINTED)?;
        text.push_str(format!(in alloc; "console: {printed}\n")?.as_str())?;
    }
    let word = verdict_text(alloc, &told)?;
    if told.told.is_empty() {
        return format!(in alloc; "{text}{word}\n");
    }
    format!(in alloc; "{text}{word}: {}\n", told.told)
}
