//! The report: the run without a failure, the calls to look at, and how many runs came to what.

use crate::blocks::{Block, Line, blocks_of, first_in, first_of};
use crate::entries::{Entry, entries_text, entry_text};
use crate::tally::Tally;
use crate::texts::{COLUMNS, push_column, push_part, push_wrapped, quoted_bytes};
use crate::told::{Told, end_text};
use crate::untried::Untried;
use front_end::escaped;
use lx_abi::{Item, Node, OutcomeFile};
use serde::Serialize;
use std::alloc::{AllocError, Global};
use sweep_rows::{Reached, Setup, Verdict, first_word, name_of, rank};
use sweep_words::shell::{input_text, typed};
use sweep_words::words::Style;

/// So many columns hold the word of a line; what is behind it begins there.
const WORD: usize = 10;

const BEHIND: usize = 12;

/// What the reference makes of a file, if it changes it.
fn made_text(
    alloc: Global,
    setup: &Setup,
    file: &OutcomeFile,
) -> Result<Option<String>, AllocError> {
    let Node::File(now) = &file.node else {
        return Ok(None);
    };
    let path = escaped(alloc, &file.path)?;
    let given = setup.boot.files.as_slice();
    let before = given
        .iter()
        .find(|one| one.path.as_slice() == file.path.as_slice());
    match before {
        None => Ok(Some(format!(in alloc; "{path} made ({})", now.len())?)),
        Some(one) if one.content.as_slice() == now.as_slice() => Ok(None),
        Some(_) => Ok(Some(format!(in alloc; "{path} written ({})", now.len())?)),
    }
}

/// Adds the files that the reference removes.
fn push_removed(
    text: &mut String,
    alloc: Global,
    setup: &Setup,
    left: &[OutcomeFile],
) -> Result<(), AllocError> {
    for given in setup.boot.files.as_slice() {
        let path = given.path.as_slice();
        if !left.iter().any(|file| file.path.as_slice() == path) {
            let removed = format!(in alloc; "{} removed", escaped(alloc, &given.path)?)?;
            push_part(text, removed.as_str(), ", ")?;
        }
    }
    Ok(())
}

/// How the run without a failure came to its end.
fn reference_text(alloc: Global, setup: &Setup, reference: &Reached) -> Result<String, AllocError> {
    let mut text = String::new(alloc);
    if let Some(word) = first_word(&reference.ending.outcome) {
        text.push_str(end_text(alloc, word)?.as_str())?;
    }
    let streams = [
        ("says", &reference.streams.err),
        ("prints", &reference.streams.out),
    ];
    for (verb, stream) in streams {
        if !stream.is_empty() {
            let said = quoted_bytes(alloc, stream.as_slice(), 30)?;
            push_part(
                &mut text,
                format!(in alloc; "{verb} {said}")?.as_str(),
                ", ",
            )?;
        }
    }
    let left = reference.ending.outcome.files.as_slice()?;
    for file in left {
        if let Some(made) = made_text(alloc, setup, file)? {
            push_part(&mut text, made.as_str(), ", ")?;
        }
    }
    push_removed(&mut text, alloc, setup, left)?;
    Ok(text)
}

/// The calls and runs, and the run without a failure.
pub fn head(
    alloc: Global,
    setup: &Setup,
    reference: &Reached,
    runs: usize,
) -> Result<String, AllocError> {
    let log = reference.log.as_slice()?;
    let calls = log
        .iter()
        .filter(|item| matches!(item, Item::Enter { .. }))
        .count();
    let mut text = format!(in alloc; "{calls} calls, {runs} runs\nwithout a failure: ")?;
    let end = reference_text(alloc, setup, reference)?;
    push_wrapped(&mut text, end.as_str(), 19, 2)?;
    text.push('\n')?;
    Ok(text)
}

/// The word of a verdict, a finding's in capitals.
pub fn verdict_text(alloc: Global, told: &Told) -> Result<String, AllocError> {
    let mut word = format!(in alloc; "{}", told.verdict)?;
    if told.finding {
        word.make_ascii_uppercase();
    }
    Ok(word)
}

/// A run is told without being asked for.
fn is_noticed(rank_of: u8) -> bool {
    rank_of <= rank(Verdict::Warned)
}

/// Adds the word of a verdict: red of a finding, and yellow of others to notice.
fn push_verdict(
    text: &mut String,
    alloc: Global,
    told: &Told,
    width: usize,
    colors: bool,
) -> Result<(), AllocError> {
    let word = verdict_text(alloc, told)?;
    if !colors || !is_noticed(told.rank) {
        return push_column(text, word.as_str(), width);
    }
    text.push_str(if told.finding { "\x1b[31m" } else { "\x1b[33m" })?;
    push_column(text, word.as_str(), width)?;
    text.push_str("\x1b[0m")
}

/// The errors of a line's runs, each once.
fn errors_text(alloc: Global, rows: &[Told], line: &Line) -> Result<String, AllocError> {
    let mut text = String::new(alloc);
    for place in line.places.iter().copied() {
        let error = rows.get(place).map_or("", |row| row.error.as_str());
        if !text.as_str().split(' ').any(|one| one == error) {
            push_part(&mut text, error, " ")?;
        }
    }
    Ok(text)
}

/// What came of which errors and, where they aren't all of these, of which entries.
pub fn outcome_text(
    alloc: Global,
    rows: &[Told],
    line: &Line,
    first: &Told,
    all: &[Entry],
) -> Result<String, AllocError> {
    let mut told = errors_text(alloc, rows, line)?;
    if first.known {
        push_part(&mut told, "(known)", " ")?;
    }
    let own = line.entries(alloc, rows)?;
    if own.as_slice() != all {
        let entries = entries_text(alloc, own.as_slice())?;
        told.push_str(format!(in alloc; " at {entries}")?.as_str())?;
    }
    if !first.told.is_empty() {
        push_part(&mut told, first.told.as_str(), ": ")?;
    }
    Ok(told)
}

/// Adds a line of a block with these entries.
fn push_line(
    text: &mut String,
    alloc: Global,
    rows: &[Told],
    line: &Line,
    all: &[Entry],
    colors: bool,
) -> Result<(), AllocError> {
    let Some(first) = first_of(rows, line) else {
        return Ok(());
    };
    let told = outcome_text(alloc, rows, line, first, all)?;
    text.push_str("  ")?;
    push_verdict(text, alloc, first, WORD, colors)?;
    push_wrapped(text, told.as_str(), BEHIND, BEHIND)?;
    text.push('\n')
}

/// Adds a call, and the entries into it at the right, with how many there are where not all were tried.
fn push_call(
    text: &mut String,
    alloc: Global,
    first: &Told,
    entries: &[Entry],
    untried: &Untried,
) -> Result<(), AllocError> {
    let call = first.text.as_str();
    let of = untried.text(alloc, first, entries.len())?;
    let number = format!(in alloc; "  {}{of}", entries_text(alloc, entries)?)?;
    let room = COLUMNS.saturating_sub(number.len());
    match call.get(..room.saturating_sub(4)) {
        Some(front) if call.len() > room => {
            push_column(text, format!(in alloc; "{front} ...")?.as_str(), room)?;
        }
        _ => push_column(text, call, room)?,
    }
    text.push_str(number.as_str())?;
    text.push('\n')
}

/// Adds the function that makes a call, where it is known.
fn push_function(text: &mut String, alloc: Global, first: &Told) -> Result<(), AllocError> {
    match &first.function {
        Some(function) => text.push_str(format!(in alloc; "  in {function}\n")?.as_str()),
        None => Ok(()),
    }
}

/// Adds the call of a block, its outcomes, and the words by which the first one is had.
fn push_block(
    text: &mut String,
    alloc: Global,
    rows: &[Told],
    block: &Block,
    style: Style,
    untried: &Untried,
) -> Result<(), AllocError> {
    let Some(first) = first_in(rows, block) else {
        return Ok(());
    };
    let all = block.entries(alloc, rows)?;
    push_call(text, alloc, first, all.as_slice(), untried)?;
    push_function(text, alloc, first)?;
    for line in &block.lines {
        if style.all || is_noticed(line.rank) {
            push_line(text, alloc, rows, line, all.as_slice(), style.colors)?;
        }
    }
    if !first.failure.is_empty() {
        text.push_str(format!(in alloc; "  {}\n", first.failure)?.as_str())?;
    }
    Ok(())
}

/// A run in a line.
pub fn line(alloc: Global, told: &Told, colors: bool) -> Result<String, AllocError> {
    let mut text = String::new(alloc);
    push_verdict(&mut text, alloc, told, WORD, colors)?;
    let has_words = !told.failure.is_empty();
    let first = if has_words {
        &told.failure
    } else {
        &told.error
    };
    text.push_str(first.as_str())?;
    push_part(&mut text, told.text.as_str(), "  ")?;
    if !has_words || told.pid != 1 {
        push_part(&mut text, entry_text(alloc, told.entry())?.as_str(), "  ")?;
    }
    if !told.told.is_empty() {
        push_part(&mut text, told.told.as_str(), "  ")?;
    }
    text.push('\n')?;
    Ok(text)
}

/// Adds how many runs came to what, and how many weren't made.
fn push_counts(
    text: &mut String,
    alloc: Global,
    tally: &Tally,
    untried: usize,
) -> Result<(), AllocError> {
    let mut line = String::new(alloc);
    for kind in &tally.kinds {
        let part = format!(in alloc; "{} {}", kind.runs, name_of(kind.verdict))?;
        push_part(&mut line, part.as_str(), ", ")?;
    }
    if tally.runs > 0 {
        line.push_str(" of ")?;
    }
    line.push_str(format!(in alloc; "{} runs", tally.runs)?.as_str())?;
    if tally.known > 0 {
        line.push_str(format!(in alloc; ", {} known", tally.known)?.as_str())?;
    }
    if untried > 0 {
        line.push_str(format!(in alloc; ", {untried} not made")?.as_str())?;
    }
    push_wrapped(text, line.as_str(), 0, 2)?;
    text.push('\n')
}

/// Adds the whole command that shows a finding.
pub fn push_command(
    text: &mut String,
    alloc: Global,
    setup: &Setup,
    told: Option<&Told>,
) -> Result<(), AllocError> {
    let Some(told) = told else {
        return Ok(());
    };
    if !told.finding || told.words.is_empty() {
        return Ok(());
    }
    let command = typed(alloc, told.words.as_slice())?;
    text.push_str(format!(in alloc; "{command}{}\n", input_text(setup))?.as_str())
}

/// What stands below the runs: the whole command of a finding, and how many came to what.
pub fn foot(
    alloc: Global,
    setup: &Setup,
    worst: Option<&Told>,
    tally: &Tally,
    untried: usize,
) -> Result<String, AllocError> {
    let mut text = String::new(alloc);
    push_command(&mut text, alloc, setup, worst)?;
    push_counts(&mut text, alloc, tally, untried)?;
    Ok(text)
}

/// The report as a table.
pub fn table(
    alloc: Global,
    setup: &Setup,
    reference: &Reached,
    rows: &[Told],
    tally: &Tally,
    style: Style,
    untried: &Untried,
) -> Result<String, AllocError> {
    let mut text = head(alloc, setup, reference, tally.runs)?;
    let blocks = blocks_of(alloc, rows)?;
    for block in &blocks {
        if style.all || is_noticed(block.worst) {
            push_block(&mut text, alloc, rows, block, style, untried)?;
        }
    }
    let worst = match blocks.first() {
        Some(block) => first_in(rows, block),
        None => None,
    };
    text.push_str(foot(alloc, setup, worst, tally, untried.runs)?.as_str())?;
    Ok(text)
}

/// How many runs came to what, as an object.
#[derive(Drop, Serialize)]
struct Counts {
    runs: usize,
    findings: usize,
    known: usize,
    not_made: usize,
    verdicts: Vec<(&'static str, usize)>,
}

fn counts_of(alloc: Global, tally: &Tally, untried: usize) -> Result<Counts, AllocError> {
    let mut verdicts = Vec::new(alloc);
    for kind in &tally.kinds {
        verdicts.push((name_of(kind.verdict), kind.runs))?;
    }
    Ok(Counts {
        runs: tally.runs,
        findings: tally.findings,
        known: tally.known,
        not_made: untried,
        verdicts,
    })
}

fn object_line<T: Serialize>(alloc: Global, value: &T) -> Result<String, serde_json::Error> {
    let mut line = serde_json::to_string(alloc, value)?;
    line.push('\n')?;
    Ok(line)
}

/// A case's name.
#[derive(Drop, Serialize)]
struct CaseName<'n> {
    case: &'n str,
}

/// The case whose objects come next, as an object.
pub fn case_object(alloc: Global, name: &str) -> Result<String, serde_json::Error> {
    object_line(alloc, &CaseName { case: name })
}

/// A run as an object.
pub fn object(alloc: Global, told: &Told) -> Result<String, serde_json::Error> {
    object_line(alloc, told)
}

/// How many runs came to what, as an object.
pub fn counts_object(
    alloc: Global,
    tally: &Tally,
    untried: usize,
) -> Result<String, serde_json::Error> {
    let counts = counts_of(alloc, tally, untried)?;
    object_line(alloc, &counts)
}
