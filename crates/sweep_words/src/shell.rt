//! The words that show a run: those of `strace_cli`, or of the sweep itself.

use crate::calls::error_name;
use clap::ArgMatches;
use lx_abi::calls::call_name;
use std::alloc::{AllocError, Global};
use sweep_rows::{Case, Occurrence, Setup, Verdict};

/// The program that shows a run.
#[derive(Clone, Copy, Debug, PartialEq, Eq)]
pub enum Shower {
    Trace,
    Sweep,
}

/// The last occurrence that `when=` takes.
const LAST_OCCURRENCE: u64 = 65_535;

/// How many events the program that shows a run may need for a turn.
const EVENTS_OF_A_TURN: u64 = 1000;

/// The expression by which an occurrence fails, if there is one: the call has a name, and `when=` takes the
/// occurrence.
fn expression(alloc: Global, case: &Case) -> Result<Option<String>, AllocError> {
    let n = case.occurrence.n;
    match call_name(case.occurrence.call.number) {
        Some(name) if n <= LAST_OCCURRENCE => {
            let error = error_name(alloc, case.error)?;
            Ok(Some(format!(in alloc; "fault={name}:error={error}:when={n}")?))
        }
        _ => Ok(None),
    }
}

fn push(alloc: Global, words: &mut Vec<String>, word: &str) -> Result<(), AllocError> {
    words.push(format!(in alloc; "{word}")?)?;
    Ok(())
}

/// Adds an option with each of its values.
fn push_each(
    alloc: Global,
    words: &mut Vec<String>,
    option: &str,
    values: &[&str],
) -> Result<(), AllocError> {
    for value in values {
        push(alloc, words, option)?;
        push(alloc, words, *value)?;
    }
    Ok(())
}

/// The limit on events for a limit on turns. A run that is out of turns is out of as many events.
fn limit(verdict: Verdict, digits: &str) -> u64 {
    let turns: u64 = digits.parse().unwrap_or(u64::MAX);
    match verdict {
        Verdict::Hung => turns,
        _ => turns.saturating_mul(EVENTS_OF_A_TURN),
    }
}

/// Adds the limit on events, where the words have one on turns.
fn push_limit(
    alloc: Global,
    words: &mut Vec<String>,
    matches: &ArgMatches,
    verdict: Verdict,
) -> Result<(), AllocError> {
    if let Some(digits) = matches.get_str("limit") {
        push(alloc, words, "--limit")?;
        words.push(format!(in alloc; "{}", limit(verdict, digits))?)?;
    }
    Ok(())
}

/// The words that make an occurrence fail; none, where no expression names it.
pub fn failure_words(
    alloc: Global,
    matches: &ArgMatches,
    case: &Case,
    verdict: Verdict,
) -> Result<Vec<String>, AllocError> {
    let mut words = Vec::new(alloc);
    let Some(expression) = expression(alloc, case)? else {
        return Ok(words);
    };
    push_each(alloc, &mut words, "-e", &[expression.as_str()])?;
    push_limit(alloc, &mut words, matches, verdict)?;
    Ok(words)
}

/// The row that `--show` takes for an occurrence to which this happens, if there is one: the call has a name.
fn row_of(
    alloc: Global,
    occurrence: &Occurrence,
    what: &str,
) -> Result<Option<String>, AllocError> {
    let Some(name) = call_name(occurrence.call.number) else {
        return Ok(None);
    };
    let (pid, n) = (occurrence.pid, occurrence.n);
    if pid == 1 {
        Ok(Some(format!(in alloc; "{name}:{what}:{n}")?))
    } else {
        Ok(Some(format!(in alloc; "{name}@{pid}:{what}:{n}")?))
    }
}

/// The words by which the sweep itself shows this row; none, where there is none.
fn row_words(
    alloc: Global,
    matches: &ArgMatches,
    row: Option<String>,
) -> Result<Vec<String>, AllocError> {
    let mut words = Vec::new(alloc);
    let Some(row) = row else {
        return Ok(words);
    };
    push_each(alloc, &mut words, "--show", &[row.as_str()])?;
    if let Some(digits) = matches.get_str("limit") {
        push_each(alloc, &mut words, "--limit", &[digits])?;
    }
    Ok(words)
}

/// The row of a case.
fn failure_row(alloc: Global, case: &Case) -> Result<Option<String>, AllocError> {
    let error = error_name(alloc, case.error)?;
    row_of(alloc, &case.occurrence, error.as_str())
}

/// The words by which the sweep itself shows the run of a case; none, where the call has no name.
pub fn show_words(
    alloc: Global,
    matches: &ArgMatches,
    case: &Case,
) -> Result<Vec<String>, AllocError> {
    let row = failure_row(alloc, case)?;
    row_words(alloc, matches, row)
}

/// Adds the second program, to words that show a run.
fn push_then(
    alloc: Global,
    words: &mut Vec<String>,
    matches: &ArgMatches,
) -> Result<(), AllocError> {
    if words.is_empty() {
        return Ok(());
    }
    if let Some(program) = matches.get_str("then") {
        push_each(alloc, words, "--then", &[program])?;
    }
    Ok(())
}

/// The same of the run in which this happens to an occurrence in the place of an error, with the second program.
pub fn trial_words(
    alloc: Global,
    matches: &ArgMatches,
    occurrence: &Occurrence,
    what: &str,
) -> Result<Vec<String>, AllocError> {
    let row = row_of(alloc, occurrence, what)?;
    let mut words = row_words(alloc, matches, row)?;
    push_then(alloc, &mut words, matches)?;
    Ok(words)
}

/// The row of two cases, one behind the other.
fn deep_row(alloc: Global, first: &Case, second: &Case) -> Result<Option<String>, AllocError> {
    let Some(first) = failure_row(alloc, first)? else {
        return Ok(None);
    };
    match failure_row(alloc, second)? {
        Some(second) => Ok(Some(format!(in alloc; "{first}+{second}")?)),
        None => Ok(None),
    }
}

/// The same of the run in which the second case fails behind the first, with the second program.
pub fn deep_words(
    alloc: Global,
    matches: &ArgMatches,
    first: &Case,
    second: &Case,
) -> Result<Vec<String>, AllocError> {
    let row = deep_row(alloc, first, second)?;
    let mut words = row_words(alloc, matches, row)?;
    push_then(alloc, &mut words, matches)?;
    Ok(words)
}

/// The words before those of a run. By an order of turns it is shown to the end of all processes.
fn push_start(
    alloc: Global,
    words: &mut Vec<String>,
    matches: &ArgMatches,
    shower: Shower,
) -> Result<(), AllocError> {
    let program = match shower {
        Shower::Trace => "strace_cli",
        Shower::Sweep => "strace_sweep",
    };
    push(alloc, words, program)?;
    if matches.get_flag("follow") || matches.get_str("orders").is_some() {
        push(alloc, words, "-f")?;
    }
    Ok(())
}

/// The words behind those of a run.
fn push_rest(
    alloc: Global,
    words: &mut Vec<String>,
    matches: &ArgMatches,
) -> Result<(), AllocError> {
    if let Some(path) = matches.get_str("turns") {
        push_each(alloc, words, "--turns", &[path])?;
    }
    push_each(
        alloc,
        words,
        "-E",
        matches.get_strs("environment").unwrap_or(&[]),
    )?;
    push_each(
        alloc,
        words,
        "--file",
        matches.get_strs("file").unwrap_or(&[]),
    )?;
    push_each(
        alloc,
        words,
        "--dir",
        matches.get_strs("dir").unwrap_or(&[]),
    )?;
    push(alloc, words, "--")?;
    for word in matches.get_strs("program").unwrap_or(&[]) {
        push(alloc, words, *word)?;
    }
    Ok(())
}

/// All words that show a run, the program's name first, by those that are its own.
pub fn words_with(
    alloc: Global,
    matches: &ArgMatches,
    shower: Shower,
    own: &[String],
) -> Result<Vec<String>, AllocError> {
    let mut words = Vec::new(alloc);
    if own.is_empty() {
        return Ok(words);
    }
    push_start(alloc, &mut words, matches, shower)?;
    for word in own {
        push(alloc, &mut words, word.as_str())?;
    }
    push_rest(alloc, &mut words, matches)?;
    Ok(words)
}

/// The words that give a run its order of turns, by a file that has it.
pub fn order_words(
    alloc: Global,
    matches: &ArgMatches,
    path: &str,
    verdict: Verdict,
) -> Result<Vec<String>, AllocError> {
    let mut words = Vec::new(alloc);
    push_each(alloc, &mut words, "--turns", &[path])?;
    push_limit(alloc, &mut words, matches, verdict)?;
    Ok(words)
}

/// Where the input of a run comes from, as it is typed.
pub fn input_text(setup: &Setup) -> &'static str {
    if setup.boot.input.is_empty() {
        " </dev/null"
    } else {
        " <INPUT"
    }
}

/// A word that a shell takes as it is.
fn is_plain(word: &str) -> bool {
    !word.is_empty()
        && word.bytes().all(|byte| byte.is_ascii_alphanumeric() || b"_@%+=:,./-".contains(&byte))
}

/// A word as a shell takes it.
fn quoted(alloc: Global, word: &str) -> Result<String, AllocError> {
    if is_plain(word) {
        return format!(in alloc; "{word}");
    }
    let mut text = format!(in alloc; "'")?;
    for c in word.chars() {
        if c == '\'' {
            text.push_str("'\\''")?;
        } else {
            text.push(c)?;
        }
    }
    text.push('\'')?;
    Ok(text)
}

/// Words as they are typed to a shell.
pub fn typed(alloc: Global, words: &[String]) -> Result<String, AllocError> {
    let mut text = String::new(alloc);
    for (place, word) in words.iter().enumerate() {
        if place > 0 {
            text.push(' ')?;
        }
        let word = quoted(alloc, word.as_str())?;
        text.push_str(word.as_str())?;
    }
    Ok(text)
}
