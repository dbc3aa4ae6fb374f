//! A run as it is told.

use crate::entries::Entry;
use crate::findings::counts;
use crate::sites::{Place, site_of};
use crate::texts::{own_part, push_part, quoted_bytes, without_numbers};
use clap::ArgMatches;
use front_end::escaped;
use lx_abi::{Ended, Signal, Status};
use serde::Serialize;
use std::alloc::{AllocError, Global};
use sweep_rows::{
    FileNote, Reached, Row, Streams, Verdict, Word, first_word, name_of as verdict_name, rank,
};
use sweep_words::calls::{error_name, name_of};
use sweep_words::shell::{Shower, failure_words, show_words, typed, words_with};

/// So many bytes are shown of what a run says, and of what it prints.
const MOST_SAID: usize = 44;

const MOST_PRINTED: usize = 24;

/// What became of a file, with its bytes and the reference's where they matter.
#[derive(Drop, Serialize)]
pub struct ToldFile {
    pub path: String,
    pub word: &'static str,
    pub bytes: Option<usize>,
    pub of: Option<usize>,
}

/// A run with a failure.
#[derive(Drop, Serialize)]
pub struct Told {
    pub verdict: &'static str,
    /// It is one, and isn't known.
    pub finding: bool,
    pub known: bool,
    pub pid: u32,
    pub call: String,
    pub n: u64,
    pub error: String,
    /// The call without the failure, as a trace shows it.
    pub text: String,
    /// The function that makes the call, where a symbol table tells it.
    pub function: Option<String>,
    /// Process 1's exit code, or 128 and the signal that ended it.
    pub status: Option<u8>,
    /// What came of the run.
    pub told: String,
    pub files: Vec<ToldFile>,
    /// The words that show the run: those of `strace_cli`, or else of the sweep.
    pub words: Vec<String>,
    /// Those of them that make the call fail, as they are typed.
    #[serde(skip)]
    pub failure: String,
    #[serde(skip)]
    pub rank: u8,
    /// Calls are told together whose site is the same, and there runs whose outcome is.
    #[serde(skip)]
    pub site: String,
    #[serde(skip)]
    pub outcome: String,
}

impl Told {
    /// Which entry it is that fails.
    pub fn entry(&self) -> Entry {
        Entry {
            pid: self.pid,
            n: self.n,
        }
    }
}

/// How a process ended.
pub fn end_text(alloc: Global, word: u32) -> Result<String, AllocError> {
    let signal = word % 128;
    if signal == 0 {
        return format!(in alloc; "exits {}", word / 256);
    }
    match Signal::from_number(u64::from(signal)) {
        Some(signal) => format!(in alloc; "SIG{}", signal.name()),
        None => format!(in alloc; "signal {signal}"),
    }
}

/// The word of a file, and the numbers that go with it.
fn file_parts(note: &FileNote) -> (&'static str, Option<usize>, Option<usize>) {
    let (word, bytes, of) = match note.word {
        Word::Old => ("old", None, None),
        Word::Absent => ("absent", None, None),
        Word::Gone => ("gone", None, None),
        Word::Left(bytes) => ("left", Some(bytes), None),
        Word::Cut(bytes, of) => ("cut", Some(bytes), Some(of)),
        Word::Other(bytes, of) => ("other", Some(bytes), Some(of)),
        Word::Torn(bytes, of) => ("torn", Some(bytes), Some(of)),
    };
    (if note.saved { "damaged" } else { word }, bytes, of)
}

pub fn told_files(alloc: Global, notes: &[FileNote]) -> Result<Vec<ToldFile>, AllocError> {
    let mut told = Vec::new(alloc);
    for note in notes {
        let (word, bytes, of) = file_parts(note);
        let path = escaped(alloc, &note.path)?;
        told.push(ToldFile {
            path,
            word,
            bytes,
            of,
        })?;
    }
    Ok(told)
}

fn file_text(alloc: Global, file: &ToldFile) -> Result<String, AllocError> {
    let (path, word) = (&file.path, file.word);
    match (file.bytes, file.of) {
        (Some(bytes), Some(of)) => format!(in alloc; "{path} {word} ({bytes} of {of})"),
        (Some(bytes), None) => format!(in alloc; "{path} {word} ({bytes})"),
        _ => format!(in alloc; "{path} {word}"),
    }
}

/// Adds what became of files.
pub fn push_files(text: &mut String, alloc: Global, files: &[ToldFile]) -> Result<(), AllocError> {
    let mut between = "; ";
    for file in files {
        push_part(text, file_text(alloc, file)?.as_str(), between)?;
        between = ", ";
    }
    Ok(())
}

/// What a run says as errors, where the reference doesn't.
fn said(alloc: Global, reference: &[u8], run: &[u8]) -> Result<String, AllocError> {
    let now = own_part(run, reference);
    if now.is_empty() {
        let was = quoted_bytes(alloc, own_part(reference, run), MOST_SAID)?;
        return format!(in alloc; "doesn't say {was}");
    }
    let now = quoted_bytes(alloc, now, MOST_SAID)?;
    format!(in alloc; "says {now}")
}

/// What a run prints, where the reference doesn't.
fn printed(alloc: Global, reference: &[u8], run: &[u8]) -> Result<String, AllocError> {
    let (now, was) = (own_part(run, reference), own_part(reference, run));
    let shown_now = quoted_bytes(alloc, now, MOST_PRINTED)?;
    let shown_was = quoted_bytes(alloc, was, MOST_PRINTED)?;
    if now.is_empty() {
        format!(in alloc; "doesn't print {shown_was}")
    } else if was.is_empty() {
        format!(in alloc; "prints {shown_now} more")
    } else {
        format!(in alloc; "prints {shown_now} for {shown_was}")
    }
}

fn word_of(ended: &[Ended], pid: u32) -> Option<u32> {
    ended.iter().find(|one| one.pid == pid).map(|one| one.word)
}

/// Adds what became of children otherwise than in the reference.
fn push_children(
    text: &mut String,
    alloc: Global,
    reference: &[Ended],
    run: &[Ended],
) -> Result<(), AllocError> {
    for expected in reference {
        let pid = expected.pid;
        let part = match word_of(run, pid) {
            None => format!(in alloc; "child {pid} not born")?,
            Some(word) if pid != 1 && word != expected.word => {
                format!(in alloc; "child {pid} {}", end_text(alloc, word)?)?
            }
            Some(_) => String::new(alloc),
        };
        if !part.is_empty() {
            push_part(text, part.as_str(), "; ")?;
        }
    }
    Ok(())
}

/// What a run came to beside its files.
#[derive(Clone, Copy)]
pub struct Came<'r> {
    pub verdict: Verdict,
    /// The wait word of process 1, if it ended.
    pub word: Option<u32>,
    pub ended: &'r [Ended],
    pub streams: &'r Streams,
}

/// Adds how process 1 ended, where that is the news of a run.
fn push_end(
    text: &mut String,
    alloc: Global,
    reference: &Reached,
    came: Came<'_>,
) -> Result<(), AllocError> {
    let Some(word) = came.word else {
        return Ok(());
    };
    let is_news = first_word(&reference.ending.outcome) != Some(word);
    if is_news || rank(came.verdict) <= rank(Verdict::Warned) {
        push_part(text, end_text(alloc, word)?.as_str(), "; ")?;
    }
    Ok(())
}

/// Adds what a run says and prints otherwise than the reference.
fn push_streams(
    text: &mut String,
    alloc: Global,
    expected: &Streams,
    streams: &Streams,
) -> Result<(), AllocError> {
    if expected.err.as_slice() != streams.err.as_slice() {
        let part = said(alloc, expected.err.as_slice(), streams.err.as_slice())?;
        push_part(text, part.as_str(), "; ")?;
    }
    if expected.out.as_slice() != streams.out.as_slice() {
        let part = printed(alloc, expected.out.as_slice(), streams.out.as_slice())?;
        push_part(text, part.as_str(), "; ")?;
    }
    Ok(())
}

/// What came of a run; `hung` tells why it did not end.
pub fn told_text(
    alloc: Global,
    reference: &Reached,
    came: Came<'_>,
    files: &[ToldFile],
    hung: Option<&str>,
) -> Result<String, AllocError> {
    let mut text = String::new(alloc);
    if let Some(reason) = hung {
        text.push_str(reason)?;
    } else {
        push_end(&mut text, alloc, reference, came)?;
        let ended = reference.ending.outcome.ended.as_slice();
        push_children(&mut text, alloc, ended, came.ended)?;
    }
    push_streams(&mut text, alloc, &reference.streams, came.streams)?;
    push_files(&mut text, alloc, files)?;
    Ok(text)
}

/// Words that show a run, and those of them that make the call fail as they are typed.
#[derive(Drop)]
struct RunWords {
    words: Vec<String>,
    failure: String,
}

/// Those of `strace_cli`, where a rule of a script, which is for each tracee, gives the run.
fn traced_words(alloc: Global, matches: &ArgMatches, row: &Row) -> Result<Vec<String>, AllocError> {
    if !row.has_words {
        return Ok(Vec::new(alloc));
    }
    failure_words(alloc, matches, &row.case, row.verdict)
}

/// Those of `strace_cli`, or else of the sweep.
fn words_of(alloc: Global, matches: &ArgMatches, row: &Row) -> Result<RunWords, AllocError> {
    let mut shower = Shower::Trace;
    let mut failure = traced_words(alloc, matches, row)?;
    if failure.is_empty() {
        shower = Shower::Sweep;
        failure = show_words(alloc, matches, &row.case)?;
    }
    let words = words_with(alloc, matches, shower, failure.as_slice())?;
    let failure = typed(alloc, failure.as_slice())?;
    Ok(RunWords { words, failure })
}

/// What came of a run, and what of it is the same in all runs with its outcome.
#[derive(Drop)]
struct ToldOutcome {
    files: Vec<ToldFile>,
    told: String,
    outcome: String,
}

fn came_of(row: &Row) -> Came<'_> {
    Came {
        verdict: row.verdict,
        word: row.word,
        ended: row.ended.as_slice(),
        streams: &row.streams,
    }
}

fn outcome_of(
    alloc: Global,
    reference: &Reached,
    row: &Row,
    hung: Option<&str>,
) -> Result<ToldOutcome, AllocError> {
    let files = told_files(alloc, row.files.as_slice())?;
    let came = came_of(row);
    let told = told_text(alloc, reference, came, files.as_slice(), hung)?;
    let masked = without_numbers(alloc, told.as_str(), false)?;
    let outcome = format!(in alloc; "{} {masked}", verdict_name(row.verdict))?;
    Ok(ToldOutcome {
        files,
        told,
        outcome,
    })
}

/// The rank of a row: one that is known is not to be noticed.
fn rank_of(verdict: Verdict, known: bool) -> u8 {
    if known {
        rank(Verdict::Reported)
    } else {
        rank(verdict)
    }
}

/// A row as it is told, of a call in this place; `known`: that it is a finding is known.
pub fn tell_row(
    alloc: Global,
    matches: &ArgMatches,
    reference: &Reached,
    row: &Row,
    place: Place,
    hung: Option<&str>,
    strict: bool,
    known: bool,
) -> Result<Told, AllocError> {
    let occurrence = &row.case.occurrence;
    let site = site_of(alloc, &place)?;
    let call = name_of(alloc, occurrence.call.number)?;
    let error = error_name(alloc, row.case.error)?;
    let words = words_of(alloc, matches, row)?;
    let outcome = outcome_of(alloc, reference, row, hung)?;
    Ok(Told {
        verdict: verdict_name(row.verdict),
        finding: counts(strict, row.verdict) && !known,
        known,
        pid: occurrence.pid,
        call,
        n: occurrence.n,
        error,
        text: place.text,
        function: place.function,
        status: row.word.map(|word| Status { word }.shell_status()),
        told: outcome.told,
        files: outcome.files,
        words: words.words,
        failure: words.failure,
        rank: rank_of(row.verdict, known),
        site,
        outcome: outcome.outcome,
    })
}
