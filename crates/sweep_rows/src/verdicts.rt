//! What came of a run, beside the reference.

ghost use Rattle.std.specs.Prelude.{◌≡◌};
ghost use Rattle.sweep_rows.specs.Calls.{same_calls};
ghost use Rattle.sweep_rows.specs.Verdicts.{same_word, is_killed, is_torn, end_of, differs, said_of, has_torn};
ghost use Rattle.sweep_rows.specs.Verdicts.{has_saved, left_of, speaks, worst, ended_otherwise, ended_so, verdict_of};
ghost use Rattle.sweep_rows.specs.Verdicts.{is_finding, facts_of};

use crate::endings::{Ending, first_word};
use crate::files::{FileNote, Word, file_notes};
use crate::run_log::RunLog;
use crate::streams::Streams;

/// What came of a run, the worst first.
#[derive(Clone, Copy, Debug, PartialEq, Eq, PartialOrd, Ord)]
pub enum Verdict {
    /// The turns ended with a process alive.
    Hung,
    /// A signal but SIGABRT ended process 1, other than without the failure.
    Killed,
    /// A check of the files that the run left failed.
    Broken,
    /// A file that was there is torn or gone, and nothing else has its content.
    Torn,
    /// Something else was lost, and nothing said so.
    Lost,
    /// An error that tells of lost data had no effect.
    Dropped,
    /// A file that was there is torn or gone, and another has its content.
    Damaged,
    /// Process 1 ended as without the failure, or with 0, and something was said.
    Warned,
    /// Process 1 ended with another code.
    Reported,
    /// All is as without the failure, by other calls.
    Recovered,
    /// All is as without the failure, by the same calls.
    Ignored,
}

/// How process 1 ended.
#[derive(Clone, Copy, Debug, PartialEq, Eq)]
pub struct End {
    /// As without the failure.
    pub as_before: bool,
    /// By a signal but SIGABRT.
    pub killed: bool,
    /// With exit code 0.
    pub zero: bool,
}

/// What was said.
#[derive(Clone, Copy, Debug, PartialEq, Eq)]
pub struct Said {
    /// The errors differ.
    pub errors: bool,
    /// They are shorter.
    pub shorter: bool,
    /// The output differs.
    pub output: bool,
}

/// What became of the files.
#[derive(Clone, Copy, Debug, PartialEq, Eq)]
pub struct Left {
    /// One differs.
    pub changed: bool,
    /// One that was there is torn or gone.
    pub torn: bool,
    /// One that was there is, and another has its content.
    pub saved: bool,
}

/// What a verdict is made of.
#[derive(Clone, Copy, Debug, PartialEq, Eq)]
pub struct Facts {
    /// A process is alive.
    pub alive: bool,
    pub end: End,
    pub said: Said,
    pub left: Left,
    /// Each process made the same calls.
    pub alike: bool,
    /// The error tells that data was lost.
    pub tells: bool,
}

/// What a run came to: what it left, logged and said.
#[derive(Drop)]
pub struct Reached {
    pub ending: Ending,
    pub log: RunLog,
    pub streams: Streams,
}

/// Something was said that wasn't without the failure, and no less.
fn speaks(facts: Facts) -> bool
    ensures { result ≡ speaks facts }
{
    facts.said.errors && !facts.said.shorter
}

fn worst(facts: Facts, verdict: Verdict) -> Verdict
    ensures { result ≡ worst facts verdict }
{
    if facts.left.torn {
        Verdict::Torn
    } else if facts.left.saved {
        Verdict::Damaged
    } else {
        verdict
    }
}

/// What came of a run in which process 1 ended otherwise.
#[tactic(auto, unfolding(crate::specs::Verdicts::ended_otherwise))]
fn ended_otherwise(facts: Facts) -> Verdict
    ensures { result ≡ ended_otherwise facts }
{
    if facts.end.killed {
        return Verdict::Killed;
    }
    if !facts.end.zero {
        return worst(facts, Verdict::Reported);
    }
    if speaks(facts) {
        worst(facts, Verdict::Warned)
    } else {
        Verdict::Lost
    }
}

/// What came of a run in which process 1 ended as before.
#[tactic(auto, unfolding(crate::specs::Verdicts::ended_so))]
fn ended_so(facts: Facts) -> Verdict
    ensures { result ≡ ended_so facts }
{
    if facts.said.output || facts.left.changed {
        if speaks(facts) {
            return worst(facts, Verdict::Warned);
        }
        return Verdict::Lost;
    }
    if facts.said.errors {
        return Verdict::Warned;
    }
    if !facts.alike {
        return Verdict::Recovered;
    }
    if facts.tells {
        Verdict::Dropped
    } else {
        Verdict::Ignored
    }
}

/// What came of a run.
#[tactic(auto, unfolding(crate::specs::Verdicts::verdict_of))]
pub fn verdict_of(facts: Facts) -> Verdict
    ensures { result ≡ verdict_of facts }
{
    if facts.alive {
        Verdict::Hung
    } else if facts.end.as_before {
        ended_so(facts)
    } else {
        ended_otherwise(facts)
    }
}

/// A maintainer has to look at it.
#[tactic(auto, unfolding(crate::specs::Verdicts::is_finding))]
pub fn is_finding(verdict: Verdict) -> bool
    ensures { result ≡ is_finding verdict }
{
    matches!(
        verdict,
        Verdict::Hung
            | Verdict::Killed
            | Verdict::Broken
            | Verdict::Torn
            | Verdict::Lost
            | Verdict::Dropped
    )
}

fn same_word(a: Option<u32>, b: Option<u32>) -> bool
    ensures { result ≡ same_word a b }
{
    match (a, b) {
        (None, None) => true,
        (Some(a), Some(b)) => a == b,
        _ => false,
    }
}

/// The wait word is that of an end by a signal but SIGABRT.
fn is_killed(word: Option<u32>) -> bool
    ensures { result ≡ is_killed word }
{
    match word {
        None => false,
        Some(word) => word % 128 != 0 && word % 128 != 6,
    }
}

fn is_torn(note: &FileNote) -> bool
    ensures { result ≡ is_torn note.now }
{
    matches!(note.word, Word::Torn(..) | Word::Gone) && !note.saved
}

#[tactic(auto, unfolding(crate::specs::Verdicts::end_of))]
fn end_of(reference: &Reached, run: &Reached) -> End
    ensures { result ≡ end_of reference.now run.now }
{
    let word = first_word(&run.ending.outcome);
    End {
        as_before: same_word(first_word(&reference.ending.outcome), word),
        killed: is_killed(word),
        zero: same_word(word, Some(0)),
    }
}

fn differs(a: &[u8], b: &[u8]) -> bool
    ensures { result ≡ differs a.now b.now }
{
    a != b
}

#[tactic(auto, unfolding(crate::specs::Verdicts::said_of))]
fn said_of(reference: &Streams, run: &Streams) -> Said
    ensures { result ≡ said_of reference.now run.now }
{
    Said {
        errors: differs(run.err.as_slice(), reference.err.as_slice()),
        shorter: run.err.len() < reference.err.len(),
        output: differs(run.out.as_slice(), reference.out.as_slice()),
    }
}

#[tactic(auto, unfolding(crate::specs::Verdicts::has_torn))]
fn has_torn(notes: &[FileNote]) -> bool
    ensures { result ≡ has_torn notes.now }
{
    notes.iter().any(|note| is_torn(note))
}

#[tactic(auto, unfolding(crate::specs::Verdicts::has_saved))]
fn has_saved(notes: &[FileNote]) -> bool
    ensures { result ≡ has_saved notes.now }
{
    notes.iter().any(|note| note.saved)
}

#[tactic(auto, unfolding(crate::specs::Verdicts::left_of))]
fn left_of(notes: &[FileNote]) -> Left
    ensures { result ≡ left_of notes.now }
{
    Left {
        changed: !notes.is_empty(),
        torn: has_torn(notes),
        saved: has_saved(notes),
    }
}

/// What is true of a run that has these files otherwise, beside the reference, and whose calls are alike or aren't.
#[tactic(auto, unfolding(crate::specs::Verdicts::facts_of))]
pub fn facts_of(
    reference: &Reached,
    run: &Reached,
    alike: bool,
    notes: &[FileNote],
    tells: bool,
) -> Facts
    requires { alike ≡ same_calls reference.now.log.items run.now.log.items reference.now.ending.outcome.ended }
    ensures { result ≡ facts_of reference.now run.now notes.now tells }
{
    Facts {
        alive: run.ending.alive,
        end: end_of(reference, run),
        said: said_of(&reference.streams, &run.streams),
        left: left_of(notes),
        alike,
        tells,
    }
}
