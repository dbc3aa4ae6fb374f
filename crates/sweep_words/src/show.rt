//! The run that `--show` names: one in which a call has an error, or then one behind it too, or in which something
//! else happens to it.

ghost use Rattle.std.specs.Prelude.{◌≡◌};
ghost use Rattle.sweep_words.specs.Shown as spec;

use crate::worlds::world_in;
use clap::ArgMatches;
use front_end::{Fault, Shown, decimal, expression_words};
use lx_abi::Errno;
use lx_abi::calls::call_number;
use std::alloc::Global;
use sweep_rows::Kind;
use tr_expr::errno;

/// Options that have no meaning where one run is shown, each as it is written.
const VALUES: [(&str, &str); 12] = [
    ("orders", "--orders"),
    ("errors", "--errors"),
    ("format", "--format"),
    ("known", "--known"),
    ("known-out", "--known-out"),
    ("shard", "--shard"),
    ("max-runs", "--max-runs"),
    ("time", "--time"),
    ("check", "--check"),
    ("runs", "--runs"),
    ("cases", "--cases"),
    ("jobs", "--jobs"),
];

const FLAGS: [(&str, &str); 3] = [
    ("each", "--each"),
    ("all", "--all"),
    ("fail-fast", "--fail-fast"),
];

/// The nth entry of a process into a call, counted from 1, fails with an error.
#[derive(Clone, Copy, Debug, PartialEq, Eq)]
pub struct NamedRun {
    pub pid: u64,
    pub call: u64,
    pub error: Errno,
    pub n: u64,
}

/// Something else happens to the nth entry of a process into a call, counted from 1.
#[derive(Clone, Copy, Debug, PartialEq, Eq)]
pub struct NamedTrial {
    pub pid: u64,
    pub call: u64,
    pub kind: Kind,
    pub n: u64,
}

/// A call fails, and then one behind it.
#[derive(Clone, Copy, Debug, PartialEq, Eq)]
pub struct NamedDeep {
    pub first: NamedRun,
    pub second: NamedRun,
}

/// A run of one of these kinds.
#[derive(Clone, Copy, Debug, PartialEq, Eq)]
pub enum NamedRow {
    Failure(NamedRun),
    Deep(NamedDeep),
    Trial(NamedTrial),
}

/// A number from 1 on.
#[tactic(auto, unfolding(crate::specs::Shown::positive))]
fn positive(digits: &str) -> Option<u64>
    ensures { result ≡ spec.positive digits.now }
{
    match decimal(digits, u64::MAX) {
        None | Some(0) => None,
        Some(number) => Some(number),
    }
}

/// The process of `CALL` or `CALL@PID`.
#[tactic(auto, unfolding(crate::specs::Shown::pid_in))]
fn pid_in(text: &str) -> Option<u64>
    ensures { result ≡ spec.pid_in text.now }
{
    match text.split_once('@') {
        None => Some(1),
        Some((_, digits)) => positive(digits),
    }
}

/// Its call.
#[tactic(auto, unfolding(crate::specs::Shown::call_in))]
fn call_in(text: &str) -> Option<u64>
    ensures { result ≡ spec.call_in text.now }
{
    match text.split_once('@') {
        None => call_number(text),
        Some((name, _)) => call_number(name),
    }
}

/// An error by its name or number.
#[tactic(auto, unfolding(crate::specs::Shown::error_in))]
fn error_in(text: &str) -> Option<Errno>
    ensures { result ≡ spec.error_in text.now }
{
    match errno(text) {
        Ok(number) => Errno::from_number(number),
        Err(_) => None,
    }
}

/// The run of these three parts.
#[tactic(auto, unfolding(crate::specs::Shown::run_of))]
fn run_of(call: &str, error: &str, n: &str) -> Option<NamedRun>
    ensures { result ≡ spec.run_of call.now error.now n.now }
{
    let pid = pid_in(call)?;
    let call = call_in(call)?;
    let error = error_in(error)?;
    let n = positive(n)?;
    Some(NamedRun {
        pid,
        call,
        error,
        n,
    })
}

/// The run of these words, if they name one.
#[tactic(auto, unfolding(crate::specs::Shown::named_run))]
pub fn named_run(text: &str) -> Option<NamedRun>
    ensures { result ≡ spec.named_run text.now }
{
    let (call, rest) = text.split_once(':')?;
    let (error, n) = rest.split_once(':')?;
    run_of(call, error, n)
}

/// The count of `short=COUNT`.
#[tactic(auto, unfolding(crate::specs::Shown::short_in))]
fn short_in(text: &str) -> Option<u64>
    ensures { result ≡ spec.short_in text.now }
{
    let (word, digits) = text.split_once('=')?;
    if word != "short" {
        return None;
    }
    positive(digits)
}

/// What happens in the place of an error.
#[tactic(auto, unfolding(crate::specs::Shown::kind_in))]
fn kind_in(text: &str) -> Option<Kind>
    ensures { result ≡ spec.kind_in text.now }
{
    if text == "stop" {
        return Some(Kind::Stop);
    }
    if text == "kill" {
        return Some(Kind::Killed);
    }
    match world_in(text) {
        Some(world) => Some(Kind::World(world)),
        None => match short_in(text) {
            Some(count) => Some(Kind::Short(count)),
            None => None,
        },
    }
}

/// The trial of these three parts.
#[tactic(auto, unfolding(crate::specs::Shown::trial_of))]
fn trial_of(call: &str, kind: &str, n: &str) -> Option<NamedTrial>
    ensures { result ≡ spec.trial_of call.now kind.now n.now }
{
    let pid = pid_in(call)?;
    let call = call_in(call)?;
    let kind = kind_in(kind)?;
    let n = positive(n)?;
    Some(NamedTrial { pid, call, kind, n })
}

/// The trial of these words, if they name one.
#[tactic(auto, unfolding(crate::specs::Shown::named_trial))]
pub fn named_trial(text: &str) -> Option<NamedTrial>
    ensures { result ≡ spec.named_trial text.now }
{
    let (call, rest) = text.split_once(':')?;
    let (kind, n) = rest.split_once(':')?;
    trial_of(call, kind, n)
}

/// The run of two failures that these words name, if they do.
#[tactic(auto, unfolding(crate::specs::Shown::named_deep))]
pub fn named_deep(text: &str) -> Option<NamedDeep>
    ensures { result ≡ spec.named_deep text.now }
{
    let (first, second) = text.split_once('+')?;
    let first = named_run(first)?;
    let second = named_run(second)?;
    Some(NamedDeep { first, second })
}

/// The run that these words name, if they name one in which calls have errors.
#[tactic(auto, unfolding(crate::specs::Shown::failing_row))]
fn failing_row(text: &str) -> Option<NamedRow>
    ensures { result ≡ spec.failing_row text.now }
{
    match named_deep(text) {
        Some(deep) => Some(NamedRow::Deep(deep)),
        None => match named_run(text) {
            Some(run) => Some(NamedRow::Failure(run)),
            None => None,
        },
    }
}

/// The run of any kind of these words, if they name one.
#[tactic(auto, unfolding(crate::specs::Shown::named_row))]
fn named_row(text: &str) -> Option<NamedRow>
    ensures { result ≡ spec.named_row text.now }
{
    match named_trial(text) {
        Some(trial) => Some(NamedRow::Trial(trial)),
        None => failing_row(text),
    }
}

fn excluded(alloc: Global, option: &str) -> Fault {
    Fault::usage(format!(in alloc; "--show excludes {option}: one run is made"))
}

/// Options that have no meaning where one run is shown.
fn check(alloc: Global, matches: &ArgMatches) -> Result<(), Fault> {
    if !expression_words(alloc, matches)?.is_empty() {
        return Err(excluded(alloc, "-e"));
    }
    for (id, option) in VALUES {
        if matches.get_str(id).is_some() {
            return Err(excluded(alloc, option));
        }
    }
    for (id, option) in FLAGS {
        if matches.get_flag(id) {
            return Err(excluded(alloc, option));
        }
    }
    Ok(())
}

/// The run that the words name, if they do.
pub fn shown_run(alloc: Global, matches: &ArgMatches) -> Result<Option<NamedRow>, Fault> {
    let Some(text) = matches.get_str("show") else {
        return Ok(None);
    };
    check(alloc, matches)?;
    match named_row(text) {
        Some(row) => Ok(Some(row)),
        None => Err(Fault::usage(format!(in alloc;
            "--show {}: not CALL:WHAT:N or CALL@PID:WHAT:N, as write:EIO:2, write:stop:2 or write:short=1:2",
            Shown(text)
        ))),
    }
}
