//! Which calls are to fail, and with which errors.

use crate::deep::deep_rule;
use crate::named::NamedLine;
use crate::show::NamedRun;
use call_errors::{errors_of, rows};
use clap::ArgMatches;
use containers::Seq;
use front_end::{Fault, Shown, expression_words, read_expression};
use lx_abi::{Errno, Set};
use std::alloc::{AllocError, Global};
use sweep_rows::{Errors, Wanted};
use tr_expr::{ExprFault, errno, parse_trace};

/// What may stand after `-e`.
const TAKEN: &str =
    "fault=SET[:error=E,..], deep=SET[:error=E,..], or SET behind stop=, kill=, short=, full=, \
broken=, read-only=, no-files= or no-memory=";

/// A set's text, and the names of errors behind it.
#[derive(Clone, Copy)]
pub(crate) struct Pieces<'a> {
    pub set: &'a str,
    pub errors: Option<&'a str>,
}

/// The fault of an expression that a sweep doesn't take.
fn untaken(alloc: Global, text: &str) -> Fault {
    Fault::usage(format!(in alloc; "-e {}: a sweep takes {TAKEN}", Shown(text)))
}

/// The fault that a rule has behind `fault=`, told of the words that were typed for it.
pub(crate) fn refuse(alloc: Global, typed: &str, rule: &str) -> Fault {
    let Ok(text) = format!(in alloc; "fault={rule}") else {
        return Fault::Memory;
    };
    match read_expression(alloc, text.as_str(), typed) {
        Err(fault) => fault,
        Ok(_) => untaken(alloc, typed),
    }
}

/// The pieces of `SET[:error=E[,E..]]`.
pub(crate) fn split(rule: &str) -> Option<Pieces<'_>> {
    let Some((set, part)) = rule.split_once(':') else {
        return Some(Pieces {
            set: rule,
            errors: None,
        });
    };
    let errors = part.strip_prefix("error=")?;
    if errors.contains(':') {
        return None;
    }
    Some(Pieces {
        set,
        errors: Some(errors),
    })
}

/// Those behind `fault=`.
fn cut(text: &str) -> Option<Pieces<'_>> {
    split(text.strip_prefix("fault=")?)
}

/// The fault of a set with one of the errors that stand behind it.
fn refuse_error(alloc: Global, typed: &str, set: &str, name: &str) -> Fault {
    match format!(in alloc; "{set}:error={name}") {
        Ok(rule) => refuse(alloc, typed, rule.as_str()),
        Err(_) => Fault::Memory,
    }
}

/// The calls that a set names, unless it is refused.
pub(crate) fn set_of(alloc: Global, set: &str) -> Result<Option<Set>, AllocError> {
    match parse_trace(alloc, set) {
        Ok(calls) => Ok(Some(calls)),
        Err(ExprFault::Memory) => Err(AllocError),
        Err(_) => Ok(None),
    }
}

/// An error by its name or number.
fn error_of(name: &str) -> Option<Errno> {
    Errno::from_number(errno(name).ok()?)
}

/// Calls with the errors that are named. A fault tells of the words that were typed.
pub(crate) fn named(alloc: Global, typed: &str, set: &str, names: &str) -> Result<Wanted, Fault> {
    let (first, _) = names.split_once(',').unwrap_or((names, ""));
    let Some(calls) = set_of(alloc, set)? else {
        return Err(refuse_error(alloc, typed, set, first));
    };
    let mut errors = Vec::new(alloc);
    for name in names.split(',') {
        match error_of(name) {
            Some(error) => errors.push(error)?,
            None => return Err(refuse_error(alloc, typed, set, name)),
        }
    }
    Ok(Wanted {
        calls,
        errors: Errors::These(errors),
    })
}

/// A call with the errors that the table has for it.
fn usual(alloc: Global, number: u64) -> Result<Wanted, AllocError> {
    let mut calls = Seq::new(alloc);
    calls.push(number)?;
    let mut errors = Vec::new(alloc);
    for error in errors_of(number).iter().copied() {
        if let Some(error) = Errno::from_number(u64::from(error)) {
            errors.push(error)?;
        }
    }
    Ok(Wanted {
        calls: Set::Only(calls),
        errors: Errors::These(errors),
    })
}

/// Adds the calls of a set, each with the errors that the table has for it.
fn add_usual(alloc: Global, wanted: &mut Vec<Wanted>, set: &Set) -> Result<(), AllocError> {
    for row in rows() {
        if set.contains(row.0) {
            wanted.push(usual(alloc, row.0)?)?;
        }
    }
    Ok(())
}

/// Adds the calls of a set, each with the errors that an occurrence can have, or with all that the table has.
fn add_set(
    alloc: Global,
    wanted: &mut Vec<Wanted>,
    calls: Set,
    every_error: bool,
) -> Result<(), AllocError> {
    if every_error {
        return add_usual(alloc, wanted, &calls);
    }
    wanted.push(Wanted {
        calls,
        errors: Errors::Possible,
    })?;
    Ok(())
}

/// Adds what an expression asks for.
fn add(
    alloc: Global,
    wanted: &mut Vec<Wanted>,
    text: &str,
    every_error: bool,
) -> Result<(), Fault> {
    let Some(pieces) = cut(text) else {
        return Err(untaken(alloc, text));
    };
    match pieces.errors {
        Some(names) => wanted.push(named(alloc, text, pieces.set, names)?)?,
        None => match set_of(alloc, pieces.set)? {
            Some(calls) => add_set(alloc, wanted, calls, every_error)?,
            None => return Err(refuse(alloc, text, pieces.set)),
        },
    }
    Ok(())
}

/// The call of a run with its error.
pub fn wanted_by(alloc: Global, run: NamedRun) -> Result<Wanted, AllocError> {
    let mut calls = Seq::new(alloc);
    calls.push(run.call)?;
    let mut errors = Vec::new(alloc);
    errors.push(run.error)?;
    Ok(Wanted {
        calls: Set::Only(calls),
        errors: Errors::These(errors),
    })
}

/// The calls of these runs with their errors, each once.
fn wanted_of(alloc: Global, named: &[NamedLine]) -> Result<Vec<Wanted>, AllocError> {
    let mut first: Vec<NamedRun> = Vec::new(alloc);
    let mut wanted = Vec::new(alloc);
    for one in named {
        let run = one.run;
        let is_new = !first
            .iter()
            .any(|other| other.call == run.call && other.error == run.error);
        if is_new {
            first.push(run)?;
            wanted.push(wanted_by(alloc, run)?)?;
        }
    }
    Ok(wanted)
}

/// Whether all errors of a call are tried, or those alone that an occurrence can have.
fn every_error(alloc: Global, matches: &ArgMatches) -> Result<bool, Fault> {
    match matches.get_str("errors") {
        None | Some("possible") => Ok(false),
        Some("all") => Ok(true),
        Some(other) => Err(Fault::usage(format!(in alloc;
            "--errors {}: not possible or all",
            Shown(other)
        ))),
    }
}

/// What the expressions ask for, in their order; every call, where there are none but for what fails behind a failure.
fn read_wanted(alloc: Global, matches: &ArgMatches) -> Result<Vec<Wanted>, Fault> {
    let every_error = every_error(alloc, matches)?;
    let words = expression_words(alloc, matches)?;
    let mut wanted = Vec::new(alloc);
    let mut is_any = false;
    for word in &words {
        if deep_rule(word.as_str()).is_none() {
            add(alloc, &mut wanted, word.as_str(), every_error)?;
            is_any = true;
        }
    }
    if !is_any {
        let every_call = Set::AllBut(Seq::new(alloc));
        add_set(alloc, &mut wanted, every_call, every_error)?;
    }
    Ok(wanted)
}

/// The calls that are to fail: those that a file names, or else what the expressions ask for; none where something
/// else is tried.
pub fn read_calls(
    alloc: Global,
    matches: &ArgMatches,
    named: &[NamedLine],
    is_tried: bool,
) -> Result<Vec<Wanted>, Fault> {
    if is_tried {
        return Ok(Vec::new(alloc));
    }
    if matches.get_str("runs").is_some() {
        return Ok(wanted_of(alloc, named)?);
    }
    read_wanted(alloc, matches)
}
