//! The calls that are to fail behind a failure.

use crate::wanted::{Pieces, named, refuse, set_of, split};
use clap::ArgMatches;
use front_end::{Fault, Shown, expression_words};
use std::alloc::Global;
use sweep_rows::{Errors, Wanted};

/// Options that have no meaning where two calls fail, each as it is written.
const VALUES: [(&str, &str); 7] = [
    ("known", "--known"),
    ("known-out", "--known-out"),
    ("shard", "--shard"),
    ("max-runs", "--max-runs"),
    ("time", "--time"),
    ("check", "--check"),
    ("jobs", "--jobs"),
];

/// What stands behind `deep=`.
pub fn deep_rule(text: &str) -> Option<&str> {
    text.strip_prefix("deep=")
}

/// The first of these words that begins so.
fn first_deep(words: &[String]) -> Option<&str> {
    for word in words {
        if deep_rule(word.as_str()).is_some() {
            return Some(word.as_str());
        }
    }
    None
}

/// The pieces behind `deep=`.
fn cut(text: &str) -> Option<Pieces<'_>> {
    split(deep_rule(text)?)
}

fn excluded(alloc: Global, option: &str) -> Fault {
    Fault::usage(format!(in alloc; "-e deep= excludes {option}: two calls fail in each run"))
}

/// Nothing stands beside it that has no meaning there.
fn check(alloc: Global, matches: &ArgMatches, words: &[String]) -> Result<(), Fault> {
    let count = words
        .iter()
        .filter(|word| deep_rule(word.as_str()).is_some())
        .count();
    if count > 1 {
        return Err(Fault::usage(format!(in alloc;
            "-e deep= stands once: a set joins names by commas"
        )));
    }
    for (id, option) in VALUES {
        if matches.get_str(id).is_some() {
            return Err(excluded(alloc, option));
        }
    }
    if matches.get_flag("fail-fast") {
        return Err(excluded(alloc, "--fail-fast"));
    }
    Ok(())
}

/// The calls of such an expression, with the errors that it names, or with one that an occurrence can have.
fn wanted_behind(alloc: Global, text: &str) -> Result<Wanted, Fault> {
    let Some(pieces) = cut(text) else {
        return Err(Fault::usage(format!(in alloc;
            "-e {}: not deep=SET or deep=SET:error=E,..",
            Shown(text)
        )));
    };
    if let Some(names) = pieces.errors {
        return named(alloc, text, pieces.set, names);
    }
    match set_of(alloc, pieces.set)? {
        Some(calls) => Ok(Wanted {
            calls,
            errors: Errors::Possible,
        }),
        None => Err(refuse(alloc, text, pieces.set)),
    }
}

/// The calls that are to fail behind a failure, if the words ask for that.
pub fn read_deep(alloc: Global, matches: &ArgMatches) -> Result<Option<Wanted>, Fault> {
    let words = expression_words(alloc, matches)?;
    let Some(text) = first_deep(words.as_slice()) else {
        return Ok(None);
    };
    check(alloc, matches, words.as_slice())?;
    let wanted = wanted_behind(alloc, text)?;
    Ok(Some(wanted))
}
