//! What happens at calls in the place of one error, and what is started then on the files that are left.

use crate::show::{named_deep, named_trial};
use crate::wanted::refuse;
use crate::worlds::{world_in, world_word};
use clap::ArgMatches;
use containers::{Bytes, Seq};
use front_end::{Fault, Shown, expression_words};
use lx_abi::Set;
use std::alloc::{AllocError, Global};
use sweep_rows::World;
use tr_expr::{ExprFault, parse_trace};

/// Options that have no meaning where no call has an error, each as it is written.
const VALUES: [(&str, &str); 8] = [
    ("errors", "--errors"),
    ("known", "--known"),
    ("known-out", "--known-out"),
    ("shard", "--shard"),
    ("max-runs", "--max-runs"),
    ("time", "--time"),
    ("check", "--check"),
    ("jobs", "--jobs"),
];

/// What happens at a call in the place of an error.
#[derive(Clone, Copy, Debug, PartialEq, Eq)]
pub enum Deed {
    /// Everything ends as it is entered.
    Stop,
    /// Its process is killed as it enters the call, and others go on.
    Kill,
    /// It reads or writes less than it is asked for.
    Short,
    /// A world begins there, if the call is one of those that it has fail.
    Begin(World),
}

/// What happens at each of these calls.
#[derive(Drop)]
pub struct Tried {
    pub deed: Deed,
    pub calls: Set,
}

/// A second program, which is started on the files that are left.
#[derive(Drop)]
pub struct Second {
    pub argv: Seq<Bytes>,
    /// The most of its turns.
    pub limit: u64,
}

/// A set as a word has it, and what happens at its calls.
#[derive(Clone, Copy)]
struct Asked<'a> {
    text: &'a str,
    word: &'static str,
    deed: Deed,
    set: &'a str,
}

/// Why options that choose errors have no meaning.
fn reason(deed: Deed) -> &'static str {
    match deed {
        Deed::Stop | Deed::Kill | Deed::Short => "no call has an error",
        Deed::Begin(_) => "calls have the world's error",
    }
}

fn excluded(alloc: Global, asked: Asked<'_>, option: &str) -> Fault {
    let word = asked.word;
    Fault::usage(format!(in alloc; "-e {word}= excludes {option}: {}", reason(asked.deed)))
}

/// Nothing stands beside the set that has no meaning there.
fn check(
    alloc: Global,
    matches: &ArgMatches,
    asked: Asked<'_>,
    words: &[String],
) -> Result<(), Fault> {
    if words.len() > 1 {
        let word = asked.word;
        return Err(Fault::usage(format!(in alloc;
            "-e {word}= excludes other expressions: a set joins names by commas"
        )));
    }
    for (id, option) in VALUES {
        if matches.get_str(id).is_some() {
            return Err(excluded(alloc, asked, option));
        }
    }
    if matches.get_flag("fail-fast") {
        return Err(excluded(alloc, asked, "--fail-fast"));
    }
    Ok(())
}

/// The fault of a set: something stands behind it, or else the one that it has behind `fault=`.
fn refuse_set(alloc: Global, asked: Asked<'_>) -> Fault {
    if asked.set.contains(':') {
        let (text, word) = (Shown(asked.text), asked.word);
        return Fault::usage(format!(in alloc; "-e {text}: not {word}=SET"));
    }
    refuse(alloc, asked.text, asked.set)
}

/// What `DEED=SET` asks for.
fn asked_by(text: &str) -> Option<Asked<'_>> {
    let (word, set) = text.split_once('=')?;
    let (word, deed) = match word {
        "stop" => ("stop", Deed::Stop),
        "kill" => ("kill", Deed::Kill),
        "short" => ("short", Deed::Short),
        _ => {
            let world = world_in(word)?;
            (world_word(world), Deed::Begin(world))
        }
    };
    Some(Asked {
        text,
        word,
        deed,
        set,
    })
}

/// What the first such word asks for.
fn first_asked(words: &[String]) -> Option<Asked<'_>> {
    for word in words {
        if let Some(asked) = asked_by(word.as_str()) {
            return Some(asked);
        }
    }
    None
}

/// What happens at which calls in the place of an error, if the words ask for that.
pub fn read_tried(alloc: Global, matches: &ArgMatches) -> Result<Option<Tried>, Fault> {
    let words = expression_words(alloc, matches)?;
    let Some(asked) = first_asked(words.as_slice()) else {
        return Ok(None);
    };
    check(alloc, matches, asked, words.as_slice())?;
    match parse_trace(alloc, asked.set) {
        Ok(calls) => Ok(Some(Tried {
            deed: asked.deed,
            calls,
        })),
        Err(ExprFault::Memory) => Err(Fault::Memory),
        Err(_) => Err(refuse_set(alloc, asked)),
    }
}

/// Words that are parted by blanks.
fn words_of(alloc: Global, text: &str) -> Result<Seq<Bytes>, AllocError> {
    let mut words = Seq::new(alloc);
    for word in text.split(' ') {
        if !word.is_empty() {
            words.push(Bytes::from_slice(alloc, word.as_bytes())?)?;
        }
    }
    Ok(words)
}

/// In the run that the words show no call has an error, or two have.
fn shows_trial(matches: &ArgMatches) -> bool {
    match matches.get_str("show") {
        Some(text) => named_trial(text).is_some() || named_deep(text).is_some(),
        None => false,
    }
}

/// The second program that the words name, if they do: `is_tried` where they say at which calls something else than an
/// error happens, or that a call fails behind a failure.
pub fn read_second(
    alloc: Global,
    matches: &ArgMatches,
    is_tried: bool,
    limit: u64,
) -> Result<Option<Second>, Fault> {
    let Some(text) = matches.get_str("then") else {
        return Ok(None);
    };
    if !is_tried && !shows_trial(matches) {
        return Err(Fault::usage(format!(in alloc;
            "--then: stands beside -e stop=, kill=, short=, deep= or a world, or --show of such a run"
        )));
    }
    let argv = words_of(alloc, text)?;
    if argv.as_slice().is_empty() {
        return Err(Fault::usage(format!(in alloc; "--then: names no program")));
    }
    Ok(Some(Second { argv, limit }))
}
