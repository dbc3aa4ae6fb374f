//! Findings that are known, as a file names them: a line each, of the verdict and the place of the call.

ghost use Rattle.std.specs.Prelude.{◌≡◌, IfErr, codes, true, false};
ghost use Rattle.front_end.specs.Values.{value_of};
ghost use Rattle.sweep_words.specs.Known.{star, IsLike, IsKnown, RefusesKnown};
ghost use Rattle.sweep_words.specs.Named.{is_remark};

use clap::ArgMatches;
use front_end::{Fault, read_text};
use std::alloc::{AllocError, Global};
use std::rt::Files;

/// The most bytes of a file of known findings.
const MOST_KNOWN: u64 = 1_048_576;

/// The text has an end that is the pattern's.
fn ends_like(text: &str, pattern: &str) -> bool
    ensures is { result ≡ true → IsLike text.now (star pattern.now) }
    ensures otherwise { result ≡ false → ¬ (IsLike text.now (star pattern.now)) }
{
    let mut left = text;
    let mut others = pattern;
    while let Some((piece, more)) = others.split_once('*') {
        let Some((_, rest)) = left.split_once(piece) else {
            return false;
        };
        left = rest;
        others = more;
    }
    left.ends_with(others)
}

/// The text is the pattern's, in which a `*` stands for any text.
pub fn is_like(text: &str, pattern: &str) -> bool
    ensures is { result ≡ true → IsLike text.now pattern.now }
    ensures otherwise { result ≡ false → ¬ (IsLike text.now pattern.now) }
{
    let Some((first, others)) = pattern.split_once('*') else {
        return text == pattern;
    };
    let Some(left) = text.strip_prefix(first) else {
        return false;
    };
    ends_like(left, others)
}

/// Some line is like this text.
pub fn is_known(known: &[String], text: &str) -> bool
    ensures is { result ≡ true → IsKnown known.now text.now }
    ensures otherwise { result ≡ false → ¬ (IsKnown known.now text.now) }
{
    let mut left = known;
    while let Some((line, rest)) = left.split_first() {
        if is_like(text, line.as_str()) {
            return true;
        }
        left = rest;
    }
    false
}

/// A line of a file, without the space around it, names nothing: it is empty, or begins with a `#`.
pub fn is_remark(text: &str) -> bool
    ensures { result ≡ is_remark text.now }
{
    match text.as_bytes() {
        [] => true,
        [first, ..] => *first == b'#',
    }
}

/// The lines of a text that name something.
fn lines_of(alloc: Global, text: &str) -> Result<Vec<String>, AllocError> {
    let mut lines = Vec::new(alloc);
    for line in text.lines() {
        let line = line.trim();
        if !is_remark(line) {
            lines.push(String::from_str(alloc, line)?)?;
        }
    }
    Ok(lines)
}

/// The findings that the words name as known.
pub fn read_known<R: Files + AllocGlobal>(
    rt: &R,
    matches: &ArgMatches,
) -> Result<Vec<String>, Fault>
    ensures { IfErr result (RefusesKnown (value_of matches.now (codes "known"))) }
{
    let Some(path) = matches.get_str("known") else {
        return Ok(Vec::new(rt.alloc()));
    };
    let text = read_text(rt, "--known ", path, MOST_KNOWN)?;
    Ok(lines_of(rt.alloc(), text.as_str())?)
}
