//! The environment of the guest's program.

ghost use Rattle.std.specs.Prelude.{◌≡◌, IfErr, IfOk, OnOk, codes, map, not, option_map, reverse, false, true};
ghost use Rattle.front_boot.specs.Environment as spec;
ghost use Rattle.front_boot.specs.Environment.{HasMore, has_in};
ghost use Rattle.front_boot.specs.Refusals.{RefusesVariables};
ghost use Rattle.front_end.specs.Texts.{IsAbout};

use containers::{Bytes, Seq};
use front_end::{Fault, Shown};
use std::alloc::{AllocError, Global};
use std::collections::BTreeSet;

/// The name in a word NAME=VALUE.
fn name_of(word: &str) -> Option<&str>
    ensures { option_map (λ name. name.now) result ≡ spec.name_of word.now }
{
    match word.split_once('=') {
        Some((name, _)) if !name.is_empty() => Some(name),
        _ => None,
    }
}

/// Each word is NAME=VALUE.
fn check_variables(alloc: Global, words: &[&str]) -> Result<(), Fault>
    ensures all { OnOk result (spec.are_variables (map (λ word. word.now) words.now) ≡ true) }
    ensures one { IfErr result (λ fault. IsAbout (codes "-E ") fault
        × (spec.are_variables (map (λ word. word.now) words.now) ≡ false)) }
{
    for word in words {
        let Some(_name) = name_of(word) else {
            return Err(Fault::about(
                alloc,
                "-E ",
                format!(in alloc; "{}: not NAME=VALUE", Shown(word)),
            ));
        };
    }
    Ok(())
}

/// Notes the variable that a word sets; whether none was noted before.
fn note<'a>(names: &mut BTreeSet<&'a str>, word: &'a str) -> Result<bool, AllocError>
    ensures { IfOk result (λ new. (new ≡ not (has_in names.old (spec.name_of word.entry.now)))
        × HasMore (spec.name_of word.entry.now) names.old names.new) }
{
    match name_of(word) {
        Some(name) => Ok(names.insert(name)?),
        None => Ok(true),
    }
}

/// Keeps a word, if no other was noted that sets its variable.
fn keep<'a>(
    names: &mut BTreeSet<&'a str>,
    kept: &mut Vec<&'a str>,
    word: &'a str,
) -> Result<(), AllocError>
    ensures { OnOk result (HasMore (spec.name_of word.entry.now) names.old names.new
        × (map (λ word. word.now) kept.new.items
        ≡ spec.with_word (has_in names.old (spec.name_of word.entry.now)) word.entry.now
        (map (λ word. word.now) kept.old.items))) }
{
    if !note(names, word)? {
        return Ok(());
    }
    kept.push(word)?;
    Ok(())
}

/// The words that count, the last first.
fn last_words<'a>(alloc: Global, words: &[&'a str]) -> Result<Vec<&'a str>, AllocError>
    ensures { IfOk result (λ kept. map (λ word. word.now) kept.items
        ≡ reverse (spec.environment (map (λ word. word.now) words.now))) }
{
    let mut names = BTreeSet::new(alloc);
    let mut kept = Vec::new(alloc);
    for word in words.iter().rev() {
        keep(&mut names, &mut kept, *word)?;
    }
    Ok(kept)
}

/// Words as bytes.
pub fn bytes_of(alloc: Global, words: &[&str]) -> Result<Seq<Bytes>, AllocError>
    ensures { IfOk result (λ bytes. bytes ≡ map (λ word. word.now) words.now) }
{
    let mut bytes = Seq::new(alloc);
    for word in words {
        bytes.push(Bytes::from_slice(alloc, word.as_bytes())?)?;
    }
    Ok(bytes)
}

/// The environment. Of words that set one variable the last counts.
pub fn environment_of(alloc: Global, words: &[&str]) -> Result<Seq<Bytes>, Fault>
    ensures set { IfOk result (λ set. (spec.are_variables (map (λ word. word.now) words.now) ≡ true)
        × (set ≡ spec.environment (map (λ word. word.now) words.now))) }
    ensures refused { IfErr result (RefusesVariables (map (λ word. word.now) words.now)) }
{
    check_variables(alloc, words)?;
    let Ok(mut kept) = last_words(alloc, words) else {
        return Err(Fault::Memory);
    };
    kept.reverse();
    match bytes_of(alloc, kept.as_slice()) {
        Ok(set) => Ok(set),
        Err(_) => Err(Fault::Memory),
    }
}
