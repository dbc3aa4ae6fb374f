//! The place of a call: what a trace shows of it, and what its descriptor stands for.

ghost use Rattle.std.specs.Prelude.{◌≡◌, ℕ, List, IfOk};
ghost use Rattle.std.specs.String.{string_bytes};
ghost use Rattle.sweep_report.specs.Keys as spec;

use crate::texts::without_numbers;
use crate::traced::TracedCalls;
use lx_abi::{Item, OutcomeFile, sys};
use std::alloc::{AllocError, Global};
use sweep_rows::{Occurrence, Reached, Target, Verdict, name_of};
use sweep_words::calls::raw_text;

/// Stands for a function that isn't known.
const NOWHERE: &str = "-";

#[derive(Drop)]
pub struct Place {
    /// What a trace shows of the call, with what its descriptor stands for behind the number.
    pub text: String,
    /// The call's name, where a descriptor tells it from others.
    name: Option<String>,
    /// The function that makes the call, where a symbol table tells it.
    pub function: Option<String>,
}

/// The call has a descriptor as its first argument.
fn has_descriptor(number: u64) -> bool {
    matches!(
        number,
        sys::SYS_READ
            | sys::SYS_WRITE
            | sys::SYS_CLOSE
            | sys::SYS_LSEEK
            | sys::SYS_FSTAT
            | sys::SYS_FTRUNCATE
            | sys::SYS_DUP
            | sys::SYS_DUP3
    )
}

/// How long a text is that a quote ends.
fn quoted_length(text: &str) -> Option<usize> {
    let mut escapes = false;
    for (at, byte) in text.bytes().enumerate() {
        if byte == b'"' && !escapes {
            return Some(at);
        }
        escapes = byte == b'\\' && !escapes;
    }
    None
}

/// The first text in quotes.
fn first_quoted(text: &str) -> Option<&str> {
    let (_, rest) = text.split_once('"')?;
    rest.get(..quoted_length(rest)?)
}

/// The path that the openat was for whose end stands here in the log.
fn opened_path<'a>(calls: &'a TracedCalls, log: &[Item], at: usize) -> Option<&'a str> {
    first_quoted(calls.text_at(log, at)?)
}

/// What a descriptor stands for, as it is told.
fn target_text<'a>(calls: &'a TracedCalls, log: &[Item], target: Target) -> Option<&'a str> {
    match target {
        Target::Input => Some("input"),
        Target::Output | Target::Error => Some("console"),
        Target::File(at) => opened_path(calls, log, at),
        Target::Other => None,
    }
}

/// A call's text with what its descriptor stands for.
fn with_target(alloc: Global, text: &str, target: &str) -> Result<String, AllocError> {
    let Some((name, rest)) = text.split_once('(') else {
        return format!(in alloc; "{text}");
    };
    let digits = rest.chars().take_while(|c| c.is_ascii_digit()).count();
    let number = rest.get(..digits).unwrap_or("");
    let more = rest.get(digits..).unwrap_or("");
    format!(in alloc; "{name}({number}<{target}>{more}")
}

/// The function that makes a call, where it is known.
fn function_of(
    alloc: Global,
    calls: &TracedCalls,
    occurrence: &Occurrence,
) -> Result<Option<String>, AllocError> {
    match calls.function_of(occurrence.pid, occurrence.call.number, occurrence.n) {
        Some(name) => Ok(Some(String::from_str(alloc, name)?)),
        None => Ok(None),
    }
}

/// The place of an occurrence of a call in the reference.
pub fn place_of(
    alloc: Global,
    calls: &TracedCalls,
    reference: &Reached,
    occurrence: &Occurrence,
) -> Result<Place, AllocError> {
    let number = occurrence.call.number;
    let text = match calls.text_of(occurrence.pid, number, occurrence.n) {
        Some(text) => format!(in alloc; "{text}")?,
        None => raw_text(alloc, &occurrence.call)?,
    };
    let function = function_of(alloc, calls, occurrence)?;
    if !has_descriptor(number) {
        return Ok(Place {
            text,
            name: None,
            function,
        });
    }
    let log = reference.log.as_slice()?;
    let target = target_text(calls, log, occurrence.used.target);
    let target = target.unwrap_or("pipe");
    let name = match text.as_str().split_once('(') {
        Some((name, _)) => format!(in alloc; "{name} {target}")?,
        None => format!(in alloc; "{target}")?,
    };
    Ok(Place {
        text: with_target(alloc, text.as_str(), target)?,
        name: Some(name),
        function,
    })
}

/// A call and what it is for: its file, or else its words but for numbers.
fn words_of(alloc: Global, place: &Place) -> Result<String, AllocError> {
    if let Some(name) = &place.name {
        return format!(in alloc; "{name}");
    }
    let text = place.text.as_str();
    let call = match text.split_once(" = ") {
        Some((call, _)) => call,
        None => text,
    };
    without_numbers(alloc, call, true)
}

/// The name of a call, before what it is for.
fn call_in(words: &str) -> &str {
    let length = words
        .bytes()
        .take_while(|byte| *byte != b' ' && *byte != b'(')
        .count();
    words.get(..length).unwrap_or(words)
}

/// The function that makes a call, or a dash.
fn function_name(place: &Place) -> &str {
    match &place.function {
        Some(function) => function.as_str(),
        None => NOWHERE,
    }
}

/// Three fields, with a space between them.
fn fields(alloc: Global, call: &str, function: &str, object: &str) -> Result<String, AllocError>
    ensures { IfOk result (λ text. string_bytes text ≡ spec.fields call.now function.now object.now) }
{
    let mut text = String::from_str(alloc, call)?;
    text.push_str(" ")?;
    text.push_str(function)?;
    text.push_str(" ")?;
    text.push_str(object)?;
    Ok(text)
}

/// The same with the function between a call and what it is for, which begins with a space, or else with a parenthesis.
fn with_function(alloc: Global, words: &str, function: &str) -> Result<String, AllocError>
    ensures { IfOk result (λ text. (call : List ℕ) × (object : List ℕ)
        × (string_bytes text ≡ spec.fields call function.now object)) }
{
    let call = call_in(words);
    let behind = words.get(call.len()..).unwrap_or("");
    let object = behind.strip_prefix(' ').unwrap_or(behind);
    let text = fields(alloc, call, function, object)?;
    Ok(text)
}

/// Calls of one site are made in the same function, where that is known; they have the same name and are for the same
/// file, or else the same words but for numbers.
pub fn site_of(alloc: Global, place: &Place) -> Result<String, AllocError> {
    let words = words_of(alloc, place)?;
    match &place.function {
        Some(function) => with_function(alloc, words.as_str(), function.as_str()),
        None => Ok(words),
    }
}

/// A verdict's name in capitals, a space, and a text.
fn marked(alloc: Global, verdict: Verdict, text: &str) -> Result<String, AllocError>
    ensures { IfOk result (λ line. string_bytes line ≡ spec.marked verdict text.now) }
{
    let mut line = String::from_str(alloc, name_of(verdict))?;
    line.make_ascii_uppercase();
    line.push_str(" ")?;
    line.push_str(text)?;
    Ok(line)
}

/// A finding in a line of its own: its word, its call, the function that makes the call, or a dash, and what the call
/// is for.
pub fn key_of(alloc: Global, verdict: Verdict, place: &Place) -> Result<String, AllocError>
    ensures { IfOk result (λ key. spec.IsKey verdict (string_bytes key)) }
{
    let words = words_of(alloc, place)?;
    let site = with_function(alloc, words.as_str(), function_name(place))?;
    let key = marked(alloc, verdict, site.as_str())?;
    Ok(key)
}

/// The line that an older version wrote of a finding: its word, its call and what the call is for.
pub fn older_of(alloc: Global, verdict: Verdict, place: &Place) -> Result<String, AllocError>
    ensures { IfOk result (λ older. spec.IsOlder verdict (string_bytes older)) }
{
    let words = words_of(alloc, place)?;
    let older = marked(alloc, verdict, words.as_str())?;
    Ok(older)
}

/// A finding's line as an older version wrote it.
pub fn without_function(alloc: Global, key: &str) -> Result<String, AllocError> {
    let (word, fields) = key.split_once(' ').unwrap_or((key, ""));
    let (call, fields) = fields.split_once(' ').unwrap_or((fields, ""));
    let (_, object) = fields.split_once(' ').unwrap_or((fields, ""));
    let between = if object.starts_with('(') { "" } else { " " };
    format!(in alloc; "{word} {call}{between}{object}")
}

/// The last name of a path is this.
fn is_named(path: &[u8], name: &[u8]) -> bool {
    match path.len().checked_sub(name.len()) {
        None => false,
        Some(0) => path == name,
        Some(front) => path.get(..front).unwrap_or(&[]).ends_with(b"/") && path.ends_with(name),
    }
}

/// When the reference has ended, a file is there with the last name of the path by which a descriptor was opened; or
/// that name has bytes that a trace doesn't show as they are.
pub fn is_kept(
    calls: &TracedCalls,
    log: &[Item],
    files: &[OutcomeFile],
    occurrence: &Occurrence,
) -> bool {
    let Target::File(at) = occurrence.used.target else {
        return true;
    };
    let Some(path) = opened_path(calls, log, at) else {
        return true;
    };
    let name = match path.rsplit_once('/') {
        Some((_, name)) => name,
        None => path,
    };
    name.contains('\\')
        || files
            .iter()
            .any(|file| is_named(file.path.as_slice(), name.as_bytes()))
}
