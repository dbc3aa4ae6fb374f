//! What is wrong with words that can't be parsed.

use crate::left_out::left_out;
use crate::shown::Escaped;
use clap::Error;
use clap::error::ErrorKind;
use std::alloc::{AllocError, Global};

/// The words as messages show them: the parser quotes words, so its faults are those of the words parsed in this form.
pub fn shown_words(alloc: Global, words: &[String]) -> Result<Vec<String>, AllocError> {
    let mut shown: Vec<String> = Vec::new(alloc);
    for word in words {
        shown.push(format!(in alloc; "{}", Escaped(word.as_str()))?)?;
    }
    Ok(shown)
}

/// What the parser says of the words, as one line without the usage.
fn line_of(alloc: Global, error: Error) -> Result<String, AllocError> {
    let text = format!(in alloc; "{error}")?;
    let text = text.as_str();
    let text = text.strip_prefix("error: ").unwrap_or(text);
    let mut line = String::new(alloc);
    for part in text.lines() {
        let part = part.trim();
        if part.starts_with("Usage: ") || part.starts_with("For more information") {
            break;
        }
        // An option that isn't known is never meant as a value.
        if part.is_empty() || part.starts_with("tip: to pass ") {
            continue;
        }
        let mark = if line.is_empty() {
            ""
        } else if part.starts_with("tip: ") {
            "; "
        } else {
            " "
        };
        line.push_str(mark)?;
        line.push_str(part)?;
    }
    Ok(line)
}

/// The hint for a fault of words in which no `--` divides a program's from the options.
fn hint(kind: ErrorKind) -> &'static str {
    match kind {
        ErrorKind::UnknownArgument | ErrorKind::MissingRequiredArgument => {
            "; put the program after --"
        }
        _ => "",
    }
}

/// The first word in quotes.
fn quoted(line: &str) -> &str {
    line.split('\'').nth(1).unwrap_or("")
}

/// What the parser refused: an option that strace has is one that isn't here, and all else is as the parser says it.
/// `lacks_divider`: no word divides a program's words from the options.
pub fn reason_of(alloc: Global, error: Error, lacks_divider: bool) -> Result<String, AllocError> {
    let kind = error.kind();
    if kind == ErrorKind::OutOfMemory {
        return Err(AllocError);
    }
    let line = line_of(alloc, error)?;
    let line = line.as_str();
    let option = quoted(line);
    match left_out(option) {
        Some(what) if kind == ErrorKind::UnknownArgument => {
            format!(in alloc; "{option} is strace's ({what}) and not here")
        }
        _ => {
            let hint = if lacks_divider { hint(kind) } else { "" };
            format!(in alloc; "{line}{hint}")
        }
    }
}
