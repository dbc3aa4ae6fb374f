//! Strings in double quotes.

ghost use Rattle.std.specs.Prelude.{◌≡◌, IfOk, option_map};
ghost use Rattle.rv_syntax.specs.Strings.{escape, step_of, string_from, string_at};
ghost use Rattle.rv_syntax.specs.declared.strings.StringReader.TheVariants.{Plain};

use crate::numbers::digit_value;
use crate::text::mark;
use std::alloc::{AllocError, Global};

/// Where the reader of a string stands.
#[derive(Clone, Copy, Debug)]
pub enum StringReader {
    Plain,
    /// Behind a backslash.
    Escaped,
    /// Before the first digit of a byte.
    High,
    /// Behind the first digit, which counts this much.
    Low(u8),
}

/// What the next byte does.
#[derive(Clone, Copy, Debug)]
pub enum Step {
    Close,
    Refuse,
    Go(StringReader),
    Put(u8),
}

fn escape(byte: u8) -> Option<u8>
    ensures { result ≡ escape byte }
{
    match byte {
        b'n' => Some(b'\n'),
        b't' => Some(b'\t'),
        b'r' => Some(b'\r'),
        b'0' => Some(0),
        b'\\' => Some(b'\\'),
        b'"' => Some(b'"'),
        _ => None,
    }
}

fn advance(reading: StringReader, byte: u8) -> Step
    ensures { result ≡ step_of reading byte }
{
    let digit = digit_value(byte);
    match reading {
        StringReader::Plain if byte == b'"' => Step::Close,
        StringReader::Plain if byte == b'\\' => Step::Go(StringReader::Escaped),
        StringReader::Plain => Step::Put(byte),
        StringReader::Escaped if byte == b'x' => Step::Go(StringReader::High),
        StringReader::Escaped => match escape(byte) {
            Some(value) => Step::Put(value),
            None => Step::Refuse,
        },
        StringReader::High if digit < 16 => Step::Go(StringReader::Low(16 * digit)),
        StringReader::Low(high) if digit < 16 => Step::Put(high | digit),
        StringReader::High | StringReader::Low(_) => Step::Refuse,
    }
}

/// The content of a string behind its opening quote, and what follows the closing one.
fn read_string(alloc: Global, text: &[u8]) -> Result<Option<(Vec<u8>, &[u8])>, AllocError>
    ensures { IfOk result (λ r. option_map (λ x. (x.0.items, x.1.now)) r ≡ string_from Plain text.now) }
{
    let mut bytes = Vec::new(alloc);
    let mut reading = StringReader::Plain;
    for (i, byte) in text.iter().enumerate() {
        match advance(reading, *byte) {
            Step::Close => return Ok(Some((bytes, &text[i + 1..]))),
            Step::Refuse => return Ok(None),
            Step::Go(next) => reading = next,
            Step::Put(value) => {
                bytes.push(value)?;
                reading = StringReader::Plain;
            }
        }
    }
    Ok(None)
}

/// The string that a text begins with, and what follows it.
#[tactic(auto, unfolding(crate::specs::Strings::string_at))]
pub fn take_string(alloc: Global, text: &[u8]) -> Result<Option<(Vec<u8>, &[u8])>, AllocError>
    ensures { IfOk result (λ r. option_map (λ x. (x.0.items, x.1.now)) r ≡ string_at text.now) }
{
    match mark(text, b'"') {
        Some(rest) => read_string(alloc, rest),
        None => Ok(None),
    }
}
