//! Files and input, of which no more is read than is of use.

ghost use Rattle.std.specs.Prelude.{◌≡◌, ◌≤◌, IfErr, IfOk, IfSome, Ok, codes, length, string_bytes, take};
ghost use Rattle.front_end.specs.Reading.{IsAll, IsFirst, IsFirstOfFile, IsTextOfFile, past};
ghost use Rattle.front_end.specs.Texts.{IsAbout};

use crate::fault::Fault;
use crate::shown::Shown;
use std::alloc::Global;
use std::fmt::Display;
use std::fs;
use std::io::{self, Read};
use std::rt::Files;

/// The most bytes of input.
pub const MOST_INPUT: u64 = 134_217_728;

/// Reads to the end, but at most one byte more than the limit.
fn read_past<R: Read>(alloc: Global, reader: &mut R, limit: u64) -> io::Result<Vec<u8>>
    ensures { IfOk result (λ bytes. IsFirst (R.remaining reader.old) (past limit) bytes.items) }
{
    let mut bytes = Vec::new(alloc);
    let _ = reader
        .take(limit.saturating_add(1))
        .read_to_end(&mut bytes)?;
    Ok(bytes)
}

/// What a file holds, but at most one byte more than the limit.
pub fn read_file<R: Files + AllocGlobal>(rt: &R, path: &str, limit: u64) -> io::Result<Vec<u8>>
    ensures { IfOk result (λ bytes. IsFirstOfFile R.File.remaining (past limit) bytes.items) }
{
    let mut file = fs::open(rt, path)?;
    read_past(rt.alloc(), &mut file, limit)
}

/// The bytes, if there are no more than the limit. What they are of is named by `start` and `what` in faults.
fn within<D: Display + Drop>(
    alloc: Global,
    start: &str,
    what: D,
    bytes: io::Result<Vec<u8>>,
    limit: u64,
) -> Result<Vec<u8>, Fault>
    ensures kept { IfOk result (λ kept. (bytes ≡ Ok kept) × (length kept.items ≤ limit)) }
    ensures refused { IfErr result (IsAbout start.now) }
{
    match bytes {
        Ok(bytes) if bytes.len() as u64 > limit => Err(Fault::about(
            alloc,
            start,
            format!(in alloc; "{what}: more than {limit} bytes"),
        )),
        Ok(bytes) => Ok(bytes),
        Err(error) => Err(Fault::file_of(alloc, start, what, error)),
    }
}

/// Input to its end, if it has no more bytes than the limit.
pub fn read_input<I: Read>(alloc: Global, input: &mut I, limit: u64) -> Result<Vec<u8>, Fault>
    ensures all { IfOk result (λ bytes. IsAll (I.remaining input.old) limit bytes.items) }
    ensures refused { IfErr result (IsAbout (codes "standard input")) }
{
    let bytes = read_past(alloc, input, limit);
    within(alloc, "standard input", "", bytes, limit)
}

/// The text of a file with no more bytes than the limit; `option` is written in front of its name in faults.
pub fn read_text<R: Files + AllocGlobal>(
    rt: &R,
    option: &str,
    path: &str,
    limit: u64,
) -> Result<String, Fault>
    ensures text { IfOk result (λ text. IsTextOfFile R.File.remaining limit (string_bytes text)) }
    ensures refused { IfErr result (IsAbout option.now) }
{
    let alloc = rt.alloc();
    let shown = Shown(path);
    let bytes = within(alloc, option, shown, read_file(rt, path, limit), limit)?;
    match String::from_utf8(bytes) {
        Ok(text) => Ok(text),
        Err(_) => Err(Fault::about(alloc, option, format!(in alloc; "{shown}: not UTF-8"))),
    }
}
