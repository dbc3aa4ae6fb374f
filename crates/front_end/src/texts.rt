//! Texts made of others.

ghost use Rattle.std.specs.Prelude.{◌≡◌, ◌++◌, IfOk, List, codes, decimal, string_bytes, ℕ};

use std::alloc::{AllocError, Global};
use std::fmt::Display;

/// Two texts in a row.
pub fn joined(alloc: Global, start: &str, rest: &str) -> Result<String, AllocError>
    ensures { IfOk result (λ text. string_bytes text ≡ start.now ++ rest.now) }
{
    let mut text = String::from_str(alloc, start)?;
    text.push_str(rest)?;
    Ok(text)
}

/// What stands before the fault of a line, of a file that is shown so.
fn numbered(alloc: Global, start: &str, file: &str, line: usize) -> Result<String, AllocError>
    ensures { IfOk result (λ text.
        string_bytes text ≡ start.now ++ (file.now ++ (codes ": line " ++ (decimal line ++ codes ": ")))) }
{
    format!(in alloc; "{start}{file}: line {line}: ")
}

/// The same, of a file.
pub fn line_place<D: Display + Drop>(
    alloc: Global,
    start: &str,
    file: D,
    line: usize,
) -> Result<String, AllocError>
    ensures { IfOk result (λ text. (file : List ℕ)
        × (string_bytes text ≡ start.now ++ (file ++ (codes ": line " ++ (decimal line ++ codes ": "))))) }
{
    let shown = format!(in alloc; "{file}")?;
    numbered(alloc, start, shown.as_str(), line)
}
