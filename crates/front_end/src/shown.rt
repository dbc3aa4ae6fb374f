//! Words of the command line as messages show them.

use std::fmt;
use std::fmt::{Display, Formatter};

/// The most bytes of a word that are shown.
const LONGEST: usize = 200;

/// A word in one line: its control characters are escaped, what is longer than 200 bytes is cut and ends in `...`, and
/// an empty word is `''`.
#[derive(Clone, Copy)]
pub struct Shown<'a>(pub &'a str);

/// Writes a text escaped; one that takes more than the most bytes is cut and ends in `...`.
fn write_escaped<W: fmt::Write>(f: &mut Formatter<W>, text: &str) -> fmt::Result {
    let mut left = LONGEST;
    for c in text.chars() {
        let length = if c.is_control() {
            c.escape_default().count()
        } else {
            c.len_utf8()
        };
        match left.checked_sub(length) {
            None => return f.write_str("..."),
            Some(less) => left = less,
        }
        if c.is_control() {
            write!(f, "{}", c.escape_default())?;
        } else {
            f.write_char(c)?;
        }
    }
    Ok(())
}

impl Display for Shown<'_> {
    fn fmt<W: fmt::Write>(&self, f: &mut Formatter<W>) -> fmt::Result {
        if self.0.is_empty() {
            f.write_str("''")
        } else {
            write_escaped(f, self.0)
        }
    }
}

/// A word as the parser of command lines is to show it: as [`Shown`], but an empty one stays empty, since the parser
/// puts it in quotes itself.
#[derive(Clone, Copy)]
pub struct Escaped<'a>(pub &'a str);

impl Display for Escaped<'_> {
    fn fmt<W: fmt::Write>(&self, f: &mut Formatter<W>) -> fmt::Result {
        write_escaped(f, self.0)
    }
}
