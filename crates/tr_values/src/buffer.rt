//! A few bytes of text on their way.

ghost use Rattle.std.specs.Prelude.{◌≡◌, ◌≤◌, ◌+◌, ◌++◌, [], length, take, drop, ℕ, List, false};
ghost use Rattle.std.specs.Str.{IsAscii};

use crate::spellings::Spelling;
use simdutf8::basic::from_utf8;
use std::marker::Model;

/// How many bytes a buffer holds.
const SIZE: usize = 256;

/// Text that isn't put yet.
#[derive(Drop)]
pub(crate) struct Buffer {
    bytes: [u8; SIZE],
    length: usize,
}

impl Model for Buffer {
    ghost Value = { List ℕ };

    ghost view = { λ b. take b.length b.bytes };

    ghost invariant = { λ b. (b.length ≤ 256) × IsAscii (take b.length b.bytes) };
}

/// Puts four bytes over those at a place.
fn put_at(bytes: &mut [u8; SIZE], at: usize, text: [u8; 4])
    requires { at + 4 ≤ 256 }
    ensures { bytes.new ≡ take at bytes.old ++ (text ++ drop (at + 4) bytes.old) }
{
    bytes[at..at + 4].copy_from_slice(&text);
}

impl Buffer {
    pub(crate) fn new() -> Self
        ensures { result ≡ [] }
    {
        Buffer {
            bytes: [0; SIZE],
            length: 0,
        }
    }

    /// Has no place for four spellings more.
    pub(crate) fn is_full(&self) -> bool
        ensures { result ≡ false → length self.now + 16 ≤ 256 }
    {
        self.length > SIZE - 16
    }

    pub(crate) fn as_str(&self) -> &str
        ensures { result.now ≡ self.now }
    {
        from_utf8(&self.bytes[..self.length]).unwrap()
    }

    pub(crate) fn clear(&mut self)
        ensures { self.new ≡ [] }
    {
        self.length = 0;
    }

    pub(crate) fn add(&mut self, spelling: Spelling)
        requires place { length self.old + 4 ≤ 256 }
        requires short { spelling.length ≤ 4 }
        requires ascii { IsAscii spelling.text }
        ensures { self.new ≡ self.old ++ take spelling.length spelling.text }
    {
        put_at(&mut self.bytes, self.length, spelling.text);
        self.length += spelling.length;
    }
}
