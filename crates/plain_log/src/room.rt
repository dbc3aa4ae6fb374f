//! A place for a text, which is written from its end.

ghost use Rattle.std.specs.Prelude.{◌≡◌, ◌≤◌, ◌<◌, ◌+◌, ◌++◌, ◌∷◌, [], length, codes, decimal, false};
ghost use Rattle.std.specs.Fmt.{digit_glyph, digits};

use itoa::write_digits;
use std::marker::Model;

/// The most bytes that there is room for.
pub const LONGEST: usize = 256;

/// The hexadecimal digit of a number below 16.
fn glyph(digit: u64) -> u8
    requires { digit < 16 }
    ensures { result ≡ digit_glyph false digit }
{
    let digit = digit as u8;
    if digit < 10 {
        b'0' + digit
    } else {
        b'a' - 10 + digit
    }
}

/// A text, at the end of a place that is used again and again.
#[derive(Drop)]
pub struct Room {
    bytes: [u8; LONGEST],
    start: usize,
}

impl Model for Room {
    ghost use Rattle.std.specs.Prelude.{◌≤◌, drop};
    ghost use Rattle.plain_log.specs.Rooms.{Placed};

    ghost Value = { Placed };

    ghost view = { λ r. record { text = drop r.start r.bytes; room = r.start } };

    ghost invariant = { λ r. r.start ≤ 256 };
}

impl Room {
    /// No text.
    pub fn new() -> Self
        ensures text { result.text ≡ [] }
        ensures room { result.room ≡ 256 }
    {
        Room {
            bytes: [0; LONGEST],
            start: LONGEST,
        }
    }

    pub fn clear(&mut self)
        ensures text { self.new.text ≡ [] }
        ensures room { self.new.room ≡ 256 }
    {
        self.start = LONGEST;
    }

    pub fn as_bytes(&self) -> &[u8]
        ensures { result.now ≡ self.now.text }
    {
        &self.bytes[self.start..]
    }

    /// Puts a byte before the text.
    pub fn put(&mut self, byte: u8)
        requires { 1 ≤ self.old.room }
        ensures text { self.new.text ≡ byte ∷ self.old.text }
        ensures room { self.new.room + 1 ≡ self.old.room }
    {
        self.start -= 1;
        self.bytes[self.start] = byte;
    }

    /// Puts the decimal digits of a number before the text, twenty at most.
    pub fn put_decimal(&mut self, number: u64)
        requires { 20 ≤ self.old.room }
        ensures text { self.new.text ≡ decimal number ++ self.old.text }
        ensures room { self.old.room ≤ self.new.room + 20 }
    {
        self.start = write_digits(number, &mut self.bytes, self.start);
    }

    /// Puts the hexadecimal digits of a number before the text, sixteen at most.
    pub fn put_hexadecimal(&mut self, number: u64)
        requires { 16 ≤ self.old.room }
        ensures text { self.new.text ≡ digits 16 false number ++ self.old.text }
        ensures room { self.old.room ≤ self.new.room + 16 }
    {
        let mut left = number;
        for _ in 0..16u64 {
            self.put(glyph(left % 16));
            left /= 16;
            if left == 0 {
                return;
            }
        }
    }
}
