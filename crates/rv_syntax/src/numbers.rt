//! Numbers as they are written.

ghost use Rattle.std.specs.Prelude.{◌≡◌, ◌≤◌, ◌<◌, ◌^◌, IfSome, option_map};
ghost use Rattle.rv_syntax.specs.Numbers.{digit, digits, digits_of, magnitude_of, number_at, is_within, low_bits, narrow, narrow_unsigned};

use crate::text::{mark, word};

/// A number. Those from 2^64 on are kept as 2^64, for which no operand has room.
#[derive(Clone, Copy, Debug)]
pub struct Number {
    pub negative: bool,
    pub magnitude: u128,
}

/// 2^64.
const MOST: u128 = 1 << 64;

impl Number {
    /// Whether the number is from -limit to limit - 1.
    pub fn is_within(&self, limit: u128) -> bool
        ensures { result ≡ is_within limit self.now }
    {
        self.magnitude < limit || (self.negative && self.magnitude == limit)
    }

    /// The number in two's complement.
    pub fn low_bits(&self) -> u64
        ensures { result ≡ low_bits self.now }
    {
        let bits = if self.negative {
            MOST.saturating_sub(self.magnitude)
        } else {
            self.magnitude
        };
        (bits % MOST) as u64
    }

    /// The number for a field with a sign. None has room for the largest of 32 bits.
    pub fn narrow(&self) -> i32
        ensures { result ≡ narrow self.now }
    {
        let size = self.magnitude.min(0x7fff_ffff) as i32;
        if self.negative { -size } else { size }
    }

    /// The number for a field without a sign. None has room for the largest of 32 bits.
    pub fn narrow_unsigned(&self) -> u32
        ensures { result ≡ narrow_unsigned self.now }
    {
        if self.negative && self.magnitude > 0 {
            return 0xffff_ffff;
        }
        self.magnitude.min(0xffff_ffff) as u32
    }
}

/// The value of a digit, or 16.
pub fn digit_value(byte: u8) -> u8
    ensures value { result ≡ digit byte }
    ensures small { result ≤ 16 }
{
    match byte {
        b'0'..=b'9' => byte - b'0',
        b'a'..=b'f' => byte - 87,
        b'A'..=b'F' => byte - 55,
        _ => 16,
    }
}

fn digits_value(base: u128, text: &[u8]) -> Option<u128>
    requires { base ≤ 16 }
    ensures value { result ≡ digits base 0 text.now }
    ensures small { IfSome result (λ n. n ≤ 2 ^ 64) }
{
    let mut number = 0;
    for byte in text {
        let value = u128::from(digit_value(*byte));
        if value >= base {
            return None;
        }
        number = (base * number + value).min(MOST);
    }
    Some(number)
}

fn some_digits(base: u128, text: &[u8]) -> Option<u128>
    requires { base ≤ 16 }
    ensures value { result ≡ digits_of base text.now }
    ensures small { IfSome result (λ n. n ≤ 2 ^ 64) }
{
    if text.is_empty() {
        None
    } else {
        digits_value(base, text)
    }
}

#[tactic(auto, unfolding(crate::specs::Numbers::magnitude_of))]
fn magnitude(text: &[u8]) -> Option<u128>
    ensures value { result ≡ magnitude_of text.now }
    ensures small { IfSome result (λ n. n ≤ 2 ^ 64) }
{
    match text {
        [b'0', b'x', rest @ ..] => some_digits(16, rest),
        _ => some_digits(10, text),
    }
}

/// The number that a text begins with, and what follows it.
#[tactic(auto, unfolding(crate::specs::Numbers::number_at))]
pub fn take_number(text: &[u8]) -> Option<(Number, &[u8])>
    ensures { option_map (λ x. (x.0, x.1.now)) result ≡ number_at text.now }
{
    let (negative, start) = match mark(text, b'-') {
        Some(rest) => (true, rest),
        None => (false, text),
    };
    let (digits, rest) = word(start);
    let magnitude = magnitude(digits)?;
    Some((
        Number {
            negative,
            magnitude,
        },
        rest,
    ))
}
