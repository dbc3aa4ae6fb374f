//! Operands, separated by commas.

ghost use Rattle.std.specs.Prelude.{◌≡◌, option_map};
ghost use Rattle.rv_syntax.specs.Operands.{register_at, name_at, offset_at, three_registers, two_registers, two_and_number, register_and_number, memory_operands, two_and_label, register_and_label, lone_label, lone_number};

use crate::names::register;
use crate::numbers::{Number, take_number};
use crate::text::{done, mark, word};
use rv_isa::Register;

#[tactic(auto, unfolding(crate::specs::Operands::register_at))]
fn take_register(text: &[u8]) -> Option<(Register, &[u8])>
    ensures { option_map (λ x. (x.0, x.1.now)) result ≡ register_at text.now }
{
    let (name, rest) = word(text);
    Some((register(name)?, rest))
}

/// The name of a label that a text begins with, and what follows it.
#[tactic(auto, unfolding(crate::specs::Operands::name_at))]
pub fn take_name(text: &[u8]) -> Option<(&[u8], &[u8])>
    ensures { option_map (λ x. (x.0.now, x.1.now)) result ≡ name_at text.now }
{
    let (name, rest) = word(text);
    match name {
        [] | [b'0'..=b'9', ..] => None,
        _ => Some((name, rest)),
    }
}

/// The offset before a base, 0 where it is left out.
#[tactic(auto, unfolding(crate::specs::Operands::offset_at))]
fn take_offset(text: &[u8]) -> Option<(Number, &[u8])>
    ensures { option_map (λ x. (x.0, x.1.now)) result ≡ offset_at text.now }
{
    match mark(text, b'(') {
        Some(_) => Some((
            Number {
                negative: false,
                magnitude: 0,
            },
            text,
        )),
        None => take_number(text),
    }
}

#[tactic(auto, unfolding(crate::specs::Operands::three_registers))]
pub fn three_registers(text: &[u8]) -> Option<(Register, Register, Register)>
    ensures { result ≡ three_registers text.now }
{
    let (a, rest) = take_register(text)?;
    let (b, rest) = take_register(mark(rest, b',')?)?;
    let (c, rest) = take_register(mark(rest, b',')?)?;
    if !done(rest) {
        return None;
    }
    Some((a, b, c))
}

#[tactic(auto, unfolding(crate::specs::Operands::two_registers))]
pub fn two_registers(text: &[u8]) -> Option<(Register, Register)>
    ensures { result ≡ two_registers text.now }
{
    let (a, rest) = take_register(text)?;
    let (b, rest) = take_register(mark(rest, b',')?)?;
    if !done(rest) {
        return None;
    }
    Some((a, b))
}

#[tactic(auto, unfolding(crate::specs::Operands::two_and_number))]
pub fn two_and_number(text: &[u8]) -> Option<(Register, Register, Number)>
    ensures { result ≡ two_and_number text.now }
{
    let (a, rest) = take_register(text)?;
    let (b, rest) = take_register(mark(rest, b',')?)?;
    let (c, rest) = take_number(mark(rest, b',')?)?;
    if !done(rest) {
        return None;
    }
    Some((a, b, c))
}

#[tactic(auto, unfolding(crate::specs::Operands::register_and_number))]
pub fn register_and_number(text: &[u8]) -> Option<(Register, Number)>
    ensures { result ≡ register_and_number text.now }
{
    let (a, rest) = take_register(text)?;
    let (b, rest) = take_number(mark(rest, b',')?)?;
    if !done(rest) {
        return None;
    }
    Some((a, b))
}

/// A register, an offset and a base, as in `a0, 8(sp)`.
#[tactic(auto, unfolding(crate::specs::Operands::memory_operands))]
pub fn memory_operands(text: &[u8]) -> Option<(Register, Number, Register)>
    ensures { result ≡ memory_operands text.now }
{
    let (a, rest) = take_register(text)?;
    let (b, rest) = take_offset(mark(rest, b',')?)?;
    let (c, rest) = take_register(mark(rest, b'(')?)?;
    if !done(mark(rest, b')')?) {
        return None;
    }
    Some((a, b, c))
}

#[tactic(auto, unfolding(crate::specs::Operands::two_and_label))]
pub fn two_and_label(text: &[u8]) -> Option<(Register, Register, &[u8])>
    ensures { option_map (λ x. (x.0, x.1, x.2.now)) result ≡ two_and_label text.now }
{
    let (a, rest) = take_register(text)?;
    let (b, rest) = take_register(mark(rest, b',')?)?;
    let (c, rest) = take_name(mark(rest, b',')?)?;
    if !done(rest) {
        return None;
    }
    Some((a, b, c))
}

#[tactic(auto, unfolding(crate::specs::Operands::register_and_label))]
pub fn register_and_label(text: &[u8]) -> Option<(Register, &[u8])>
    ensures { option_map (λ x. (x.0, x.1.now)) result ≡ register_and_label text.now }
{
    let (a, rest) = take_register(text)?;
    let (b, rest) = take_name(mark(rest, b',')?)?;
    if !done(rest) {
        return None;
    }
    Some((a, b))
}

#[tactic(auto, unfolding(crate::specs::Operands::lone_label))]
pub fn lone_label(text: &[u8]) -> Option<&[u8]>
    ensures { option_map (λ x. x.now) result ≡ lone_label text.now }
{
    let (a, rest) = take_name(text)?;
    if !done(rest) {
        return None;
    }
    Some(a)
}

#[tactic(auto, unfolding(crate::specs::Operands::lone_number))]
pub fn lone_number(text: &[u8]) -> Option<Number>
    ensures { result ≡ lone_number text.now }
{
    let (a, rest) = take_number(text)?;
    if !done(rest) {
        return None;
    }
    Some(a)
}
