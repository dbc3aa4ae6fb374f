//! Bytes between quotes.

ghost use Rattle.std.specs.Prelude.{◌≡◌, ◌++◌, ◌+◌, ◌≤◌, OnOk, codes, length, string_bytes, take};
ghost use Rattle.tr_values.specs.Escapes as spec;
ghost use Rattle.tr_values.specs.Sheets.{Leaves};

use crate::buffer::Buffer;
use crate::sheet::{Needed, Sheet};
use crate::spellings::{quote, spell};
use std::alloc::AllocError;

/// What stands behind a byte: the next one, or the quote.
fn next_of(more: &[u8]) -> u8
    ensures { spec.is_digit result ≡ spec.begins_with_digit more.now }
{
    match more {
        [] => b'"',
        [byte, ..] => *byte,
    }
}

/// Makes place for four spellings more.
fn make_place(text: &mut String, buffer: &mut Buffer) -> Result<(), AllocError>
    ensures kept { OnOk result (string_bytes text.new ++ buffer.new ≡ string_bytes text.old ++ buffer.old) }
    ensures place { OnOk result (length buffer.new + 16 ≤ 256) }
{
    if buffer.is_full() {
        text.push_str(buffer.as_str())?;
        buffer.clear();
    }
    Ok(())
}

/// Four bytes in front of others. What waits is put first where it leaves no place.
fn push_four(
    text: &mut String,
    buffer: &mut Buffer,
    first: u8,
    second: u8,
    third: u8,
    fourth: u8,
    more: &[u8],
) -> Result<(), AllocError>
    ensures { OnOk result
        (string_bytes text.new ++ buffer.new ≡ (string_bytes text.old ++ buffer.old)
        ++ (spec.escape first (spec.is_digit second) ++ (spec.escape second (spec.is_digit third)
        ++ (spec.escape third (spec.is_digit fourth) ++ spec.escape fourth (spec.begins_with_digit more.now))))) }
{
    make_place(text, buffer)?;
    buffer.add(spell(first, second));
    buffer.add(spell(second, third));
    buffer.add(spell(third, fourth));
    buffer.add(spell(fourth, next_of(more)));
    Ok(())
}

/// One byte in front of others.
fn push_one(text: &mut String, buffer: &mut Buffer, byte: u8, more: &[u8]) -> Result<(), AllocError>
    ensures { OnOk result
        (string_bytes text.new ++ buffer.new
        ≡ (string_bytes text.old ++ buffer.old) ++ spec.escape byte (spec.begins_with_digit more.now)) }
{
    make_place(text, buffer)?;
    buffer.add(spell(byte, next_of(more)));
    Ok(())
}

#[tactic(auto, unfolding(crate::specs::Escapes::escaped))]
fn push_each(text: &mut String, buffer: &mut Buffer, bytes: &[u8]) -> Result<(), AllocError>
    ensures { OnOk result
        (string_bytes text.new ++ buffer.new ≡ (string_bytes text.old ++ buffer.old) ++ spec.escaped bytes.now) }
{
    let mut left = bytes;
    while let [byte, more @ ..] = left {
        push_one(text, buffer, *byte, more)?;
        left = more;
    }
    Ok(())
}

#[tactic(auto, unfolding(crate::specs::Escapes::escaped))]
fn push_escaped(text: &mut String, buffer: &mut Buffer, bytes: &[u8]) -> Result<(), AllocError>
    ensures { OnOk result
        (string_bytes text.new ++ buffer.new ≡ (string_bytes text.old ++ buffer.old) ++ spec.escaped bytes.now) }
{
    let mut left = bytes;
    while let [first, second, third, fourth, more @ ..] = left {
        push_four(text, buffer, *first, *second, *third, *fourth, more)?;
        left = more;
    }
    push_each(text, buffer, left)
}

fn push_quote(text: &mut String, buffer: &mut Buffer) -> Result<(), AllocError>
    ensures { OnOk result
        (string_bytes text.new ++ buffer.new ≡ (string_bytes text.old ++ buffer.old) ++ codes "\"") }
{
    make_place(text, buffer)?;
    buffer.add(quote());
    Ok(())
}

/// The bytes with their quotes.
pub(crate) fn push_quoted(text: &mut String, bytes: &[u8]) -> Result<(), AllocError>
    ensures { OnOk result
        (string_bytes text.new ≡ string_bytes text.old ++ (codes "\"" ++ (spec.escaped bytes.now ++ codes "\""))) }
{
    let mut buffer = Buffer::new();
    push_quote(text, &mut buffer)?;
    push_escaped(text, &mut buffer, bytes)?;
    push_quote(text, &mut buffer)?;
    text.push_str(buffer.as_str())
}

#[tactic(auto, unfolding(crate::specs::Escapes::quoted))]
pub fn quoted(sheet: &mut Sheet<'_>, bytes: &[u8]) -> Result<(), Needed>
    ensures { Leaves result sheet.new (spec.quoted bytes.now sheet.old) }
{
    sheet.quoted(bytes)
}

/// Bytes of which there are more.
pub fn cut(sheet: &mut Sheet<'_>, bytes: &[u8]) -> Result<(), Needed>
    ensures { Leaves result sheet.new (spec.cut bytes.now sheet.old) }
{
    quoted(sheet, bytes)?;
    sheet.put("...")
}

/// How many bytes stand before the first NUL.
pub fn nul_at(bytes: &[u8]) -> usize
    ensures place { result ≡ spec.nul_at bytes.now }
    ensures within { result ≤ length bytes.now }
{
    bytes.iter().position(|b| *b == 0).unwrap_or(bytes.len())
}

pub fn first(bytes: &[u8], count: usize) -> &[u8]
    requires { count ≤ length bytes.now }
    ensures { result.now ≡ take count bytes.now }
{
    &bytes[..count]
}
