//! One part of a tampering expression.

ghost use Rattle.std.specs.Prelude.{◌≡◌, ◌≤◌, ◌<◌, ◌^◌, IfOk};
ghost use Rattle.tr_expr.specs.Parts as spec;
ghost use Rattle.tr_expr.specs.Saids.{shown};

use crate::fault::ExprFault;
use crate::number::number;
use crate::rule::InjectParts;
use lx_abi::{Errno, Signal};

/// A part, as what stands after its `=`.
#[derive(Clone, Copy, Debug)]
pub(crate) enum Part<'a> {
    Error(&'a str),
    Retval(&'a str),
    Signal(&'a str),
    When(&'a str),
    Unknown,
}

fn keyed<'a>(key: &str, value: &'a str) -> Part<'a>
    ensures { shown result ≡ spec.keyed key.now value.now }
{
    match key {
        "error" => Part::Error(value),
        "retval" => Part::Retval(value),
        "signal" => Part::Signal(value),
        "when" => Part::When(value),
        _ => Part::Unknown,
    }
}

fn taken(form: InjectParts, part: Part<'_>) -> Part<'_>
    ensures { shown result ≡ spec.taken form (shown part.entry) }
{
    match (form, part) {
        (InjectParts::Fault, Part::Retval(_) | Part::Signal(_)) => Part::Unknown,
        (_, part) => part,
    }
}

pub(crate) fn read_part(form: InjectParts, text: &str) -> Part<'_>
    ensures { shown result ≡ spec.part_of form text.now }
{
    match text.split_once('=') {
        Some((key, value)) => taken(form, keyed(key, value)),
        None => Part::Unknown,
    }
}

/// The number of an error that is named, or given by a number from 1 to 4095.
#[tactic(auto, unfolding(crate::specs::Parts::errno_value))]
pub fn errno(text: &str) -> Result<u64, ExprFault>
    ensures value { result ≡ spec.errno_value text.now }
    ensures small { IfOk result (λ n. n ≤ 4095) }
{
    match text.as_bytes().first() {
        Some(b'0'..=b'9') => number(text, 10, 1, 4095).ok_or(ExprFault::BadNumber),
        _ => match Errno::from_name(text) {
            Some(errno) => Ok(u64::from(errno.number)),
            None => Err(ExprFault::UnknownErrno),
        },
    }
}

/// 0 to 2^63 - 1, decimal or behind `0x`.
#[tactic(auto, unfolding(crate::specs::Parts::retval_value))]
pub(crate) fn retval(text: &str) -> Result<u64, ExprFault>
    ensures value { result ≡ spec.retval_value text.now }
    ensures small { IfOk result (λ n. n < 2 ^ 63) }
{
    const MOST: u64 = i64::MAX as u64;
    let value = match text.strip_prefix("0x") {
        Some(digits) => number(digits, 16, 0, MOST),
        None => number(text, 10, 0, MOST),
    };
    value.ok_or(ExprFault::BadNumber)
}

/// A name, with or without `SIG`.
fn named_signal(text: &str) -> Result<Signal, ExprFault>
    ensures { result ≡ spec.named_signal text.now }
{
    Signal::from_name(text).ok_or(ExprFault::UnknownSignal)
}

/// A number from 1 to 31, or a name.
#[tactic(auto, unfolding(crate::specs::Parts::signal_value))]
pub(crate) fn signal(text: &str) -> Result<Signal, ExprFault>
    ensures { result ≡ spec.signal_value text.now }
{
    match text.as_bytes().first() {
        Some(b'0'..=b'9') => match number(text, 10, 1, 31) {
            Some(number) => Signal::from_number(number).ok_or(ExprFault::UnknownSignal),
            None => Err(ExprFault::BadNumber),
        },
        _ => named_signal(text),
    }
}
