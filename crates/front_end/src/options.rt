//! Values of options.

ghost use Rattle.std.specs.Prelude.{◌≡◌, IfErr, IfOk, None, Some, codes, option_map, true};
ghost use Rattle.clap.specs.Words.{first_value, found_of};
ghost use Rattle.front_end.specs.Numbers as spec;
ghost use Rattle.front_end.specs.Statuses.{is_usage_or_memory};
ghost use Rattle.front_end.specs.Texts.{IsAbout};

use crate::fault::Fault;
use crate::shown::Shown;
use clap::ArgMatches;
use std::alloc::Global;

/// Turns or events that a run has at most, where no limit is given.
const LIMIT: u64 = 10_000_000;

/// The number that decimal digits alone spell, if it is at most so much.
pub fn decimal(digits: &str, most: u64) -> Option<u64>
    ensures { result ≡ spec.decimal most digits.now }
{
    if digits.starts_with('+') {
        return None;
    }
    match u64::from_str_radix(digits, 10) {
        Ok(number) => (number <= most).then_some(number),
        Err(_) => None,
    }
}

/// The same, if it is at least 1.
pub fn positive(digits: &str, most: u64) -> Option<u64>
    ensures { result ≡ spec.positive most digits.now }
{
    match decimal(digits, most) {
        Some(number) if number >= 1 => Some(number),
        _ => None,
    }
}

/// The number that an option's value spells in decimal digits, or the default where it isn't given.
pub fn given_or(digits: Option<&str>, most: u64, default: u64) -> Option<u64>
    ensures { result ≡ spec.given_or most default (option_map (λ text. text.now) digits.entry) }
{
    match digits {
        Some(digits) => decimal(digits, most),
        None => Some(default),
    }
}

/// The most turns or events, by the value of `--limit`.
pub fn limit_of(value: Option<&str>) -> Option<u64>
    ensures { result ≡ spec.limit_of (option_map (λ text. text.now) value.entry) }
{
    given_or(value, u64::MAX, LIMIT)
}

/// An option's value that is no number in its range; `option` is its name as it is written.
pub fn malformed(alloc: Global, option: &str, value: Option<&str>, least: u64, most: u64) -> Fault
    ensures kind { is_usage_or_memory result ≡ true }
    ensures begins { IsAbout option.now result }
{
    let value = Shown(value.unwrap_or(""));
    let text = format!(in alloc; " {value}: not a number from {least} to {most}");
    Fault::about(alloc, option, text)
}

/// The number that an option gives in decimal digits, or the default; `option` is its name as it is written.
pub fn number(
    alloc: Global,
    option: &str,
    digits: Option<&str>,
    most: u64,
    default: u64,
) -> Result<u64, Fault>
    ensures value { IfOk result
        (λ value. spec.given_or most default (option_map (λ text. text.now) digits.entry) ≡ Some value) }
    ensures fault { IfErr result (λ fault. (is_usage_or_memory fault ≡ true) × (IsAbout option.now fault
        × (spec.given_or most default (option_map (λ text. text.now) digits.entry) ≡ None))) }
{
    match given_or(digits, most, default) {
        Some(number) => Ok(number),
        None => Err(malformed(alloc, option, digits, 0, most)),
    }
}

/// The limit on turns or events.
pub fn limit(alloc: Global, matches: &ArgMatches) -> Result<u64, Fault>
    ensures limit { IfOk result
        (λ limit. spec.limit_of (first_value (found_of matches.now) (codes "limit")) ≡ Some limit) }
    ensures fault { IfErr result (λ fault. (is_usage_or_memory fault ≡ true) × (IsAbout (codes "--limit") fault
        × (spec.limit_of (first_value (found_of matches.now) (codes "limit")) ≡ None))) }
{
    number(alloc, "--limit", matches.get_str("limit"), u64::MAX, LIMIT)
}
