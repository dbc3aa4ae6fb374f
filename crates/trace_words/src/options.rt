//! How words ask a run to be traced.

ghost use Rattle.std.specs.Prelude.{◌≡◌, ◌≤◌, IfOk, IfSome, map, option_map};
ghost use Rattle.std.specs.Option.{ok_or};
ghost use Rattle.front_end.specs.Numbers as numbers;
ghost use Rattle.trace_words.specs.Options as spec;
ghost use Rattle.trace_words.specs.declared.option_fault.OptionFault.TheVariants as the;

use crate::asked::{TraceOptions, Workers};
use crate::option_fault::OptionFault;
use clap::ArgMatches;
use front_end::{given_or, limit_of, positive};

/// The most bytes of a string that may be shown.
pub const MOST_STRING: u32 = 4096;

/// The highest column of results.
pub const MOST_COLUMN: u32 = 200;

/// The most threads.
pub const MOST_WORKERS: u32 = 8;

/// The most events of a run on threads.
pub const MOST_EVENTS: u64 = 1 << 39;

/// The most seconds that a host is waited for: a day.
pub const MOST_SECONDS: u32 = 86_400;

/// The name is one of a file, and not of a command.
fn check_output(name: Option<&str>) -> Result<(), OptionFault>
    ensures { result ≡ spec.output_of (option_map (λ name. name.now) name.entry) }
{
    let Some(name) = name else {
        return Ok(());
    };
    match name.as_bytes() {
        [b'|' | b'!', ..] => Err(OptionFault::Command),
        _ => Ok(()),
    }
}

/// Words for a host, and a time for it, stand only beside a host.
fn check_host(host: Option<&str>, words: &[&str], timeout: Option<&str>) -> Result<(), OptionFault>
    ensures { result ≡ spec.host_of (option_map (λ host. host.now) host.entry)
        (map (λ word. word.now) words.now) (option_map (λ timeout. timeout.now) timeout.entry) }
{
    match (host, words, timeout) {
        (Some(_), _, _) | (None, [], None) => Ok(()),
        (None, [], Some(_)) => Err(OptionFault::HostTime),
        (None, [_, ..], _) => Err(OptionFault::HostWords),
    }
}

/// A number that is at most so much.
fn narrowed(value: u64, most: u32) -> u32
    ensures { value ≤ most → result ≡ value }
{
    u32::try_from(value).unwrap_or(most)
}

/// The number that an option gives, if it is at most so much.
fn small_number(
    digits: Option<&str>,
    most: u32,
    default: u32,
    fault: OptionFault,
) -> Result<u32, OptionFault>
    requires { default ≤ most }
    ensures value { result ≡ ok_or (numbers.given_or most default (option_map (λ text. text.now) digits.entry)) fault }
    ensures most { IfOk result (λ value. value ≤ most) }
{
    match given_or(digits, u64::from(most), u64::from(default)) {
        Some(value) => Ok(narrowed(value, most)),
        None => Err(fault),
    }
}

/// `--limit`.
fn event_limit(digits: Option<&str>) -> Result<u64, OptionFault>
    ensures { result ≡ ok_or (numbers.limit_of (option_map (λ text. text.now) digits.entry)) the.Limit }
{
    match limit_of(digits) {
        Some(limit) => Ok(limit),
        None => Err(OptionFault::Limit),
    }
}

/// `-f`, once.
fn follow(count: u8) -> Result<bool, OptionFault>
    ensures { result ≡ spec.follow_of count }
{
    match count {
        0 => Ok(false),
        1 => Ok(true),
        _ => Err(OptionFault::FollowTwice),
    }
}

/// The number of threads.
fn count_in(digits: &str) -> Option<u8>
    ensures value { result ≡ numbers.positive 8 digits.now }
    ensures range { IfSome result (λ count. (1 ≤ count) × (count ≤ 8)) }
{
    match positive(digits, u64::from(MOST_WORKERS)) {
        Some(count) => u8::try_from(count).ok(),
        None => None,
    }
}

/// So many threads, and their most events.
fn counted(count: Option<u8>, limit: u64) -> Result<Option<Workers>, OptionFault>
    requires { IfSome count (λ count. (1 ≤ count) × (count ≤ 8)) }
    ensures { spec.threads result ≡ spec.counted count limit }
{
    match count {
        Some(count) if 1 <= limit && limit <= MOST_EVENTS => Ok(Some(Workers { count, limit })),
        Some(_) => Err(OptionFault::WorkersLimit),
        None => Err(OptionFault::Workers),
    }
}

/// The threads that make the turns: in this process, by no schedule of words.
fn read_workers(
    digits: Option<&str>,
    host: Option<&str>,
    turns: Option<&str>,
    limit: u64,
) -> Result<Option<Workers>, OptionFault>
    ensures { spec.threads result ≡ spec.workers_of (option_map (λ digits. digits.now) digits.entry)
        (option_map (λ host. host.now) host.entry) (option_map (λ turns. turns.now) turns.entry) limit }
{
    match (digits, host, turns) {
        (None, _, _) => Ok(None),
        (Some(_), Some(_), _) => Err(OptionFault::WorkersAndHost),
        (Some(_), None, Some(_)) => Err(OptionFault::WorkersAndTurns),
        (Some(digits), None, None) => counted(count_in(digits), limit),
    }
}

/// For how many milliseconds a host is waited for.
fn patience(digits: Option<&str>) -> Result<Option<u32>, OptionFault>
    ensures { result ≡ spec.patience_of (option_map (λ digits. digits.now) digits.entry) }
{
    let Some(digits) = digits else {
        return Ok(None);
    };
    match positive(digits, u64::from(MOST_SECONDS)) {
        Some(seconds) => Ok(Some(narrowed(seconds, MOST_SECONDS).saturating_mul(1000))),
        None => Err(OptionFault::Patience),
    }
}

/// How the words ask the run to be traced, with faults explained or not.
#[tactic(auto, unfolding(crate::specs::Options::options_of))]
pub fn trace_options(matches: &ArgMatches, explained: bool) -> Result<TraceOptions, OptionFault>
    ensures { spec.asked result ≡ spec.options_of matches.now }
{
    let host = matches.get_str("host");
    let timeout = matches.get_str("host-timeout");
    check_output(matches.get_str("output"))?;
    check_host(host, matches.get_strs("host-arg").unwrap_or(&[]), timeout)?;
    let string_limit = small_number(
        matches.get_str("string-limit"),
        MOST_STRING,
        32,
        OptionFault::StringLimit,
    )?;
    let limit = event_limit(matches.get_str("limit"))?;
    Ok(TraceOptions {
        follow: follow(matches.get_count("follow"))?,
        string_limit,
        column: small_number(
            matches.get_str("columns"),
            MOST_COLUMN,
            40,
            OptionFault::Column,
        )?,
        limit,
        workers: read_workers(
            matches.get_str("workers"),
            host,
            matches.get_str("turns"),
            limit,
        )?,
        patience: patience(timeout)?,
        explain: explained,
    })
}
