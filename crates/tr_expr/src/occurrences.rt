//! Which occurrences a `when=` names.

ghost use Rattle.std.specs.Prelude.{◌≡◌, ◌<◌, IfSome, option_map};
ghost use Rattle.tr_expr.specs.Whens as spec;
ghost use Rattle.tr_expr.specs.Whens.{view};

use crate::number::number;
use crate::text::after;
use lx_abi::When;

/// Every occurrence.
pub(crate) fn every() -> When
    ensures { view result ≡ spec.every }
{
    onward(1)
}

/// The first, and every one after it.
fn onward(first: u64) -> When
    ensures { view result ≡ spec.onward first }
{
    When {
        first,
        last: None,
        step: 1,
    }
}

/// A range, unless it is empty.
fn between(first: u64, last: u64) -> Option<When>
    ensures { option_map view result ≡ spec.between first last }
{
    if first <= last {
        Some(When {
            first,
            last: Some(last),
            step: 1,
        })
    } else {
        None
    }
}

/// A first or a step.
fn count(text: &str) -> Option<u64>
    ensures value { result ≡ spec.count text.now }
    ensures moves { IfSome result (λ n. 0 < n) }
{
    number(text, 10, 1, 65_535)
}

fn step(text: &str) -> Option<u64>
    ensures value { result ≡ spec.step text.now }
    ensures moves { IfSome result (λ n. 0 < n) }
{
    if text.is_empty() {
        Some(1)
    } else {
        count(text)
    }
}

/// The last of a range, from its second point on.
#[tactic(auto, unfolding(crate::specs::Whens::last_of))]
fn read_last(text: &str) -> Option<u64>
    ensures { result ≡ spec.last_of text.now }
{
    number(after(text, '.')?, 10, 1, 65_534)
}

/// A range that is cut at its first point.
#[tactic(auto, unfolding(crate::specs::Whens::range))]
fn read_range(front: &str, rest: &str) -> Option<When>
    ensures { option_map view result ≡ spec.range front.now rest.now }
{
    let first = count(front)?;
    let last = read_last(rest)?;
    between(first, last)
}

/// Reads a first, or `first..last`.
#[tactic(auto, unfolding(crate::specs::Whens::span))]
fn read_span(text: &str) -> Option<When>
    ensures { option_map view result ≡ spec.span text.now }
{
    match text.split_once('.') {
        Some((front, rest)) => read_range(front, rest),
        None => Some(onward(count(text)?)),
    }
}

/// What a span names that no `+` follows: a first means itself alone.
fn alone(span: When) -> When
    ensures { view result ≡ spec.alone (view span) }
{
    When {
        first: span.first,
        last: span.last.or(Some(span.first)),
        step: span.step,
    }
}

/// Reads a span, `span+` or `span+step`.
#[tactic(auto, unfolding(crate::specs::Whens::when_value))]
pub(crate) fn read_when(text: &str) -> Option<When>
    ensures { option_map view result ≡ spec.when_value text.now }
{
    match text.split_once('+') {
        Some((span, by)) => {
            let span = read_span(span)?;
            Some(When {
                first: span.first,
                last: span.last,
                step: step(by)?,
            })
        }
        None => Some(alone(read_span(text)?)),
    }
}
