//! Why an expression is refused, in words: which part of it, what the part may be, and the nearest name.

use crate::expressions::RefusedExpression;
use crate::names::{Names, call_of, nearest};
use crate::shown::{Escaped, Shown};
use std::alloc::{AllocError, Global};
use tr_expr::{ExprFault, InjectParts, RefusedPiece, refused_piece};

/// What strace takes after `-e`, or in a part, and this program doesn't.
const ABSENT: [&str; 14] = [
    "signal",
    "status",
    "read",
    "write",
    "abbrev",
    "verbose",
    "raw",
    "quiet",
    "decode-fds",
    "kvm",
    "decode-pids",
    "fd",
    "fds",
    "namespace",
];

/// What may stand after `when=`.
const WHEN: &str = "FIRST or FIRST..LAST, alone or with + or +STEP after it; \
FIRST and STEP are from 1 to 65535, LAST from 1 to 65534";

/// `; NAME is`, where a name is near.
fn near(alloc: Global, names: Names, word: &str, start: &str) -> Result<String, AllocError> {
    match nearest(alloc, names, word)? {
        Some(name) => format!(in alloc; "; {start}{name} is"),
        None => Ok(String::new(alloc)),
    }
}

/// What strace takes before the first `=` of an expression.
fn absent(text: &str) -> Option<&str> {
    let (key, _) = text.split_once('=')?;
    ABSENT.contains(&key).then_some(key)
}

fn explain_call(alloc: Global, text: &str, item: &str) -> Result<String, AllocError> {
    if let Some(key) = absent(text) {
        return format!(in alloc; "-e {key}= is strace's and not here");
    }
    if let Some((key, _)) = text.split_once('=') {
        if !matches!(key, "trace" | "inject" | "fault") {
            return format!(in alloc;
                "no expression begins with {}=; trace=, inject= and fault= do",
                Shown(key)
            );
        }
    }
    if item.is_empty() {
        return format!(in alloc; "an item of the set is empty");
    }
    if matches!(item.as_bytes().first(), Some(b'0'..=b'9')) {
        return format!(in alloc; "calls are named, and {} is a number", Shown(item));
    }
    if matches!(item, "file" | "desc" | "process" | "signal" | "memory") {
        return format!(in alloc; "no call is named {item}; %{item} is the class");
    }
    if let Some(call) = call_of(item) {
        return format!(in alloc; "no call is named {item}; {call} is");
    }
    let near = near(alloc, Names::Calls, item, "")?;
    format!(in alloc; "no call is named {}{near}", Shown(item))
}

fn explain_class(alloc: Global, item: &str) -> Result<String, AllocError> {
    let name = item.strip_prefix('%').unwrap_or(item);
    let near = near(alloc, Names::Classes, name, "%")?;
    format!(in alloc;
        "no class is named {}{near}; the classes are %file, %desc, %process, %signal and %memory",
        Shown(item)
    )
}

/// The text after the `=` of a part.
fn value_of(part: &str) -> &str {
    part.split_once('=').map_or("", |(_, value)| value)
}

fn explain_error(alloc: Global, part: &str) -> Result<String, AllocError> {
    let word = value_of(part);
    let near = near(alloc, Names::Errors, word, "")?;
    format!(in alloc; "no error is named {}{near}", Shown(word))
}

fn explain_signal(alloc: Global, part: &str) -> Result<String, AllocError> {
    let word = value_of(part);
    let near = near(alloc, Names::Signals, word, "SIG")?;
    format!(in alloc; "no signal is named {}{near}", Shown(word))
}

fn explain_number(alloc: Global, part: &str) -> Result<String, AllocError> {
    let range = match part.split_once('=') {
        Some(("error", _)) => "a name or a number from 1 to 4095",
        Some(("signal", _)) => "a name or a number from 1 to 31",
        _ => "a number from 0 to 2^63-1, decimal or after 0x",
    };
    format!(in alloc; "{}: not {range}", Shown(part))
}

/// The first and the last of a range.
fn ends_of(range: &str) -> Option<(u64, u64)> {
    let (first, rest) = range.split_once("..")?;
    let last = match rest.split_once('+') {
        Some((last, _)) => last,
        None => rest,
    };
    match (first.parse(), last.parse()) {
        (Ok(first), Ok(last)) => Some((first, last)),
        _ => None,
    }
}

fn explain_when(alloc: Global, part: &str) -> Result<String, AllocError> {
    let part_shown = Shown(part);
    match ends_of(value_of(part)) {
        Some((first, last)) if last < first => {
            format!(in alloc;
                "{part_shown}: no occurrence is in it, since {last} is before {first}"
            )
        }
        _ => format!(in alloc; "{part_shown}: not {WHEN}"),
    }
}

/// What is wrong with a part after `fault=` that begins with this key, and what the key is near to.
fn explain_part_of_fault(
    alloc: Global,
    key: &str,
    part: &str,
    near: &str,
) -> Result<String, AllocError> {
    if near.is_empty() || matches!(key, "error" | "retval" | "signal" | "when") {
        return format!(in alloc;
            "fault= takes error= and when=, and not {}; inject= takes retval= and signal= too",
            Shown(part)
        );
    }
    format!(in alloc; "no part is named {}{near}", Shown(key))
}

fn explain_part(alloc: Global, form: InjectParts, part: &str) -> Result<String, AllocError> {
    let key = part.split_once('=').map_or(part, |(key, _)| key);
    if matches!(
        key,
        "delay_enter" | "delay_exit" | "poke_enter" | "poke_exit" | "syscall"
    ) {
        return format!(in alloc; "{key}= is strace's and not here");
    }
    let near = near(alloc, Names::Parts, key, "")?;
    if form == InjectParts::Fault {
        return explain_part_of_fault(alloc, key, part, near.as_str());
    }
    if matches!(key, "error" | "retval" | "signal" | "when") {
        return format!(in alloc; "{key} needs a value, as {key}=VALUE");
    }
    format!(in alloc;
        "no part is named {}{near}; the parts are error=, retval=, signal= and when=",
        Shown(key)
    )
}

fn explain_item(
    alloc: Global,
    refused: RefusedExpression<'_>,
    item: &str,
) -> Result<String, AllocError> {
    match refused.fault {
        ExprFault::UnknownCall => explain_call(alloc, refused.text, item),
        ExprFault::UnknownClass => explain_class(alloc, item),
        _ => format!(in alloc;
            "{}: not a regular expression; no comma or colon may stand in one",
            Shown(item)
        ),
    }
}

fn explain_value(
    alloc: Global,
    fault: ExprFault,
    form: InjectParts,
    part: &str,
) -> Result<String, AllocError> {
    match fault {
        ExprFault::UnknownErrno => explain_error(alloc, part),
        ExprFault::UnknownSignal => explain_signal(alloc, part),
        ExprFault::BadNumber => explain_number(alloc, part),
        ExprFault::BadWhen => explain_when(alloc, part),
        _ => explain_part(alloc, form, part),
    }
}

/// Why the expression is refused as a whole.
fn explain_whole(alloc: Global, fault: ExprFault) -> Result<String, AllocError> {
    match fault {
        ExprFault::BothResults => format!(in alloc; "error= and retval= exclude each other"),
        ExprFault::NothingToDo => format!(in alloc;
            "nothing is to be done; inject= needs error=, retval= or signal="
        ),
        _ => format!(in alloc; "{fault}"),
    }
}

/// Why the expression is refused, and where.
fn reason(alloc: Global, refused: RefusedExpression<'_>) -> Result<String, AllocError> {
    match refused_piece(alloc, refused.text, refused.fault)? {
        Some(RefusedPiece::Item(item)) => explain_item(alloc, refused, item),
        Some(RefusedPiece::Part(form, part)) => explain_value(alloc, refused.fault, form, part),
        None => explain_whole(alloc, refused.fault),
    }
}

/// Why an expression is refused, in one line that names what was typed for it: `in 'TYPED': REASON`.
pub fn explain_expression(
    alloc: Global,
    refused: RefusedExpression<'_>,
    typed: &str,
) -> Result<String, AllocError> {
    let reason = reason(alloc, refused)?;
    format!(in alloc; "in '{}': {reason}", Escaped(typed))
}
