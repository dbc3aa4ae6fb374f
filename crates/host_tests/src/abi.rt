//! Outside examples: a format, and scripts worked by hand. The tables of errno(3), strerror(3), signal(7) and of calls
//! are compared by guests/runs.

use containers::{Bytes, Map, Seq};
use lx_abi::calls::call_format;
use lx_abi::{Argument, Choice, Format, Rule, Script, Set, When};
use std::alloc::{AllocError, Global};
use std::test::Fail;

#[test]
fn format_of_read(rt: HostRuntime) {
    let read = Format {
        entry: &[Argument::Int],
        rest: &[Argument::Bytes, Argument::Unsigned],
    };
    assert_eq!(rt; call_format(63), Some(read));
}

const EVERY: When = When {
    first: 1,
    last: None,
    step: 1,
};

fn rule(calls: Set, value: i64, when: When) -> Rule {
    Rule {
        calls,
        choice: Choice {
            result: Some(value),
            signal: None,
        },
        when,
    }
}

/// Every call but 63 gives 1; 64 gives 2 at its occurrences 2, 5, 8 and on.
fn two_rules(alloc: Global) -> Result<Vec<Rule>, AllocError> {
    let mut rules = Vec::new(alloc);
    let mut read = Seq::new(alloc);
    read.push(63)?;
    rules.push(rule(Set::AllBut(read), 1, EVERY))?;
    let mut write = Seq::new(alloc);
    write.push(64)?;
    let when = When {
        first: 2,
        last: Some(8),
        step: 3,
    };
    rules.push(rule(Set::Only(write), 2, when))?;
    Ok(rules)
}

/// The result that the rules choose for an occurrence of a call.
fn chosen(alloc: Global, call: u64, n: u64) -> Result<Option<i64>, AllocError> {
    let script = Script::new(two_rules(alloc)?);
    let result = script.choose(call, n).result;
    drop(script);
    Ok(result)
}

#[test]
fn scripts(rt: HostRuntime) -> Result<(), Fail> {
    for (call, n, result) in [
        (63, 1, None),
        (64, 1, None),
        (64, 2, Some(2)),
        (64, 3, None),
        (64, 5, Some(2)),
        (64, 8, Some(2)),
        (64, 11, None),
        (9999, 7, Some(1)),
    ] {
        assert_eq!(rt; chosen(rt.alloc(), call, n)?, result, "{call} {n}");
    }
    Ok(())
}

#[test]
fn no_script(rt: HostRuntime) {
    assert_eq!(rt; Script::empty(rt.alloc()).choose(64, 1), Choice::NOTHING);
}

/// Bytes that were joined, and how many there are.
fn joined(alloc: Global) -> Result<(bool, usize), AllocError> {
    let mut bytes = Bytes::from_slice(alloc, b"ab")?;
    bytes.extend(b"c")?;
    Ok((bytes.as_slice() == b"abc".as_slice(), bytes.len()))
}

#[test]
fn bytes(rt: HostRuntime) -> Result<(), Fail> {
    assert_eq!(rt; joined(rt.alloc())?, (true, 3));
    assert!(rt; Bytes::new(rt.alloc()).is_empty());
    Ok(())
}

/// What a map has of three keys once it keeps two of four.
fn kept(alloc: Global) -> Result<([Option<u64>; 3], Option<u64>), AllocError> {
    let mut map = Map::new(alloc);
    for key in 1..5 {
        map.insert(key, u64::from(key) * 10)?;
    }
    if let Some(value) = map.get_mut(2) {
        *value = 21;
    }
    map.keep(&[2, 3]);
    let values = [
        map.get(1).copied(),
        map.get(2).copied(),
        map.get(3).copied(),
    ];
    Ok((values, map.remove(3)))
}

#[test]
fn maps(rt: HostRuntime) -> Result<(), Fail> {
    assert_eq!(rt; kept(rt.alloc())?, ([None, Some(21), Some(30)], Some(30)));
    Ok(())
}
