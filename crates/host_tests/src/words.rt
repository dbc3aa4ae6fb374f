//! Words of schedules. Those that are refused stand in guests/runs.

use lx_abi::{ScheduleFault, Word, parse_words};
use std::test::Fail;

const ONE: Word = Word::UntilReturn { pid: 1 };

const TWO: Word = Word::UntilReturn { pid: 2 };

const ROWS: [(&str, &[Word]); 14] = [
    ("", &[]),
    (" \t\r\n ", &[]),
    ("1", &[Word::Turn { pid: 1 }]),
    ("-1", &[Word::TurnAlone { pid: 1 }]),
    ("s", &[Word::Serve]),
    ("1.", &[ONE]),
    ("0", &[Word::Turn { pid: 0 }]),
    ("0000000001", &[Word::Turn { pid: 1 }]),
    ("4294967295", &[Word::Turn { pid: 4294967295 }]),
    ("-4294967295", &[Word::TurnAlone { pid: 4294967295 }]),
    ("4294967295.", &[Word::UntilReturn { pid: 4294967295 }]),
    ("1. 1. 1. 2. 1. 2.", &[ONE, ONE, ONE, TWO, ONE, TWO]),
    (
        "\n2 -2  s\t2.\r\n",
        &[
            Word::Turn { pid: 2 },
            Word::TurnAlone { pid: 2 },
            Word::Serve,
            TWO,
        ],
    ),
    (
        "1\u{a0}2\u{2003}-3\u{3000}s\u{85}1.",
        &[
            Word::Turn { pid: 1 },
            Word::Turn { pid: 2 },
            Word::TurnAlone { pid: 3 },
            Word::Serve,
            ONE,
        ],
    ),
];

/// White space is Unicode's `White_Space`: U+00A0, U+2003, U+3000 and U+0085 are, U+200B and U+FEFF aren't.
#[test]
fn taken(rt: HostRuntime) -> Result<(), Fail> {
    for (text, wanted) in ROWS {
        let words = parse_words(rt.alloc(), text)?;
        assert_eq!(rt; words.as_slice(), wanted, "{text:?}");
    }
    assert_eq!(rt; ScheduleFault::BadWord.number(), 1);
    assert_eq!(rt; ScheduleFault::Memory.number(), 2);
    Ok(())
}
