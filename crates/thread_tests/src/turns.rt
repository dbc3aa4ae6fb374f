//! Turns as they are kept: in rows of one process, or in rounds of several.

use std::alloc::{AllocError, Global};
use std::test::Fail;
use turn_rows::{TurnRow, Turns};

/// A turn of the process of each letter.
fn push_all(turns: &mut Turns, letters: &str) -> Result<(), AllocError> {
    for letter in letters.chars() {
        turns.push(u32::from(letter))?;
    }
    Ok(())
}

fn show_pids(pids: &[u32], shown: &mut String) -> Result<(), AllocError> {
    for pid in pids {
        match char::from_u32(*pid) {
            Some(letter) => shown.push(letter)?,
            None => shown.push('?')?,
        }
    }
    Ok(())
}

/// How many rounds of which processes, and after a `+` the rest.
fn show_row(row: &TurnRow, shown: &mut String) -> Result<(), AllocError> {
    write!(shown, " {}", row.rounds())?;
    show_pids(row.round(), shown)?;
    if row.rest().is_empty() {
        return Ok(());
    }
    shown.push('+')?;
    show_pids(row.rest(), shown)
}

fn show(alloc: Global, turns: &Turns) -> Result<String, AllocError> {
    let mut shown = String::new(alloc);
    for row in turns.rows() {
        show_row(row, &mut shown)?;
    }
    Ok(shown)
}

/// What turns are kept as, by the letters before, so often those between, and those behind.
const ROWS: [(&str, usize, &str, &str, &str); 12] = [
    ("", 0, "", "", ""),
    ("a", 0, "", "", " 1a"),
    ("", 1000, "a", "", " 1000a"),
    ("", 2, "ab", "a", " 2ab+a"),
    ("", 1000, "ab", "", " 1000ab"),
    ("", 1000, "abc", "ab", " 1000abc+ab"),
    ("aa", 0, "", "b", " 2a 1b"),
    ("aa", 500, "ba", "b", " 2a 500ba+b"),
    // Where few don't go on as they began, the round is all of them.
    ("", 2, "ab", "c", " 1ababc"),
    ("abca", 2, "bd", "", " 1abcabdbd"),
    ("ab", 3, "aab", "", " 1abaabaabaab"),
    ("", 200, "ab", "c", " 200ab 1c"),
];

fn kept(
    alloc: Global,
    before: &str,
    often: usize,
    between: &str,
    behind: &str,
) -> Result<String, AllocError> {
    let mut turns = Turns::new(alloc);
    push_all(&mut turns, before)?;
    for _ in 0..often {
        push_all(&mut turns, between)?;
    }
    push_all(&mut turns, behind)?;
    show(alloc, &turns)
}

#[test]
fn turns_are_kept_as_rows(rt: HostRuntime) -> Result<(), Fail> {
    for (before, often, between, behind, rows) in ROWS {
        let shown = kept(rt.alloc(), before, often, between, behind)?;
        assert_eq!(rt; shown.as_str(), rows);
    }
    Ok(())
}

/// So many turns of each process at once.
fn extended(alloc: Global, runs: &[(u32, u64)]) -> Result<String, AllocError> {
    let mut turns = Turns::new(alloc);
    for (pid, count) in runs {
        turns.extend(*pid, *count)?;
    }
    show(alloc, &turns)
}

#[test]
fn many_turns_come_at_once(rt: HostRuntime) -> Result<(), Fail> {
    let (a, b) = (u32::from('a'), u32::from('b'));
    let shown = extended(
        rt.alloc(),
        &[
            (a, 0),
            (a, 3),
            (a, 2),
            (b, 1),
            (a, 1),
            (b, 0),
            (b, 1),
            (a, 9),
        ],
    )?;
    assert_eq!(rt; shown.as_str(), " 5a 1ba+b 9a");
    Ok(())
}
