//! An untraced kernel that is given the effective turns of a traced run has its outcome: random guests, scripts and
//! schedules of the calls that there are.

use crate::booting::{accepted, boot, options, run_here};
use lx_abi::{Boot, Node, Outcome, Rule, Script, Word};
use pt_kernel::Schedule;
use std::alloc::{AllocError, Global};
use std::test::Fail;
use sweep_rows::{Reached, Setup};
use sweep_runs::reach;
use tr_expr::parse_inject;
use trace_run::Ended;
use trace_run::local::Run;
use turn_rows::TurnRow;

const CASES: u64 = 1000;

/// The most events of a case.
const MOST_EVENTS: u64 = 3000;

/// What is made by chance of a case.
#[derive(Clone, Copy)]
enum Part {
    Boot,
    Script,
    Schedule,
}

/// Numbers that depend on a case and a part of it alone.
#[derive(Drop)]
struct Chance {
    state: u64,
}

impl Chance {
    fn new(case: u64, part: Part) -> Self {
        let part = match part {
            Part::Boot => 1,
            Part::Script => 2,
            Part::Schedule => 3,
        };
        Chance {
            state: case
                .wrapping_mul(4)
                .wrapping_add(part)
                .wrapping_mul(0x9e37_79b9_7f4a_7c15),
        }
    }

    fn number(&mut self) -> u64 {
        self.state = self
            .state
            .wrapping_mul(6_364_136_223_846_793_005)
            .wrapping_add(1_442_695_040_888_963_407);
        self.state >> 33
    }

    fn below(&mut self, count: u64) -> u64 {
        self.number().checked_rem(count).unwrap_or(0)
    }

    fn word(&mut self, words: &[&'static str]) -> &'static str {
        let at = self.below(words.len() as u64);
        words.get(at as usize).copied().unwrap_or("")
    }
}

/// What an argument may be, by the letter that stands for it in a call's row.
fn choices(letter: char) -> &'static [&'static str] {
    match letter {
        's' => &["0", "1", "2", "3", "4", "5", "17", "64", "-1"],
        'p' => &["0", "text", "room"],
        'r' => &["0", "room"],
        'm' => &["room"],
        't' => &["text"],
        'd' => &["-100"],
        'o' => &["0", "0x41", "0x42", "0x242", "0x402"],
        'w' => &["0", "1", "2", "3"],
        'k' => &["1", "2", "3"],
        'g' => &["0", "9", "10", "13", "17"],
        'c' => &["-1", "2", "3"],
        'f' => &["0", "1"],
        '8' => &["8"],
        'F' => &["17"],
        '1' => &["1"],
        '2' => &["2"],
        'a' => &["-1"],
        _ => &["0"],
    }
}

/// A call's number, and a letter for each argument.
const CALLS: [(u64, &str); 18] = [
    (23, "s"),
    (24, "ssz"),
    (56, "dto"),
    (57, "s"),
    (59, "mz"),
    (62, "ssw"),
    (63, "srs"),
    (64, "sps"),
    (64, "1t2"),
    (124, ""),
    (129, "kg"),
    (135, "wrr8"),
    (173, ""),
    (220, "Fz"),
    (220, "Fz"),
    (220, "Fz"),
    (260, "crfz"),
    (260, "azzz"),
];

/// What is injected, by the words behind `inject=`.
const RULES: [&str; 12] = [
    "write:error=EIO:when=1",
    "write:retval=7:when=2+2",
    "getppid:retval=5:when=1",
    "clone:error=EAGAIN:when=2",
    "wait4:error=EINTR:when=1",
    "all:error=EINTR:when=3+4",
    "read:retval=0",
    "getppid:signal=SIGUSR1",
    "write:signal=SIGKILL:when=2",
    "wait4:signal=SIGCHLD:when=1+",
    "all:signal=SIGPIPE:when=5",
    "exit_group:error=EPERM:when=1",
];

/// A register that is loaded with a number, or with the place of a label.
fn load(text: &mut String, register: usize, value: &str) -> Result<(), Fail> {
    let by = match value {
        "text" | "room" => "la",
        _ => "li",
    };
    write!(text, "{by} a{register}, {value}\n")?;
    Ok(())
}

fn call(text: &mut String, chance: &mut Chance) -> Result<(), Fail> {
    let Some((number, letters)) = CALLS.get(chance.below(18) as usize) else {
        return Ok(());
    };
    for (register, letter) in letters.chars().enumerate() {
        load(text, register, chance.word(choices(letter)))?;
    }
    write!(text, "li a7, {number}\necall\n")?;
    Ok(())
}

/// The listing of a guest that makes up to twenty calls and ends.
fn listing(alloc: Global, chance: &mut Chance) -> Result<String, Fail> {
    let mut text = String::new(alloc);
    text.push_str("_start: nop\n")?;
    for _ in 0..chance.below(20) {
        call(&mut text, chance)?;
    }
    text.push_str("li a0, 7\nli a7, 94\necall\ntext: .asciz \"/f\"\n.align 8\nroom: .space 64\n")?;
    Ok(text)
}

/// The boot of a case. Three in four follow.
fn boot_of(alloc: Global, case: u64) -> Result<Boot, Fail> {
    let mut chance = Chance::new(case, Part::Boot);
    let follow = chance.below(4) > 0;
    let guest = listing(alloc, &mut chance)?;
    boot(alloc, "/p", guest.as_str(), follow)
}

fn push_rules(alloc: Global, chance: &mut Chance, rules: &mut Vec<Rule>) -> Result<(), Fail> {
    for _ in 0..chance.below(4) {
        rules.push(parse_inject(alloc, chance.word(&RULES))?)?;
    }
    Ok(())
}

/// Up to three rules.
fn script_of(alloc: Global, case: u64) -> Result<Script, Fail> {
    let mut chance = Chance::new(case, Part::Script);
    let mut rules = Vec::new(alloc);
    match push_rules(alloc, &mut chance, &mut rules) {
        Ok(()) => Ok(Script::new(rules)),
        Err(fail) => {
            drop(rules);
            Err(fail)
        }
    }
}

fn pid(chance: &mut Chance) -> u32 {
    match chance.below(4) {
        0 => 1,
        1 => 2,
        2 => 3,
        _ => 4,
    }
}

fn word(chance: &mut Chance) -> Word {
    let pid = pid(chance);
    match chance.below(8) {
        0 => Word::Serve,
        1 => Word::TurnAlone { pid },
        2 | 3 => Word::UntilReturn { pid },
        _ => Word::Turn { pid },
    }
}

/// Up to 400 words, and then the default schedule.
fn schedule_of(alloc: Global, case: u64) -> Result<Schedule, Fail> {
    let mut chance = Chance::new(case, Part::Schedule);
    let mut words = Vec::new(alloc);
    for _ in 0..chance.below(400) {
        words.push(word(&mut chance))?;
    }
    Ok(Schedule::words(words, chance.below(MOST_EVENTS)))
}

// What is large comes last: nothing but small values is dropped where memory is lacking.

fn traced(alloc: Global, case: u64) -> Result<Run, Fail> {
    let options = options(alloc, false)?;
    let schedule = schedule_of(alloc, case)?;
    let script = script_of(alloc, case)?;
    let boot = boot_of(alloc, case)?;
    let run = run_here(alloc, boot, schedule, script, options);
    accepted(run)
}

fn push_turns(words: &mut Vec<Word>, pids: &[u32]) -> Result<(), AllocError> {
    for pid in pids {
        words.push(Word::TurnAlone { pid: *pid })?;
    }
    Ok(())
}

fn push_row(words: &mut Vec<Word>, row: &TurnRow) -> Result<(), AllocError> {
    for _ in 0..row.rounds() {
        push_turns(words, row.round())?;
    }
    push_turns(words, row.rest())
}

/// The words that give these turns.
fn words_of(alloc: Global, rows: &[TurnRow]) -> Result<Vec<Word>, AllocError> {
    let mut words = Vec::new(alloc);
    for row in rows {
        push_row(&mut words, row)?;
    }
    Ok(words)
}

/// The untraced kernel of a case is given these turns alone.
fn setup_of(alloc: Global, case: u64, rows: &[TurnRow]) -> Result<Setup, Fail> {
    let turns = words_of(alloc, rows)?;
    let boot = boot_of(alloc, case)?;
    let limit = turns.len() as u64;
    Ok(Setup { boot, turns, limit })
}

fn reached(alloc: Global, case: u64, setup: &Setup) -> Result<Reached, Fail> {
    let script = script_of(alloc, case)?;
    Ok(reach(alloc, setup, script)?)
}

/// What the untraced kernel comes to by these turns.
fn untraced(alloc: Global, case: u64, rows: &[TurnRow]) -> Result<Reached, Fail> {
    let setup = setup_of(alloc, case, rows)?;
    let reached = reached(alloc, case, &setup);
    drop(setup);
    reached
}

fn is_same_node(one: &Node, other: &Node) -> bool {
    match (one, other) {
        (Node::File(bytes), Node::File(others)) => bytes.as_slice() == others.as_slice(),
        (Node::Directory, Node::Directory) => true,
        _ => false,
    }
}

fn have_same_files(one: &Outcome, other: &Outcome) -> bool {
    let (Ok(files), Ok(others)) = (one.files.as_slice(), other.files.as_slice()) else {
        return false;
    };
    if files.len() != others.len() {
        return false;
    }
    files.iter().zip(others).all(|(file, other)| {
        file.path.as_slice() == other.path.as_slice() && is_same_node(&file.node, &other.node)
    })
}

fn is_same(one: &Outcome, other: &Outcome) -> bool {
    one.console.as_slice() == other.console.as_slice()
        && one.ended.as_slice() == other.ended.as_slice()
        && have_same_files(one, other)
}

fn is_whole(run: &Run) -> bool {
    matches!(run.ended, Ended::Whole(_))
}

fn has_several(outcome: &Outcome) -> bool {
    outcome.ended.as_slice().len() > 1
}

/// What a case shows: the outcomes are one, the run is whole, several processes have ended.
#[derive(Clone, Copy)]
struct Seen {
    is_same: bool,
    is_whole: bool,
    has_several: bool,
}

fn compared(run: &Run, outcome: &Outcome) -> Seen {
    Seen {
        is_same: is_same(&run.outcome, outcome),
        is_whole: is_whole(run),
        has_several: has_several(outcome),
    }
}

/// Compares a run with that of the untraced kernel.
fn compare(alloc: Global, case: u64, run: &Run) -> Result<Seen, Fail> {
    let reached = untraced(alloc, case, run.turns.rows())?;
    let seen = compared(run, &reached.ending.outcome);
    drop(reached);
    Ok(seen)
}

fn try_case(alloc: Global, case: u64) -> Result<Seen, Fail> {
    let run = traced(alloc, case)?;
    let seen = compare(alloc, case, &run);
    drop(run);
    seen
}

/// Some cases are whole and some out of turns, and some have several processes.
#[test]
fn outcomes_of_random_runs(rt: HostRuntime) -> Result<(), Fail> {
    let mut whole: u64 = 0;
    let mut several: u64 = 0;
    for case in 0..CASES {
        let seen = try_case(rt.alloc(), case)?;
        assert!(rt; seen.is_same, "case {case}");
        whole = whole.saturating_add(u64::from(seen.is_whole));
        several = several.saturating_add(u64::from(seen.has_several));
    }
    assert!(rt; 0 < whole && whole < CASES && 0 < several);
    Ok(())
}
