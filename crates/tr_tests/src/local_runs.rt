//! Whole runs in one process, with ample memory: a listing that is assembled, booted and traced. Others stand in
//! guests/rows, and tests/cuts ends a run at each event.

use crate::booting::{accepted, boot, options, run_here};
use lx_abi::{Event, Outcome, Script};
use lx_boot::BootFault;
use pt_kernel::Schedule;
use std::alloc::{AllocError, Global};
use std::test::Fail;
use trace_run::Ended;
use trace_run::local::Run;

const HELLO: &str = "_start: li a0, 1\nla a1, text\nli a2, 3\nli a7, 64\necall\n\
    li a0, 0\nli a7, 94\necall\ntext: .ascii \"hi\\n\"\n";

const HELLO_TRACE: &str = "execve(\"/p\", [\"/p\"], 0x3fffffefc8 /* 0 vars */) = 0\n\
    write(1, \"hi\\n\", 3)                     = 3\n\
    exit_group(0)                           = ?\n\
    +++ exited with 0 +++\n";

const HELLO_FOLLOWED: &str = "1     execve(\"/p\", [\"/p\"], 0x3fffffefc8 /* 0 vars */) = 0\n\
    1     write(1, \"hi\\n\", 3)               = 3\n\
    1     exit_group(0)                     = ?\n\
    1     +++ exited with 0 +++\n";

/// The run of that listing by the default schedule.
fn traced(alloc: Global, follow: bool, limit: u64) -> Result<Run, Fail> {
    let options = options(alloc, follow)?;
    let boot = boot(alloc, "/p", HELLO, follow)?;
    let schedule = Schedule::words(Vec::new(alloc), limit);
    let run = run_here(alloc, boot, schedule, Script::empty(alloc), options);
    accepted(run)
}

/// The wait word of process 1.
fn word_of(outcome: &Outcome) -> Option<u32> {
    for ended in outcome.ended.as_slice() {
        if ended.pid == 1 {
            return Some(ended.word);
        }
    }
    None
}

fn is_whole(run: &Run) -> bool {
    matches!(run.ended, Ended::Whole(_))
}

/// How a run went.
#[derive(Clone, Copy, Debug, PartialEq, Eq)]
struct Went {
    is_whole: bool,
    /// It has the trace that it should have.
    has_trace: bool,
    /// It wrote `hi` and a line feed.
    has_console: bool,
    word: Option<u32>,
    turns: u64,
}

fn seen(run: &Run, trace: &str) -> Went {
    Went {
        is_whole: is_whole(run),
        has_trace: run.trace.as_slice() == trace.as_bytes(),
        has_console: run.outcome.console.as_slice() == b"hi\n".as_slice(),
        word: word_of(&run.outcome),
        turns: turns_of(run),
    }
}

fn make_run(alloc: Global, follow: bool, limit: u64, trace: &str) -> Result<Went, Fail> {
    let run = traced(alloc, follow, limit)?;
    let seen = seen(&run, trace);
    drop(run);
    Ok(seen)
}

fn turns_of(run: &Run) -> u64 {
    let mut turns: u64 = 0;
    for row in run.turns.rows() {
        let round = row.round().len() as u64;
        let made = row.rounds().saturating_mul(round);
        turns = turns
            .saturating_add(made)
            .saturating_add(row.rest().len() as u64);
    }
    turns
}

const WHOLE: Went = Went {
    is_whole: true,
    has_trace: true,
    has_console: true,
    word: Some(0),
    turns: 21,
};

/// Whole, and cut: Seize, Wait and Syscall are served before the first turn.
#[test]
fn runs_of_one_process(rt: HostRuntime) -> Result<(), Fail> {
    let cut = Went {
        is_whole: false,
        has_trace: true,
        has_console: false,
        word: None,
        turns: 0,
    };
    for (follow, limit, trace, wanted) in [
        (false, 1_000_000, HELLO_TRACE, WHOLE),
        (true, 1_000_000, HELLO_FOLLOWED, WHOLE),
        (false, 0, "", cut),
        (false, 1, "", cut),
        (false, 3, "", cut),
        (false, 4, "", Went { turns: 1, ..cut }),
    ] {
        assert_eq!(rt;
            make_run(rt.alloc(), follow, limit, trace)?,
            wanted,
            "{limit}"
        );
    }
    Ok(())
}

fn list(alloc: Global) -> Result<Schedule, AllocError> {
    let mut events = Vec::new(alloc);
    for event in [Event::Serve, Event::Turn { pid: 1 }] {
        events.push(event)?;
    }
    Ok(Schedule::list(events))
}

fn fault_of(run: Result<Run, BootFault>) -> Option<BootFault> {
    match run {
        Ok(run) => {
            drop(run);
            None
        }
        Err(fault) => Some(fault),
    }
}

fn fault(alloc: Global, path: &str) -> Result<Option<BootFault>, Fail> {
    let schedule = list(alloc)?;
    let options = options(alloc, false)?;
    let boot = boot(alloc, path, HELLO, false)?;
    let run = run_here(alloc, boot, schedule, Script::empty(alloc), options);
    Ok(fault_of(run))
}

#[test]
fn faults(rt: HostRuntime) -> Result<(), Fail> {
    for (path, wanted) in [
        ("/p", None),
        ("p", Some(BootFault::BadPath)),
        ("/", Some(BootFault::BadPath)),
        ("/a//b", Some(BootFault::BadPath)),
    ] {
        assert_eq!(rt; fault(rt.alloc(), path)?, wanted);
    }
    Ok(())
}
