//! Whole runs over replies that were kept, with ample memory: the trace, and how the run ended. Other conversations
//! stand in guests/conversations.

use containers::{Bytes, Seq};
use host_link::{LinkFault, Recorded};
use lx_abi::{RegisterSet, Reply, Script, Set, Status};
use std::alloc::{AllocError, Global};
use std::test::Fail;
use tr_core::{Options, TraceFault};
use trace_run::{Ended, RunFault, Written, run};

/// EVENT_STOP of a tracee that was seized or born.
const BEGUN: u32 = 0x80057f;

/// A syscall stop under TRACESYSGOOD.
const SYSCALL: u32 = 0x857f;

/// A reply about process 1.
#[derive(Clone, Copy)]
enum Step {
    Done,
    Status(u32),
    /// The registers of a call: a7, and a0 to a2.
    Call(u64, u64, u64, u64),
    Errno(u32),
    OutOfTurns,
}

#[derive(Clone, Copy, Debug, PartialEq, Eq)]
enum End {
    Whole,
    OutOfTurns,
    Fault(RunFault),
}

const LINK_ENDED: End = End::Fault(RunFault::Link(LinkFault::Ended));

const REFUSED: End = End::Fault(RunFault::Trace(TraceFault::Inadmissible));

/// The schedule ends while read waits.
static OUT_OF_TURNS: [Step; 7] = [
    Step::Done,
    Step::Status(BEGUN),
    Step::Done,
    Step::Status(SYSCALL),
    Step::Call(63, 3, 0x2000, 16),
    Step::Done,
    Step::OutOfTurns,
];

/// Every call is shown.
fn options(alloc: Global) -> Options {
    Options {
        follow: false,
        shown: Set::AllBut(Seq::new(alloc)),
        string_limit: 32,
        width: 40,
    }
}

fn registers(number: u64, a0: u64, a1: u64, a2: u64) -> [u64; 32] {
    let mut registers = [0; 32];
    registers[10] = a0;
    registers[11] = a1;
    registers[12] = a2;
    registers[17] = number;
    registers
}

fn reply(alloc: Global, step: Step) -> Result<Reply, AllocError> {
    Ok(match step {
        Step::Done => Reply::Done,
        Step::Status(word) => Reply::Status {
            pid: 1,
            status: Status { word },
        },
        Step::Call(number, a0, a1, a2) => Reply::Registers {
            registers: RegisterSet::new(alloc, &registers(number, a0, a1, a2))?,
        },
        Step::Errno(number) => Reply::Errno { number },
        Step::OutOfTurns => Reply::OutOfTurns,
    })
}

fn push_each(alloc: Global, replies: &mut Vec<Reply>, steps: &[Step]) -> Result<(), AllocError> {
    for step in steps {
        replies.push(reply(alloc, *step)?)?;
    }
    Ok(())
}

fn replies(alloc: Global, steps: &[Step]) -> Result<Vec<Reply>, AllocError> {
    let mut replies = Vec::new(alloc);
    match push_each(alloc, &mut replies, steps) {
        Ok(()) => Ok(replies),
        Err(error) => {
            drop(replies);
            Err(error)
        }
    }
}

fn end_of(ended: &Result<Ended, RunFault>) -> End {
    match ended {
        Ok(Ended::Whole(_)) => End::Whole,
        Ok(Ended::OutOfTurns) => End::OutOfTurns,
        Err(fault) => End::Fault(*fault),
    }
}

/// What a run over these replies prints, and how it ends.
fn traced_by(alloc: Global, replies: Vec<Reply>) -> (Bytes, End) {
    let mut link = Recorded::new(replies);
    let mut writer = Written::new(alloc);
    let script = Script::empty(alloc);
    let ended = run(alloc, &mut link, &mut writer, script, options(alloc));
    let end = end_of(&ended);
    drop(ended);
    drop(link);
    (writer.into_bytes(), end)
}

fn traced(alloc: Global, steps: &[Step]) -> Result<(Bytes, End), AllocError> {
    let replies = replies(alloc, steps)?;
    Ok(traced_by(alloc, replies))
}

#[test]
fn kept_replies(rt: HostRuntime) -> Result<(), Fail> {
    for (steps, trace, end) in [
        (OUT_OF_TURNS.as_slice(), "read(3, ", End::OutOfTurns),
        (&[Step::Done, Step::Errno(10)], "", REFUSED),
        (&[], "", LINK_ENDED),
    ] {
        let (text, ended) = traced(rt.alloc(), steps)?;
        assert_eq!(rt; ended, end, "{trace}");
        assert_eq!(rt; text.as_slice(), trace.as_bytes());
    }
    Ok(())
}
