//! Calls of a kernel without files, a script of them each, and what they tell: what its turns do, and what a tracer
//! reads and changes of a process. execve fails, and the first program exits with 127.

use crate::kernels;
use crate::kernels::without_files;
use lx_abi::{Cause, Ended, Mode, Outcome, Signal};
use lx_kernel::Kernel;
use std::alloc::AllocError;
use std::test::Fail;

/// A call; of process 1 where no pid is said.
#[derive(Clone, Copy)]
enum Call {
    Turns(u32),
    Advance(u64),
    JoinSegv,
    JoinKill,
    JoinNone,
    Skip,
    SetRegisters(u32),
    Mode(u32),
    IsAble,
    Logged,
    NextAble(u32),
    NextPid,
    Registers,
    Peek(u32, u64, usize),
    Signal,
    IsKilled,
    Ended,
}

#[derive(Clone, Copy, Debug, PartialEq, Eq)]
enum Answer {
    Is(bool),
    Count(u64),
    Pid(Option<u32>),
    Mode(Option<Mode>),
    /// pc, sp, a0, a7 and x31.
    Registers(Option<[u64; 5]>),
    /// How many bytes, and the first of them.
    Bytes(Option<(usize, [u8; 5])>),
    /// The number of a signal that the kernel sent, or 0.
    Signal(u8),
    /// How many processes have ended, and the first of them with its word.
    Ended(usize, Option<(u32, u32)>),
    Nothing,
}

const IS: Answer = Answer::Is(true);

const ISNT: Answer = Answer::Is(false);

/// The words of the boot take 3 bytes below the stack's end, and its vector 64 below them, at a multiple of 16.
const SP: u64 = 0x3f_ffff_efb0;

const PATH: u64 = 0x3f_ffff_effd;

const ENOENT: u64 = 0xffff_ffff_ffff_fffe;

const MOST: u32 = 0xffff_ffff;

const SET: Answer = Answer::Registers(Some([7; 5]));

const AT_EXECVE: Answer = Answer::Registers(Some([0x1_0000, SP, PATH, 221, 0]));

const REFUSED: Answer = Answer::Registers(Some([0x1_0004, SP, ENOENT, 221, 0]));

/// Process 1 has ended with status 127.
const EXITED: Answer = Answer::Ended(1, Some((1, 127 * 256)));

type Row = (Call, Answer);

/// The first program is one page, and the stack goes on with the page of rt_sigreturn. The word of a process is there
/// with the Exit in the log, and stays once process 1, who has no parent, has left the table.
static TURNS: [Row; 85] = [
    (Call::Mode(1), Answer::Mode(Some(Mode::Born))),
    (Call::Mode(2), Answer::Mode(None)),
    (Call::IsAble, IS),
    (Call::Logged, Answer::Count(0)),
    (Call::Registers, AT_EXECVE),
    (Call::NextAble(0), Answer::Pid(Some(1))),
    (Call::NextAble(1), Answer::Pid(Some(1))),
    (Call::NextPid, Answer::Pid(Some(2))),
    (Call::Ended, Answer::Ended(0, None)),
    (Call::Turns(1), IS),
    (Call::Mode(1), Answer::Mode(Some(Mode::Run))),
    (Call::Mode(2), Answer::Mode(None)),
    (Call::IsAble, IS),
    (Call::Logged, Answer::Count(0)),
    (
        Call::Peek(1, 0x1_0000, 5),
        Answer::Bytes(Some((5, [0x73, 0, 0, 0, 0x13]))),
    ),
    (
        Call::Peek(1, PATH, 4),
        Answer::Bytes(Some((4, [b'/', b'p', 0, 0x93, 0]))),
    ),
    (Call::Peek(1, 0x1_0ffe, 9), Answer::Bytes(Some((2, [0; 5])))),
    (Call::Peek(1, 0x1_1000, 9), Answer::Bytes(Some((0, [0; 5])))),
    (Call::Peek(1, 0x1_0000, 0), Answer::Bytes(Some((0, [0; 5])))),
    (Call::Peek(2, 0x1_0000, 4), Answer::Bytes(None)),
    (Call::Turns(1), IS),
    (Call::Mode(1), Answer::Mode(Some(Mode::Entered))),
    (Call::Mode(2), Answer::Mode(None)),
    (Call::IsAble, IS),
    (Call::Logged, Answer::Count(1)),
    (Call::Registers, AT_EXECVE),
    (Call::Turns(1), IS),
    (Call::Mode(1), Answer::Mode(Some(Mode::Doing))),
    (Call::Mode(2), Answer::Mode(None)),
    (Call::IsAble, IS),
    (Call::Logged, Answer::Count(1)),
    (Call::Turns(1), IS),
    (Call::Mode(1), Answer::Mode(Some(Mode::Acted))),
    (Call::Mode(2), Answer::Mode(None)),
    (Call::IsAble, IS),
    (Call::Logged, Answer::Count(1)),
    (Call::Registers, REFUSED),
    (Call::Turns(1), IS),
    (Call::Mode(1), Answer::Mode(Some(Mode::Finished))),
    (Call::Mode(2), Answer::Mode(None)),
    (Call::IsAble, IS),
    (Call::Logged, Answer::Count(2)),
    (Call::Turns(1), IS),
    (Call::Mode(1), Answer::Mode(Some(Mode::Run))),
    (Call::Mode(2), Answer::Mode(None)),
    (Call::IsAble, IS),
    (Call::Logged, Answer::Count(2)),
    (Call::NextAble(MOST), Answer::Pid(Some(1))),
    (Call::Turns(1), IS),
    (
        Call::Registers,
        Answer::Registers(Some([0x1_0008, SP, 127, 221, 0])),
    ),
    (Call::Turns(2), IS),
    (Call::Mode(1), Answer::Mode(Some(Mode::Entered))),
    (Call::Mode(2), Answer::Mode(None)),
    (Call::IsAble, IS),
    (Call::Logged, Answer::Count(3)),
    (
        Call::Registers,
        Answer::Registers(Some([0x1_000c, SP, 127, 94, 0])),
    ),
    (Call::Turns(1), IS),
    (Call::Mode(1), Answer::Mode(Some(Mode::Doing))),
    (Call::Mode(2), Answer::Mode(None)),
    (Call::IsAble, IS),
    (Call::Logged, Answer::Count(3)),
    (Call::Ended, Answer::Ended(0, None)),
    (Call::Turns(1), IS),
    (Call::Mode(1), Answer::Mode(Some(Mode::Dying))),
    (Call::Mode(2), Answer::Mode(None)),
    (Call::IsAble, IS),
    (Call::Logged, Answer::Count(4)),
    (Call::Registers, Answer::Registers(None)),
    (Call::NextAble(0), Answer::Pid(Some(1))),
    (Call::Ended, EXITED),
    (Call::Turns(1), IS),
    (Call::Mode(1), Answer::Mode(None)),
    (Call::Mode(2), Answer::Mode(None)),
    (Call::IsAble, ISNT),
    (Call::Logged, Answer::Count(4)),
    (Call::Registers, Answer::Registers(None)),
    (Call::NextAble(0), Answer::Pid(None)),
    (Call::NextAble(1), Answer::Pid(None)),
    (Call::NextPid, Answer::Pid(Some(2))),
    (Call::Ended, EXITED),
    (Call::Turns(1), IS),
    (Call::Mode(1), Answer::Mode(None)),
    (Call::Mode(2), Answer::Mode(None)),
    (Call::Logged, Answer::Count(4)),
    (Call::Ended, EXITED),
];

/// Turns in a row: two instructions stand between the first program's calls.
static ONE_BY_ONE: [Row; 7] = [
    (Call::Turns(6), IS),
    (Call::Advance(1), Answer::Count(1)),
    (Call::Mode(1), Answer::Mode(Some(Mode::Run))),
    (Call::Turns(1), IS),
    (Call::Mode(1), Answer::Mode(Some(Mode::Run))),
    (Call::Turns(1), IS),
    (Call::Mode(1), Answer::Mode(Some(Mode::Entered))),
];

static BY_TWO: [Row; 3] = [
    (Call::Turns(6), IS),
    (Call::Advance(2), Answer::Count(2)),
    (Call::Mode(1), Answer::Mode(Some(Mode::Run))),
];

static SET_AT_BIRTH: [Row; 2] = [(Call::SetRegisters(1), IS), (Call::Registers, SET)];

static SET_LATER: [Row; 10] = [
    (Call::Turns(6), IS),
    (Call::SetRegisters(2), ISNT),
    (Call::Registers, REFUSED),
    (Call::Turns(5), IS),
    (Call::SetRegisters(1), ISNT),
    (Call::Registers, Answer::Registers(None)),
    (Call::Turns(1), IS),
    (Call::SetRegisters(1), ISNT),
    (Call::Registers, Answer::Registers(None)),
    (Call::Mode(1), Answer::Mode(None)),
];

static SET_IN_RUN: [Row; 3] = [
    (Call::Turns(6), IS),
    (Call::SetRegisters(1), IS),
    (Call::Registers, SET),
];

/// A signal is joined at an entry alone.
static JOINED_TOO_EARLY: [Row; 8] = [
    (Call::JoinSegv, ISNT),
    (Call::Skip, ISNT),
    (Call::Turns(1), IS),
    (Call::JoinSegv, ISNT),
    (Call::Skip, ISNT),
    (Call::Turns(1), IS),
    (Call::JoinSegv, IS),
    (Call::Skip, ISNT),
];

static JOINED_AT_ITS_EXIT: [Row; 9] = [
    (Call::Turns(3), IS),
    (Call::JoinSegv, ISNT),
    (Call::Skip, ISNT),
    (Call::Turns(2), IS),
    (Call::JoinSegv, ISNT),
    (Call::Skip, ISNT),
    (Call::Turns(4), IS),
    (Call::JoinSegv, IS),
    (Call::Skip, ISNT),
];

static JOINED_TOO_LATE: [Row; 6] = [
    (Call::Turns(11), IS),
    (Call::JoinSegv, ISNT),
    (Call::Skip, ISNT),
    (Call::Turns(1), IS),
    (Call::JoinSegv, ISNT),
    (Call::Skip, ISNT),
];

const SEGV: Answer = Answer::Signal(11);

/// A taken signal ends its process or is dropped.
static TAKEN: [Row; 6] = [
    (Call::Turns(2), IS),
    (Call::JoinSegv, IS),
    (Call::Turns(5), IS),
    (Call::Signal, SEGV),
    (Call::Turns(1), IS),
    (Call::Mode(1), Answer::Mode(Some(Mode::Dying))),
];

static DROPPED: [Row; 7] = [
    (Call::Turns(2), IS),
    (Call::JoinSegv, IS),
    (Call::Turns(5), IS),
    (Call::Signal, SEGV),
    (Call::Skip, IS),
    (Call::Turns(1), IS),
    (Call::Mode(1), Answer::Mode(Some(Mode::Run))),
];

static TAKEN_BACK: [Row; 8] = [
    (Call::Turns(2), IS),
    (Call::JoinSegv, IS),
    (Call::JoinNone, IS),
    (Call::Turns(5), IS),
    (Call::Signal, Answer::Signal(0)),
    (Call::Skip, ISNT),
    (Call::Turns(1), IS),
    (Call::Mode(1), Answer::Mode(Some(Mode::Run))),
];

static KILLED: [Row; 4] = [
    (Call::Turns(2), IS),
    (Call::JoinKill, IS),
    (Call::Turns(1), IS),
    (Call::IsKilled, IS),
];

static NOT_KILLED: [Row; 4] = [
    (Call::Turns(2), IS),
    (Call::JoinSegv, IS),
    (Call::Turns(1), IS),
    (Call::IsKilled, ISNT),
];

fn taken(signal: Option<(Signal, Cause)>) -> Answer {
    match signal {
        None => Answer::Signal(0),
        Some((signal, Cause::Kernel)) => Answer::Signal(signal.number),
        Some(_) => Answer::Nothing,
    }
}

/// The first process that has ended, with its word.
fn first_of(ended: &[Ended]) -> Option<(u32, u32)> {
    let first = ended.first()?;
    Some((first.pid, first.word))
}

/// Who has ended; no file was there.
fn ends_of(outcome: &Outcome) -> Answer {
    let ended = outcome.ended.as_slice();
    match outcome.files.as_slice() {
        Ok([]) => {}
        _ => return Answer::Nothing,
    }
    Answer::Ended(ended.len(), first_of(ended))
}

fn ended(kernel: &Kernel) -> Result<Answer, AllocError> {
    let outcome = kernels::outcome(kernel)?;
    let ends = ends_of(&outcome);
    drop(outcome);
    Ok(ends)
}

/// What a call tells that changes the kernel.
fn changed(kernel: &mut Kernel, call: Call) -> Answer {
    match call {
        Call::Turns(turns) => Answer::Is(kernels::make_turns(kernel, turns)),
        Call::Advance(limit) => match kernels::advance(kernel, limit) {
            Some(turns) => Answer::Count(turns),
            None => Answer::Nothing,
        },
        Call::JoinSegv => Answer::Is(kernels::join(kernel, Some(Signal::SEGV))),
        Call::JoinKill => Answer::Is(kernels::join(kernel, Some(Signal::KILL))),
        Call::JoinNone => Answer::Is(kernels::join(kernel, None)),
        Call::Skip => Answer::Is(kernels::skip(kernel)),
        Call::SetRegisters(pid) => Answer::Is(kernels::set_registers(kernel, pid)),
        _ => Answer::Nothing,
    }
}

/// What a call tells that reads the kernel.
fn seen(kernel: &Kernel, call: Call) -> Result<Answer, AllocError> {
    Ok(match call {
        Call::Mode(pid) => Answer::Mode(kernels::mode(kernel, pid)),
        Call::IsAble => Answer::Is(kernels::is_able(kernel)),
        Call::Logged => Answer::Count(kernels::length(kernel) as u64),
        Call::NextAble(pid) => Answer::Pid(kernels::next_able(kernel, pid)),
        Call::NextPid => Answer::Pid(Some(kernels::next_pid(kernel))),
        Call::Registers => Answer::Registers(kernels::registers(kernel)?),
        Call::Peek(pid, address, length) => {
            Answer::Bytes(kernels::peek(kernel, pid, address, length)?)
        }
        Call::Signal => taken(kernels::signal(kernel)),
        Call::IsKilled => Answer::Is(kernels::is_killed(kernel)),
        Call::Ended => ended(kernel)?,
        _ => Answer::Nothing,
    })
}

fn told(kernel: &mut Kernel, call: Call) -> Result<Answer, AllocError> {
    match changed(kernel, call) {
        Answer::Nothing => seen(kernel, call),
        answer => Ok(answer),
    }
}

/// How many rows tell what they should, up to the first that doesn't.
fn followed(kernel: &mut Kernel, rows: &[Row]) -> Result<usize, AllocError> {
    let mut count = 0usize;
    for (call, wanted) in rows {
        if told(kernel, *call)? != *wanted {
            break;
        }
        count = count.saturating_add(1);
    }
    Ok(count)
}

#[test]
fn scripts(rt: HostRuntime) -> Result<(), Fail> {
    for rows in [
        TURNS.as_slice(),
        ONE_BY_ONE.as_slice(),
        BY_TWO.as_slice(),
        SET_AT_BIRTH.as_slice(),
        SET_LATER.as_slice(),
        SET_IN_RUN.as_slice(),
        JOINED_TOO_EARLY.as_slice(),
        JOINED_AT_ITS_EXIT.as_slice(),
        JOINED_TOO_LATE.as_slice(),
        TAKEN.as_slice(),
        DROPPED.as_slice(),
        TAKEN_BACK.as_slice(),
        KILLED.as_slice(),
        NOT_KILLED.as_slice(),
    ] {
        let mut kernel = without_files(rt.alloc())?;
        let followed = followed(&mut kernel, rows);
        drop(kernel);
        assert_eq!(rt; followed?, rows.len());
    }
    Ok(())
}
