//! What the kernel logs of its processes.

use crate::signal::Signal;

/// Where a process stands between two turns.
#[derive(Clone, Copy, Debug, PartialEq, Eq)]
pub enum Mode {
    Born,
    Run,
    Faulting,
    Entered,
    Doing,
    Acted,
    Finished,
    Taken,
    /// In a group stop, until SIGCONT (signal(7)).
    Stopped,
    /// SIGCONT has ended a group stop.
    Woken,
    Dying,
    Zombie,
}

/// Why a signal came, as `si_code` of sigaction(2) tells it.
#[derive(Clone, Copy, Debug, PartialEq, Eq)]
pub enum Cause {
    /// kill(2), or a write to a pipe without readers, by this process.
    Sent { pid: u32 },
    /// The kernel itself: a signal that a script joins.
    Kernel,
    /// A child exited with this code.
    Exited { pid: u32, code: u8 },
    /// A child was killed by the signal with this number.
    Killed { pid: u32, signal: u8 },
    /// A child was stopped by the signal with this number.
    Stopped { pid: u32, signal: u8 },
    /// A stopped child was continued by SIGCONT.
    Continued { pid: u32 },
    /// An instruction, with the signal's code and the address.
    Fault { code: u8, address: u64 },
}

/// A system call as it is read from the registers a7 and a0 to a5.
#[derive(Clone, Copy, Debug, PartialEq, Eq)]
pub struct Call {
    pub number: u64,
    pub arguments: [u64; 6],
}

/// What the kernel writes down, at most once a turn.
#[derive(Clone, Copy, Debug, PartialEq, Eq)]
pub enum Item {
    Enter {
        pid: u32,
        call: Call,
    },
    /// A call's result as a word, and whether a script gave it.
    Done {
        pid: u32,
        call: Call,
        result: u64,
        replaced: bool,
    },
    Taken {
        pid: u32,
        signal: Signal,
        cause: Cause,
    },
    /// A taken signal has stopped the process.
    Stopped {
        pid: u32,
        signal: Signal,
    },
    /// The wait word of wait(2), and the mode that was left.
    Exit {
        pid: u32,
        word: u32,
        left: Mode,
    },
}
