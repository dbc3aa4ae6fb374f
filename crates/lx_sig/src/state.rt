//! What a process keeps of its signals.

use crate::pending::Pending;

/// What a process does with a signal that it takes (sigaction(2), struct sigaction).
#[derive(Clone, Copy, Debug, PartialEq, Eq)]
pub struct Action {
    /// The address of a handler, or SIG_DFL, 0, or SIG_IGN, 1.
    pub handler: u64,
    pub flags: u64,
    /// What is blocked too while the handler runs.
    pub mask: Mask,
}

/// A set of signals: signal n is bit n - 1.
pub type Mask = u64;

/// Actions, by the number of their signal. Nothing has the number 0.
pub type Actions = [Action; 32];

/// Whether a process is at a stop signal, which it has taken or by which it is stopped, and whether SIGCONT was sent to
/// it since.
#[derive(Clone, Copy, Debug, PartialEq, Eq)]
pub enum Job {
    Free,
    AtStop { continued: bool },
}

/// The signals of a process.
#[derive(Clone, Copy, Debug, PartialEq, Eq)]
pub struct Signals {
    pub pending: Pending,
    /// Those that are blocked.
    pub mask: Mask,
    pub actions: Actions,
    pub job: Job,
}

/// Where an interrupted call was made: pc and a0 at its ecall.
#[derive(Clone, Copy, Debug, PartialEq, Eq)]
pub struct Interrupted {
    pub pc: u64,
    pub a0: u64,
}
