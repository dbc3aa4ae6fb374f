//! What a tracer has to do with a process.

use lx_abi::{Stop, TraceOptions};

/// A stop, until Wait has told of it.
#[derive(Clone, Copy, Debug, PartialEq, Eq)]
pub struct Report {
    pub pid: u32,
    pub stop: Stop,
}

/// What a host keeps of a process that is held, or a tracee.
#[derive(Clone, Copy, Debug, PartialEq, Eq)]
pub struct Traced {
    /// In a stop, and not resumed.
    pub held: bool,
    /// Its options, where it is a tracee.
    pub options: Option<TraceOptions>,
    /// What EventMsg answers: the child, or after an execve the pid itself; 0 at first.
    pub message: u32,
}
