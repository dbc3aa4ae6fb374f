//! What is kept of a run beside its trace.

use host_link::ChildLink;
use lx_abi::Occurrences;
use lx_kernel::Kernel;
use pt_kernel::Events;
use pt_schedule::explain_turns;
use std::alloc::Global;
use std::process::OpenProcess;
use trace_run::{Ended, RunFault};
use trace_words::Plan;

/// What is asked for of a run beside its trace.
#[derive(Clone, Copy, Debug)]
pub struct Asked {
    pub events: bool,
    /// The files that it leaves.
    pub files: bool,
    /// Who waits, where the run is out of turns.
    pub waits: bool,
    /// The most events that the run may have.
    pub limit: u64,
}

/// What a run has left of that.
#[derive(Drop)]
pub struct Known {
    pub events: Events,
    /// None where it isn't asked for, and where memory ran out.
    pub waits: Option<String>,
    /// How often each tracee entered each call, where the tracer was in the program's own thread.
    pub counts: Option<Occurrences>,
}

impl Known {
    /// Before the run.
    pub fn none() -> Self {
        Known {
            events: Events::none(),
            waits: None,
            counts: None,
        }
    }
}

/// What is asked for, and what is known of it.
#[derive(Drop)]
pub struct Kept {
    pub asked: Asked,
    pub known: Known,
    /// The same plan once more, where what is asked for is known by it alone.
    pub second: Option<Plan>,
}

/// What stays behind a run until the console is written.
#[derive(Drop)]
pub struct Behind<P: OpenProcess + Drop> {
    pub kept: Kept,
    /// The host that made the run in a process of its own. It is waited for at the end.
    pub link: Option<ChildLink<P>>,
}

/// Who waits in this kernel, where a run that ended so left it and that is asked for.
pub fn waits_in(
    alloc: Global,
    asked: Asked,
    ended: &Result<Ended, RunFault>,
    kernel: &Kernel,
) -> Option<String> {
    match ended {
        Ok(Ended::OutOfTurns) if asked.waits => {
            match explain_turns(alloc, kernel, asked.limit, "events") {
                Ok(text) => Some(text),
                Err(_) => None,
            }
        }
        _ => None,
    }
}
