//! Why a run on threads gives none.

ghost use Rattle.std.specs.Prelude.{◌≡◌};
ghost use Rattle.trace_threads.specs.Idle.{NoneIsIdle, NoneIsStill};
ghost use Rattle.trace_threads.specs.ThreadRuns.{fault_by};

use host_link::LinkFault;
use lx_boot::BootFault;
use lx_proc::{Shared, UserState};
use pt_journal::laws::journals_tell;
use thiserror::Error;
use tr_core::TraceFault;
use trace_run::RunFault;

#[derive(Clone, Copy, Debug, PartialEq, Eq, Error)]
pub enum ThreadsFault {
    /// The boot's fault, or Memory where memory ran out anywhere.
    #[error("{0}")]
    Boot(BootFault),
    #[error("a thread did not start")]
    Start,
    /// The run isn't the one that the journal tells, or the link or the tracer met another fault.
    #[error("the run is not the one that the host's journal tells")]
    Unlike,
}

/// The fault of a run that failed, whose trace is kept in memory.
pub fn threads_fault(fault: RunFault) -> ThreadsFault
    ensures { result ≡ fault_by fault }
{
    match fault {
        RunFault::Link(LinkFault::Memory)
        | RunFault::Trace(TraceFault::Memory)
        | RunFault::Output => ThreadsFault::Boot(BootFault::Memory),
        RunFault::Link(_) | RunFault::Trace(_) => ThreadsFault::Unlike,
    }
}

/// A run that is out of turns, by a gate that is never shut, has made an event, and where its limit let it, a turn.
pub fn none_is_idle()
    ensures event { NoneIsIdle }
    ensures turn { NoneIsStill }
{
    journals_tell::<Shared, UserState>();
}
