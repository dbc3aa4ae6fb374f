//! What a tracer is to the loop that runs it.

ghost use Rattle.std.specs.Prelude.{◌≡◌, ◌≤◌, ◌^◌, ℕ};
ghost use Rattle.tr_core.specs.Faults.{fault_number};
ghost use Rattle.tr_core.specs.States.{taken_of, Hears};

use containers::Bytes;
use lx_abi::{Reply, Request};
use thiserror::Error;

/// What to print, and what to ask then.
#[derive(Drop)]
pub enum Act {
    Ask {
        bytes: Bytes,
        request: Request,
        /// The trace may rest behind the bytes; else they end in the entry of a call that can't wait, and more of its
        /// line comes at once.
        rests: bool,
    },
    Finished {
        bytes: Bytes,
    },
}

/// Why a tracer goes on no more. It answers the same from then on.
#[derive(Clone, Copy, Debug, PartialEq, Eq, Error)]
pub enum TraceFault {
    /// No host that follows ptrace(2) and wait(2) gives this reply at this place.
    #[error("the host's reply is not one that a host gives")]
    Inadmissible = 1,
    #[error("memory ran out")]
    Memory = 2,
}

impl TraceFault {
    /// The number by which programs show the fault.
    pub fn number(self) -> u8
        ensures { result ≡ fault_number self }
    {
        self as u8
    }
}

/// A tracer, one reply at a time.
pub trait Tracing {
    ghost use Rattle.tr_core.specs.States.{State};

    /// The definitions' tracer that it is.
    ghost state: { Self → State };

    /// What to print and to ask after a reply. The first is Boot's Done.
    fn next(&mut self, reply: Reply) -> Result<Act, TraceFault>
        requires { taken_of (state self.old) ≤ 2 ^ 40 }
        ensures { Hears (state self.old) reply result (state self.new) };

    /// How many replies it took without a fault.
    fn taken(&self) -> u64
        ensures { result ≡ taken_of (state self.now) };
}
