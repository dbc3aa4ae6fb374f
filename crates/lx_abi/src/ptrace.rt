//! What a tracer asks of a host and what it is answered, by the names of ptrace(2) and wait(2).

ghost use Rattle.std.specs.Prelude.{◌≡◌, ◌≤◌};
ghost use Rattle.lx_abi.specs.Options.{bits_where as bits_where_of};

use crate::boot::Boot;
use crate::boxed::Boxed;
use crate::outcome::Outcome;
use crate::register_set::RegisterSet;
use crate::schedule::Word;
use crate::status::Status;
use containers::{Bytes, Seq};

/// pc and x1 to x31 (RISC-V Unprivileged ISA, section 2.1), as PTRACE_GETREGSET has them.
pub type Registers = [u64; 32];

/// A tracee's options (ptrace(2), PTRACE_SETOPTIONS).
#[derive(Clone, Copy, Debug, PartialEq, Eq)]
pub struct TraceOptions {
    /// TRACESYSGOOD: a syscall stop can be told from a SIGTRAP.
    pub good: bool,
    /// TRACEFORK: a child becomes a tracee.
    pub forks: bool,
    /// TRACEEXEC: a successful execve is reported.
    pub execs: bool,
}

impl TraceOptions {
    ghost use Rattle.std.specs.Prelude.{◌≡◌};
    ghost use Rattle.lx_abi.specs.Options.{trace_options, option_bits};

    pub const TRACESYSGOOD: u32 = 1;

    pub const TRACEFORK: u32 = 2;

    pub const TRACEEXEC: u32 = 0x10;

    /// The bits of all options.
    pub const ALL: u32 = 0x13;

    /// The options of these bits; none where there are other bits.
    pub fn from_bits(bits: u32) -> Option<TraceOptions>
        ensures { result ≡ trace_options bits }
    {
        if bits & Self::ALL == bits {
            Some(TraceOptions {
                good: bits & Self::TRACESYSGOOD == Self::TRACESYSGOOD,
                forks: bits & Self::TRACEFORK == Self::TRACEFORK,
                execs: bits & Self::TRACEEXEC == Self::TRACEEXEC,
            })
        } else {
            None
        }
    }

    /// Their bits.
    pub fn bits(self) -> u32
        ensures { result ≡ option_bits self }
    {
        bits_where(self.good, Self::TRACESYSGOOD)
            + bits_where(self.forks, Self::TRACEFORK)
            + bits_where(self.execs, Self::TRACEEXEC)
    }
}

fn bits_where(is_set: bool, bits: u32) -> u32
    ensures value { result ≡ bits_where_of is_set bits }
    ensures within { result ≤ bits }
{
    if is_set { bits } else { 0 }
}

/// A ptrace(2) request to one process.
#[derive(Drop)]
pub enum Ask {
    /// Begins to trace, with the bits of [`TraceOptions`].
    Seize { options: u32 },
    SetOptions { options: u32 },
    GetRegs,
    SetRegs { registers: RegisterSet },
    /// Reads memory, 1 to 4,096 bytes.
    Peek { address: u64, length: u32 },
    /// Resumes with a signal's number, 0 for none.
    Syscall { signal: u32 },
    /// The child of the last EVENT_FORK, or the process's own pid after an EVENT_EXEC.
    EventMsg,
    SigInfo,
    /// Lets go at a group stop: the tracee stays stopped until SIGCONT.
    Listen,
}

/// What a tracer asks of a host, one at a time.
#[derive(Drop)]
pub enum Request {
    /// What the run begins with, how many events it may have, and the words of its schedule. It comes first, and once.
    Boot {
        boot: Boxed<Boot>,
        limit: u64,
        words: Seq<Word>,
    },
    /// wait(2), for any tracee.
    Wait,
    To {
        pid: u32,
        ask: Ask,
    },
    /// What is left of the run. It ends the run.
    Outcome,
}

/// A taken signal, as siginfo_t of sigaction(2) tells it.
#[derive(Clone, Copy, Debug, PartialEq, Eq)]
pub struct Info {
    pub signal: u32,
    pub code: u32,
    pub pid: u32,
    /// A child's exit code or signal.
    pub status: u32,
    pub address: u64,
}

#[derive(Drop)]
pub enum Reply {
    Done,
    Status { pid: u32, status: Status },
    Registers { registers: RegisterSet },
    /// The longest mapped run of what was asked for.
    Bytes { bytes: Bytes },
    /// The answer to [`Ask::EventMsg`].
    Message { pid: u64 },
    Info { info: Info },
    Outcome { outcome: Boxed<Outcome> },
    /// An error of errno(3), by its number.
    Errno { number: u32 },
    /// The schedule has no more events.
    OutOfTurns,
    /// The boot is not accepted, for the cause with this number.
    Refused { fault: u8 },
}
