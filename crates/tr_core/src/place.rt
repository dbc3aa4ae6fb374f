//! What a tracer knows of a tracee, and what it is asking.

use lx_abi::{Boxed, Call, Outcome, RegisterSet};
use pt_model::Standing;
use tr_args::Decoder;

/// What is known of one tracee, beside how often it entered each call.
#[derive(Clone, Copy, Debug, PartialEq, Eq)]
pub struct Tracee {
    pub inside: bool,
    pub called: Call,
    pub saved: Option<u64>,
    pub standing: Standing,
}

impl Tracee {
    /// Nothing is known.
    pub const UNMET: Tracee = Tracee {
        inside: false,
        called: Call {
            number: u64::MAX,
            arguments: [0; 6],
        },
        saved: None,
        standing: Standing::Unmet,
    };
}

/// What is being asked of the tracee in hand.
#[derive(Drop)]
pub enum Awaiting {
    Seizing,
    EntryRegs,
    EntryPeek {
        registers: RegisterSet,
        decoder: Box<Decoder>,
        want: (u64, u32),
    },
    EntrySet {
        registers: RegisterSet,
        signal: u32,
    },
    ExitRegs,
    ExitSet {
        registers: RegisterSet,
        result: u64,
    },
    ExitPeek {
        result: u64,
        replaced: bool,
        decoder: Box<Decoder>,
        want: (u64, u32),
    },
    SignalInfo {
        signal: u32,
    },
    Resuming {
        signal: u32,
    },
    /// Letting go at a group stop.
    Listening,
}

/// What is asked now.
#[derive(Drop)]
pub enum Focus {
    /// The reply to Boot comes first.
    Booting,
    Waiting,
    Serving { pid: u32, place: Awaiting },
    AskingOutcome,
    Over(Boxed<Outcome>),
    TurnsOver,
    Faulted,
}
