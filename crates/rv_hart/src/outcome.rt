ghost use Rattle.std.specs.Prelude.{◌≡◌};

/// Why an instruction did not run, as Linux reports it to the process.
#[derive(Clone, Copy, PartialEq, Eq, Debug)]
pub enum FaultKind {
    /// SIGBUS, BUS_ADRALN: the address of an instruction is no multiple of 4.
    Misaligned,
    /// SIGILL, ILL_ILLOPC: a word that is no instruction.
    Illegal,
    /// SIGTRAP, TRAP_BRKPT: EBREAK.
    Breakpoint,
    /// SIGSEGV, SEGV_MAPERR: nothing is mapped at the address.
    Unmapped,
    /// SIGSEGV, SEGV_ACCERR: the page at the address forbids the access.
    Forbidden,
}

impl FaultKind {
    ghost use Rattle.rv_hart.specs.Faults.{signal_number, signal_code};

    /// The number of the signal, as in signal(7).
    pub fn signal(self) -> u8
        ensures { result ≡ signal_number self }
    {
        match self {
            FaultKind::Illegal => 4,
            FaultKind::Breakpoint => 5,
            FaultKind::Misaligned => 7,
            FaultKind::Unmapped | FaultKind::Forbidden => 11,
        }
    }

    /// The signal's `si_code`, as in sigaction(2).
    pub fn code(self) -> u8
        ensures { result ≡ signal_code self }
    {
        match self {
            FaultKind::Forbidden => 2,
            _ => 1,
        }
    }
}

/// What one step did.
#[derive(Clone, Copy, PartialEq, Eq, Debug)]
pub enum Step {
    /// An instruction ran.
    Ran,
    /// An ECALL stands at pc, which has not passed it.
    Call,
    /// Nothing ran. The address is that of the instruction, of a jump's target, or of the first byte
    /// of the memory that refused the access.
    Fault { kind: FaultKind, address: u64 },
}
