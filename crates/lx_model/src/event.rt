//! What a turn did beside its mode and its item.

ghost use Rattle.std.specs.Prelude.{◌≡◌};
ghost use Rattle.lx_model.specs.Events.{by_pid};

/// What a call did beside its result, which a tracer may be told of (ptrace(2), PTRACE_O_TRACEFORK and
/// PTRACE_O_TRACEEXEC); N says who was born.
#[derive(Clone, Copy, Debug, PartialEq, Eq, Drop)]
pub enum PtraceEvent<N> {
    Plain,
    /// An execve succeeded.
    Execed,
    /// A child was born.
    Forked(N),
}

impl<N> PtraceEvent<N> {
    /// The same, where who was born is said by the pid.
    pub fn by_pid(&self, child: u32) -> PtraceEvent<u32>
        ensures { result ≡ by_pid child self.now }
    {
        match self {
            PtraceEvent::Plain => PtraceEvent::Plain,
            PtraceEvent::Execed => PtraceEvent::Execed,
            PtraceEvent::Forked(_) => PtraceEvent::Forked(child),
        }
    }
}
