//! In which order processes take turns and requests are served.

/// One step of a host: a turn of a process, or the pending request served whole.
#[derive(Clone, Copy, Debug, PartialEq, Eq)]
pub enum Event {
    Turn { pid: u32 },
    Serve,
}

/// A word of a schedule.
#[derive(Clone, Copy, Debug, PartialEq, Eq)]
pub enum Word {
    /// `p`: a turn, then requests are served while one is ready.
    Turn { pid: u32 },
    /// `-p`: a turn alone.
    TurnAlone { pid: u32 },
    /// `s`: a request is served.
    Serve,
    /// `p.`: turns as by `p`, until a call has left the kernel or the process isn't able.
    UntilReturn { pid: u32 },
}
