//! Status words of wait(2).

ghost use Rattle.std.specs.Prelude.{◌≡◌};
ghost use Rattle.lx_abi.specs.Status.{stop_by, end_by};

use crate::signal::Signal;

/// PTRACE_EVENT_FORK, PTRACE_EVENT_EXEC and PTRACE_EVENT_STOP of ptrace(2).
#[derive(Clone, Copy, Debug, PartialEq, Eq)]
pub enum EventStop {
    Fork,
    Exec,
    Stop,
}

/// Why a tracee is reported.
#[derive(Clone, Copy, Debug, PartialEq, Eq)]
pub enum Stop {
    /// A syscall stop; `good` under PTRACE_O_TRACESYSGOOD.
    Syscall { good: bool },
    /// A signal-delivery stop.
    Signal { signal: Signal },
    /// A group stop by this signal.
    Group { signal: Signal },
    Event { event: EventStop },
    /// It has ended: its exit code times 256, or the number of the signal that killed it.
    Ended { word: u32 },
}

/// What wait(2) stores of a tracee, as it came.
#[derive(Clone, Copy, Debug, PartialEq, Eq)]
pub struct Status {
    pub word: u32,
}

/// What stands above the low byte of a stopped tracee's word.
fn stopped_by(high: u32) -> Option<Stop>
    ensures { result ≡ stop_by high }
{
    match high {
        0x85 => Some(Stop::Syscall { good: true }),
        0x105 => Some(Stop::Event {
            event: EventStop::Fork,
        }),
        0x405 => Some(Stop::Event {
            event: EventStop::Exec,
        }),
        0x8005 => Some(Stop::Event {
            event: EventStop::Stop,
        }),
        0x8013..=0x8016 => {
            Signal::from_number(u64::from(high - 0x8000)).map(|signal| Stop::Group { signal })
        }
        _ => Signal::from_number(u64::from(high)).map(|signal| Stop::Signal { signal }),
    }
}

fn ended_by(word: u32) -> Option<Stop>
    ensures { result ≡ end_by word }
{
    if (word % 256 == 0 && word < 0x10000) || (0 < word && word < 32) {
        Some(Stop::Ended { word })
    } else {
        None
    }
}

impl Status {
    ghost use Rattle.lx_abi.specs.Status.{stop_of, shell_status_of};

    /// What the word reports of a tracee that has PTRACE_O_TRACESYSGOOD; none for a word of no stop and no end.
    #[tactic(auto, unfolding(crate::specs::Status::stop_of))]
    pub fn stop(self) -> Option<Stop>
        ensures { result ≡ stop_of self.word }
    {
        if self.word % 256 == 0x7f {
            stopped_by(self.word / 256)
        } else {
            ended_by(self.word)
        }
    }

    /// What a shell shows of a process that has ended so: its exit code, or 128 and the signal that ended it.
    pub fn shell_status(self) -> u8
        ensures { result ≡ shell_status_of self.word }
    {
        if self.word % 128 == 0 {
            (self.word / 256 % 256) as u8
        } else {
            128 + (self.word % 128) as u8
        }
    }
}

impl Stop {
    ghost use Rattle.lx_abi.specs.Status.{word_of};

    pub fn status(self) -> Status
        ensures { result.word ≡ word_of self }
    {
        let word = match self {
            Stop::Syscall { good: true } => 0x857f,
            Stop::Syscall { good: false } => 0x57f,
            Stop::Signal { signal } => u32::from(signal.number) * 256 + 0x7f,
            Stop::Group { signal } => u32::from(signal.number) * 256 + 0x80007f,
            Stop::Event {
                event: EventStop::Fork,
            } => 0x1057f,
            Stop::Event {
                event: EventStop::Exec,
            } => 0x4057f,
            Stop::Event {
                event: EventStop::Stop,
            } => 0x80057f,
            Stop::Ended { word } => word,
        };
        Status { word }
    }
}
