//! Why a link gives no reply.

ghost use Rattle.std.specs.Prelude.{◌≡◌};
ghost use Rattle.host_link.specs.Faults.{fault_number};

use thiserror::Error;

#[derive(Clone, Copy, Debug, PartialEq, Eq, Error)]
pub enum LinkFault {
    /// The host's replies ended, within one too, or the host didn't start; and every call after a fault.
    #[error("the host has ended, or did not start")]
    Ended = 1,
    #[error("the host's replies could not be read")]
    Read = 2,
    #[error("the request could not be written")]
    Write = 3,
    /// No reply can be read from the bytes, or the request's own frame is too long.
    #[error("the host's reply is malformed")]
    Malformed = 4,
    /// The reply has the number of another request.
    #[error("the host's reply answers another request")]
    Sequence = 5,
    /// The reply is of a kind that doesn't answer the request.
    #[error("the host's reply is of the wrong kind")]
    Inadmissible = 6,
    #[error("memory ran out")]
    Memory = 7,
    /// There were 2^40 replies.
    #[error("there were too many requests")]
    TooMany = 8,
}

impl LinkFault {
    /// The number by which programs show the fault.
    pub fn number(self) -> u8
        ensures { result ≡ fault_number self }
    {
        self as u8
    }
}
