//! Why serving ended before the end of input.

ghost use Rattle.std.specs.Prelude.{◌≡◌};
ghost use Rattle.host_serve.specs.Numbers.{number_of};

use thiserror::Error;

/// Why a host serves no longer. Nothing is answered after it.
#[derive(Clone, Copy, Debug, PartialEq, Eq, Error)]
pub enum ServeFault {
    /// The reader failed, or there were 2^40 frames.
    #[error("the requests could not be read")]
    Read = 1,
    #[error("a reply could not be written")]
    Write = 2,
    /// The bytes are no frames, or a reply is too long for one.
    #[error("a frame is malformed, or a reply too long for one")]
    Wire = 3,
    /// The first frame is no Boot, a later one is, a frame comes after a refused boot, a number is wrong,
    /// or a reply was sent.
    #[error("a frame came out of order")]
    Order = 4,
    #[error("memory ran out")]
    Failed = 5,
}

impl ServeFault {
    /// The number by which programs show the fault.
    pub fn number(self) -> u8
        ensures { result ≡ number_of self }
    {
        self as u8
    }
}
