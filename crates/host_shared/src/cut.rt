//! Why a host is out of turns.

/// Why a host is out of turns.
#[derive(Clone, Copy, Debug, PartialEq, Eq)]
pub enum Cut {
    /// Its journal is as long as its limit.
    Limit,
    /// A request waits, and no process is able.
    Nobody,
    /// A worker's gate was shut.
    Gate,
}
