//! Which failures a sweep tries.

use crate::known::Occurrence;
use lx_abi::{Errno, Set};

/// The errors that calls are to fail with.
#[derive(Drop)]
pub enum Errors {
    /// Those that an occurrence can have.
    Possible,
    These(Vec<Errno>),
}

/// Calls that are to fail, and the errors that they are to fail with.
#[derive(Drop)]
pub struct Wanted {
    pub calls: Set,
    pub errors: Errors,
}

/// An occurrence of a call, and the error that it fails with.
#[derive(Clone, Copy, Debug, PartialEq, Eq)]
pub struct Case {
    pub occurrence: Occurrence,
    pub error: Errno,
    /// The error tells that data was lost.
    pub tells: bool,
}
