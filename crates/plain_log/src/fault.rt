//! Why a log wants no more.

use std::io;

#[derive(Debug, Drop)]
pub enum LogFault {
    Memory,
    /// Its writer has failed.
    Output(io::Error),
}
