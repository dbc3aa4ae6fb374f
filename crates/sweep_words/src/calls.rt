//! Calls and errors by their names.

use lx_abi::calls::call_name;
use lx_abi::{Call, Errno};
use std::alloc::{AllocError, Global};

/// The name of a call; of one that has none as a trace shows it.
pub fn name_of(alloc: Global, number: u64) -> Result<String, AllocError> {
    match call_name(number) {
        Some(name) => format!(in alloc; "{name}"),
        None => format!(in alloc; "syscall_{number:#x}"),
    }
}

/// The name of an error; of one that has none its number.
pub fn error_name(alloc: Global, error: Errno) -> Result<String, AllocError> {
    match error.name() {
        Some(name) => format!(in alloc; "{name}"),
        None => format!(in alloc; "{}", error.number),
    }
}

/// A call that no trace shows, by its registers.
pub fn raw_text(alloc: Global, call: &Call) -> Result<String, AllocError> {
    let mut text = name_of(alloc, call.number)?;
    for (place, argument) in call.arguments.iter().enumerate() {
        let mark = if place == 0 { "(" } else { ", " };
        let part = format!(in alloc; "{mark}{argument:#x}")?;
        text.push_str(part.as_str())?;
    }
    text.push(')')?;
    Ok(text)
}
