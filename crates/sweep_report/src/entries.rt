//! Which entries into a call are meant: those of the first process by their number, those of another by its pid too.

use crate::texts::{push_part, ranges};
use std::alloc::{AllocError, Global};

/// Entries of more processes than fit into so many bytes are counted.
const MOST_SHOWN: usize = 24;

/// The nth entry of a process into a call.
#[derive(Clone, Copy, Debug, PartialEq, Eq, PartialOrd, Ord)]
pub struct Entry {
    pub pid: u32,
    pub n: u64,
}

/// Entries in the order of their processes, each once.
pub fn rising(entries: &mut Vec<Entry>) -> Result<(), AllocError> {
    entries.sort()?;
    entries.dedup();
    Ok(())
}

/// A process's entries into a call.
fn process_text(alloc: Global, pid: u32, numbers: &[u64]) -> Result<String, AllocError> {
    let numbers = ranges(alloc, numbers)?;
    if pid == 1 {
        format!(in alloc; "#{numbers}")
    } else {
        format!(in alloc; "@{pid}#{numbers}")
    }
}

/// The numbers of a process's entries.
fn numbers_of(alloc: Global, entries: &[Entry], pid: u32) -> Result<Vec<u64>, AllocError> {
    let mut numbers = Vec::new(alloc);
    for entry in entries {
        if entry.pid == pid {
            numbers.push(entry.n)?;
        }
    }
    Ok(numbers)
}

/// An entry.
pub fn entry_text(alloc: Global, entry: Entry) -> Result<String, AllocError> {
    process_text(alloc, entry.pid, &[entry.n])
}

/// Rising entries: those of each process as ranges; of many processes the first ones, and how many entries there are.
pub fn entries_text(alloc: Global, entries: &[Entry]) -> Result<String, AllocError> {
    let mut pids = Vec::new(alloc);
    for entry in entries {
        pids.push(entry.pid)?;
    }
    pids.dedup();
    let mut text = String::new(alloc);
    for pid in pids.iter().copied() {
        if text.len() > MOST_SHOWN {
            return format!(in alloc; "{text}.. ({})", entries.len());
        }
        let numbers = numbers_of(alloc, entries, pid)?;
        let own = process_text(alloc, pid, numbers.as_slice())?;
        push_part(&mut text, own.as_str(), " ")?;
    }
    Ok(text)
}
