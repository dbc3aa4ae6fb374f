//! Journals of a host: what was asked, and the events with their replies; and what a run of the tracer over such a
//! host is told by its journal.
#![tactic(auto)]

pub mod entry;
pub mod journal;
pub mod laws;
pub mod note;

pub use entry::Entry;
pub use journal::Journal;
pub use note::Note;
