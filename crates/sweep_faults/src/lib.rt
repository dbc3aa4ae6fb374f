//! A run of the untraced kernel by a schedule in which one call of one process fails.
#![tactic(auto)]

pub mod courses;
pub mod deep;
pub mod due;
pub mod entries;
pub mod failing;
pub mod faults;
pub mod heard;
pub mod laws;
pub mod leading;
pub mod moving;
pub mod processes;
pub mod running;
pub mod words;

pub use deep::{Deep, run_deep};
pub use faults::{Fault, Place};
pub use heard::Heard;
pub use leading::run_up_to;
pub use running::run_faulted;
pub use words::{failure_of, has_words};
