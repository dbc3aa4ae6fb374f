//! The trace of a run without a tracer, as strace(1) prints it.
#![tactic(auto)]

pub mod laws;
pub mod part;
pub mod reading;
pub mod running;
pub mod trace;

pub use running::run;
pub use trace::Trace;
