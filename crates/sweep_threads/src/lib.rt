//! The runs of a sweep in several threads.
#![tactic(auto)]

pub mod batches;
pub mod splitting;

pub use batches::rows_on_threads;
