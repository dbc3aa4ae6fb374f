//! Runs of a sweep as strace(1) shows them: the one without a failure, and those with one or two.
#![tactic(auto)]

mod calling;
pub mod deep;
mod events;
pub mod failing;
mod programs;
mod tracing;

pub use deep::show_deep;
pub use failing::{ShownRun, show_failing};
pub use tracing::{shown_options, traced_calls};
