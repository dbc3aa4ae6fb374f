//! Schedules: which event of a traced host, or turn of an untraced kernel, comes next; and why a run is out of turns.
#![tactic(auto)]

pub mod cycle;
pub mod laws;
pub mod queue;
pub mod schedule;
pub mod system;
mod untraced;
mod waits;
mod worded;
pub mod written;

pub use cycle::next_able;
pub use queue::TurnQueue;
pub use schedule::{Schedule, TurnRun};
pub use system::Schedulable;
pub use waits::{explain_limit, explain_turns, explain_waits};
pub use written::{WordText, event_word, write_word, written_words};
