//! The traced kernel: the ptrace machine around Linux, by the events of a schedule.
#![tactic(auto)]

pub mod answers;
pub mod attending;
pub mod eager;
pub mod events;
pub mod host;
pub mod laws;
pub mod pending;
pub mod queue;
pub mod serving;
pub mod stops;
pub mod tracees;

pub use answers::info_of;
pub use attending::attend;
pub use events::{EventRow, Events};
pub use host::{Busy, Host};
pub use pt_schedule::{Schedule, TurnRun};
pub use turn_rows::Turns;
