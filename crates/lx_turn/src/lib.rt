//! One turn of one process: the mode table at Linux.
#![tactic(auto)]

mod calls;
pub mod injection;
pub mod laws;
mod signals;
pub mod stages;
pub mod turning;

pub use injection::Injection;
pub use signals::is_killed;
pub use turning::{Transition, mode_of_gone, turn_task};
