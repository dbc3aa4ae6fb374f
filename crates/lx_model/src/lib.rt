//! The mode table of a process and the kernel of many, over any machine: definitions, and their laws as
//! public functions with empty bodies.
#![tactic(auto)]

pub mod event;
pub mod laws;
pub mod stage;

pub use event::PtraceEvent;
pub use stage::{Stage, Task};
