//! The ptrace machine, the tracer and the world of both, over any machine: definitions, and their laws as public
//! functions with empty bodies.
#![tactic(auto)]

pub mod laws;
pub mod ptrace;
pub mod rows;
pub mod standing;

pub use ptrace::{Report, Traced};
pub use standing::Standing;
