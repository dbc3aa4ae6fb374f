//! What a tracer and its host said to each other, as each thread knows it; proofs alone read it.
#![tactic(auto)]

pub mod record;
pub mod said;

pub use record::{Naming, Opened, Record, Transcript};
pub use said::Said;
