//! Laws of the two ends of a pipe: what a host wrote, and a link that reads it.
#![tactic(auto)]

pub mod laws;
