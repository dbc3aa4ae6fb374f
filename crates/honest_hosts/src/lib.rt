//! Laws of what an honest host tells: each of its replies can be read.
#![tactic(auto)]

pub mod laws;
