//! Runs over a pipe to a host in another process, by the untraced kernel.
#![tactic(auto)]

pub mod laws;
