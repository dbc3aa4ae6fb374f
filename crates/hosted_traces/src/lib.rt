//! A traced run over a host in a process of its own.
#![tactic(auto)]

pub mod laws;
