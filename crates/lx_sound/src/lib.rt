//! Laws of all reachable states: that they stay sound, that entries are few, that limits stay, that what a process has
//! to do fits, and that no SIGCONT is lost.
#![tactic(auto)]

pub mod laws;
