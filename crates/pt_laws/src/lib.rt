//! Laws of all states of the ptrace machine, whoever its client is: no stop is forgotten, and a polite client is told
//! each once.
#![tactic(auto)]

pub mod laws;
