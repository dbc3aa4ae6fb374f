//! Programs: execve, and the memory and registers that a program starts with.
#![tactic(auto)]

pub mod execve;
pub mod pages;
mod programs;

pub use programs::{begin_program, begin_stub, start_fits};
