//! The errors that a sweep tries of each call by `--errors all`: those that Linux's manual page of the call gives and
//! that a program which passes sound arguments can meet, by its files, its limits, memory and signals.
#![tactic(auto)]

pub mod table;

pub use table::{errors_of, rows};
