//! The command that makes each call of a guest fail in turn, or tries orders of its turns: the runs, and how far they
//! are.
#![tactic(auto)]

mod cases;
mod checking;
mod choosing;
mod deep;
mod entry;
mod judging;
mod keeping;
mod knowing;
pub mod laws;
mod naming;
mod nothing;
mod orders;
mod outputs;
mod progress;
mod reference;
mod rows;
mod show;
mod show_trial;
mod started;
mod sweeping;
mod telling;
mod trials;

pub use entry::command;
pub use sweep_words::words::COMMAND_LINE;
