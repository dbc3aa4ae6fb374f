//! The commands of the host of guests: runs a program on the plain kernel, serves a tracer, or assembles a program.
#![tactic(auto)]

mod asm;
mod drill_words;
mod drills;
mod entry;
mod plain;
mod plan;
mod serving;
mod watched;
mod words;

pub use entry::command;
pub use words::COMMAND_LINE;
