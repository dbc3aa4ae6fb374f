//! The command that traces a run: where the kernel runs, where the trace and the console go.
#![tactic(auto)]

mod entry;
mod explaining;
mod fault;
mod given;
mod heard;
mod kept;
mod kernel;
pub mod laws;
mod lines;
mod outlet;
mod place;
mod prepared;
mod running;
mod second;
mod threads;
mod trace_file;
mod tracing;
mod turns_out;

pub use entry::command;
pub use trace_words::COMMAND_LINE;
