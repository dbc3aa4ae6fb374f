//! A whole run of the tracer over a link: what it asks goes to a host, what it prints to a writer, until nobody is left
//! or the schedule ends.
//!
//! `run_local` has the host in this process and keeps the trace; `trace_local` writes it as it comes; `run` takes any
//! link, as that to a child process over pipes.
//!
//! ```text
//! let run = run_local(alloc, boot, Schedule::list(events), script, options)?;
//! out.write_all(run.trace.as_slice())?;
//! if let Ended::OutOfTurns = run.ended { .. }
//! ```
#![tactic(auto)]

pub mod laws;
pub mod local;
pub mod running;
mod trace_sink;
mod written;

pub use local::{Local, run_local, trace_local};
pub use running::{Ended, RunFault, run, run_counting, run_tracer};
pub use trace_sink::TraceSink;
pub use written::Written;
