//! The log of a run without a tracer, as it is printed
#![tactic(auto)]

mod fault;
mod line;
mod log;
mod room;

pub use fault::LogFault;
pub use log::{Log, run};
