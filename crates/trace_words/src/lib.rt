//! What the command line of a traced run asks for: how it is traced, and its plan.
#![tactic(auto)]

mod asked;
mod copies;
mod option_fault;
mod options;
mod plan;
mod words;

pub use asked::{TraceOptions, Workers};
pub use option_fault::OptionFault;
pub use options::trace_options;
pub use plan::{Plan, read_plan};
pub use words::COMMAND_LINE;
