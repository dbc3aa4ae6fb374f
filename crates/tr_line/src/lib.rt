//! The lines of a trace, as strace(1) prints them.
#![tactic(auto)]

mod ends;
mod laws;
pub mod layout;
mod lines;
pub mod open_calls;
mod printer;
mod results;
mod signals;
mod text;

pub use laws::{printer_writes_the_rendering, printing_is_the_rendering, renderings_grow};
pub use layout::{Layout, Open};
pub use printer::Printer;
