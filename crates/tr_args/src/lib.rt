//! The texts of calls' arguments, as strace(1) shows them.
#![tactic(auto)]

mod arguments;
mod buffers;
mod context;
mod decoder;
mod environments;
pub mod halves;
mod kinds;
mod laws;
mod lists;
mod paths;
mod progress;

pub use context::Context;
pub use decoder::{Decoder, made};
pub use halves::Half;
pub use laws::texts_are_whole;
