//! A message frame between a tracer and its host, and its bytes.
#![tactic(auto)]

pub mod fault;
pub mod frame;
pub mod laws;
mod reading;
mod sizing;
mod writing;

pub use fault::WireFault;
pub use frame::{Frame, LONGEST, Payload, SHORTEST};
pub use reading::decode;
pub use writing::encode;
