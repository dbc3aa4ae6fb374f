//! Links between a tracer and a host.
#![tactic(auto)]

pub mod child;
pub mod fault;
mod fits;
pub mod laws;
pub mod link;
pub mod local;
pub mod pipe;
pub mod recorded;
pub mod streams;

pub use child::{ChildLink, Left};
pub use fault::LinkFault;
pub use link::Link;
pub use local::LocalLink;
pub use pipe::PipeLink;
pub use recorded::Recorded;
pub use streams::Streams;
