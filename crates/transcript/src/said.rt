//! What is said.

use lx_abi::{Reply, Request};

/// A request that was put, or the reply to it. No value of it is made.
#[derive(Drop)]
pub enum Said {
    Asked(Request),
    Answered(Reply),
}
