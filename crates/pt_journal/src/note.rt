//! What a journal is made of.

use history::History;
use lx_abi::{Reply, Request};

/// One thing that was done to a host. It takes no memory for what was asked and replied, which proofs alone read.
#[derive(Drop)]
pub enum Note {
    /// A request was put.
    Asked(History<Request>),
    /// It was served, with this reply.
    Served(History<Reply>),
    /// A process had a turn.
    Turned(u32),
}
