//! A message and its number.

use lx_abi::{Reply, Request};

/// The least that stands behind a frame's length, in bytes: a number and a kind.
pub const SHORTEST: usize = 9;

/// The most that stands behind it.
pub const LONGEST: usize = 134_217_728;

/// What a frame carries.
#[derive(Drop)]
pub enum Payload {
    Request(Request),
    Reply(Reply),
}

/// A request, or the reply to the request of the same number.
#[derive(Drop)]
pub struct Frame {
    pub number: u64,
    pub body: Payload,
}
