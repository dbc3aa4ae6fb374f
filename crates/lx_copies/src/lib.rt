//! Copies of boots, requests and replies, and whether two boots, requests or files are the same.
#![tactic(auto)]

mod boots;
pub mod copied;
mod replies;
mod requests;
pub mod same;

pub use copied::Copied;
pub use same::Same;
