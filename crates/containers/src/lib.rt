//! Bytes, lists and maps that grow, which contracts see as what they hold.
#![tactic(auto)]

pub mod bytes;
pub mod content;
pub mod map;
pub mod seq;

pub use bytes::Bytes;
pub use content::Content;
pub use map::Map;
pub use seq::Seq;
