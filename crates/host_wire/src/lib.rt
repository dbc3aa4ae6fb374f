//! Message frames between a tracer and its host, over readers and writers.
#![tactic(auto)]

pub mod counted;
pub mod ends;
pub mod feed;
mod front;
pub mod laws;
pub mod receiving;

pub use counted::{Counted, write_whole};
pub use ends::{Broken, Sink, Source};
pub use feed::Feed;
pub use host_frame::{Frame, Payload, WireFault, encode};
pub use receiving::{MOST_READS, ReceiveFault, receive};
