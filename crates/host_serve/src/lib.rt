//! A host as a process of its own: requests come as frames, and replies go as frames.
#![tactic(auto)]

mod answering;
pub mod ends;
pub mod fault;
pub mod hosted;
pub mod replies;
pub mod requested;
mod requests;
pub mod serving;
pub mod session;
pub mod streams;

pub use ends::{Ahead, Outlet};
pub use fault::ServeFault;
pub use hosted::{serve, serve_bounded};
pub use replies::{Closed, Replies};
pub use requested::Requests;
pub use serving::serve_session;
pub use session::{Phase, Session};
pub use streams::{Conversed, serve_streams};
