//! The tracer: from each reply, what is printed and what is asked next.
//!
//! It holds no host and no writer. Whoever drives it puts the text out and carries each request to a host; a reply that
//! no request allows is refused, and changes nothing.
//!
//! ```text
//! let mut tracer = Tracer::new(alloc, script, options);
//! let mut reply = Reply::Done;
//! while let Act::Ask { bytes, request, .. } = tracer.next(reply)? {
//!     out.write_all(bytes.as_slice())?;
//!     reply = ask(request)?;
//! }
//! ```
#![tactic(auto)]

mod admission;
mod asking;
mod crossing;
mod heard;
mod hearing;
pub mod laws;
mod living;
mod place;
mod printing;
mod registers;
mod replies;
mod session;
pub mod settings;
mod stepping;
mod stops;
pub mod tracer;
pub mod tracing;

pub use settings::Options;
pub use tracer::Tracer;
pub use tracing::{Act, TraceFault, Tracing};
