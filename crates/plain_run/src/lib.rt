//! A whole run of the untraced kernel by a schedule.
//!
//! Whoever watches hears each item of the log as it is made, and may end the run.
//!
//! ```text
//! let mut kernel = Kernel::boot(alloc, boot, script)?;
//! let mut schedule = Schedule::words(words, limit);
//! run(&mut kernel, &mut schedule, &mut Unwatched::new())?;
//! let outcome = kernel.outcome()?;
//! ```
#![tactic(auto)]

pub mod laws;
pub mod running;
pub mod watch;

pub use running::{Halt, goes_on, run, tell, turns_in_row};
pub use watch::{Unwatched, Watch, Weary};
