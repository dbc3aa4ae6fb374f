//! The kernel: processes that take turns, each turn by the mode table at Linux.
//!
//! A boot is refused or gives a kernel whose process 1 is about to make its execve. Whoever drives it chooses whose turn
//! comes next; what a turn does is the kernel's alone.
//!
//! ```text
//! let mut kernel = Kernel::boot(alloc, boot, script)?;
//! let mut last = 0;
//! while let Some(pid) = kernel.next_able(last) {
//!     kernel.turn(pid)?;
//!     last = pid;
//! }
//! let outcome = kernel.outcome()?;
//! ```
#![tactic(auto)]

mod advances;
mod blocking;
mod choosing;
mod first;
mod instructions;
pub mod kernel;
pub mod laws;
mod log;
mod outcome;
mod pipes;
mod run_queue;
mod scheduling;
pub mod tracing;
mod waking;

pub use kernel::{Advanced, Failed, Kernel, Moved};
pub use lx_abi::Boot;
