//! The calls on files: what each does, and whether it would block.
//!
//! A module has a call, by its page of manual section 2; `file_call` finds it by its number. A refusal leaves files,
//! descriptors and the process as they were, and so does want of memory.
//!
//! ```text
//! match file_call(alloc, &mut shared, pid, &call, &mut user)? {
//!     Some(CallReply::Returned(value)) => ..,    // a0 is to have it
//!     Some(CallReply::Refused(error)) => ..,     // a0 is to have its negative
//!     Some(CallReply::Blocked) => ..,            // it can't be done yet
//!     _ => ..,                                   // none: another's call
//! }
//! ```
#![tactic(auto)]

mod arguments;
mod blocking;
mod calls;
pub mod chdir;
pub mod close;
mod contents;
pub mod dup;
pub mod dup3;
mod flags;
pub mod fstat;
pub mod ftruncate;
pub mod getcwd;
mod giving;
pub mod lseek;
pub mod mkdirat;
pub mod newfstatat;
pub mod openat;
pub mod pipe2;
pub mod read;
mod stat;
pub mod unlinkat;
pub mod write;

pub use blocking::{file_blocks, would_block};
pub use calls::file_call;
