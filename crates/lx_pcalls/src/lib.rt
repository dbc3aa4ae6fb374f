//! Calls on processes, memory and signals, and what signals do to a process.
#![tactic(auto)]

pub mod brk;
mod calls;
pub mod clone;
mod ending;
pub mod exit;
pub mod getpid;
pub mod getppid;
mod interruption;
pub mod kill;
pub mod mmap;
pub mod munmap;
pub mod rt_sigaction;
pub mod rt_sigprocmask;
pub mod rt_sigreturn;
pub mod sched_yield;
pub mod taking;
pub mod wait4;

pub use calls::{process_blocks, process_call, would_block};
pub use ending::{die, is_continued, release_task, settle, stop, wake};
pub use interruption::{interrupt, is_interrupted};
pub use taking::{Reacted, take};
