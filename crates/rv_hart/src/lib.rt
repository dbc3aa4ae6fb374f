//! The steps of a RISC-V hart: RV64I over the memory of one guest.
//!
//! The definitions follow The RISC-V Instruction Set Manual, Volume I: Unprivileged ISA, version
//! 20191213. Instructions are 32 bits wide, so a jump must go to a multiple of 4.
#![tactic(auto)]

mod control;
mod did;
mod execute;
mod hart;
mod near;
mod operate;
mod outcome;
mod perform;
mod place;
mod running;
mod straight;
mod transfer;

pub use execute::step;
pub use hart::Hart;
pub use outcome::{FaultKind, Step};
pub use running::{Progress, run, run_near};
