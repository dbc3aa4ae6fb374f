//! The texts of values, as strace(1) shows them: numbers, flags, signals, names, quoted bytes and structs.
//!
//! Each is put to a [`Sheet`], which holds the text under way and what was read for it of a process's memory.
#![tactic(auto)]

pub mod actions;
mod buffer;
pub mod calls;
pub mod children;
pub mod descriptors;
pub mod escapes;
pub mod files;
pub mod flags;
pub mod numbers;
pub mod sheet;
pub mod signals;
mod spellings;
mod structs;
pub mod wait_words;

pub use sheet::{Needed, Sheet};
