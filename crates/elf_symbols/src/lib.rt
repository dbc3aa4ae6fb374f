//! The sections of an ELF64 file by their names, the functions of its symbol table, and which of these made a call.
//!
//!     let lines = section_named(file, b".debug_line")?;
//!     let functions = functions_of(alloc, file)?;
//!     let caller = caller_of(file, &functions, b"write", pc, ra)?;
//!
//! The sections of the standard are those of the System V gABI, chapter "Object Files".
#![tactic(auto)]

pub mod addresses;
pub mod callers;
pub mod laws;
pub mod named;
pub mod sections;
pub mod symbols;

pub use addresses::function_at;
pub use callers::caller_of;
pub use named::{Section, bytes_of, section_named};
pub use symbols::{Function, functions_of, name_of};
