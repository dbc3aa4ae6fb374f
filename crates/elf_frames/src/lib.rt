//! The stack of calls of a program that stands still, by its ELF64 file's Call Frame Information (DWARF 5, 6.4).
//!
//! The table and its index are made once a program. `memory` is anything that is a [`Memory`]; x0 to x31 are
//! `registers`.
//!
//!     let table = table_of(file)?;
//!     let bytes = bytes_of(file, table.content);
//!     let index = index_of(alloc, table, bytes)?;
//!     let stack = stack_of(alloc, &memory, bytes, &index, Frame::innermost(pc, registers))?;
//!
//! What can't be read isn't told: the stack ends there.
#![tactic(auto)]

pub mod entries;
pub mod frames;
mod index;
pub mod instructions;
pub mod laws;
mod numbers;
pub mod rows;
pub mod tables;

pub use entries::{Fde, fdes_of};
pub use frames::{Frame, Memory, caller_of, stack_of};
pub use index::{Index, index_of};
pub use rows::{Row, row_of};
pub use tables::{Table, table_of};
