//! The source file and the line of an address, of an ELF64 file with line number information (DWARF 5 and 4, 6.2).
//!
//! The index of a file's rows is made once:
//!
//!     let sections = sections_of(file);
//!     let index = index_of(alloc, sections.lines)?;
//!     if let Some(row) = index.row_at(pc) {
//!         let path = source_of(sections, row).map(|source| source.path(alloc));
//!         // `row.line` of that file
//!     }
//!
//! What can't be read isn't told, and the units behind it are read all the same.
#![tactic(auto)]

pub mod fields;
mod files;
mod headers;
mod index;
pub mod laws;
mod programs;
pub mod rows;
pub mod sources;

pub use index::{Index, index_of};
pub use rows::{Row, rows_in};
pub use sources::{Sections, Source, sections_of, source_of};
