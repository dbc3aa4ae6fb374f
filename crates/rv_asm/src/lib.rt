//! An assembler for RV64I.
#![tactic(auto)]

mod assembling;
mod code;
pub mod fault;
mod labels;
mod line;
mod listing;
mod symbol;

pub use assembling::{assemble, listings_are_laid_out};
pub use code::{sizes_agree, words_spell_instructions};
pub use fault::{AsmFault, AsmKind};
