//! The instructions of RV64I: from a word of memory, and back; and in the form that runs fast.
//!
//! The terms, the formats and the table of instructions are those of The RISC-V Instruction Set
//! Manual, Volume I: Unprivileged ISA, version 20191213.
#![tactic(auto)]

mod decoding;
mod encoding;
mod inst;
mod mnemonic;
mod operations;
mod predecoded;
mod register;

pub use decoding::{decode, instruction_is_spelled, one_instruction};
pub use encoding::{Unencodable, encode};
pub use inst::Inst;
pub use mnemonic::Mnemonic;
pub use operations::{
    Condition, ImmediateOperation, LoadKind, Operation, Shift, StoreKind, WordOperation,
};
pub use predecoded::Predecoded;
pub use register::{Destination, Register};
