//! Data as DWARF represents them: numbers of a fixed size, LEB128, and texts.
//!
//! A reader takes bytes and gives what stands at their front and the bytes behind it, or none where it isn't whole:
//!
//!     let (length, rest) = read_u32(bytes)?;
//!     let (content, rest) = read_bytes(u64::from(length), rest)?;
//!
//! The sections of the standard are those of DWARF 5. All are little-endian.
#![tactic(auto)]

mod reading;

pub use reading::{
    behind, behind_uleb128s, read_bytes, read_sleb128, read_u8, read_u16, read_u32, read_u64,
    read_uleb128, text, text_length,
};
