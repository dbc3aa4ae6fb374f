//! ELF64 files of RISC-V programs: the image that a file holds, and the file of an image.
//!
//! The sections of the standard are those of the System V gABI, chapter "Object Files".
#![tactic(auto)]

pub mod fault;
pub mod faulty;
mod fields;
mod headers;
pub mod image;
mod layout;
mod notes;
mod reading;
mod writing;

pub use fault::ElfFault;
pub use faulty::{FaultyField, faulty_field};
pub use fields::{byte_at, double_at, half_at, word_at};
pub use image::{Image, Rights, Segment, Segments};
pub use notes::{content_of, is_compressed};
pub use reading::read;
pub use writing::write;
