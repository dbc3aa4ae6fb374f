//! Values as frames hold them: numbers, texts, registers, and lists of items.
#![tactic(auto)]

mod cursor;
pub mod fault;
mod fields;
mod item;
mod order;

pub use cursor::{byte_at, double_at, registers_of, text_of, word_at};
pub use fault::Bad;
pub use fields::{
    put_byte, put_double, put_length, put_registers, put_text, put_word, registers_size, spend_text,
};
pub use item::{Item, list_of, put_list, spend_list};
pub use order::{paths_rise, pids_rise};
