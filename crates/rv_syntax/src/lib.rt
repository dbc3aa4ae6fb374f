//! The syntax of a listing's statements: names, numbers, strings, operands, mnemonics and directives.
#![tactic(auto)]

pub mod forms;
mod names;
pub mod numbers;
mod operands;
pub mod statement;
mod strings;
mod text;

pub use forms::{Meaning, Width, find_meaning};
pub use names::numbered;
pub use numbers::Number;
pub use operands::take_name;
pub use statement::{Statement, directive, instruction};
pub use text::{done, mark, pieces, word};
