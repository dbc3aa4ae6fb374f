//! Processes: what they share, what each has to itself, and what a call replies.
#![tactic(auto)]

mod entries;
mod families;
pub mod pairs;
mod registers;
pub mod reply;
mod sending;
pub mod state;
mod table;
pub mod texts;
pub mod wait_words;

pub use entries::{directory, set_signals, signals};
pub use pairs::Pairs;
pub use registers::{a0, call, make_again, registers_of, return_from_call, set_registers};
pub use reply::CallReply;
pub use sending::send;
pub use state::{Entry, Heap, Life, News, ProcessLimits, Shared, UserState};
pub use table::Table;
pub use texts::{Text, Words, list_at, text_at};
pub use wait_words::WaitWords;
