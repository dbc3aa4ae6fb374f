//! Turns in the order in which they were made, kept as rows.
#![tactic(auto)]

pub mod cycle;
pub mod laws;
pub mod rounds;
pub mod row;
pub mod turns;

pub use cycle::Cycle;
pub use row::TurnRow;
pub use turns::Turns;
