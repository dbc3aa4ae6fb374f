//! Runs by orders of turns: which results a program's runs have, by the default order, by orders with one switch at a
//! call, and by chance.
#![tactic(auto)]

pub mod draws;
pub mod exploring;
pub mod found;
pub mod trials;

pub use exploring::{Explored, explore_on_threads};
pub use found::Found;
