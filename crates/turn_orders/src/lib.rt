//! Which orders of turns a program's processes can have: the steps of a run, the orders with one switch, which order
//! comes when, and which ones runs had; and which of many things come first.
#![tactic(auto)]

pub mod laws;
pub mod met;
pub mod novelty;
pub mod places;
pub mod plans;
pub mod steps;
pub mod switches;

pub use met::Met;
pub use novelty::novel;
pub use places::spread;
pub use plans::{Plan, Source, plan_of, switched, switched_of, words_of};
pub use steps::{Steps, steps_of};
pub use switches::{Switch, spread_out, switches_of};
