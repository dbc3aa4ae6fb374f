//! What is printed of a sweep's runs.
#![tactic(auto)]

pub mod blocks;
pub mod callers;
pub mod entries;
pub mod findings;
pub mod junit;
pub mod laws;
pub mod report;
pub mod sites;
pub mod tally;
pub mod texts;
pub mod told;
pub mod traced;
pub mod untried;
