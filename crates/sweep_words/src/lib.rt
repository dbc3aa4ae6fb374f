//! What a sweep's command line asks for, and the words that show one of its runs.
#![tactic(auto)]

pub mod calls;
pub mod cases;
pub mod deep;
pub mod known;
pub mod named;
pub mod plan;
pub mod shell;
pub mod show;
pub mod trials;
pub mod wanted;
pub mod words;
pub mod worlds;
