//! Whole runs whose host is turned by threads.
#![tactic(auto)]

pub mod fault;
mod finish;
pub mod laws;
pub mod noted;
pub mod onlooker;
pub mod threads;
pub mod traced;

pub use fault::ThreadsFault;
pub use noted::NotedRun;
pub use onlooker::Onlooker;
pub use threads::{run_threads, run_threads_noting};
