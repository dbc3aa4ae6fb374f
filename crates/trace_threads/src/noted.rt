//! A run on threads, and what is noted of it.

use pt_kernel::Events;
use trace_run::local::Run;

/// A run, and its events, where they are noted.
#[derive(Drop)]
pub struct NotedRun {
    pub run: Run,
    pub events: Events,
}
