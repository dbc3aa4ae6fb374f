//! A host that several threads turn under a lock, with a journal of what was done to it.
#![tactic(auto)]

pub mod cut;
pub mod exchanges;
mod followers;
pub mod held;
mod link;
pub mod noted;
mod roster;
mod saying;
pub mod shared;
mod steps;
pub mod workers;

pub use cut::Cut;
pub use exchanges::Exchanges;
pub use held::{Held, MOST_EVENTS, Memory};
pub use link::SharedLink;
pub use noted::NotedJournal;
pub use shared::SharedHost;
pub use workers::{Gate, work};
