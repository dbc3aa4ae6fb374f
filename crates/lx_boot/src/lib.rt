//! Boots: what one is refused for, and the parts of the first state that it gives.
#![tactic(auto)]

pub mod boots;
pub mod culprits;
mod first;
mod limits;
pub mod neighbours;

pub use boots::{BootFault, boot_fault};
pub use culprits::{Culprit, find_culprit};
pub use first::{first_shared, first_tasks};
