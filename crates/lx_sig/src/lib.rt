//! Signals of one process: which come, what they do, the frames of their handlers, and their calls.
#![tactic(auto)]

mod arguments;
mod delivery;
mod doublewords;
mod frames;
mod giving;
pub mod kill;
mod laws;
mod pending;
pub mod reactions;
mod sets;
pub mod sigaction;
pub mod sigprocmask;
pub mod state;

pub use arguments::low_argument;
pub use delivery::{
    action, is_continued, is_ignored, is_pending, is_stop, make_pending, may_interrupt, next,
    settle, take,
};
pub use frames::{pop_frame, push_frame};
pub use kill::{Aim, aim_of_kill};
pub use laws::{frames_are_read_back, handlers_come_back};
pub use pending::Pending;
pub use reactions::{Reaction, for_child, reaction_to, reset_for_exec};
pub use state::{Action, Actions, Interrupted, Job, Mask, Signals};
