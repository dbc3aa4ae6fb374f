//! Runs in which a call fails behind another that fails: what each leaves, what a second program makes of it, and what
//! is told of all.
#![tactic(auto)]

pub mod judging;
pub mod naming;
pub mod reporting;
pub mod rows;
pub mod telling;

pub use judging::{status_of, status_of_one, tally_of, verdict_of};
pub use naming::named_case;
pub use reporting::{shown_text, text_of};
pub use rows::{Behind, TriedDeep, deep_rows, run_tried_deep};
