//! Runs in which something else happens to a call than that it has an error: everything ends, or its process is killed,
//! or it is short. What each leaves, what a second program makes of it, and what is told of all.
#![tactic(auto)]

pub mod judging;
pub mod reporting;
pub mod rows;
pub mod second;
pub mod telling;
pub mod trials;

pub use judging::{status_of, status_of_one, tally_of, verdict_of};
pub use reporting::{shown_text, text_of};
pub use rows::{TriedRow, run_tried, tried_rows};
pub use second::{SecondEnd, check_second};
pub use telling::{explain, hung_by};
pub use trials::named_trial;
