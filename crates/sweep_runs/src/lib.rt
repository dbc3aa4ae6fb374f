//! The runs of a sweep: the one without a failure, and one for each failure of an occurrence of a call.
#![tactic(auto)]

pub mod behind;
pub mod chosen;
pub mod deep;
pub mod ends;
pub mod laws;
pub mod leading;
pub mod progress;
pub mod runs;
pub mod second;
pub mod sweeping;
pub mod trials;

pub use behind::{is_borne, seconds};
pub use chosen::cases;
pub use deep::{DeepCase, DeepRow, log_failing, reach_deep, run_deep_case, run_deep_row};
pub use ends::ending;
pub use leading::{Compared, Leader, reach_failing};
pub use progress::{Progress, Silent};
pub use runs::{reach, refer, run_accepted, run_by, run_failing, run_under};
pub use second::boot_on;
pub use sweeping::{Report, fault_of, run_case, run_cases, run_led_cases, script_of, sweep};
pub use trials::{Trial, TrialRow, run_led_trial, run_trial};
