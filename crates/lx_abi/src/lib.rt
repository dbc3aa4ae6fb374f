//! What the kernel, the tracer and the programs share: numbers, scripts, boots and log items.
#![tactic(auto)]

pub mod boot;
pub mod boxed;
pub mod calls;
pub mod effects;
pub mod errno;
mod errno_table;
pub mod flags;
pub mod limits;
pub mod log;
pub mod occurrences;
pub mod outcome;
pub mod outcome_files;
pub mod ptrace;
pub mod register_set;
pub mod schedule;
pub mod script;
pub mod signal;
pub mod status;
pub mod sys;
pub mod when;
pub mod words;

pub use boot::{Boot, GuestFile, Limits};
pub use boxed::Boxed;
pub use calls::{Argument, Class, Format};
pub use effects::Effects;
pub use errno::Errno;
pub use log::{Call, Cause, Item, Mode};
pub use occurrences::Occurrences;
pub use outcome::{Ended, Node, Outcome, OutcomeFile};
pub use outcome_files::OutcomeFiles;
pub use ptrace::{Ask, Info, Registers, Reply, Request, TraceOptions};
pub use register_set::RegisterSet;
pub use schedule::{Event, Word};
pub use script::{Choice, Rule, Script, Set};
pub use signal::Signal;
pub use status::{EventStop, Status, Stop};
pub use when::When;
pub use words::{ScheduleFault, parse_words};
