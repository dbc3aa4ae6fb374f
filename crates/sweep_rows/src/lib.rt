//! What a sweep is made of, beside its runs: which occurrences of calls a log has, which errors they can have, the
//! script by which one of them fails, and what came of a run beside another.
#![tactic(auto)]

pub mod calls;
pub mod descriptors;
pub mod endings;
pub mod entries;
pub mod failures;
pub mod files;
pub mod index;
pub mod kinds;
pub mod known;
pub mod likeness;
pub mod possible;
pub mod row;
pub mod run_log;
pub mod said;
pub mod setup;
pub mod streams;
pub mod summary;
pub mod verdicts;
pub mod wanted;
pub mod worlds;

pub use calls::Calls;
pub use descriptors::{Descriptors, Target, Use};
pub use endings::{Ending, ends_as, first_word, leaves_the_same};
pub use entries::occurrences;
pub use failures::{Failure, failing};
pub use files::{FileNote, Word, file_notes};
pub use kinds::Kind;
pub use known::{Known, Occurrence};
pub use likeness::Likeness;
pub use possible::{possible_errors, tells_of_loss};
pub use row::Row;
pub use run_log::RunLog;
pub use said::Said;
pub use setup::Setup;
pub use streams::{Streams, streams_of};
pub use summary::{checked, count, name_of, rank, status};
pub use verdicts::{Facts, Reached, Verdict, facts_of, is_finding, verdict_of};
pub use wanted::{Case, Errors, Wanted};
pub use worlds::World;
