//! What the command lines of the programs share: their words, expressions, files that are read and written, and how
//! faults are reported and explained.
#![tactic(auto)]

mod command_line;
mod explanation;
mod expressions;
mod fault;
mod hints;
mod leavings;
mod left_out;
mod linux_calls;
mod names;
mod offered;
mod option_table;
mod options;
mod outputs;
mod parser;
mod program;
mod reading;
mod replacing;
mod reporting;
mod shown;
mod start;
mod streams;
mod texts;
mod turns;

pub use command_line::{CommandLine, NoRun, is_explained};
pub use expressions::{Expressions, expression_words, read_expression, read_expressions};
pub use fault::Fault;
pub use hints::Entered;
pub use leavings::{Leavings, escaped};
pub use offered::{CommandRow, Operands, WordRow};
pub use option_table::Tool;
pub use options::{decimal, given_or, limit, limit_of, malformed, number, positive};
pub use outputs::check_outputs;
pub use program::Program;
pub use reading::{MOST_INPUT, read_file, read_input, read_text};
pub use replacing::{NewFile, check_file, create_file, replace_file};
pub use shown::Shown;
pub use start::{Begun, begin};
pub use streams::Opened;
pub use turns::read_turns;
