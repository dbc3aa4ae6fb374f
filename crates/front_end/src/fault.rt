//! Why a command isn't carried out, or not wholly.

ghost use Rattle.std.specs.Prelude.{◌≡◌, ◌⊎◌, IfOk, List, option_map, string_bytes, true, ℕ};
ghost use Rattle.front_end.specs.Statuses.{is_output_or_memory, is_usage_or_memory, status_of};
ghost use Rattle.front_end.specs.Texts.{IsAbout, IsAboutLine, Says, reason_of};

use crate::texts::{joined, line_place};
use std::alloc::{AllocError, AllocFailed, Global};
use std::fmt::Display;
use std::io::{self, ErrorKind};
use tr_expr::ExprFault;

/// The status where the words, an expression, the schedule, a file, the input or the boot is at fault.
const USAGE: u8 = 2;

/// The status where the host, memory or an output fails.
pub const HOST: u8 = 3;

/// The status of a run that is out of turns.
const OUT_OF_TURNS: u8 = 4;

/// A fault. It is reported in one line, and explained in another.
#[derive(Debug, Drop)]
pub enum Fault {
    /// The words, the schedule, a file, the input or the boot, in this way.
    Usage(String),
    /// An expression, for this reason.
    Expression { fault: ExprFault, reason: String },
    /// The listing's first faulty line, and the number of the kind of fault.
    Listing { line: usize, kind: u8 },
    /// The kernel's host, by the number of its fault, for this reason.
    Host { number: u8, reason: &'static str },
    /// The schedule ended before the run, as this says where it is to be explained.
    OutOfTurns(Option<String>),
    /// This output can't be written.
    Output(String),
    /// Memory was refused.
    Memory,
}

impl Fault {
    /// A fault with this text, if there is memory for it.
    pub fn usage(text: Result<String, AllocError>) -> Self
        ensures kind { is_usage_or_memory result ≡ true }
        ensures said { (said : List ℕ) → IfOk text (λ text. string_bytes text ≡ said) → Says said result }
    {
        match text {
            Ok(text) => Fault::Usage(text),
            Err(_) => Fault::Memory,
        }
    }

    /// A fault with a text of two parts, if there is memory for it.
    pub fn about(alloc: Global, start: &str, rest: Result<String, AllocError>) -> Self
        ensures kind { is_usage_or_memory result ≡ true }
        ensures begins { IsAbout start.now result }
    {
        let Ok(rest) = rest else {
            return Fault::Memory;
        };
        match joined(alloc, start, rest.as_str()) {
            Ok(text) => Fault::Usage(text),
            Err(_) => Fault::Memory,
        }
    }

    /// What is wrong with a line of a file, named by `start` and `file`, the first line being 1.
    pub fn line_of<D: Display + Drop>(
        alloc: Global,
        start: &str,
        file: D,
        line: usize,
        reason: &str,
    ) -> Self
        ensures { IsAboutLine start.now line result }
    {
        match line_place(alloc, start, file, line) {
            Ok(place) => Fault::about(alloc, place.as_str(), String::from_str(alloc, reason)),
            Err(_) => Fault::Memory,
        }
    }

    /// An output that can't be written, if there is memory to say which.
    pub fn output(text: Result<String, AllocError>) -> Self
        ensures { is_output_or_memory result ≡ true }
    {
        match text {
            Ok(text) => Fault::Output(text),
            Err(_) => Fault::Memory,
        }
    }

    /// What can't be read or written, named by `start` and `what`.
    pub fn file_of<D: Display + Drop>(alloc: Global, start: &str, what: D, error: io::Error) -> Self
        ensures kind { is_usage_or_memory result ≡ true }
        ensures begins { IsAbout start.now result }
    {
        if error.kind() == ErrorKind::OutOfMemory {
            return Fault::Memory;
        }
        Fault::about(alloc, start, format!(in alloc; "{what}: {error}"))
    }

    /// The same, named by `what`.
    pub fn file<D: Display + Drop>(alloc: Global, what: D, error: io::Error) -> Self
        ensures { is_usage_or_memory result ≡ true }
    {
        Fault::file_of(alloc, "", what, error)
    }

    /// The exit status.
    pub fn status(&self) -> u8
        ensures status { result ≡ status_of self.now }
        ensures usage { is_usage_or_memory self.now ≡ true → (result ≡ 2) ⊎ (result ≡ 3) }
        ensures output { is_output_or_memory self.now ≡ true → result ≡ 3 }
    {
        match self {
            Fault::Usage(_) | Fault::Expression { .. } | Fault::Listing { .. } => USAGE,
            Fault::Host { .. } | Fault::Output(_) | Fault::Memory => HOST,
            Fault::OutOfTurns(_) => OUT_OF_TURNS,
        }
    }

    /// What explains it, where its line doesn't say it.
    pub fn reason(&self) -> Option<&str>
        ensures { option_map (λ reason. reason.now) result ≡ reason_of self.now }
    {
        match self {
            Fault::Expression { reason, .. } => Some(reason.as_str()),
            Fault::Host { reason, .. } => Some(*reason),
            Fault::OutOfTurns(Some(reason)) => Some(reason.as_str()),
            Fault::Output(output) => Some(output.as_str()),
            Fault::Usage(_) | Fault::Listing { .. } | Fault::OutOfTurns(None) | Fault::Memory => {
                None
            }
        }
    }
}

impl From<AllocError> for Fault {
    ghost use Rattle.std.specs.Prelude.{◌≡◌};
    ghost use Rattle.front_end.specs.declared.fault.Fault.TheVariants.{Memory};

    ghost from_gives = { λ _ fault. fault ≡ Memory };

    fn from(_error: AllocError) -> Self {
        Fault::Memory
    }
}

impl<T: Drop> From<AllocFailed<T>> for Fault {
    ghost use Rattle.std.specs.Prelude.{◌≡◌};
    ghost use Rattle.front_end.specs.declared.fault.Fault.TheVariants.{Memory};

    ghost from_gives = { λ _ fault. fault ≡ Memory };

    fn from(_error: AllocFailed<T>) -> Self {
        Fault::Memory
    }
}
