//! The names that expressions know, and which of them is nearest to a word.

use lx_abi::calls::rows;
use lx_abi::{Errno, Signal};
use std::alloc::{AllocError, Global};
use strsim::levenshtein;

/// A kind of names.
#[derive(Clone, Copy, Debug, PartialEq, Eq)]
pub enum Names {
    Calls,
    Classes,
    Errors,
    Signals,
    Parts,
}

/// Functions of a C library, each with the call that it makes.
const FUNCTIONS: [(&str, &str); 25] = [
    ("_exit", "exit_group"),
    ("creat", "openat"),
    ("dup2", "dup3"),
    ("execl", "execve"),
    ("execlp", "execve"),
    ("execv", "execve"),
    ("execvp", "execve"),
    ("fork", "clone"),
    ("lstat", "newfstatat"),
    ("mkdir", "mkdirat"),
    ("open", "openat"),
    ("pipe", "pipe2"),
    ("raise", "kill"),
    ("rmdir", "unlinkat"),
    ("sbrk", "brk"),
    ("sigaction", "rt_sigaction"),
    ("signal", "rt_sigaction"),
    ("sigprocmask", "rt_sigprocmask"),
    ("sigreturn", "rt_sigreturn"),
    ("stat", "newfstatat"),
    ("unlink", "unlinkat"),
    ("vfork", "clone"),
    ("wait", "wait4"),
    ("wait3", "wait4"),
    ("waitpid", "wait4"),
];

/// The call that a function of a C library makes.
pub fn call_of(function: &str) -> Option<&'static str> {
    FUNCTIONS
        .iter()
        .find(|(name, _)| *name == function)
        .map(|(_, call)| *call)
}

/// The highest number of an error that has a name.
const LAST_ERROR: u64 = 133;

/// The most edits between a word and a name that it may stand for: about a third of the word.
fn most_edits(word: &str) -> usize {
    word.len().saturating_add(2) / 3
}

/// The name that is nearest to a word so far.
#[derive(Drop)]
struct Search<'w> {
    word: &'w str,
    edits: usize,
    name: Option<&'static str>,
}

impl Search<'_> {
    fn look_at(&mut self, alloc: Global, name: &'static str) -> Result<(), AllocError> {
        let edits = levenshtein(alloc, self.word, name)?;
        let is_near = match self.name {
            None => edits <= self.edits,
            Some(_) => edits < self.edits,
        };
        if is_near {
            self.edits = edits;
            self.name = Some(name);
        }
        Ok(())
    }

    fn look_at_all(&mut self, alloc: Global, names: &[&'static str]) -> Result<(), AllocError> {
        for name in names {
            self.look_at(alloc, name)?;
        }
        Ok(())
    }

    fn look_at_calls(&mut self, alloc: Global) -> Result<(), AllocError> {
        for row in rows() {
            self.look_at(alloc, row.1)?;
        }
        Ok(())
    }

    fn look_at_errors(&mut self, alloc: Global) -> Result<(), AllocError> {
        for number in 1..=LAST_ERROR {
            if let Some(name) = Errno::from_number(number).and_then(|errno| errno.name()) {
                self.look_at(alloc, name)?;
            }
        }
        Ok(())
    }

    fn look_at_signals(&mut self, alloc: Global) -> Result<(), AllocError> {
        for number in 1..=31 {
            if let Some(signal) = Signal::from_number(number) {
                self.look_at(alloc, signal.name())?;
            }
        }
        Ok(())
    }
}

/// The name of a kind that a word, which is none, may stand for.
pub fn nearest(
    alloc: Global,
    names: Names,
    word: &str,
) -> Result<Option<&'static str>, AllocError> {
    let word = match names {
        Names::Signals => word.strip_prefix("SIG").unwrap_or(word),
        _ => word,
    };
    let mut search = Search {
        word,
        edits: most_edits(word),
        name: None,
    };
    match names {
        Names::Calls => search.look_at_calls(alloc)?,
        Names::Classes => {
            search.look_at_all(alloc, &["file", "desc", "process", "signal", "memory"])?;
        }
        Names::Errors => search.look_at_errors(alloc)?,
        Names::Signals => search.look_at_signals(alloc)?,
        Names::Parts => search.look_at_all(alloc, &["error", "retval", "signal", "when"])?,
    }
    Ok(search.name)
}
