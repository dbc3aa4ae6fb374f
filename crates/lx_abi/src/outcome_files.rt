//! The files that a run has left.

ghost use Rattle.std.specs.Prelude.{◌≡◌, IfOk};

use crate::outcome::OutcomeFile;
use containers::Seq;
use history::{History, Tells};
use std::alloc::AllocError;
use std::marker::Model;

/// What stands at each path, in byte order. Contracts see all of it. Programs can read it where it was listed, and not
/// where it was left unlisted, as is done where nobody asks for files: then no path is made, and no content shared.
#[derive(Drop)]
pub struct OutcomeFiles {
    all: History<OutcomeFile>,
    listed: Option<Seq<OutcomeFile>>,
}

impl Model for OutcomeFiles {
    ghost use Rattle.std.specs.Prelude.{◌≡◌, List, IfSome};
    ghost use Rattle.lx_abi.specs.declared.outcome.OutcomeFile.{OutcomeFile};

    ghost Value = { List OutcomeFile };

    ghost view = { λ l. l.all.items };

    ghost invariant = { λ l. IfSome l.listed (λ files. files ≡ l.all.items) };
}

impl Tells<OutcomeFile> for Seq<OutcomeFile> {
    ghost told = { λ files. files };
}

impl Tells<OutcomeFile> for OutcomeFiles {
    ghost told = { λ files. files };
}

impl OutcomeFiles {
    /// A list that programs can read.
    pub fn new(files: Seq<OutcomeFile>) -> Self
        ensures { result ≡ files }
    {
        OutcomeFiles {
            all: History::of(&files),
            listed: Some(files),
        }
    }

    /// What a value tells, left unlisted.
    pub fn unlisted<T: Tells<OutcomeFile>>(of: &T) -> Self
        ensures { result ≡ T.told of.now }
    {
        OutcomeFiles {
            all: History::of(of),
            listed: None,
        }
    }

    /// The files, where they were listed; an error where they were left unlisted.
    pub fn as_slice(&self) -> Result<&[OutcomeFile], AllocError>
        ensures { IfOk result (λ files. files.now ≡ self.now) }
    {
        match &self.listed {
            Some(files) => Ok(files.as_slice()),
            None => Err(AllocError),
        }
    }
}
