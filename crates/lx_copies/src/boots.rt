//! Boots, and the words of schedules.

use crate::copied::{Copied, copy_list};
use crate::same::{Same, same_list};
use lx_abi::{Boot, GuestFile, Word};
use std::alloc::{AllocError, Global};

impl Copied for GuestFile {
    fn copy(&self, alloc: Global) -> Result<GuestFile, AllocError> {
        let path = self.path.copy(alloc)?;
        let content = self.content.copy(alloc)?;
        Ok(GuestFile { path, content })
    }
}

impl Same for GuestFile {
    fn same(&self, other: &GuestFile) -> bool {
        self.path.same(&other.path) && self.content.same(&other.content)
    }
}

impl Copied for Boot {
    fn copy(&self, alloc: Global) -> Result<Boot, AllocError> {
        let files = copy_list(alloc, self.files.as_slice())?;
        let argv = copy_list(alloc, self.argv.as_slice())?;
        let env = copy_list(alloc, self.env.as_slice())?;
        let input = self.input.copy(alloc)?;
        Ok(Boot {
            limits: self.limits,
            files,
            argv,
            env,
            input,
            follow: self.follow,
        })
    }
}

impl Same for Boot {
    fn same(&self, other: &Boot) -> bool {
        self.limits.live == other.limits.live
            && self.limits.last_pid == other.limits.last_pid
            && same_list(self.files.as_slice(), other.files.as_slice())
            && same_list(self.argv.as_slice(), other.argv.as_slice())
            && same_list(self.env.as_slice(), other.env.as_slice())
            && self.input.same(&other.input)
            && self.follow == other.follow
    }
}

impl Copied for Word {
    fn copy(&self, _alloc: Global) -> Result<Word, AllocError> {
        Ok(*self)
    }
}

impl Same for Word {
    fn same(&self, other: &Word) -> bool {
        match (self, other) {
            (Word::Turn { pid }, Word::Turn { pid: others }) => pid == others,
            (Word::TurnAlone { pid }, Word::TurnAlone { pid: others }) => pid == others,
            (Word::Serve, Word::Serve) => true,
            (Word::UntilReturn { pid }, Word::UntilReturn { pid: others }) => pid == others,
            _ => false,
        }
    }
}
