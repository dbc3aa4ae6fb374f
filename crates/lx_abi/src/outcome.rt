//! What is left of a run.

ghost use Rattle.std.specs.Prelude.{◌≡◌};

use crate::outcome_files::OutcomeFiles;
use containers::{Bytes, Content, Seq};
use std::alloc::AllocError;

/// What stands at a path.
#[derive(Drop)]
pub enum Node {
    File(Content),
    Directory,
}

#[derive(Drop)]
pub struct OutcomeFile {
    pub path: Bytes,
    pub node: Node,
}

/// A process that has ended, and its wait word.
#[derive(Clone, Copy, Debug, PartialEq, Eq)]
pub struct Ended {
    pub pid: u32,
    pub word: u32,
}

/// The console's bytes, what stands at each path in byte order, and the processes that have ended by pid.
#[derive(Drop)]
pub struct Outcome {
    pub console: Bytes,
    pub files: OutcomeFiles,
    pub ended: Seq<Ended>,
}

impl Clone for Node {
    ghost is_clone = { λ a b. b ≡ a };

    fn clone(&self) -> Result<Self, AllocError> {
        match self {
            Node::File(content) => Ok(Node::File(content.clone()?)),
            Node::Directory => Ok(Node::Directory),
        }
    }
}
