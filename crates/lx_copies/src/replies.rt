//! Replies, and the outcome in one of them.

use crate::copied::{Copied, copy_list};
use crate::same::Same;
use lx_abi::{Ended, Node, Outcome, OutcomeFile, OutcomeFiles, Reply, Status};
use std::alloc::{AllocError, Global};

impl Copied for Node {
    fn copy(&self, alloc: Global) -> Result<Node, AllocError> {
        match self {
            Node::File(content) => match content.copy(alloc) {
                Ok(content) => Ok(Node::File(content)),
                Err(refused) => Err(refused),
            },
            Node::Directory => Ok(Node::Directory),
        }
    }
}

impl Same for Node {
    fn same(&self, other: &Node) -> bool {
        match (self, other) {
            (Node::File(content), Node::File(others)) => content.same(others),
            (Node::Directory, Node::Directory) => true,
            _ => false,
        }
    }
}

impl Copied for OutcomeFile {
    fn copy(&self, alloc: Global) -> Result<OutcomeFile, AllocError> {
        let path = self.path.copy(alloc)?;
        let node = self.node.copy(alloc)?;
        Ok(OutcomeFile { path, node })
    }
}

impl Same for OutcomeFile {
    fn same(&self, other: &OutcomeFile) -> bool {
        self.path.same(&other.path) && self.node.same(&other.node)
    }
}

impl Copied for Ended {
    fn copy(&self, _alloc: Global) -> Result<Ended, AllocError> {
        Ok(*self)
    }
}

/// Files that were left unlisted stay so.
impl Copied for OutcomeFiles {
    fn copy(&self, alloc: Global) -> Result<OutcomeFiles, AllocError> {
        match self.as_slice() {
            Ok(files) => match copy_list(alloc, files) {
                Ok(files) => Ok(OutcomeFiles::new(files)),
                Err(refused) => Err(refused),
            },
            Err(_) => Ok(OutcomeFiles::unlisted(self)),
        }
    }
}

impl Copied for Outcome {
    fn copy(&self, alloc: Global) -> Result<Outcome, AllocError> {
        let console = self.console.copy(alloc)?;
        let files = self.files.copy(alloc)?;
        let ended = copy_list(alloc, self.ended.as_slice())?;
        Ok(Outcome {
            console,
            files,
            ended,
        })
    }
}

impl Copied for Reply {
    fn copy(&self, alloc: Global) -> Result<Reply, AllocError> {
        match self {
            Reply::Done => Ok(Reply::Done),
            Reply::Status { pid, status } => Ok(Reply::Status {
                pid: *pid,
                status: Status { word: status.word },
            }),
            Reply::Registers { registers } => match registers.copy(alloc) {
                Ok(registers) => Ok(Reply::Registers { registers }),
                Err(refused) => Err(refused),
            },
            Reply::Bytes { bytes } => match bytes.copy(alloc) {
                Ok(bytes) => Ok(Reply::Bytes { bytes }),
                Err(refused) => Err(refused),
            },
            Reply::Message { pid } => Ok(Reply::Message { pid: *pid }),
            Reply::Info { info } => Ok(Reply::Info { info: *info }),
            Reply::Outcome { outcome } => match outcome.copy(alloc) {
                Ok(outcome) => Ok(Reply::Outcome { outcome }),
                Err(refused) => Err(refused),
            },
            Reply::Errno { number } => Ok(Reply::Errno { number: *number }),
            Reply::OutOfTurns => Ok(Reply::OutOfTurns),
            Reply::Refused { fault } => Ok(Reply::Refused { fault: *fault }),
        }
    }
}
