//! Which program each process runs.

use crate::events::Event;
use containers::{Bytes, Map};
use lx_abi::GuestFile;
use std::alloc::{AllocError, Global};

/// A process's program and the one that it has asked for, by their places among the files of the boot.
#[derive(Clone, Copy, Debug, PartialEq, Eq)]
struct Running {
    program: Option<usize>,
    asked: Option<usize>,
}

/// The programs of processes, as events tell of them.
#[derive(Drop)]
pub struct Programs {
    /// The parent of each child.
    parents: Map<u32>,
    running: Map<Running>,
}

/// The place of the file that has a path.
fn place_of(files: &[GuestFile], path: &Bytes) -> Option<usize> {
    files
        .iter()
        .position(|file| file.path.as_slice() == path.as_slice())
}

fn parents_of(alloc: Global, events: &[Event]) -> Result<Map<u32>, AllocError> {
    let mut parents = Map::new(alloc);
    for event in events {
        if let Event::Bears { pid, child } = event {
            parents.insert(*child, *pid)?;
        }
    }
    Ok(parents)
}

impl Programs {
    /// Before the first of these events.
    pub fn before(alloc: Global, events: &[Event]) -> Result<Programs, AllocError> {
        Ok(Programs {
            parents: parents_of(alloc, events)?,
            running: Map::new(alloc),
        })
    }

    /// What a process runs; a child runs its parent's program from its birth on, before the parent's call has returned
    /// too.
    fn running(&self, pid: u32) -> Running {
        if let Some(running) = self.running.get(pid) {
            return *running;
        }
        let parent = self
            .parents
            .get(pid)
            .and_then(|parent| self.running.get(*parent));
        Running {
            program: parent.and_then(|parent| parent.program),
            asked: None,
        }
    }

    /// The place of a process's program among the files, if it is one of them.
    pub fn program_of(&self, pid: u32) -> Option<usize> {
        self.running(pid).program
    }

    /// Takes an event in.
    pub fn hear(&mut self, files: &[GuestFile], event: &Event) -> Result<(), AllocError> {
        match event {
            Event::Enters { pid, .. } => {
                let running = self.running(*pid);
                self.running.insert(*pid, running)
            }
            Event::Asks { pid, path } => {
                let program = self.running(*pid).program;
                let asked = place_of(files, path);
                self.running.insert(*pid, Running { program, asked })
            }
            Event::Executes { pid } => {
                let program = self.running(*pid).asked;
                let asked = None;
                self.running.insert(*pid, Running { program, asked })
            }
            Event::Bears { child, .. } => {
                let running = self.running(*child);
                self.running.insert(*child, running)
            }
        }
    }
}
