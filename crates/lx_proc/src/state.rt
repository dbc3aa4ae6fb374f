//! What processes share, and what each has to itself.

ghost use Rattle.std.specs.Prelude.{◌≡◌, IsTrue, IfOk};
ghost use Rattle.lx_abi.specs.Limits.{are_limits};
ghost use Rattle.lx_proc.specs.State.{limits_of};

use crate::table::Table;
use crate::wait_words::WaitWords;
use containers::Bytes;
use lx_abi::{Limits, Signal};
use lx_files::Tree;
use lx_open::{FdTable, PipeBuffer};
use lx_sig::{Interrupted, Signals};
use rv_hart::Hart;
use rv_mem::Space;
use std::alloc::AllocError;

/// How many processes there may be.
#[derive(Clone, Copy, Debug, PartialEq, Eq)]
pub struct ProcessLimits {
    /// At most so many are in the table, zombies among them.
    pub live: u16,
    /// Pids are 1 to this one, and none is used again.
    pub last_pid: u16,
}

impl ProcessLimits {
    /// Those that a boot asks for.
    pub fn new(limits: Limits) -> Self
        requires { IsTrue (are_limits limits) }
        ensures { result ≡ limits_of limits }
    {
        ProcessLimits {
            live: limits.live as u16,
            last_pid: limits.last_pid as u16,
        }
    }
}

/// Whether a process lives; a wait word of wait(2) says how it ended.
#[derive(Clone, Copy, Debug, PartialEq, Eq)]
pub enum Life {
    Alive,
    Dying { word: u32 },
    Zombie { word: u32 },
}

/// A change of a process that lives on, which wait4 is to tell of once.
#[derive(Clone, Copy, Debug, PartialEq, Eq)]
pub enum News {
    Stopped { signal: Signal },
    Continued,
}

/// What other processes can see or change of a process. An orphan's parent is 0.
#[derive(Drop)]
pub struct Entry {
    pub life: Life,
    /// What wait4 has not told of.
    pub news: Option<News>,
    pub parent: u32,
    /// The path of the working directory.
    pub directory: Bytes,
    pub signals: Signals,
}

/// What all processes share.
#[derive(Drop)]
pub struct Shared {
    pub limits: ProcessLimits,
    pub tree: Tree,
    pub fds: FdTable,
    /// What is left of the input.
    pub input: PipeBuffer,
    pub console: Bytes,
    pub entries: Table,
    /// Of each process that has ended, also once it has left the table.
    pub ended: WaitWords,
}

/// Where the heap of brk(2) begins and ends, in bytes.
#[derive(Clone, Copy, Debug, PartialEq, Eq)]
pub struct Heap {
    pub start: u64,
    pub end: u64,
}

/// What a living process has to itself, beside its stage.
#[derive(Drop)]
pub struct UserState {
    pub hart: Hart,
    pub memory: Space,
    pub heap: Heap,
    /// The call that is made again once no signal is taken.
    pub interrupted: Option<Interrupted>,
}

impl Clone for Entry {
    ghost is_clone = { λ a b. b ≡ a };

    fn clone(&self) -> Result<Self, AllocError> {
        Ok(Entry {
            life: self.life,
            news: self.news,
            parent: self.parent,
            directory: self.directory.clone()?,
            signals: self.signals,
        })
    }
}

fn copy_streams(shared: &Shared) -> Result<(PipeBuffer, Bytes), AllocError>
    ensures { IfOk result (λ c. (c.0 ≡ shared.now.input) × (c.1 ≡ shared.now.console)) }
{
    let input = shared.input.clone()?;
    let console = shared.console.clone()?;
    Ok((input, console))
}

fn copy_processes(shared: &Shared) -> Result<(Table, WaitWords), AllocError>
    ensures { IfOk result (λ c. (c.0 ≡ shared.now.entries) × (c.1 ≡ shared.now.ended)) }
{
    let ended = shared.ended.clone()?;
    match shared.entries.clone() {
        Ok(entries) => Ok((entries, ended)),
        Err(error) => {
            drop(ended);
            Err(error)
        }
    }
}

fn copy_files(shared: &Shared) -> Result<(Tree, FdTable), AllocError>
    ensures { IfOk result (λ c. (c.0 ≡ shared.now.tree) × (c.1 ≡ shared.now.fds)) }
{
    let fds = shared.fds.clone()?;
    match shared.tree.clone() {
        Ok(tree) => Ok((tree, fds)),
        Err(error) => {
            drop(fds);
            Err(error)
        }
    }
}

impl Clone for Shared {
    ghost is_clone = { λ a b. b ≡ a };

    fn clone(&self) -> Result<Self, AllocError> {
        let (input, console) = copy_streams(self)?;
        let (entries, ended) = match copy_processes(self) {
            Ok(copies) => copies,
            Err(error) => {
                drop(console);
                drop(input);
                return Err(error);
            }
        };
        let (tree, fds) = match copy_files(self) {
            Ok(copies) => copies,
            Err(error) => {
                drop(ended);
                drop(entries);
                drop(console);
                drop(input);
                return Err(error);
            }
        };
        Ok(Shared {
            limits: self.limits,
            tree,
            fds,
            input,
            console,
            entries,
            ended,
        })
    }
}

impl Clone for UserState {
    ghost is_clone = { λ a b. b ≡ a };

    fn clone(&self) -> Result<Self, AllocError> {
        Ok(UserState {
            hart: self.hart,
            memory: self.memory.fork()?,
            heap: self.heap,
            interrupted: self.interrupted,
        })
    }
}
