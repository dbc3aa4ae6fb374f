//! The parts of a kernel's first state.

ghost use Rattle.std.specs.Prelude.{◌≡◌, ◌≤◌, IfOk, IsTrue};
ghost use Rattle.lx_abi.specs.Limits.{are_limits};
ghost use Rattle.lx_boot.specs.First.{first_entry as entry_of_first, first_entries as entries_at_first, first_fds as fds_at_first, reads, writes, first_shared as shared_at_first, first_tasks as tasks_at_first};
ghost use Rattle.lx_exec.specs.Programs.{start_size};
ghost use Rattle.lx_abi.specs.Limits.{start_limit};

use containers::Bytes;
use lx_abi::{GuestFile, Limits};
use lx_exec::begin_stub;
use lx_files::plant;
use lx_model::{Stage, Task};
use lx_open::{Description, FdTable, Object, PipeBuffer};
use lx_proc::{Entry, Life, ProcessLimits, Shared, Table, UserState, WaitWords};
use lx_sig::Signals;
use shelves::Shelf;
use std::alloc::{AllocError, Global};

/// Process 1 has no parent, is in the root, and nothing is pending.
fn first_entry(alloc: Global) -> Entry
    ensures { result ≡ entry_of_first }
{
    Entry {
        life: Life::Alive,
        news: None,
        parent: 0,
        directory: Bytes::new(alloc),
        signals: Signals::new(),
    }
}

/// What is read.
fn reading(object: Object) -> Description
    ensures { result ≡ reads object }
{
    Description {
        object,
        offset: 0,
        may_read: true,
        may_write: false,
        appends: false,
    }
}

/// What is written, at its end.
fn writing(object: Object) -> Description
    ensures { result ≡ writes object }
{
    Description {
        object,
        offset: 0,
        may_read: false,
        may_write: true,
        appends: true,
    }
}

/// Descriptor 0 is the input, 1 and 2 are the console.
#[tactic(auto, unfolding(crate::specs::First::first_fds))]
fn first_fds(alloc: Global) -> Result<FdTable, AllocError>
    ensures { IfOk result (λ f. f ≡ fds_at_first) }
{
    let mut fds = FdTable::new(alloc);
    if let Err(error) = fds.open(1, 0, reading(Object::Input), false) {
        drop(fds);
        return Err(error);
    }
    if let Err(error) = fds.open(1, 1, writing(Object::Console), false) {
        drop(fds);
        return Err(error);
    }
    if let Err(error) = fds.open(1, 2, writing(Object::Console), false) {
        drop(fds);
        return Err(error);
    }
    Ok(fds)
}

/// Process 1 alone is there.
fn first_entries(alloc: Global) -> Result<Table, AllocError>
    ensures { IfOk result (λ entries. entries ≡ entries_at_first) }
{
    let mut entries = Table::new(alloc);
    entries.insert(1, first_entry(alloc))?;
    Ok(entries)
}

/// What processes share at first.
pub fn first_shared(
    alloc: Global,
    limits: Limits,
    files: &[GuestFile],
    input: Bytes,
) -> Result<Shared, AllocError>
    requires { IsTrue (are_limits limits) }
    ensures { IfOk result (λ s. s ≡ shared_at_first limits files.now input) }
{
    let tree = match plant(alloc, files) {
        Ok(tree) => tree,
        Err(error) => {
            drop(input);
            return Err(error);
        }
    };
    let entries = match first_entries(alloc) {
        Ok(entries) => entries,
        Err(error) => {
            drop(tree);
            drop(input);
            return Err(error);
        }
    };
    let fds = match first_fds(alloc) {
        Ok(fds) => fds,
        Err(error) => {
            drop(entries);
            drop(tree);
            drop(input);
            return Err(error);
        }
    };
    Ok(Shared {
        limits: ProcessLimits::new(limits),
        tree,
        fds,
        input: PipeBuffer::from_vec(input.into_vec()),
        console: Bytes::new(alloc),
        entries,
        ended: WaitWords::new(alloc),
    })
}

/// The own part of process 1, alone.
pub fn first_tasks(
    alloc: Global,
    argv: &[Bytes],
    env: &[Bytes],
) -> Result<Shelf<Task<UserState>>, AllocError>
    requires { start_size argv.now env.now ≤ start_limit }
    ensures { IfOk result (λ o. o ≡ tasks_at_first argv.now env.now) }
{
    let user = begin_stub(alloc, argv, env)?;
    let mut tasks = Shelf::new(alloc);
    tasks.insert(
        1,
        Task::Alive {
            user,
            stage: Stage::Born,
        },
    )?;
    Ok(tasks)
}
