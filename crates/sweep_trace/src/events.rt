//! What the run without a failure does with programs, and from where it makes its calls.

ghost use Rattle.std.specs.Prelude.{◌≡◌, []};

use containers::Bytes;
use history::History;
use lx_abi::{Call, Item, sys};
use lx_kernel::Kernel;
use plain_run::{Watch, Weary};
use std::alloc::{AllocError, Global};

/// No path has more bytes.
const MOST_OF_A_PATH: usize = 4096;

/// Of one process, in the order of the log.
#[derive(Drop)]
pub enum Event {
    /// It enters a call, whose instruction stands at `pc`, with this in ra.
    Enters {
        pid: u32,
        number: u64,
        pc: u64,
        ra: u64,
    },
    /// It asks for the program that has this path.
    Asks {
        pid: u32,
        path: Bytes,
    },
    /// It runs the program that it has asked for.
    Executes {
        pid: u32,
    },
    /// It has this child.
    Bears {
        pid: u32,
        child: u32,
    },
}

/// Keeps the events of a run.
#[derive(Drop)]
pub struct Events {
    alloc: Global,
    items: Vec<Event>,
    /// Memory was refused: something is lost.
    failed: bool,
    told: History<Item>,
}

impl Events {
    /// None so far.
    pub fn new(alloc: Global) -> Events
        ensures { result.told.items ≡ [] }
    {
        Events {
            alloc,
            items: Vec::new(alloc),
            failed: false,
            told: History::new(),
        }
    }

    pub fn into_items(self) -> Vec<Event> {
        self.items
    }
}

/// The path at an address, up to its NUL.
fn path_at(alloc: Global, kernel: &Kernel, pid: u32, address: u64) -> Result<Bytes, AllocError> {
    let Some(bytes) = kernel.peek(pid, address, MOST_OF_A_PATH)? else {
        return Ok(Bytes::new(alloc));
    };
    let bytes = bytes.as_slice();
    let length = bytes.iter().take_while(|byte| **byte != 0).count();
    Bytes::from_slice(alloc, bytes.get(..length).unwrap_or(&[]))
}

fn add_entry(
    alloc: Global,
    kernel: &Kernel,
    pid: u32,
    call: Call,
    events: &mut Vec<Event>,
) -> Result<(), AllocError> {
    let Some(registers) = kernel.regs(pid)? else {
        return Ok(());
    };
    let registers = registers.get();
    let number = call.number;
    events.push(Event::Enters {
        pid,
        number,
        pc: registers[0],
        ra: registers[1],
    })?;
    if number == sys::SYS_EXECVE {
        let path = path_at(alloc, kernel, pid, call.arguments[0])?;
        events.push(Event::Asks { pid, path })?;
    }
    Ok(())
}

fn add_result(pid: u32, call: Call, value: u64, events: &mut Vec<Event>) -> Result<(), AllocError> {
    if call.number == sys::SYS_EXECVE && value == 0 {
        events.push(Event::Executes { pid })?;
    }
    match u32::try_from(value) {
        Ok(child) if call.number == sys::SYS_CLONE => events.push(Event::Bears { pid, child })?,
        _ => {}
    }
    Ok(())
}

/// Adds what an item says.
fn add(
    alloc: Global,
    kernel: &Kernel,
    item: &Item,
    events: &mut Vec<Event>,
) -> Result<(), AllocError> {
    match *item {
        Item::Enter { pid, call } => add_entry(alloc, kernel, pid, call, events),
        Item::Done {
            pid,
            call,
            result,
            ..
        } => add_result(pid, call, result, events),
        Item::Taken { .. } | Item::Stopped { .. } | Item::Exit { .. } => Ok(()),
    }
}

impl Watch for Events {
    ghost use Rattle.std.specs.Prelude.{None, ⊤};

    ghost told = { λ e. e.told.items };

    ghost noting = { λ _ _ _. ⊤ };

    ghost weary = { λ e. e.failed };

    ghost begun = { λ _. None };

    fn patience(&self) -> u64 {
        u64::MAX
    }

    fn pass(&mut self, _turns: u64) -> Result<(), Weary> {
        Ok(())
    }

    fn see(&mut self, kernel: &Kernel, item: &Item) -> Result<(), Weary> {
        self.told = self.told.and(item);
        match add(self.alloc, kernel, item, &mut self.items) {
            Ok(()) => Ok(()),
            Err(AllocError) => {
                self.failed = true;
                Err(Weary)
            }
        }
    }
}
