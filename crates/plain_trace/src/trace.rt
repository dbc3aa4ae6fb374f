//! The trace of a run, kept in memory.

ghost use Rattle.std.specs.Prelude.{◌≡◌, ◌++◌, ◌∷◌, [], false, OnOk, IfOk};
ghost use Rattle.lx_abi.specs.Log.{pid_of};
ghost use Rattle.lx_model.specs.Kernel.{traces};
ghost use Rattle.plain_run.specs.Notes.{noted_in};
ghost use Rattle.plain_trace.specs.Shown.{after_parts, shown_item};
ghost use Rattle.tr_line.specs.Printing.{written};

use crate::part::print_item;
use containers::Bytes;
use history::History;
use lx_abi::Item;
use lx_kernel::Kernel;
use plain_run::{Watch, Weary};
use std::alloc::{AllocError, Global};
use tr_core::Options;
use tr_line::Printer;
use tr_line::layout::Layout;

/// Prints each item that it is told, by what its process can read there.
#[derive(Drop)]
pub struct Trace {
    alloc: Global,
    options: Options,
    printer: Printer,
    bytes: Bytes,
    /// Memory was refused: something is lost.
    failed: bool,
    told: History<Item>,
}

/// Whose item it is.
fn pid_in(item: &Item) -> u32
    ensures { result ≡ pid_of item.now }
{
    match item {
        Item::Enter { pid, .. }
        | Item::Done { pid, .. }
        | Item::Taken { pid, .. }
        | Item::Stopped { pid, .. }
        | Item::Exit { pid, .. } => *pid,
    }
}

/// With follow every process is a tracee, else process 1.
fn is_traced(follow: bool, pid: u32) -> bool
    ensures { result ≡ traces follow pid }
{
    follow || pid == 1
}

impl Trace {
    ghost use Rattle.plain_trace.specs.Traces.{Shows};

    /// Nothing so far.
    #[tactic(auto, unfolding(tr_line::specs::Printing::written, crate::specs::Shown::after_parts))]
    pub fn new(alloc: Global, options: Options) -> Trace
        ensures begins { Shows result result [] }
        ensures options { result.options ≡ options }
    {
        let layout = Layout {
            follow: options.follow,
            width: options.width,
        };
        Trace {
            alloc,
            options,
            printer: Printer::new(alloc, layout),
            bytes: Bytes::new(alloc),
            failed: false,
            told: History::new(),
        }
    }

    /// Adds what is shown of an item.
    #[tactic(auto, unfolding(tr_line::specs::Printing::written, crate::specs::Shown::after_parts))]
    fn add(&mut self, kernel: &Kernel, item: &Item) -> Result<(), AllocError>
        ensures bytes { OnOk result (self.new.bytes
            ≡ self.old.bytes ++ written self.old.printer (shown_item self.old.options (noted_in kernel.now item.now))) }
        ensures printer { OnOk result (self.new.printer
            ≡ after_parts self.old.printer (shown_item self.old.options (noted_in kernel.now item.now))) }
        ensures options { self.new.options ≡ self.old.options }
        ensures told { self.new.told ≡ self.old.told }
        ensures failed { self.new.failed ≡ self.old.failed }
    {
        if !is_traced(self.options.follow, pid_in(item)) {
            return Ok(());
        }
        let bytes = print_item(self.alloc, kernel, &self.options, &mut self.printer, item)?;
        self.bytes.extend(bytes.as_slice())
    }

    /// What it has written; a fault where something is lost.
    pub fn into_bytes(self) -> Result<Bytes, AllocError>
        ensures { IfOk result (λ bytes. (self.failed ≡ false) × (bytes ≡ self.bytes)) }
    {
        if self.failed {
            Err(AllocError)
        } else {
            Ok(self.bytes)
        }
    }
}

impl Watch for Trace {
    ghost use Rattle.std.specs.Prelude.{None};
    ghost use Rattle.plain_trace.specs.Traces.{Shows};

    ghost told = { λ t. t.told.items };

    ghost noting = { Shows };

    ghost weary = { λ t. t.failed };

    ghost begun = { λ _. None };

    fn patience(&self) -> u64 {
        u64::MAX
    }

    fn pass(&mut self, _turns: u64) -> Result<(), Weary> {
        Ok(())
    }

    fn see(&mut self, kernel: &Kernel, item: &Item) -> Result<(), Weary> {
        self.told = self.told.and(item);
        if self.failed {
            return Err(Weary);
        }
        match self.add(kernel, item) {
            Ok(()) => Ok(()),
            Err(AllocError) => {
                self.failed = true;
                Err(Weary)
            }
        }
    }
}
