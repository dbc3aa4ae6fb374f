//! The log of calls as it is printed: a line an item.

ghost use Rattle.std.specs.Prelude.{◌≡◌, ◌++◌, ◌∷◌, [], None, Ok, OnOk, OnErr, IsTrue, is_some};
ghost use Rattle.plain_run.specs.Runs.{RunsTo};
ghost use Rattle.plain_log.specs.Logs.{HasPrinted, first_contents};
ghost use Rattle.plain_log.specs.Logged.{IsLogged};

use crate::fault::LogFault;
use crate::line::Line;
use crate::room::LONGEST;
use history::History;
use lx_abi::Item;
use lx_kernel::Kernel;
use plain_run::{Halt, Watch, Weary};
use pt_schedule::Schedule;
use std::alloc::Global;
use std::io::Write;

/// Bytes of lines that are held back at most.
const ROOM: usize = 65_536;

/// Turns that go by at most while lines are held back: some tens of microseconds.
const MOST_WHILE_BEHIND: u64 = 10_000;

/// Lines on their way to a writer. They are held back until there are many, many turns bring no other, or
/// [`Log::end`] is called, and are written whole.
#[derive(Drop)]
pub struct Log<W: Write> {
    lines: Vec<u8>,
    /// The last line.
    line: Line,
    /// Turns since the last line.
    quiet: u64,
    out: W,
    /// Why it wants no more lines: some were lost.
    fault: Option<LogFault>,
    told: History<Item>,
    /// The writer as it was at first.
    begun: History<W>,
    ghost printed: { fault ≡ None
        → HasPrinted (first_contents W.contents begun.items) told.items (W.contents out) lines.items },
}

impl<W: Write> Log<W> {
    /// No line yet, in this room for lines.
    pub fn new(lines: Vec<u8>, out: W) -> Self
        requires { lines.items ≡ [] }
        ensures begun { first_contents W.contents result.begun.items ≡ W.contents out }
        ensures told { result.told.items ≡ [] }
    {
        let begun = History::new().and(&out);
        Log {
            lines,
            line: Line::new(),
            quiet: 0,
            out,
            fault: None,
            told: History::new(),
            begun,
        }
    }

    /// Whether it wants more.
    fn wants_more(&self) -> Result<(), Weary>
        ensures lost { OnErr result (IsTrue (is_some self.now.fault)) }
        ensures whole { OnOk result (self.now.fault ≡ None) }
    {
        if self.fault.is_some() {
            Err(Weary)
        } else {
            Ok(())
        }
    }

    /// Keeps the first fault.
    fn fail(&mut self, fault: LogFault)
        ensures kept { IsTrue (is_some self.new.fault) }
        ensures told { self.new.told.items ≡ self.old.told.items }
        ensures begun { self.new.begun.items ≡ self.old.begun.items }
    {
        if self.fault.is_none() {
            self.fault = Some(fault);
        }
    }

    /// Writes the lines that are held back. Where the writer refuses them they are lost.
    fn flush(&mut self)
        ensures told { self.new.told.items ≡ self.old.told.items }
        ensures begun { self.new.begun.items ≡ self.old.begun.items }
        ensures written { self.new.lines.items ≡ [] }
    {
        let lost = match self.out.write_all(self.lines.as_slice()) {
            Ok(()) => None,
            Err(error) => Some(LogFault::Output(error)),
        };
        if self.fault.is_none() {
            self.fault = lost;
        }
        self.lines.clear();
    }

    /// Takes the line of an item that it is told.
    fn take(&mut self, item: &Item)
        ensures told { self.new.told.items ≡ self.old.told.items ++ item.now ∷ [] }
        ensures begun { self.new.begun.items ≡ self.old.begun.items }
    {
        self.line.set(item);
        if self.lines.extend_from_slice(self.line.as_bytes()).is_err() {
            self.fail(LogFault::Memory);
        }
        self.told = self.told.and(item);
    }

    /// Writes what is held back. Ok where all lines were written.
    fn end(&mut self) -> Result<(), Weary>
        ensures told { self.new.told.items ≡ self.old.told.items }
        ensures written { OnOk result (HasPrinted (first_contents W.contents self.old.begun.items) self.old.told.items
            (W.contents self.new.out) []) }
    {
        self.flush();
        self.wants_more()
    }
}

/// A run that ended so, with its lines written so, is whole, or why not.
fn whole(
    ran: Result<(), Halt>,
    written: Result<(), Weary>,
    fault: Option<LogFault>,
) -> Result<(), LogFault>
    ensures ran { OnOk result (ran ≡ Ok tt) }
    ensures written { OnOk result (written ≡ Ok tt) }
{
    match (ran, written) {
        (Ok(()), Ok(())) => Ok(()),
        (Err(Halt::Memory), _) => Err(LogFault::Memory),
        _ => Err(fault.unwrap_or(LogFault::Memory)),
    }
}

impl<W: Write> Watch for Log<W> {
    ghost use Rattle.std.specs.Prelude.{is_some, ⊤};

    ghost told = { λ l. l.told.items };

    ghost noting = { λ _ _ _. ⊤ };

    ghost weary = { λ l. is_some l.fault };

    ghost begun = { λ l. first_contents W.contents l.begun.items };

    fn patience(&self) -> u64 {
        if self.lines.is_empty() {
            u64::MAX
        } else {
            MOST_WHILE_BEHIND.saturating_sub(self.quiet)
        }
    }

    fn pass(&mut self, turns: u64) -> Result<(), Weary> {
        self.quiet = self.quiet.saturating_add(turns);
        if self.quiet >= MOST_WHILE_BEHIND {
            self.flush();
        }
        self.wants_more()
    }

    fn see(&mut self, _kernel: &Kernel, item: &Item) -> Result<(), Weary> {
        if self.lines.len() > ROOM - LONGEST {
            self.flush();
        }
        self.quiet = 0;
        self.take(item);
        self.wants_more()
    }
}

/// Makes the turns that a schedule gives, up to its end, and prints what is logged, also where they end in a fault.
/// Gives the writer back.
pub fn run<W: Write>(
    alloc: Global,
    kernel: &mut Kernel,
    schedule: &mut Schedule,
    out: W,
) -> (W, Result<(), LogFault>)
    ensures to { OnOk result.1 (RunsTo kernel.old schedule.old kernel.new) }
    ensures printed { OnOk result.1 (IsLogged (W.contents out) kernel.old kernel.new (W.contents result.0)) }
{
    let lines = match Vec::with_capacity(alloc, ROOM) {
        Ok(lines) => lines,
        Err(_) => return (out, Err(LogFault::Memory)),
    };
    let mut log = Log::new(lines, out);
    let ran = plain_run::run(kernel, schedule, &mut log);
    let written = log.end();
    let Log { out, fault, .. } = log;
    (out, whole(ran, written, fault))
}
