//! The file that a trace is written to.

ghost use Rattle.std.specs.Prelude.{◌≡◌};

use host_wire::{Broken, Counted, Sink};
use std::alloc::Global;
use std::cell::Cell;
use std::io::{self, BufWriter, ErrorKind, Write};
use std::rc::Rc;
use trace_run::TraceSink;

/// A writer that keeps what is written while it is told to.
#[derive(Drop)]
pub struct Held<W: Write + Drop> {
    out: BufWriter<W>,
    holds: Rc<Cell<bool>>,
    /// Something was written behind the last flush.
    owes: bool,
}

impl<W: Write + Drop> Write for Held<W> {
    ghost use Rattle.trace_command.specs.Writers.{held_contents};

    ghost contents = { λ held. held_contents W.contents held };

    fn write(&mut self, buf: &[u8]) -> io::Result<usize> {
        self.owes = true;
        self.out.write(buf)
    }

    fn flush(&mut self) -> io::Result<()> {
        if !self.owes || self.holds.get() {
            return Ok(());
        }
        self.out.flush()?;
        self.owes = false;
        Ok(())
    }
}

/// The file of a trace. Where nobody reads along, the line of a call that can't wait is written whole.
#[derive(Drop)]
pub struct TraceFile<W: Write + Drop> {
    sink: Counted<Held<W>>,
    holds: Rc<Cell<bool>>,
    may_hold: bool,
}

impl<W: Write + Drop> TraceFile<W> {
    ghost use Rattle.std.specs.Prelude.{◌≡◌, IfOk};
    ghost use Rattle.std.specs.Io.KnownBytes.{Keeps, append_known};
    ghost use Rattle.trace_run.specs.Writers.{writer_of};
    ghost use Rattle.trace_command.specs.Tracing.{unused};
    ghost use Rattle.trace_command.specs.Writers.{file_broken, file_contents, file_puts};

    /// A file that nobody reads along, if it may hold lines back.
    pub fn new(alloc: Global, out: W, may_hold: bool) -> io::Result<Self>
        ensures { IfOk result
            (λ file. writer_of (file_contents W.contents) file_puts file_broken file ≡ unused (W.contents out)) }
    {
        let Ok(holds) = Rc::new(alloc, Cell::new(false)) else {
            return Err(io::Error::from(ErrorKind::OutOfMemory));
        };
        let told = holds.clone()?;
        let out = BufWriter::new(alloc, out)?;
        let sink = Counted::new(Held {
            out,
            holds: told,
            owes: false,
        });
        Ok(TraceFile {
            sink,
            holds,
            may_hold,
        })
    }

    /// Writes what was kept back. Gives the writer, and the bytes that can't be written.
    pub fn into_parts(self) -> (W, Vec<u8>)
        ensures { Keeps (file_contents W.contents self) (append_known (W.contents result.0) result.1.items) }
    {
        let mut held = self.sink.into_inner();
        // What isn't written stays in the buffer.
        let _flushed = held.out.flush();
        held.out.into_parts()
    }
}

impl<W: Write + Drop> Sink for TraceFile<W> {
    ghost use Rattle.trace_command.specs.Writers.{file_broken, file_contents, file_puts};

    ghost contents = { λ f. file_contents W.contents f };

    ghost puts = { λ f. file_puts f };

    ghost broken = { λ f. file_broken f };

    #[inline(always)]
    fn put(&mut self, bytes: &[u8]) -> Result<(), Broken> {
        self.put_trace(bytes, true)
    }

    fn faults(&self) -> u64 {
        self.sink.faults()
    }
}

impl<W: Write + Drop> TraceSink for TraceFile<W> {
    ghost beside = { λ _. tt };

    #[inline(always)]
    fn put_trace(&mut self, bytes: &[u8], rests: bool) -> Result<(), Broken> {
        self.holds.set(self.may_hold && !rests);
        self.sink.put(bytes)
    }
}
