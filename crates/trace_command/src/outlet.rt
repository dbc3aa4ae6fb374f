//! Where a trace goes.

ghost use Rattle.std.specs.Prelude.{◌≡◌, ℕ, List, Option, IfErr, IfOk};
ghost use Rattle.std.specs.Io.KnownBytes.{Keeps, append_known};
ghost use Rattle.front_end.specs.Streams.{opened_contents};
ghost use Rattle.trace_run.specs.Writers.{writer_of};
ghost use Rattle.trace_command.specs.Faults.{IsUnopened};
ghost use Rattle.trace_command.specs.Outlets.{Closes, IsNew, IsOpenAt};
ghost use Rattle.trace_command.specs.Tracing.{IsFile, Reaches};

use crate::place::{Place, create};
use crate::trace_file::TraceFile;
use front_end::{Fault, Opened};
use host_wire::{Broken, Sink};
use std::io::Write;
use std::rt::Files;
use trace_run::{Ended, RunFault, TraceSink};

/// A place that is open for a trace.
#[derive(Drop)]
pub enum Destination<F: Drop> {
    Error,
    Output,
    File(F),
}

/// The outputs of a run, and where its trace goes: to one of these or to a file.
pub struct Outlet<O, E, F: Drop> {
    pub out: O,
    pub err: E,
    pub trace: Destination<F>,
}

impl<O: Sink, E: Sink, F: TraceSink + Drop> Sink for Outlet<O, E, F> {
    ghost use Rattle.trace_command.specs.Outlets.{trace_of};

    ghost contents = { λ o. (trace_of (writer_of O.contents O.puts O.broken) (writer_of E.contents E.puts E.broken)
        (writer_of F.contents F.puts F.broken) o).contents };

    ghost puts = { λ o. (trace_of (writer_of O.contents O.puts O.broken) (writer_of E.contents E.puts E.broken)
        (writer_of F.contents F.puts F.broken) o).puts };

    ghost broken = { λ o. (trace_of (writer_of O.contents O.puts O.broken) (writer_of E.contents E.puts E.broken)
        (writer_of F.contents F.puts F.broken) o).broken };

    fn put(&mut self, bytes: &[u8]) -> Result<(), Broken> {
        self.put_trace(bytes, true)
    }

    fn faults(&self) -> u64 {
        match &self.trace {
            Destination::Error => self.err.faults(),
            Destination::Output => self.out.faults(),
            Destination::File(file) => file.faults(),
        }
    }
}

impl<O: Sink, E: Sink, F: TraceSink + Drop> TraceSink for Outlet<O, E, F> {
    ghost use Rattle.trace_command.specs.Outlets.{Beside, beside_of};

    ghost Beside = { Beside };

    ghost beside = { λ o. beside_of (writer_of O.contents O.puts O.broken) (writer_of E.contents E.puts E.broken) o };

    #[inline(always)]
    fn put_trace(&mut self, bytes: &[u8], rests: bool) -> Result<(), Broken> {
        match &mut self.trace {
            Destination::Error => self.err.put(bytes),
            Destination::Output => self.out.put(bytes),
            Destination::File(file) => file.put_trace(bytes, rests),
        }
    }
}

/// Opens a place for a trace: a file is made now. Where the kernel is here, and nobody reads a regular file along, the
/// line of a call that can't wait is written whole.
pub fn open<R: Files + AllocGlobal>(
    rt: &R,
    place: Place<'_>,
    is_here: bool,
) -> Result<Destination<TraceFile<Opened<R::File>>>, Fault>
    ensures open { IfOk result (λ trace. IsOpenAt (IsNew (opened_contents R.File.contents)) place.entry trace) }
    ensures fault { IfErr result (λ fault. IsFile place.entry × IsUnopened fault) }
{
    match place {
        Place::Error => Ok(Destination::Error),
        Place::Output => Ok(Destination::Output),
        Place::File(path) => match open_file(rt, path, is_here) {
            Ok(file) => Ok(Destination::File(file)),
            Err(fault) => Err(fault),
        },
    }
}

/// The same of a file.
fn open_file<R: Files + AllocGlobal>(
    rt: &R,
    path: &str,
    is_here: bool,
) -> Result<TraceFile<Opened<R::File>>, Fault>
    ensures open { IfOk result (λ file. IsNew (opened_contents R.File.contents) file) }
    ensures fault { IfErr result (λ fault. IsUnopened fault) }
{
    let file = match create(rt, path) {
        Ok(file) => file,
        Err(fault) => return Err(fault),
    };
    let may_hold = is_here && file.is_regular();
    match TraceFile::new(rt.alloc(), file, may_hold) {
        Ok(file) => Ok(file),
        Err(_) => Err(Fault::Memory),
    }
}

/// Writes what a file has kept back of the trace of a run that ended so, and closes it. Gives what comes of the run.
pub fn close<W: Write + Drop>(
    trace: Destination<TraceFile<W>>,
    ended: Result<Ended, RunFault>,
) -> Result<Ended, RunFault>
    ensures { Closes W.contents trace ended result }
{
    match trace {
        Destination::Error | Destination::Output => ended,
        Destination::File(file) => {
            let (file, rest) = file.into_parts();
            drop(file);
            ended_but_for(ended, rest)
        }
    }
}

/// What comes of a run that ended so, of whose trace these bytes couldn't be written.
fn ended_but_for(ended: Result<Ended, RunFault>, rest: Vec<u8>) -> Result<Ended, RunFault>
    ensures { (written held : Option (List ℕ)) → Keeps written (append_known held rest.items)
        → Reaches ended result written held }
{
    if rest.is_empty() {
        return ended;
    }
    drop(ended);
    Err(RunFault::Output)
}
