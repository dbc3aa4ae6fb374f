//! A run, with its trace to its place.

ghost use Rattle.std.specs.Prelude.{◌≡◌, Ok, Err, IfOk, IfErr, OnErr, OnOk};
ghost use Rattle.front_end.specs.Streams.{opened_contents};
ghost use Rattle.trace_run.specs.Writers.{writer_of};
ghost use Rattle.trace_command.specs.Faults.{IsFaultOf};
ghost use Rattle.trace_command.specs.Noting.{AsksAlike, Notes};
ghost use Rattle.trace_command.specs.Outlets.{outputs_of};
ghost use Rattle.trace_command.specs.Tracing.{EndsLine, IsFile, LacksAt, Puts, Settles, Traces, Unmade, WritesTo};

use crate::fault::host_fault;
use crate::kept::Behind;
use crate::kernel::{Kernel, run_kernel};
use crate::lines::LineSink;
use crate::outlet::{Destination, Outlet, close, open};
use crate::place::Place;
use crate::trace_file::TraceFile;
use front_end::{Fault, Opened};
use host_link::LinkFault;
use host_wire::{Broken, Sink};
use lx_abi::{Outcome, Script};
use std::alloc::Global;
use std::mem;
use std::process::OpenProcess;
use std::rt::Files;
use std::sync::Wait;
use std::thread::Threads;
use tr_core::{Options, TraceFault};
use trace_run::{Ended, RunFault};

/// Runs the tracer on a kernel, with its trace to a place. Behind the run it goes to standard error again.
pub fn run_at<
    R: Files + Threads + Wait + Sync + AllocGlobal,
    P: OpenProcess + Drop,
    O: Sink,
    E: Sink,
>(
    rt: &R,
    kernel: Kernel<P>,
    script: Script,
    options: Options,
    behind: &mut Behind<P>,
    place: Place<'_>,
    outlet: &mut Outlet<O, E, TraceFile<Opened<R::File>>>,
) -> Result<Result<Ended, RunFault>, Fault>
    ensures written { IfOk result (λ ended. WritesTo (opened_contents R.File.contents)
        (Traces P.Stdout.remaining P.Stdin.contents options script kernel behind.old.kept.asked.events
        behind.new.kept.known.events) ended place.entry
        (outputs_of (writer_of O.contents O.puts O.broken) (writer_of E.contents E.puts E.broken) outlet.old)
        (outputs_of (writer_of O.contents O.puts O.broken) (writer_of E.contents E.puts E.broken) outlet.new)) }
    ensures notes { IfOk result (λ ended. OnOk ended
        (Notes options script kernel behind.old.kept.asked.events behind.new.kept.known.events)) }
    ensures kept { AsksAlike behind.old.kept behind.new.kept }
    ensures unmade { OnErr result (Unmade (LacksAt kernel (IsFile place.entry)) result
        (outputs_of (writer_of O.contents O.puts O.broken) (writer_of E.contents E.puts E.broken) outlet.old)
        (outputs_of (writer_of O.contents O.puts O.broken) (writer_of E.contents E.puts E.broken) outlet.new)) }
{
    let trace = match open(rt, place, kernel.is_here()) {
        Ok(trace) => trace,
        Err(fault) => {
            drop(kernel);
            drop(script);
            drop(options);
            return Err(fault);
        }
    };
    drop(mem::replace(&mut outlet.trace, trace));
    let made = run_kernel(rt, kernel, script, options, behind, outlet);
    let trace = mem::replace(&mut outlet.trace, Destination::Error);
    match made {
        Ok(ended) => Ok(close(trace, ended)),
        Err(fault) => {
            drop(trace);
            Err(fault)
        }
    }
}

/// What comes of a run that ended so. Where that is a fault, a line that stands open on `err` is ended.
pub fn settle<E: LineSink>(
    alloc: Global,
    ended: Result<Ended, RunFault>,
    place: Place<'_>,
    err: &mut E,
) -> Result<Outcome, Fault>
    ensures { Settles place.entry ended result
        (writer_of E.contents E.puts E.broken err.old) (writer_of E.contents E.puts E.broken err.new) }
{
    match outcome_of(alloc, ended, place) {
        Ok(outcome) => Ok(outcome),
        Err(fault) => Err(end_line(alloc, fault, place, err)),
    }
}

/// What a run that ended so leaves.
fn outcome_of(
    alloc: Global,
    ended: Result<Ended, RunFault>,
    place: Place<'_>,
) -> Result<Outcome, Fault>
    ensures whole { IfOk result (λ outcome. ended ≡ Ok (Ended.Whole outcome)) }
    ensures fault { IfErr result (λ fault. IsFaultOf ended fault) }
{
    match ended {
        Ok(Ended::Whole(outcome)) => Ok(outcome),
        Ok(Ended::OutOfTurns) => Err(Fault::OutOfTurns(None)),
        Err(fault) => Err(fault_of(alloc, fault, place)),
    }
}

/// The fault of a run whose trace goes to this place.
fn fault_of(alloc: Global, fault: RunFault, place: Place<'_>) -> Fault
    ensures { IsFaultOf (Err fault) result }
{
    match fault {
        RunFault::Link(fault) => host_fault(fault),
        RunFault::Trace(TraceFault::Inadmissible) => host_fault(LinkFault::Inadmissible),
        RunFault::Trace(TraceFault::Memory) => Fault::Memory,
        RunFault::Output => place.fault(alloc),
    }
}

/// Ends the line that a run that ended so, with this fault, has left open on `err`.
fn end_line<E: LineSink>(alloc: Global, fault: Fault, place: Place<'_>, err: &mut E) -> Fault
    ensures { EndsLine place.entry fault result
        (writer_of E.contents E.puts E.broken err.old) (writer_of E.contents E.puts E.broken err.new) }
{
    if place != Place::Error || !err.is_open() {
        return fault;
    }
    match write(err, b"\n") {
        Ok(()) => fault,
        Err(Broken) => {
            drop(fault);
            place.fault(alloc)
        }
    }
}

/// Writes all of the bytes.
pub fn write<W: Sink>(writer: &mut W, bytes: &[u8]) -> Result<(), Broken>
    ensures { Puts bytes.now result
        (writer_of W.contents W.puts W.broken writer.old) (writer_of W.contents W.puts W.broken writer.new) }
{
    match writer.put(bytes) {
        Ok(()) => Ok(()),
        Err(Broken) => Err(Broken),
    }
}
