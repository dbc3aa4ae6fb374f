//! A run whose turns are made by threads.

ghost use Rattle.std.specs.Prelude.{◌≡◌, ◌⊎◌, false, IfErr, IfOk, OnErr};
ghost use Rattle.trace_run.specs.Writers.{writer_of};
ghost use Rattle.trace_threads.specs.ThreadRuns.{IsNotedRun};
ghost use Rattle.trace_command.specs.Faults.{IsUnhosted, IsUnopened};
ghost use Rattle.trace_command.specs.Noting.{AsksAlike};
ghost use Rattle.trace_command.specs.Tracing.{PutsTrace, TracesOnThreads};

use crate::fault::threads_fault;
use crate::kept::{Asked, Kept, Known};
use containers::Bytes;
use front_end::Fault;
use host_shared::{Cut, Gate};
use host_wire::Broken;
use lx_abi::{Boot, Script};
use lx_kernel::Kernel;
use pt_schedule::{explain_limit, explain_waits};
use std::alloc::Global;
use std::sync::Wait;
use std::thread::Threads;
use tr_core::Options;
use trace_run::local::Run;
use trace_run::{Ended, RunFault, TraceSink};
use trace_threads::{NotedRun, Onlooker, run_threads_noting};
use trace_words::Workers;

/// Each thread makes its turns as soon as it can.
#[derive(Clone, Copy)]
struct Always;

impl Gate for Always {
    ghost use Rattle.std.specs.Prelude.{false};

    ghost shuts = { λ _. false };

    fn pass(&self, _worker: u8) -> bool {
        true
    }

    fn may_shut(&self) -> bool {
        false
    }
}

/// Why a run is out of turns that left this kernel, where it is and that is asked for.
fn waits_by(alloc: Global, asked: Asked, kernel: &Kernel, cut: Option<Cut>) -> Option<String> {
    if !asked.waits {
        return None;
    }
    let text = match cut {
        Some(Cut::Limit) => explain_limit(alloc, asked.limit, "events"),
        Some(Cut::Nobody) => explain_waits(alloc, kernel),
        _ => return None,
    };
    match text {
        Ok(text) => Some(text),
        Err(_) => None,
    }
}

/// Keeps who waits where a run is out of turns, if that is asked for.
#[derive(Drop)]
struct Keeper {
    alloc: Global,
    asked: Asked,
    waits: Option<String>,
}

impl Onlooker for Keeper {
    fn look(&mut self, kernel: &Kernel, cut: Option<Cut>) {
        self.waits = waits_by(self.alloc, self.asked, kernel, cut);
    }
}

/// Makes the run, its trace in memory.
fn make_on_threads<R: Threads + Wait + Sync + AllocGlobal>(
    rt: &R,
    boot: Boot,
    workers: Workers,
    script: Script,
    options: Options,
    asked: Asked,
    keeper: &mut Keeper,
) -> Result<NotedRun, Fault>
    ensures run { IfOk result (IsNotedRun boot workers.limit script options false asked.events) }
    ensures fault { IfErr result (λ fault. IsUnhosted fault ⊎ IsUnopened fault) }
{
    let alloc = rt.alloc();
    let (count, limit) = (workers.count, workers.limit);
    let (notes, lists) = (asked.events, asked.files);
    match run_threads_noting(
        rt, alloc, boot, count, limit, script, options, &Always, notes, lists, keeper,
    ) {
        Ok(made) => Ok(made),
        Err(fault) => Err(threads_fault(alloc, fault)),
    }
}

/// Writes the trace of a run that ended so, in one piece.
fn write_trace<W: TraceSink>(ended: Ended, trace: &Bytes, writer: &mut W) -> Result<Ended, RunFault>
    ensures put { PutsTrace ended trace.now result
        (writer_of W.contents W.puts W.broken writer.old) (writer_of W.contents W.puts W.broken writer.new) }
    ensures beside { W.beside writer.new ≡ W.beside writer.old }
{
    match writer.put_trace(trace.as_slice(), true) {
        Ok(()) => Ok(ended),
        Err(Broken) => {
            drop(ended);
            Err(RunFault::Output)
        }
    }
}

/// Makes the run, and writes its trace at the end. What it leaves is kept.
pub fn run_on_threads<R: Threads + Wait + Sync + AllocGlobal, W: TraceSink>(
    rt: &R,
    boot: Boot,
    workers: Workers,
    script: Script,
    options: Options,
    kept: &mut Kept,
    writer: &mut W,
) -> Result<Result<Ended, RunFault>, Fault>
    ensures made { IfOk result (λ ended. TracesOnThreads options script boot workers.limit kept.old.asked.events
        kept.new.known.events ended
        (writer_of W.contents W.puts W.broken writer.old) (writer_of W.contents W.puts W.broken writer.new)) }
    ensures kept { AsksAlike kept.old kept.new }
    ensures fault { IfErr result (λ fault. IsUnhosted fault ⊎ IsUnopened fault) }
    ensures unwritten { OnErr result (writer_of W.contents W.puts W.broken writer.new
        ≡ writer_of W.contents W.puts W.broken writer.old) }
    ensures beside { W.beside writer.new ≡ W.beside writer.old }
{
    let asked = kept.asked;
    let mut keeper = Keeper {
        alloc: rt.alloc(),
        asked,
        waits: None,
    };
    let made = match make_on_threads(rt, boot, workers, script, options, asked, &mut keeper) {
        Ok(made) => made,
        Err(fault) => {
            drop(keeper);
            return Err(fault);
        }
    };
    let NotedRun { run, events } = made;
    let Run {
        trace,
        ended,
        outcome,
        turns,
    } = run;
    drop(outcome);
    drop(turns);
    let ended = write_trace(ended, &trace, writer);
    drop(trace);
    kept.known = Known {
        events,
        waits: keeper.waits,
        counts: None,
    };
    Ok(ended)
}
