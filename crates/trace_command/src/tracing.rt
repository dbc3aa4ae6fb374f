//! A traced run.

ghost use Rattle.std.specs.Prelude.{◌≡◌, IsSome, IfErr, OnErr, OnOk, codes, true};
ghost use Rattle.front_end.specs.Streams.{opened_contents};
ghost use Rattle.trace_run.specs.Writers.{writer_of};
ghost use Rattle.trace_command.specs.Asked.{TracesAsked};
ghost use Rattle.trace_command.specs.Faults.{IsUnwritable, has_ended};
ghost use Rattle.trace_command.specs.Noting.{IsKeptFor, WritesEvents, WritesNoted};
ghost use Rattle.trace_command.specs.Outlets.{outputs_of};
ghost use Rattle.trace_command.specs.Tracing.{Leaves, Left, PutsConsole, Runs, TracesPlan};
ghost use Rattle.trace_command.specs.Tracing.{asks_for_files, status_in, value_of, wanting};

use crate::explaining::explain;
use crate::fault::host_fault;
use crate::given::is_given;
use crate::heard::{Heard, hear};
use crate::kept::{Behind, Kept};
use crate::kernel::booted_kernel;
use crate::lines::{LineSink, Lines};
use crate::outlet::{Destination, Outlet};
use crate::place::Place;
use crate::prepared::{Prepared, prepare};
use crate::running::{run_at, settle, write};
use crate::second::make_again;
use crate::trace_file::TraceFile;
use crate::turns_out::{check_turns, write_turns};
use clap::ArgMatches;
use front_end::{Fault, Leavings, Opened};
use host_link::{LinkFault, Streams};
use host_wire::{Broken, Sink};
use lx_abi::{Outcome, Status};
use std::alloc::Global;
use std::io::{IsTerminal, Read, Write};
use std::process::Processes;
use std::rt::Files;
use std::sync::Wait;
use std::thread::Threads;
use trace_words::{Plan, TraceOptions};

/// What comes of a run, and its outputs behind it.
pub struct Traced<O, E> {
    pub status: Result<u8, Fault>,
    pub out: O,
    pub err: E,
    /// What a host in a process of its own has said beside its replies.
    pub said: Option<String>,
}

/// Makes the run that the words ask for, and gives the exit status. The console goes to `out` once the run is whole,
/// before a host in a process of its own is waited for.
pub fn trace<
    R: Files + Processes + Threads + Wait + Sync + AllocGlobal,
    I: Read + IsTerminal,
    O: Write,
    E: Write + IsTerminal,
>(rt: &R, matches: &ArgMatches, explained: bool, input: &mut I, out: O, mut err: E) -> Traced<O, E>
where
    R::Started: Streams,
    ensures { TracesAsked R.File.remaining (opened_contents R.File.contents)
        (Runs R.Started R.Started.Stderr R.Started.Stdout.remaining R.Started.Stdin.contents)
        (WritesEvents (opened_contents R.File.contents))
        matches.now (I.remaining input.old) result.status (O.contents out) (O.contents result.out) }
{
    let Prepared {
        options,
        plan,
        kept,
        program,
    } = match prepare(rt, matches, explained, input, &mut err) {
        Ok(prepared) => prepared,
        Err(fault) => {
            return Traced {
                status: Err(fault),
                out,
                err,
                said: None,
            };
        }
    };
    let mut behind = Behind { kept, link: None };
    let mut outlet = Outlet {
        out: Lines::new(out),
        err: Lines::new(err),
        trace: Destination::Error,
    };
    let ended = trace_plan(rt, matches, options, plan, &mut behind, &mut outlet);
    let Outlet { out, err, trace } = outlet;
    drop(trace);
    let mut err = err.into_inner();
    let Behind { mut kept, link } = behind;
    let Heard { is_late, said } = hear(rt.alloc(), link);
    let status = explain(
        rt.alloc(),
        matches,
        &mut kept,
        is_late,
        program,
        ended,
        &mut err,
    );
    drop(kept);
    Traced {
        status,
        out: out.into_inner(),
        err,
        said,
    }
}

/// Makes the run, its trace at the place that the words name, and writes what it leaves. Gives the exit status.
fn trace_plan<R: Files + Processes + Threads + Wait + Sync + AllocGlobal, O: Sink, E: LineSink>(
    rt: &R,
    matches: &ArgMatches,
    options: TraceOptions,
    plan: Plan,
    behind: &mut Behind<R::Started>,
    outlet: &mut Outlet<O, E, TraceFile<Opened<R::File>>>,
) -> Result<u8, Fault>
where
    R::Started: Streams,
    requires { IsKeptFor (wanting matches.now options) plan behind.old.kept }
    ensures { TracesPlan (opened_contents R.File.contents)
        (Runs R.Started R.Started.Stderr R.Started.Stdout.remaining R.Started.Stdin.contents
        (wanting matches.now options) plan)
        (WritesEvents (opened_contents R.File.contents) (wanting matches.now options) plan)
        (wanting matches.now options) result
        (outputs_of (writer_of O.contents O.puts O.broken) (writer_of E.contents E.puts E.broken) outlet.old)
        (outputs_of (writer_of O.contents O.puts O.broken) (writer_of E.contents E.puts E.broken) outlet.new) }
{
    let place = Place::of(matches);
    match check_turns(rt, matches) {
        Ok(()) => (),
        Err(fault) => {
            drop(plan);
            return Err(fault);
        }
    }
    let Plan {
        boot,
        script,
        options: shown,
        turns,
    } = plan;
    let kernel = match booted_kernel(rt, matches, options, boot, turns, &mut behind.link) {
        Ok(kernel) => kernel,
        Err(fault) => {
            drop(script);
            drop(shown);
            return Err(fault);
        }
    };
    let ended = match run_at(rt, kernel, script, shown, behind, place, outlet) {
        Ok(ended) => ended,
        Err(fault) => return Err(fault),
    };
    let made = settle(rt.alloc(), ended, place, &mut outlet.err);
    leave(rt, matches, &mut behind.kept, made, &mut outlet.out)
}

/// Writes what a run that was made leaves. Gives the exit status.
fn leave<R: Files + AllocGlobal, O: Sink>(
    rt: &R,
    matches: &ArgMatches,
    kept: &mut Kept,
    made: Result<Outcome, Fault>,
    out: &mut O,
) -> Result<u8, Fault>
    ensures { Leaves matches.now
        (WritesNoted (opened_contents R.File.contents) (value_of matches.now (codes "turns-out")) kept.old) made result
        (writer_of O.contents O.puts O.broken out.old) (writer_of O.contents O.puts O.broken out.new) }
{
    match leave_turns(rt, matches, kept, &made) {
        Ok(()) => (),
        Err(fault) => {
            drop(made);
            return Err(fault);
        }
    }
    match made {
        Ok(outcome) => {
            let status = finish(rt, matches, &outcome, out);
            drop(outcome);
            status
        }
        Err(fault) => Err(fault),
    }
}

/// Writes the turns of a run that has ended, where the words ask for them.
fn leave_turns<R: Files + AllocGlobal>(
    rt: &R,
    matches: &ArgMatches,
    kept: &mut Kept,
    made: &Result<Outcome, Fault>,
) -> Result<(), Fault>
    ensures fault { IfErr result (λ fault. IsUnwritable fault
        × (IsSome (value_of matches.now (codes "turns-out")) × (has_ended made.now ≡ true))) }
    ensures file { OnOk result (has_ended made.now ≡ true
        → WritesNoted (opened_contents R.File.contents) (value_of matches.now (codes "turns-out")) kept.old) }
{
    if !has_ended(made) {
        return Ok(());
    }
    let Some(path) = matches.get_str("turns-out") else {
        return Ok(());
    };
    match make_again(rt.alloc(), kept) {
        Ok(()) => write_turns(rt, path, &kept.known.events),
        Err(fault) => Err(fault),
    }
}

/// The run is whole, or out of turns.
fn has_ended(made: &Result<Outcome, Fault>) -> bool
    ensures { result ≡ has_ended made.now }
{
    match made {
        Ok(_) => true,
        Err(Fault::OutOfTurns(_)) => true,
        Err(_) => false,
    }
}

/// Writes what a run has left: the console to `out`, and its files where the words ask for them. Gives the exit status.
fn finish<R: Files + AllocGlobal, O: Sink>(
    rt: &R,
    matches: &ArgMatches,
    outcome: &Outcome,
    out: &mut O,
) -> Result<u8, Fault>
    ensures { Left matches.now outcome.now result
        (writer_of O.contents O.puts O.broken out.old) (writer_of O.contents O.puts O.broken out.new) }
{
    let status = match write_console(rt.alloc(), outcome, out) {
        Ok(status) => status,
        Err(fault) => return Err(fault),
    };
    match leave_files(rt, matches, outcome) {
        Ok(()) => Ok(status),
        Err(fault) => Err(fault),
    }
}

/// Writes the console's bytes, and gives the exit status.
fn write_console<O: Sink>(alloc: Global, outcome: &Outcome, out: &mut O) -> Result<u8, Fault>
    ensures { PutsConsole outcome.now result
        (writer_of O.contents O.puts O.broken out.old) (writer_of O.contents O.puts O.broken out.new) }
{
    let Some(status) = status_of(outcome) else {
        return Err(host_fault(LinkFault::Inadmissible));
    };
    match write(out, outcome.console.as_slice()) {
        Ok(()) => Ok(status),
        Err(Broken) => Err(Fault::output(format!(in alloc;
            "the console could not be written to standard output"
        ))),
    }
}

/// Process 1's exit code, or 128 and the signal that ended it.
fn status_of(outcome: &Outcome) -> Option<u8>
    ensures { result ≡ status_in outcome.now.ended }
{
    let ended = outcome
        .ended
        .as_slice()
        .iter()
        .find(|ended| ended.pid == 1)?;
    Some(Status { word: ended.word }.shell_status())
}

/// Writes the files that a run has left where the words ask for them.
fn leave_files<R: Files + AllocGlobal>(
    rt: &R,
    matches: &ArgMatches,
    outcome: &Outcome,
) -> Result<(), Fault>
    ensures { OnErr result (asks_for_files matches.now ≡ true) }
{
    if !asks_for_files(matches) {
        return Ok(());
    }
    Leavings::of(matches).write(rt, outcome)
}

fn asks_for_files(matches: &ArgMatches) -> bool
    ensures { result ≡ asks_for_files matches.now }
{
    is_given(matches, "files-out") || is_given(matches, "files-list")
}
