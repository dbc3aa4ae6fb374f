//! The loop between a tracer and a link.

ghost use Rattle.std.specs.Prelude.{◌≡◌, ◌+◌, ◌≤◌, ◌^◌, false, Ok, IfOk, IfErr, IfSome, OnOk, OnErr, is_ok, if◌then◌else◌};
ghost use Rattle.std.specs.Io.KnownBytes.{Appends};
ghost use Rattle.host_wire.specs.Ends.{AppendsPart, IsPut};
ghost use Rattle.tr_core.specs.States.{State, new_state, taken_of};
ghost use Rattle.trace_run.specs.Runs.{calls_of, Ends, EndsAs, Round, Runs, RunsCounting, RunsWhole, forgets, resumes};
ghost use Rattle.trace_run.specs.Writers.{writer_of};
ghost use Rattle.tr_core.specs.Settings.{first_pen, options_by};
ghost use Rattle.tr_core.specs.Outcomes.{outcome_of};
ghost use Rattle.lx_abi.specs.Scripts.{choice_of};

use crate::trace_sink::TraceSink;
use containers::Bytes;
use host_link::{Link, LinkFault};
use host_wire::Broken;
use lx_abi::{Ask, Occurrences, Outcome, Reply, Request, Script};
use std::alloc::Global;
use thiserror::Error;
use tr_core::{Act, Options, TraceFault, Tracer, Tracing};

/// Why a run ended before its end.
#[derive(Clone, Copy, Debug, PartialEq, Eq, Error)]
pub enum RunFault {
    #[error("{0}")]
    Link(LinkFault),
    #[error("{0}")]
    Trace(TraceFault),
    #[error("the trace could not be written")]
    Output,
}

/// Writes what a round prints.
#[inline(always)]
fn write<W: TraceSink>(writer: &mut W, bytes: &Bytes, rests: bool) -> Result<(), RunFault>
    ensures whole { OnOk result (Appends (W.contents writer.old) (W.contents writer.new) bytes.now) }
    ensures fault { IfErr result (λ fault. fault ≡ RunFault.Output) }
    ensures part { OnErr result (AppendsPart (W.contents writer.old) (W.contents writer.new) bytes.now) }
    ensures counted { IsPut (W.puts writer.old) (W.puts writer.new) bytes.now }
    ensures unbroken { OnOk result (W.broken writer.new ≡ W.broken writer.old) }
    ensures broken { OnErr result (W.broken writer.new ≡ 1) }
    ensures beside { W.beside writer.new ≡ W.beside writer.old }
{
    match writer.put_trace(bytes.as_slice(), rests) {
        Ok(()) => Ok(()),
        Err(Broken) => Err(RunFault::Output),
    }
}

/// A request that resumes a tracee.
fn resumes(request: &Request) -> bool
    ensures { result ≡ resumes request.now }
{
    match request {
        Request::To {
            ask: Ask::Syscall { .. } | Ask::Listen,
            ..
        } => true,
        Request::To { .. } | Request::Boot { .. } | Request::Wait | Request::Outcome => false,
    }
}

/// Asks a request. Behind one that resumes, and no other, Wait may go out with it: it comes next, if anything is asked.
#[inline(always)]
fn ask<L: Link>(link: &mut L, request: Request) -> Result<Reply, LinkFault>
    ensures answered { calls_of L.answers L.given L.broken link.old request result link.new }
    ensures within { OnOk result (L.given link.new ≤ 2 ^ 40) }
    ensures alone { OnOk result (resumes request ≡ false → L.waits link.new ≡ false) }
{
    if resumes(&request) {
        link.call_before_wait(request)
    } else {
        link.call(request)
    }
}

/// The tracer hears a reply; what it prints is written, and what it asks is asked. None at the end.
#[inline(always)]
fn round<L: Link, W: TraceSink, T: Tracing>(
    link: &mut L,
    writer: &mut W,
    tracer: &mut T,
    reply: Reply,
) -> Result<Option<Reply>, RunFault>
    requires { taken_of (T.state tracer.old) ≤ 2 ^ 40 }
    ensures round { Round (calls_of L.answers L.given L.broken)
        (record {
          link = link.old;
          writer = writer_of W.contents W.puts W.broken writer.old;
          state = T.state tracer.old;
        }) reply result
        (record {
          link = link.new;
          writer = writer_of W.contents W.puts W.broken writer.new;
          state = T.state tracer.new;
        }) }
    ensures counted { IfOk result
        (λ next. IfSome next (λ _. (L.given link.new ≡ L.given link.old + 1) × (L.given link.new ≤ 2 ^ 40))) }
    ensures beside { W.beside writer.new ≡ W.beside writer.old }
{
    let act = match tracer.next(reply) {
        Ok(act) => act,
        Err(fault) => return Err(RunFault::Trace(fault)),
    };
    match act {
        Act::Finished { bytes } => match write(writer, &bytes, true) {
            Ok(()) => Ok(None),
            Err(fault) => Err(fault),
        },
        Act::Ask {
            bytes,
            request,
            rests,
        } => {
            if let Err(fault) = write(writer, &bytes, rests) {
                return Err(fault);
            }
            match ask(link, request) {
                Ok(next) => Ok(Some(next)),
                Err(fault) => Err(RunFault::Link(fault)),
            }
        }
    }
}

/// Runs a tracer over a link whose Boot was answered Done.
pub fn run_tracer<L: Link, W: TraceSink, T: Tracing>(
    link: &mut L,
    writer: &mut W,
    tracer: &mut T,
) -> Result<(), RunFault>
    requires { taken_of (T.state tracer.old) ≡ 0 }
    ensures run { Runs (calls_of L.answers L.given L.broken)
        (record {
          link = link.old;
          writer = writer_of W.contents W.puts W.broken writer.old;
          state = T.state tracer.old;
        }) result
        (record {
          link = link.new;
          writer = writer_of W.contents W.puts W.broken writer.new;
          state = T.state tracer.new;
        }) }
    ensures beside { W.beside writer.new ≡ W.beside writer.old }
{
    let mut reply = Reply::Done;
    loop {
        match round(link, writer, tracer, reply) {
            Ok(Some(next)) => reply = next,
            Ok(None) => return Ok(()),
            Err(fault) => return Err(fault),
        }
    }
}

/// How a run came to its end.
#[derive(Drop)]
pub enum Ended {
    Whole(Outcome),
    OutOfTurns,
}

/// How a run ended that ran so, by its outcome if it is whole.
fn end_by(ran: Result<(), RunFault>, outcome: Option<Outcome>) -> Result<Ended, RunFault>
    ensures ran { forgets result ≡ ran }
    ensures ends { (s : State) → outcome_of s ≡ outcome → EndsAs result s }
{
    match ran {
        Ok(()) => match outcome {
            Some(outcome) => Ok(Ended::Whole(outcome)),
            None => Ok(Ended::OutOfTurns),
        },
        Err(fault) => {
            drop(outcome);
            Err(fault)
        }
    }
}

/// Runs the tracer over a link whose Boot was answered Done. Also gives how often each tracee entered each call.
pub fn run_counting<L: Link, W: TraceSink>(
    alloc: Global,
    link: &mut L,
    writer: &mut W,
    script: Script,
    options: Options,
) -> (Result<Ended, RunFault>, Occurrences)
    ensures counting { RunsCounting (calls_of L.answers L.given L.broken)
        (new_state (options_by options) (choice_of script) (first_pen options)) link.old
        (writer_of W.contents W.puts W.broken writer.old) result.0 result.1 link.new
        (writer_of W.contents W.puts W.broken writer.new) }
    ensures beside { W.beside writer.new ≡ W.beside writer.old }
{
    let mut tracer = Tracer::new(alloc, script, options);
    let ran = run_tracer(link, writer, &mut tracer);
    let (outcome, counts) = tracer.into_parts();
    (end_by(ran, outcome), counts)
}

/// Runs the tracer over a link whose Boot was answered Done.
pub fn run<L: Link, W: TraceSink>(
    alloc: Global,
    link: &mut L,
    writer: &mut W,
    script: Script,
    options: Options,
) -> Result<Ended, RunFault>
    ensures run { RunsWhole (calls_of L.answers L.given L.broken)
        (new_state (options_by options) (choice_of script) (first_pen options)) link.old
        (writer_of W.contents W.puts W.broken writer.old) result link.new
        (writer_of W.contents W.puts W.broken writer.new) }
    ensures beside { W.beside writer.new ≡ W.beside writer.old }
{
    let (ended, counts) = run_counting(alloc, link, writer, script, options);
    drop(counts);
    ended
}
