//! The program as a function of its words, its input and its outputs.

ghost use Rattle.front_end.specs.Statuses.{IsStatusOf};
ghost use Rattle.front_end.specs.Streams.{opened_contents};
ghost use Rattle.trace_command.specs.Asked.{Exits, TracesAsked};
ghost use Rattle.trace_command.specs.Noting.{WritesEvents};
ghost use Rattle.trace_command.specs.Tracing.{Runs};

use crate::tracing::{Traced, trace};
use clap::ArgMatches;
use front_end::{NoRun, is_explained};
use host_link::Streams;
use std::io::{IsTerminal, Read, Write};
use std::process::Processes;
use std::rt::Files;
use std::sync::Wait;
use std::thread::Threads;
use trace_words::COMMAND_LINE;

/// Traces the run that the words ask for, the program's name first, and gives the exit status. A fault is one line on
/// `err`; at a terminal, and where the words ask for it, others explain it.
pub fn command<
    R: Files + Processes + Threads + Wait + Sync + AllocGlobal,
    I: Read + IsTerminal,
    O: Write + Drop,
    E: Write + IsTerminal + Drop,
>(rt: &R, words: &[String], input: &mut I, out: O, err: E) -> u8
where
    R::Started: Streams,
{
    carry_out(rt, COMMAND_LINE.read(rt.alloc(), words), input, out, err)
}

/// The same, by what the words come to.
fn carry_out<
    R: Files + Processes + Threads + Wait + Sync + AllocGlobal,
    I: Read + IsTerminal,
    O: Write + Drop,
    E: Write + IsTerminal + Drop,
>(rt: &R, read: Result<ArgMatches, NoRun>, input: &mut I, mut out: O, mut err: E) -> u8
where
    R::Started: Streams,
    ensures { Exits (λ matches status held. TracesAsked R.File.remaining (opened_contents R.File.contents)
        (Runs R.Started R.Started.Stderr R.Started.Stdout.remaining R.Started.Stdin.contents)
        (WritesEvents (opened_contents R.File.contents)) matches (I.remaining input.old) status (O.contents out) held)
        read.entry result }
{
    match read {
        Ok(matches) => {
            let explained = is_explained(&matches, &err);
            let traced = trace(rt, &matches, explained, input, out, err);
            report_end(traced, explained)
        }
        Err(no_run) => COMMAND_LINE.answer(rt.alloc(), no_run, &mut out, &mut err),
    }
}

/// Reports how a run ended, and gives the exit status.
fn report_end<O: Drop, E: Write + Drop>(traced: Traced<O, E>, explained: bool) -> u8
    ensures { IsStatusOf traced.status result }
{
    let Traced {
        status,
        out,
        mut err,
        said,
    } = traced;
    drop(out);
    let status = COMMAND_LINE.settle(status, explained, &mut err);
    match said {
        Some(said) if explained => tell_said(said.as_str(), &mut err),
        _ => (),
    }
    status
}

/// Tells what a host has said. The status is the same, whether this can be written or not.
fn tell_said<E: Write>(said: &str, err: &mut E) {
    let _written = writeln!(err, "strace: the host said: {said}");
}
