//! What is made ready before a run.

ghost use Rattle.std.specs.Prelude.{◌≡◌, ◌&&◌, ◌||◌, IfErr, IfOk, Ok, codes, is_none, is_some};
ghost use Rattle.trace_command.specs.Asked.{RefusesWords};
ghost use Rattle.trace_command.specs.Noting.{IsKeptFor, IsSecond};
ghost use Rattle.trace_command.specs.Tracing.{value_of, wanting};
ghost use Rattle.trace_words.specs.Options.{asked_by as options_by, options_of};
ghost use Rattle.trace_words.specs.Plans.{IsPlan};

use crate::given::is_given;
use crate::kept::{Asked, Kept, Known};
use clap::ArgMatches;
use front_end::{Fault, Leavings, Program};
use std::alloc::{AllocError, Global};
use std::io::{IsTerminal, Read, Write};
use std::rt::Files;
use trace_words::{Plan, TraceOptions, read_plan, trace_options};

/// A run that is to be made.
#[derive(Drop)]
pub struct Prepared {
    pub options: TraceOptions,
    pub plan: Plan,
    pub kept: Kept,
    /// The guest's program, where the run's end is explained.
    pub program: Option<Program>,
}

/// What the words ask for of a run beside its trace.
fn asked_by(matches: &ArgMatches, options: TraceOptions) -> Asked
    ensures events { result.events ≡ is_some (value_of matches.now (codes "turns-out")) }
    ensures limit { result.limit ≡ options.limit }
{
    Asked {
        events: is_given(matches, "turns-out"),
        files: Leavings::of(matches).are_wanted(),
        waits: options.explain,
        limit: options.limit,
    }
}

/// What is asked for is known by a second run alone.
fn needs_second(matches: &ArgMatches, options: TraceOptions, asked: Asked) -> bool
    ensures { result ≡ (is_none options.workers && (is_some (value_of matches.now (codes "host"))
        && (asked.waits || asked.events))) }
{
    options.workers.is_none() && is_given(matches, "host") && (asked.waits || asked.events)
}

/// The same plan once more, where what is asked for is known by it alone.
fn second(
    alloc: Global,
    matches: &ArgMatches,
    options: TraceOptions,
    asked: Asked,
    plan: &Plan,
) -> Result<Option<Plan>, AllocError>
    ensures { IfOk result
        (IsSecond options.workers (value_of matches.now (codes "host")) plan.now asked.events) }
{
    if !needs_second(matches, options, asked) {
        return Ok(None);
    }
    match plan.again(alloc) {
        Ok(again) => Ok(Some(again)),
        Err(error) => Err(error),
    }
}

/// Before the run.
fn keep(
    alloc: Global,
    matches: &ArgMatches,
    options: TraceOptions,
    plan: &Plan,
) -> Result<Kept, AllocError>
    ensures { IfOk result (IsKeptFor (wanting matches.now options) plan.now) }
{
    let asked = asked_by(matches, options);
    let second = second(alloc, matches, options, asked, plan)?;
    Ok(Kept {
        asked,
        known: Known::none(),
        second,
    })
}

/// The program, where the run's end is explained.
fn program_of(
    alloc: Global,
    options: TraceOptions,
    plan: &Plan,
) -> Result<Option<Program>, AllocError> {
    if !options.explain {
        return Ok(None);
    }
    Ok(Some(Program::of(alloc, &plan.boot)?))
}

/// Reads what the words ask for: how the run is traced, and its plan.
pub fn prepare<R: Files + AllocGlobal, I: Read + IsTerminal, E: Write + IsTerminal>(
    rt: &R,
    matches: &ArgMatches,
    explained: bool,
    input: &mut I,
    err: &mut E,
) -> Result<Prepared, Fault>
    ensures options { IfOk result (λ prepared. options_of matches.now ≡ Ok (options_by prepared.options)) }
    ensures plan { IfOk result (λ prepared.
        IsPlan R.File.remaining matches.now prepared.options (I.remaining input.old) prepared.plan) }
    ensures kept { IfOk result (λ prepared.
        IsKeptFor (wanting matches.now prepared.options) prepared.plan prepared.kept) }
    ensures refused { IfErr result (RefusesWords R.File.remaining matches.now (I.remaining input.old)) }
{
    let options = match trace_options(matches, explained) {
        Ok(options) => options,
        Err(fault) => return Err(fault.told(rt.alloc(), matches)),
    };
    let plan = match read_plan(rt, matches, options, input, err) {
        Ok(plan) => plan,
        Err(fault) => return Err(fault),
    };
    let Ok(kept) = keep(rt.alloc(), matches, options, &plan) else {
        return Err(Fault::Memory);
    };
    let Ok(program) = program_of(rt.alloc(), options, &plan) else {
        return Err(Fault::Memory);
    };
    Ok(Prepared {
        options,
        plan,
        kept,
        program,
    })
}
