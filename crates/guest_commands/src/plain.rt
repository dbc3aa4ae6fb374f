//! A run on the untraced kernel.

ghost use Rattle.std.specs.Prelude.{◌≡◌, Ok, OnOk, IfOk};
ghost use Rattle.lx_abi.specs.Modes.{lives_in};
ghost use Rattle.plain_run.specs.Runs.{RunsTo};
ghost use Rattle.plain_log.specs.Logged.{IsLogged};
ghost use Rattle.guest_commands.specs.Plans.{RunsWords};
ghost use Rattle.guest_commands.specs.Statuses.{is_alive as is_alive_in, first_status, status_in};

use crate::plan::{Plan, read_plan};
use clap::ArgMatches;
use front_end::{Fault, Leavings};
use lx_abi::{Ended, Mode, Status};
use lx_kernel::Kernel;
use plain_log::LogFault;
use pt_schedule::explain_turns;
use std::alloc::{AllocError, Global};
use std::io::{self, IsTerminal, Read, Write};
use std::rt::Files;

/// Turns ended with a process alive.
const ALIVE: u8 = 4;

/// The process is before its end.
fn lives(mode: Option<Mode>) -> bool
    ensures { result ≡ lives_in mode }
{
    !matches!(mode, None | Some(Mode::Dying | Mode::Zombie))
}

/// Some process is before its end.
#[tactic(auto, unfolding(crate::specs::Statuses::is_alive))]
fn is_alive(kernel: &Kernel) -> bool
    ensures { result ≡ is_alive_in kernel.now }
{
    (1..kernel.next_pid()).any(|pid| lives(kernel.mode(pid)))
}

/// Process 1's exit code, or 128 and the signal that ended it.
fn status_of(ended: &[Ended]) -> u8
    ensures { result ≡ first_status ended.now }
{
    match ended.first() {
        Some(first) if first.pid == 1 => Status { word: first.word }.shell_status(),
        _ => ALIVE,
    }
}

/// The exit status of a run that came to its end.
fn status(kernel: &Kernel) -> Result<u8, AllocError>
    ensures { IfOk result (λ status. status ≡ status_in kernel.now) }
{
    if is_alive(kernel) {
        return Ok(ALIVE);
    }
    let ended = kernel.ended()?;
    Ok(status_of(ended.as_slice()))
}

/// A run whose log ended so.
fn logged(alloc: Global, ended: Result<(), LogFault>) -> Result<(), Fault>
    ensures { OnOk result (ended ≡ Ok tt) }
{
    match ended {
        Ok(()) => Ok(()),
        Err(LogFault::Memory) => Err(Fault::Memory),
        Err(LogFault::Output(error)) => {
            Err(Fault::output(format!(in alloc; "the log: {error}")))
        }
    }
}

/// Turns by the plan's schedule until it has ended, with the log to a writer, which is given back.
fn log_turns<E: Write>(alloc: Global, plan: &mut Plan, err: E) -> (E, Result<(), Fault>)
    ensures to { OnOk result.1 (RunsTo plan.old.kernel plan.old.schedule plan.new.kernel) }
    ensures printed { OnOk result.1 (IsLogged (E.contents err) plan.old.kernel plan.new.kernel (E.contents result.0)) }
{
    let (err, ended) = plain_log::run(alloc, &mut plan.kernel, &mut plan.schedule, err);
    (err, logged(alloc, ended))
}

fn write_flushed<O: Write>(bytes: &[u8], out: &mut O) -> io::Result<()> {
    out.write_all(bytes)?;
    out.flush()
}

/// Writes the console's bytes.
fn write_console<O: Write>(alloc: Global, kernel: &Kernel, out: &mut O) -> Result<(), Fault> {
    match write_flushed(kernel.console(), out) {
        Ok(()) => Ok(()),
        Err(error) => Err(Fault::output(format!(in alloc; "the console: {error}"))),
    }
}

/// Writes what a run that came to its end has left in its files, where the words ask for it.
fn write_leavings<R: Files + AllocGlobal>(
    rt: &R,
    leavings: Leavings<'_>,
    kernel: &Kernel,
    status: u8,
) -> Result<(), Fault> {
    if status == ALIVE && is_alive(kernel) || !leavings.are_wanted() {
        return Ok(());
    }
    let outcome = kernel.outcome()?;
    let written = leavings.write(rt, &outcome);
    drop(outcome);
    Ok(written?)
}

/// What comes of a run whose log and console were written so: its exit status.
fn ended<R: Files + AllocGlobal>(
    rt: &R,
    leavings: Leavings<'_>,
    kernel: &Kernel,
    logged: Result<(), Fault>,
    shown: Result<(), Fault>,
) -> Result<u8, Fault>
    ensures logged { OnOk result (logged ≡ Ok tt) }
    ensures status { IfOk result (λ status. status ≡ status_in kernel.now) }
{
    logged?;
    shown?;
    let status = status(kernel)?;
    write_leavings(rt, leavings, kernel, status)?;
    Ok(status)
}

/// Runs the kernel by its schedule. The log goes to `err`, which is given back, and then the console to `out`, both
/// also where the run ends in a fault.
fn run_plan<R: Files + AllocGlobal, O: Write, E: Write>(
    rt: &R,
    leavings: Leavings<'_>,
    plan: &mut Plan,
    out: &mut O,
    err: E,
) -> (E, Result<u8, Fault>)
    ensures to { OnOk result.1 (RunsTo plan.old.kernel plan.old.schedule plan.new.kernel) }
    ensures printed { OnOk result.1 (IsLogged (E.contents err) plan.old.kernel plan.new.kernel (E.contents result.0)) }
    ensures status { IfOk result.1 (λ status. status ≡ status_in plan.new.kernel) }
{
    let (err, logged) = log_turns(rt.alloc(), plan, err);
    let shown = write_console(rt.alloc(), &plan.kernel, out);
    (err, ended(rt, leavings, &plan.kernel, logged, shown))
}

/// Why a run ended so, if its turns or its program say it.
fn reason(alloc: Global, plan: &Plan, status: u8) -> Result<Option<String>, AllocError> {
    if status == ALIVE && is_alive(&plan.kernel) {
        return Ok(Some(explain_turns(alloc, &plan.kernel, plan.limit, "turns")?));
    }
    match &plan.program {
        Some(program) => program.reason(alloc, status),
        None => Ok(None),
    }
}

/// Explains the end of a run on `err`, if there is something to explain.
fn explain<E: Write>(
    alloc: Global,
    plan: &Plan,
    status: u8,
    err: &mut E,
) -> Result<(), AllocError> {
    if let Some(reason) = reason(alloc, plan, status)? {
        // The run has ended, whether this can be written or not.
        let _written = writeln!(err, "guest_host: {reason}");
    }
    Ok(())
}

/// The status of a run that ended so, explained where that is asked.
fn explained_status<E: Write>(
    alloc: Global,
    explained: bool,
    plan: &Plan,
    ended: Result<u8, Fault>,
    err: &mut E,
) -> Result<u8, Fault>
    ensures { IfOk result (λ status. ended ≡ Ok status) }
{
    let status = ended?;
    if explained {
        explain(alloc, plan, status, err)?;
    }
    Ok(status)
}

/// Runs the program that the words name, and explains its end where that is asked.
pub fn run<R: Files + AllocGlobal, I: Read + IsTerminal, O: Write, E: Write + IsTerminal>(
    rt: &R,
    matches: &ArgMatches,
    explained: bool,
    input: &mut I,
    out: &mut O,
    err: &mut E,
) -> Result<u8, Fault>
    ensures { RunsWords R.File.remaining matches.now (I.remaining input.old) result }
{
    let mut plan = match read_plan(rt, matches, explained, input, err) {
        Ok(plan) => plan,
        Err(fault) => return Err(fault),
    };
    let (err, ended) = run_plan(rt, Leavings::of(matches), &mut plan, out, err);
    let status = explained_status(rt.alloc(), explained, &plan, ended, err);
    drop(plan);
    status
}
