//! What a run is made of.

ghost use Rattle.std.specs.Prelude.{◌≡◌, IfErr, IfOk, List, codes};
ghost use Rattle.lx_abi.specs.declared.schedule.Word.{Word as Turn};
ghost use Rattle.lx_kernel.specs.First.{first_run_without_log};
ghost use Rattle.pt_schedule.specs.Schedules.{worded};
ghost use Rattle.front_end.specs.Refusals.{RefusesSchedule};
ghost use Rattle.front_end.specs.Schedules.{IsSchedule};
ghost use Rattle.front_end.specs.Values.{value_of};
ghost use Rattle.guest_commands.specs.Plans.{IsPlan, RefusesPlan};

use clap::ArgMatches;
use front_boot::read_boot;
use front_end::{Fault, Program, check_outputs, read_expressions, read_turns};
use lx_abi::{Boot, Script};
use lx_kernel::Kernel;
use pt_schedule::Schedule;
use std::alloc::{AllocError, Global};
use std::io::{IsTerminal, Read, Write};
use std::rt::Files;

/// A kernel that has had no turn, and the order of its turns.
#[derive(Drop)]
pub struct Plan {
    pub kernel: Kernel,
    pub schedule: Schedule,
    /// The most turns.
    pub limit: u64,
    /// The program, where the end of the run is to be explained.
    pub program: Option<Program>,
}

/// The order of turns that the words ask for, `limit` at most.
fn schedule<R: Files + AllocGlobal>(
    rt: &R,
    matches: &ArgMatches,
    limit: u64,
) -> Result<Schedule, Fault>
    ensures words { IfOk result (λ schedule. (turns : List Turn)
        × (IsSchedule R.File.remaining (value_of matches.now (codes "turns")) turns
        × (schedule ≡ worded turns limit))) }
    ensures refused { IfErr result (RefusesSchedule (value_of matches.now (codes "turns"))) }
{
    let words = read_turns(rt, matches.get_str("turns"))?;
    Ok(Schedule::words(words, limit))
}

/// The kernel of a boot that one takes, where memory suffices.
fn booted(alloc: Global, boot: Boot, script: Script) -> Result<Kernel, AllocError>
    ensures { IfOk result (λ kernel. kernel ≡ first_run_without_log boot script) }
{
    match Kernel::boot_without_log(alloc, boot, script) {
        Ok(kernel) => Ok(kernel),
        Err(_) => Err(AllocError),
    }
}

fn program(alloc: Global, explained: bool, boot: &Boot) -> Result<Option<Program>, AllocError> {
    if explained {
        Ok(Some(Program::of(alloc, boot)?))
    } else {
        Ok(None)
    }
}

/// Reads what the words ask for; a trace set has no effect. Faults are looked for in the limit, the expressions, the
/// schedule, the files to be written, the guest's variables, its files, its input and then the boot.
pub fn read_plan<R: Files + AllocGlobal, I: Read + IsTerminal, E: Write + IsTerminal>(
    rt: &R,
    matches: &ArgMatches,
    explained: bool,
    input: &mut I,
    err: &mut E,
) -> Result<Plan, Fault>
    ensures plan { IfOk result (IsPlan R.File.remaining matches.now (I.remaining input.old)) }
    ensures refused { IfErr result (RefusesPlan R.File.remaining matches.now (I.remaining input.old)) }
{
    let limit = front_end::limit(rt.alloc(), matches)?;
    let script = read_expressions(rt.alloc(), matches)?.script;
    let schedule = schedule(rt, matches, limit)?;
    check_outputs(rt, matches)?;
    let boot = read_boot(rt, "guest_host", matches, true, input, err)?;
    let Ok(program) = program(rt.alloc(), explained, &boot) else {
        return Err(Fault::Memory);
    };
    let Ok(kernel) = booted(rt.alloc(), boot, script) else {
        return Err(Fault::Memory);
    };
    Ok(Plan {
        kernel,
        schedule,
        limit,
        program,
    })
}
