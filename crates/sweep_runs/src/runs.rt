//! Whole runs from their boot on.

ghost use Rattle.std.specs.Prelude.{◌≡◌, true, [], IfOk, IfErr, OnOk, None, Some, Err};
ghost use Rattle.lx_boot.specs.Boots.{Refuses, fault_of};
ghost use Rattle.lx_boot.specs.declared.boots.BootFault.{BootFault as BootRefusal};
ghost use Rattle.lx_kernel.specs.First.{first_run, first_run_without_log};
ghost use Rattle.plain_run.specs.Runs.{RunsTo};
ghost use Rattle.pt_schedule.specs.Schedules.{worded};
ghost use Rattle.sweep_faults.specs.Heard.{HearsBeside};
ghost use Rattle.sweep_faults.specs.Runs.{RunsFaulted};
ghost use Rattle.sweep_runs.specs.Runs.{ComesTo, FaultComesTo, IsReached, Reaches};

use crate::ends::ending;
use lx_abi::{Boot, Script, Word};
use lx_boot::{BootFault, boot_fault};
use lx_copies::Copied;
use lx_kernel::Kernel;
use plain_run::{Unwatched, run};
use pt_schedule::Schedule;
use std::alloc::{AllocError, Global};
use sweep_faults::{Fault, Heard, run_faulted};
use sweep_rows::{Calls, Reached, RunLog, Setup, streams_of};

fn copy<T: Copy + Drop>(alloc: Global, items: &[T]) -> Result<Vec<T>, AllocError>
    ensures { IfOk result (λ copy. copy.items ≡ items.now) }
{
    let mut copy = Vec::new(alloc);
    copy.extend_from_slice(items)?;
    Ok(copy)
}

/// The kernel of a boot under a script, and the schedule of these words. The fault is the boot's, or Memory.
pub(crate) fn begin(
    alloc: Global,
    boot: &Boot,
    words: &[Word],
    limit: u64,
    script: Script,
) -> Result<(Kernel, Schedule), BootFault>
    ensures kernel { IfOk result (λ begun. begun.0 ≡ first_run boot.now script) }
    ensures schedule { IfOk result (λ begun. begun.1 ≡ worded words.now limit) }
{
    let boot = boot.copy(alloc)?;
    let words = copy(alloc, words)?;
    let schedule = Schedule::words(words, limit);
    match Kernel::boot(alloc, boot, script) {
        Ok(kernel) => Ok((kernel, schedule)),
        Err(fault) => Err(fault),
    }
}

/// The kernel at the end of the run of a boot under a script, by these words. The fault is the boot's, or Memory where
/// memory runs out, in the run too.
pub fn run_by(
    alloc: Global,
    boot: &Boot,
    words: &[Word],
    limit: u64,
    script: Script,
) -> Result<Kernel, BootFault>
    ensures { IfOk result (RunsTo (first_run boot.now script) (worded words.now limit)) }
{
    let (mut kernel, mut schedule) = match begin(alloc, boot, words, limit, script) {
        Ok(begun) => begun,
        Err(fault) => return Err(fault),
    };
    match run(&mut kernel, &mut schedule, &mut Unwatched::new()) {
        Ok(()) => Ok(kernel),
        Err(_) => {
            drop(kernel);
            Err(BootFault::Memory)
        }
    }
}

/// The kernel of a boot that is accepted, which keeps no log, and the schedule of its words.
pub(crate) fn begin_without_log(
    alloc: Global,
    setup: &Setup,
) -> Result<(Kernel, Schedule), AllocError>
    ensures kernel { IfOk result (λ begun. begun.0 ≡ first_run_without_log setup.now.boot []) }
    ensures schedule { IfOk result (λ begun. begun.1 ≡ worded setup.now.turns.items setup.now.limit) }
{
    let boot = setup.boot.copy(alloc)?;
    let words = copy(alloc, setup.turns.as_slice())?;
    let schedule = Schedule::words(words, setup.limit);
    match Kernel::boot_without_log(alloc, boot, Script::empty(alloc)) {
        Ok(kernel) => Ok((kernel, schedule)),
        Err(_) => Err(AllocError),
    }
}

/// Makes the run on of which this was heard, in which this call of this process fails.
pub(crate) fn run_on(
    mut kernel: Kernel,
    mut schedule: Schedule,
    fault: Fault,
    heard: &mut Heard,
    calls: &Calls,
) -> Result<Kernel, AllocError>
    requires { HearsBeside calls.now heard.old kernel.running.log }
    ensures run { IfOk result (RunsFaulted fault kernel schedule) }
    ensures heard { IfOk result (λ k. HearsBeside calls.now heard.new k.running.log) }
{
    match run_faulted(
        &mut kernel,
        &mut schedule,
        fault,
        heard,
        calls,
        &mut Unwatched::new(),
    ) {
        Ok(()) => Ok(kernel),
        Err(_) => {
            drop(kernel);
            Err(AllocError)
        }
    }
}

/// The kernel at the end of the run in which this call of this process fails, of a boot that is accepted. Its log
/// isn't kept.
pub fn run_failing(alloc: Global, setup: &Setup, fault: Fault) -> Result<Kernel, AllocError>
    ensures { IfOk result (FaultComesTo setup.now fault) }
{
    let mut heard = Heard::new(alloc);
    let calls = Calls::new(alloc);
    let (kernel, schedule) = begin_without_log(alloc, setup)?;
    let kernel = run_on(kernel, schedule, fault, &mut heard, &calls)?;
    Ok(kernel)
}

/// The kernel at the end of the run under a script. The fault is the boot's, or Memory where memory runs out, in the
/// run too.
pub fn run_under(alloc: Global, setup: &Setup, script: Script) -> Result<Kernel, BootFault>
    ensures { IfOk result (ComesTo setup.now script) }
{
    let words = setup.turns.as_slice();
    let kernel = run_by(alloc, &setup.boot, words, setup.limit, script)?;
    Ok(kernel)
}

/// The kernel at the end of the run under a script, of a boot that is accepted.
pub fn run_accepted(alloc: Global, setup: &Setup, script: Script) -> Result<Kernel, AllocError>
    ensures { IfOk result (ComesTo setup.now script) }
{
    match run_under(alloc, setup, script) {
        Ok(kernel) => Ok(kernel),
        Err(_) => Err(AllocError),
    }
}

/// What a run left, logged and said. The kernel gives its log away.
fn reached(alloc: Global, kernel: &mut Kernel) -> Result<Reached, AllocError>
    requires { kernel.old.keeps_log ≡ true }
    ensures { IfOk result (IsReached kernel.old) }
{
    let ending = ending(kernel)?;
    let items = kernel.take_log();
    let streams = streams_of(alloc, items.as_slice(), ending.outcome.console.as_slice())?;
    Ok(Reached {
        ending,
        log: RunLog::kept(items),
        streams,
    })
}

/// What a run left, logged and said, which does not go on.
fn reached_by(alloc: Global, mut kernel: Kernel) -> Result<Reached, AllocError>
    requires { kernel.keeps_log ≡ true }
    ensures { IfOk result (IsReached kernel) }
{
    let reached = reached(alloc, &mut kernel);
    drop(kernel);
    reached
}

/// What the run under a script came to, of a boot that is accepted.
pub fn reach(alloc: Global, setup: &Setup, script: Script) -> Result<Reached, AllocError>
    ensures { IfOk result (Reaches setup.now script) }
{
    let kernel = run_accepted(alloc, setup, script)?;
    let reached = reached_by(alloc, kernel)?;
    Ok(reached)
}

/// The run without a failure, of a boot that is accepted.
fn refer_accepted(alloc: Global, setup: &Setup) -> Result<Reached, AllocError>
    ensures { IfOk result (Reaches setup.now []) }
{
    let reached = reach(alloc, setup, Script::empty(alloc))?;
    Ok(reached)
}

/// The run without a failure.
pub fn refer(alloc: Global, setup: &Setup) -> Result<Reached, BootFault>
    ensures reference { IfOk result (Reaches setup.now []) }
    ensures accepted { OnOk result (fault_of setup.now.boot ≡ None) }
    ensures fault { IfErr result (Refuses setup.now.boot) }

    // A boot with a fault is refused with it, whatever the memory.
    ensures refused { (e : BootRefusal) → fault_of setup.now.boot ≡ Some e → result ≡ Err e }
{
    if let Some(fault) = boot_fault(alloc, &setup.boot) {
        return Err(fault);
    }
    let reference = refer_accepted(alloc, setup)?;
    Ok(reference)
}
