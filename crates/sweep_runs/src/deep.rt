//! Runs in which an occurrence of a call fails, and one behind it.

ghost use Rattle.std.specs.Prelude.{◌≡◌, true, [], IfOk};
ghost use Rattle.lx_kernel.specs.First.{first_run};
ghost use Rattle.pt_schedule.specs.Schedules.{worded};
ghost use Rattle.sweep_faults.specs.Deep.{RunsDeep};
ghost use Rattle.sweep_faults.specs.Heard.{HearsBeside};
ghost use Rattle.sweep_runs.specs.Deep.{DeepComesTo, DeepComparesTo, FailingLogs, FaultLogs, IsDeepRow};
ghost use Rattle.sweep_runs.specs.Deep.{case_in, deep_of};

use crate::leading::{Compared, compare};
use crate::runs::{begin, begin_without_log, run_on};
use crate::sweeping::{compare as row_by, fault_of};
use lx_abi::{Item, Script};
use lx_kernel::Kernel;
use plain_run::Unwatched;
use pt_schedule::Schedule;
use std::alloc::{AllocError, Global};
use sweep_faults::{Deep, Fault, Heard, run_deep};
use sweep_rows::{Calls, Case, Reached, Row, Setup};

/// An occurrence that fails, and one that the run with this failure has behind it.
#[derive(Clone, Copy, Debug, PartialEq, Eq)]
pub struct DeepCase {
    pub first: Case,
    pub second: Case,
}

/// What came of a run in which both fail; its row's case is the second.
#[derive(Drop)]
pub struct DeepRow {
    pub first: Case,
    pub row: Row,
}

impl DeepCase {
    /// The calls of both fail.
    pub fn deep(self) -> Deep
        ensures { result ≡ deep_of self }
    {
        Deep {
            first: fault_of(self.first),
            second: fault_of(self.second),
        }
    }
}

/// The log of a kernel that keeps it, and does not go on.
fn log_of(mut kernel: Kernel) -> Vec<Item>
    requires { kernel.keeps_log ≡ true }
    ensures { result.items ≡ kernel.running.log }
{
    let log = kernel.take_log();
    drop(kernel);
    log
}

/// The kernel of a boot that is accepted, which keeps its log, and the schedule of its words.
fn begin_with_log(alloc: Global, setup: &Setup) -> Result<(Kernel, Schedule), AllocError>
    ensures kernel { IfOk result (λ begun. begun.0 ≡ first_run setup.now.boot []) }
    ensures schedule { IfOk result (λ begun. begun.1 ≡ worded setup.now.turns.items setup.now.limit) }
{
    let words = setup.turns.as_slice();
    match begin(alloc, &setup.boot, words, setup.limit, Script::empty(alloc)) {
        Ok(begun) => Ok(begun),
        Err(_) => Err(AllocError),
    }
}

/// The kernel at the end of the run in which this call of this process fails, of a boot that is accepted.
fn run_with_log(alloc: Global, setup: &Setup, fault: Fault) -> Result<Kernel, AllocError>
    ensures { IfOk result (FaultLogs setup.now fault) }
{
    let mut heard = Heard::new(alloc);
    let calls = Calls::new(alloc);
    let (kernel, schedule) = begin_with_log(alloc, setup)?;
    let kernel = run_on(kernel, schedule, fault, &mut heard, &calls)?;
    Ok(kernel)
}

/// What the run logs in which this call of this process fails, of a boot that is accepted.
pub fn log_failing(alloc: Global, setup: &Setup, fault: Fault) -> Result<Vec<Item>, AllocError>
    ensures { IfOk result (λ log. FailingLogs setup.now fault log.items) }
{
    let kernel = run_with_log(alloc, setup, fault)?;
    Ok(log_of(kernel))
}

/// Makes the run on of which this was heard, in which these calls fail.
fn run_deep_on(
    mut kernel: Kernel,
    mut schedule: Schedule,
    deep: Deep,
    heard: &mut Heard,
    calls: &Calls,
) -> Result<Kernel, AllocError>
    requires { HearsBeside calls.now heard.old kernel.running.log }
    ensures run { IfOk result (RunsDeep deep kernel schedule) }
    ensures heard { IfOk result (λ k. HearsBeside calls.now heard.new k.running.log) }
{
    match run_deep(
        &mut kernel,
        &mut schedule,
        deep,
        heard,
        calls,
        &mut Unwatched::new(),
    ) {
        Ok(()) => Ok(kernel),
        Err(_) => {
            drop(kernel);
            Err(AllocError)
        }
    }
}

/// The kernel at the end of the run in which both calls fail, of a boot that is accepted, and what was heard of it
/// beside a reference that made these calls.
fn run_both(
    alloc: Global,
    setup: &Setup,
    deep: Deep,
    calls: &Calls,
) -> Result<(Kernel, Heard), AllocError>
    ensures run { IfOk result (λ end. DeepComesTo setup.now deep end.0) }
    ensures heard { IfOk result (λ end. HearsBeside calls.now end.1 end.0.running.log) }
{
    let mut heard = Heard::new(alloc);
    let (kernel, schedule) = begin_without_log(alloc, setup)?;
    let end = run_deep_on(kernel, schedule, deep, &mut heard, calls)?;
    Ok((end, heard))
}

/// The kernel at the end of the run in which both calls fail, of a boot that is accepted. Its log isn't kept.
pub fn run_deep_case(alloc: Global, setup: &Setup, case: DeepCase) -> Result<Kernel, AllocError>
    ensures { IfOk result (DeepComesTo setup.now (deep_of case)) }
{
    let calls = Calls::new(alloc);
    let (kernel, heard) = run_both(alloc, setup, case.deep(), &calls)?;
    drop(heard);
    Ok(kernel)
}

/// What it came to, beside the reference.
pub fn reach_deep(
    alloc: Global,
    setup: &Setup,
    reference: &Reached,
    case: DeepCase,
) -> Result<Compared, AllocError>
    ensures { IfOk result (DeepComparesTo setup.now reference.now case) }
{
    let log = reference.log.as_slice()?;
    let calls = Calls::of(alloc, log)?;
    let (kernel, heard) = run_both(alloc, setup, case.deep(), &calls)?;
    let (follow, second) = (setup.boot.follow, fault_of(case.second));
    let compared = compare(alloc, &kernel, &heard, &calls, follow, reference, second);
    drop(heard);
    drop(kernel);
    compared
}

/// The row of a run that came to this.
fn row_reached(
    alloc: Global,
    setup: &Setup,
    reference: &Reached,
    case: DeepCase,
    run: Compared,
) -> Result<DeepRow, AllocError>
    requires { DeepComparesTo setup.now reference.now case run }
    ensures row { IfOk result (IsDeepRow setup.now reference.now) }
    ensures case { IfOk result (λ r. case_in r ≡ case) }
{
    let row = row_by(alloc, &setup.boot, reference, run, case.second)?;
    Ok(DeepRow {
        first: case.first,
        row,
    })
}

/// What came of the run in which both calls fail, beside the run without a failure.
pub fn run_deep_row(
    alloc: Global,
    setup: &Setup,
    reference: &Reached,
    case: DeepCase,
) -> Result<DeepRow, AllocError>
    ensures row { IfOk result (IsDeepRow setup.now reference.now) }
    ensures case { IfOk result (λ r. case_in r ≡ case) }
{
    let run = reach_deep(alloc, setup, reference, case)?;
    let row = row_reached(alloc, setup, reference, case, run)?;
    Ok(row)
}
