//! The trace of a run with a failure.

ghost use Rattle.std.specs.Prelude.{◌≡◌, [], IfOk, OnOk};
ghost use Rattle.sweep_faults.specs.Runs.{RunsFaulted};
ghost use Rattle.sweep_trace.specs.Shown.{IsShown};

use crate::tracing::{kernel, schedule};
use containers::Bytes;
use lx_kernel::Kernel;
use plain_trace::Trace;
use pt_schedule::Schedule;
use std::alloc::{AllocError, Global};
use sweep_faults::{Fault, Heard, run_faulted};
use sweep_rows::{Calls, Setup};
use tr_core::Options;

/// A run as it is shown.
#[derive(Drop)]
pub struct ShownRun {
    pub trace: Bytes,
    pub console: Bytes,
}

/// Makes the run with this failure, and gives its console.
fn run_shown(
    alloc: Global,
    kernel: &mut Kernel,
    schedule: &mut Schedule,
    fault: Fault,
    trace: &mut Trace,
) -> Result<Bytes, AllocError>
    requires { kernel.old.running.log ≡ [] }
    ensures to { OnOk result (RunsFaulted fault kernel.old schedule.old kernel.new) }
    ensures console { IfOk result (λ console. console ≡ kernel.new.running.shared.console) }
{
    let mut heard = Heard::new(alloc);
    let calls = Calls::new(alloc);
    if run_faulted(kernel, schedule, fault, &mut heard, &calls, trace).is_err() {
        return Err(AllocError);
    }
    let console = Bytes::from_slice(alloc, kernel.console())?;
    Ok(console)
}

/// What is shown of a run with this trace and this console.
pub(crate) fn shown_with(trace: Trace, console: Bytes) -> Result<ShownRun, AllocError>
    ensures { IfOk result (λ shown. shown.console ≡ console) }
{
    let trace = trace.into_bytes()?;
    Ok(ShownRun { trace, console })
}

/// The run with this failure, of a boot that is accepted. Its trace is what a `Trace` writes that watches it.
pub fn show_failing(
    alloc: Global,
    setup: &Setup,
    fault: Fault,
    options: Options,
) -> Result<ShownRun, AllocError>
    ensures { IfOk result (IsShown setup.now fault) }
{
    let mut schedule = schedule(alloc, setup.turns.as_slice(), setup.limit)?;
    let mut kernel = kernel(alloc, &setup.boot)?;
    let mut trace = Trace::new(alloc, options);
    match run_shown(alloc, &mut kernel, &mut schedule, fault, &mut trace) {
        Ok(console) => {
            drop(kernel);
            let shown = shown_with(trace, console)?;
            Ok(shown)
        }
        Err(error) => {
            drop(kernel);
            Err(error)
        }
    }
}
