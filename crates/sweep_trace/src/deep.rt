//! The trace of a run in which a call fails behind another.

ghost use Rattle.std.specs.Prelude.{◌≡◌, [], IfOk, OnOk};
ghost use Rattle.sweep_faults.specs.Deep.{RunsDeep};
ghost use Rattle.sweep_trace.specs.Shown.{IsShownDeep};

use crate::failing::{ShownRun, shown_with};
use crate::tracing::{kernel, schedule};
use containers::Bytes;
use lx_kernel::Kernel;
use plain_trace::Trace;
use pt_schedule::Schedule;
use std::alloc::{AllocError, Global};
use sweep_faults::{Deep, Heard, run_deep};
use sweep_rows::{Calls, Setup};
use tr_core::Options;

/// Makes the run with both failures, and gives its console.
fn run_shown(
    alloc: Global,
    kernel: &mut Kernel,
    schedule: &mut Schedule,
    deep: Deep,
    trace: &mut Trace,
) -> Result<Bytes, AllocError>
    requires { kernel.old.running.log ≡ [] }
    ensures to { OnOk result (RunsDeep deep kernel.old schedule.old kernel.new) }
    ensures console { IfOk result (λ console. console ≡ kernel.new.running.shared.console) }
{
    let mut heard = Heard::new(alloc);
    let calls = Calls::new(alloc);
    if run_deep(kernel, schedule, deep, &mut heard, &calls, trace).is_err() {
        return Err(AllocError);
    }
    let console = Bytes::from_slice(alloc, kernel.console())?;
    Ok(console)
}

/// The run with both failures, of a boot that is accepted. Its trace is what a `Trace` writes that watches it.
pub fn show_deep(
    alloc: Global,
    setup: &Setup,
    deep: Deep,
    options: Options,
) -> Result<ShownRun, AllocError>
    ensures { IfOk result (IsShownDeep setup.now deep) }
{
    let mut schedule = schedule(alloc, setup.turns.as_slice(), setup.limit)?;
    let mut kernel = kernel(alloc, &setup.boot)?;
    let mut trace = Trace::new(alloc, options);
    match run_shown(alloc, &mut kernel, &mut schedule, deep, &mut trace) {
        Ok(console) => {
            drop(kernel);
            let shown = shown_with(trace, console)?;
            Ok(shown)
        }
        Err(error) => {
            drop(kernel);
            Err(error)
        }
    }
}
