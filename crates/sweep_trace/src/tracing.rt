//! The trace of the run without a failure.

ghost use Rattle.std.specs.Prelude.{◌≡◌, [], IfOk};
ghost use Rattle.lx_kernel.specs.First.{first_run_without_log};
ghost use Rattle.pt_schedule.specs.Schedules.{worded};

use crate::calling::callers;
use containers::{Bytes, Seq};
use front_end::Fault;
use lx_abi::{Boot, Item, Script, Set, Word};
use lx_copies::Copied;
use lx_kernel::Kernel;
use pt_schedule::Schedule;
use std::alloc::{AllocError, Global};
use sweep_report::traced::TracedCalls;
use sweep_rows::Setup;
use tr_core::Options;

/// The most bytes of a string that a report shows.
const MOST_TOLD: u32 = 24;

/// As strace_cli has them by itself: the most bytes of a string, and the column of results.
const STRING_LIMIT: u32 = 32;

const COLUMN: u32 = 40;

/// All calls, as strace_cli shows them by itself.
pub fn shown_options(alloc: Global, follow: bool) -> Options {
    Options {
        follow,
        shown: Set::AllBut(Seq::new(alloc)),
        string_limit: STRING_LIMIT,
        width: COLUMN,
    }
}

/// All calls, with a column of results that is always behind.
fn told_options(alloc: Global, follow: bool) -> Options {
    Options {
        follow,
        shown: Set::AllBut(Seq::new(alloc)),
        string_limit: MOST_TOLD,
        width: 0,
    }
}

/// The schedule of a sweep's runs.
pub fn schedule(alloc: Global, turns: &[Word], limit: u64) -> Result<Schedule, AllocError>
    ensures { IfOk result (λ s. s ≡ worded turns.now limit) }
{
    let mut words = Vec::new(alloc);
    words.extend_from_slice(turns)?;
    Ok(Schedule::words(words, limit))
}

/// The kernel of a boot that is accepted, which no script changes. It keeps no log.
pub fn kernel(alloc: Global, boot: &Boot) -> Result<Kernel, AllocError>
    ensures first { IfOk result (λ k. k ≡ first_run_without_log boot.now []) }
    ensures log { IfOk result (λ k. k.running.log ≡ []) }
{
    let boot = boot.copy(alloc)?;
    match Kernel::boot_without_log(alloc, boot, Script::empty(alloc)) {
        Ok(kernel) => Ok(kernel),
        Err(_) => Err(AllocError),
    }
}

/// The trace of the run without a failure, of a boot that is accepted.
fn trace(alloc: Global, setup: &Setup, options: Options) -> Result<Bytes, AllocError> {
    let mut schedule = schedule(alloc, setup.turns.as_slice(), setup.limit)?;
    let mut kernel = kernel(alloc, &setup.boot)?;
    let trace = plain_trace::run(alloc, &mut kernel, &mut schedule, options);
    drop(kernel);
    trace
}

/// The calls of the run without a failure, which has this log.
pub fn traced_calls(alloc: Global, setup: &Setup, log: &[Item]) -> Result<TracedCalls, Fault> {
    let trace = trace(alloc, setup, told_options(alloc, setup.boot.follow))?;
    let text = str::from_utf8(trace.as_slice()).unwrap_or("");
    let callers = callers(alloc, setup)?;
    Ok(TracedCalls::of(alloc, text, setup.boot.follow, log, callers)?)
}
