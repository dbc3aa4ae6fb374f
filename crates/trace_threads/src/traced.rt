//! The tracer's run, beside the threads that turn its host.

ghost use Rattle.std.specs.Prelude.{◌≡◌, [], IfOk};
ghost use Rattle.trace_threads.specs.ThreadRuns.{IsTraced};

use containers::Bytes;
use host_shared::{Exchanges, Gate, SharedHost, SharedLink, work};
use lx_abi::Script;
use std::alloc::Global;
use std::sync::Wait;
use std::thread;
use std::thread::Threads;
use tr_core::Options;
use trace_run::laws::linux_runs_tell;
use trace_run::{Ended, RunFault, Written, run};
use transcript::{Naming, Transcript};

/// What the tracer's thread leaves.
#[derive(Drop)]
pub struct Traced<J: Naming> {
    /// Each worker's thread was started.
    pub started: bool,
    pub ended: Result<Ended, RunFault>,
    pub known: Exchanges<J>,
    pub trace: Bytes,
}

/// Traces the host under the lock, and closes it.
fn trace<J: Naming, R: Wait>(
    rt: &R,
    alloc: Global,
    shared: &SharedHost<J>,
    said: Transcript<J>,
    script: Script,
    options: Options,
    started: bool,
) -> Traced<J>
    requires { said ≡ [] }
    ensures { IfOk result.ended (λ ended. IsTraced script options ended result.known result.trace) }
{
    linux_runs_tell::<SharedLink<'_, J, R>>();
    let mut link = SharedLink::new(rt, shared, said);
    let mut trace = Written::new(alloc);
    let ended = run(alloc, &mut link, &mut trace, script, options);
    shared.close(rt);
    Traced {
        started,
        ended,
        known: link.into_known(),
        trace: trace.into_bytes(),
    }
}

/// Traces the host under the lock while so many threads turn it, and joins them.
pub fn trace_on_threads<J: Naming + Send + Sync, G: Gate, R: Threads + Wait + Sync>(
    rt: &R,
    alloc: Global,
    shared: &SharedHost<J>,
    said: Transcript<J>,
    workers: u8,
    script: Script,
    options: Options,
    gate: &G,
) -> Traced<J>
    requires { said ≡ [] }
    ensures { IfOk result.ended (λ ended. IsTraced script options ended result.known result.trace) }
{
    thread::scope(
        thread::scope_env(),
        rt,
        |scope| -> Traced<J>
            requires { said ≡ [] }
            ensures { IfOk result.ended (λ ended. IsTraced script options ended result.known result.trace) }
        {
            let mut started = true;
            for worker in 0..workers {
                if started && scope.spawn(move || work(rt, shared, worker, gate)).is_err() {
                    started = false;
                }
            }
            if !started {
                shared.close(rt);
            }
            trace(rt, alloc, shared, said, script, options, started)
        },
    )
}
