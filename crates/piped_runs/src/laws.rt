//! What a run over a pipe tells, as the contract of a function with an empty body: call it to cite it.

ghost use Rattle.piped_runs.specs.Piped.{PipedRunsTell, RunsOverChildrenTell};

use host_ends::laws::ends_agree;
use host_link::{ChildLink, PipeLink};
use host_wire::{Sink, Source};
use lx_proc::{Shared, UserState};
use pt_model::laws::hosts_run_alike;
use std::process::OpenProcess;
use trace_run::laws::{linux_runs_tell, local_links_answer_their_own};

/// A run over a pipe to a host in another process tells what a run over that host in the tracer's own process tells:
/// the trace begins the rendering of a view of the untraced kernel's log, and where the run is whole it is all of it,
/// with that kernel's outcome. Trusted is that each end of the pipe gives a beginning of what was written to the other.
pub fn piped_runs_tell<R: Source, W: Sink>()
    ensures { PipedRunsTell (λ l. l) R.input W.contents W.puts W.broken }
{
    ends_agree();
    local_links_answer_their_own();
    hosts_run_alike::<Shared, UserState>();
    linux_runs_tell::<PipeLink<R, W>>();
}

/// So does a run over the streams of a child that this process has started, by what these streams are known to give
/// and to take.
pub fn runs_over_children_tell<P: OpenProcess + Drop>()
    ensures { RunsOverChildrenTell P P.Stderr P.Stdout.remaining P.Stdin.contents }
{
    ends_agree();
    local_links_answer_their_own();
    hosts_run_alike::<Shared, UserState>();
    linux_runs_tell::<ChildLink<P>>();
}
