//! What `strace_cli --host` tells, as the contracts of functions with empty bodies: call one to cite it.

ghost use Rattle.front_end.specs.Streams.{opened_contents};
ghost use Rattle.hosted_traces.specs.Hosted.{HostedTracesTell};
ghost use Rattle.hosted_traces.specs.Plans.{HostedPlansTell};

use piped_runs::laws::runs_over_children_tell;
use std::io::Write;
use std::process::OpenProcess;

/// A traced run over a host in a child, where `guest_host serve` is what runs there, tells what a run over that host in
/// the tracer's own process tells. Trusted is that each end of the pipes gives a beginning of what was written to the
/// other, as far as this process and that one know their streams.
pub fn hosted_traces_tell<P: OpenProcess + Drop>()
    ensures { HostedTracesTell P P.Stderr P.Stdout.remaining P.Stdin.contents }
{
    runs_over_children_tell::<P>();
}

/// Where a host is named and no workers are, what `trace_plan` says of a plan holds with its run one that tells so: of
/// the trace, at whichever place it is, and of what the run leaves.
pub fn hosted_plans_tell<F: Write, P: OpenProcess + Drop>()
    ensures { HostedPlansTell (opened_contents F.contents) P P.Stderr P.Stdout.remaining P.Stdin.contents }
{
    hosted_traces_tell::<P>();
}
