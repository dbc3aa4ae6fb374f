//! What a run writes, as the contract of a function with an empty body: call it to cite it.

ghost use Rattle.trace_run.specs.BootedRuns.{BootedRunsFail, BootedRunsTell, BootedTracesTell, KeptRunsFail};
ghost use Rattle.trace_run.specs.BootedRuns.{LinuxRefusedRunsTell, LinuxRunsTell};
ghost use Rattle.trace_run.specs.Claims.{PlainTracing, RefusedByLog, ReplacedCalls, JoinedSignals, UnderKills};
ghost use Rattle.trace_run.specs.Local.{LocalRunsTell};
ghost use Rattle.trace_run.specs.LocalRuns.{LocalLinksAnswerTheirOwn, LocalLinksFail, LocalLinksServe};
ghost use Rattle.trace_run.specs.LocalRuns.{LocalLinksTell, LocalLinksTellParts};
ghost use Rattle.trace_run.specs.Owed.{ResumesBeforeItWaits, StopsWithItsWriter, TracesWriteBeforeTheyWait};
ghost use Rattle.trace_run.specs.Owed.{WaitsOnceItResumed, WritesBeforeItAsks, WritesBeforeItWaits};
ghost use Rattle.trace_run.specs.Owed.{WritesBeforeTheLinkFails};
ghost use Rattle.trace_run.specs.Records.{BootedRunsLeave, RunsReplay};
ghost use Rattle.trace_run.specs.Results.{JoinedRuns, KilledRuns, PlainRuns, ReplacedRuns};
ghost use Rattle.trace_run.specs.Results.{RunsAreOne, TracesAreRuns, TracesTellLog};
ghost use Rattle.trace_run.specs.Runs.{calls_of};
ghost use Rattle.trace_run.specs.Tells.{RefusedRunsTell, RunsTell, ServedRunsTell};

use host_link::{Link, LocalLink};
use lx_proc::{Shared, UserState};
use lx_turn::laws::linux_is_a_machine;
use pt_kernel::Schedule;
use pt_kernel::laws::{hosts_are_called, linux_is_told};
use pt_model::laws::{
    failures_leave_a_prefix, faults_leave_a_prefix, hosts_run_alike, no_kill_no_loss,
    nobody_is_left_held, own_replies_tell, replies_tell_all, schedules_are_lists,
    traces_grow_until_a_fault, tracing_is_transparent, worlds_attend,
};
use pt_schedule::laws::events_are_few;
use tr_core::laws::{states_are_tracers, texts_are_whole, tracers_write_renderings};
use tr_line::renderings_grow;

/// Where the replies are a host's own, what was written begins the rendering of a view of the untraced kernel's log,
/// however the run ended; where it is whole it is all of it, with that kernel's outcome.
pub fn runs_tell<S, B, L: Link>()
    ensures own { RunsTell S B (calls_of L.answers L.given L.broken) }
    ensures served { ServedRunsTell S B (calls_of L.answers L.given L.broken) }
{
    failures_leave_a_prefix::<S, B>();
    own_replies_tell::<S, B>();
    states_are_tracers();
    texts_are_whole();
    tracers_write_renderings();
    renderings_grow();
}

/// So it does where the run fails by a reply that isn't admitted, after replies that are a host's own: what those
/// brought is written, and begins the rendering of such a view; and of the log itself where nobody is killed.
pub fn refused_runs_tell<S, B, L: Link>()
    ensures view { RefusedRunsTell S B (calls_of L.answers L.given L.broken) }
    ensures log { RefusedByLog S B (calls_of L.answers L.given L.broken) }
{
    no_kill_no_loss();
    faults_leave_a_prefix::<S, B>();
    traces_grow_until_a_fault();
    states_are_tracers();
    texts_are_whole();
    tracers_write_renderings();
    renderings_grow();
}

/// At Linux: where the replies, or those before one that isn't admitted, are those of a host that a boot began.
pub fn linux_runs_tell<L: Link>()
    ensures own { LinuxRunsTell (calls_of L.answers L.given L.broken) }
    ensures refused { LinuxRefusedRunsTell (calls_of L.answers L.given L.broken) }
{
    runs_tell::<Shared, UserState, L>();
    refused_runs_tell::<Shared, UserState, L>();
    linux_is_a_machine();
    linux_is_told();
}

/// A run that ends without a fault over a host in memory, which a schedule feeds, has the outcome of the untraced
/// kernel by the effective turns; its trace begins the rendering of a view of that kernel's log, and is all of it
/// where the run is whole.
pub fn local_runs_tell<X, S, B, L: Link>()
    ensures { LocalRunsTell X S B (calls_of L.answers L.given L.broken) }
{
    runs_tell::<S, B, L>();
    schedules_are_lists::<X, S, B>();
    own_replies_tell::<S, B>();
    worlds_attend::<S, B>();
    tracing_is_transparent::<S, B>();
    texts_are_whole();
}

/// A link to a host in this process serves each request by the ptrace machine at Linux, which its schedule feeds.
pub fn local_links_serve()
    ensures { LocalLinksServe }
{
    hosts_are_called();
}

/// What such a link answered to a tracer's requests, from its boot on, are a host's own replies, whoever carried them:
/// so `linux_runs_tell` holds of a run over any link that gives these.
pub fn local_links_answer_their_own()
    ensures { LocalLinksAnswerTheirOwn }
{
    local_links_serve();
    schedules_are_lists::<Schedule, Shared, UserState>();
    own_replies_tell::<Shared, UserState>();
    worlds_attend::<Shared, UserState>();
    hosts_run_alike::<Shared, UserState>();
}

/// A run over such a link, from its boot on, has the outcome of the untraced kernel by the effective turns; its trace
/// begins the rendering of a view of that kernel's log, and is all of it where the run is whole.
pub fn local_links_tell()
    ensures { LocalLinksTell }
{
    local_links_serve();
    runs_tell::<Shared, UserState, LocalLink>();
    schedules_are_lists::<Schedule, Shared, UserState>();
    own_replies_tell::<Shared, UserState>();
    worlds_attend::<Shared, UserState>();
    tracing_is_transparent::<Shared, UserState>();
    hosts_run_alike::<Shared, UserState>();
    texts_are_whole();
    linux_is_a_machine();
    linux_is_told();
}

/// However a run over such a link ends, in a fault too, and whatever it writes to: what was written begins the
/// rendering of a view of the untraced kernel's log, by the events that the schedule had given.
pub fn local_links_tell_parts()
    ensures { LocalLinksTellParts }
{
    local_links_answer_their_own();
    runs_tell::<Shared, UserState, LocalLink>();
    linux_is_a_machine();
    linux_is_told();
}

/// A run over such a link, from its boot on, fails only where memory was refused, where its writer failed, and where
/// the schedule had events for 2^40 replies, more than one by words or of a list ever has.
pub fn local_links_fail()
    ensures { LocalLinksFail }
{
    local_links_tell_parts();
    local_links_serve();
    own_replies_tell::<Shared, UserState>();
    worlds_attend::<Shared, UserState>();
    events_are_few();
}

/// So it is over a link to a host that a boot began: what such a run tells, what it writes, and how it fails.
pub fn booted_runs_tell()
    ensures run { BootedRunsTell }
    ensures trace { BootedTracesTell }
    ensures fails { BootedRunsFail }
    ensures kept { KeptRunsFail }
{
    local_links_tell();
    local_links_tell_parts();
    local_links_fail();
    hosts_run_alike::<Shared, UserState>();
}

/// What it leaves behind its trace, where it doesn't fail: the host as the events of the run led it, and these, where
/// they are noted.
pub fn booted_runs_leave()
    ensures { BootedRunsLeave }
{
    local_links_serve();
    worlds_attend::<Shared, UserState>();
    own_replies_tell::<Shared, UserState>();
    hosts_run_alike::<Shared, UserState>();
}

/// By its own events, as a list, a run is made again.
pub fn runs_replay()
    ensures { RunsReplay }
{
    events_are_few();
}

/// Before it asks, a run has written what it owes: all that the replies before brought, by one put for each, whatever
/// they are. Where its writer fails it asks no more. Whose status it took it resumed by Syscall or Listen, or found
/// gone, before the next Wait; and behind Syscall and Listen it asks Wait, or nothing more.
pub fn runs_write_before_they_ask<L: Link>()
    ensures asks { WritesBeforeItAsks (calls_of L.answers L.given L.broken) }
    ensures link { WritesBeforeTheLinkFails (calls_of L.answers L.given L.broken) }
    ensures writer { StopsWithItsWriter (calls_of L.answers L.given L.broken) }
    ensures resumed { ResumesBeforeItWaits (calls_of L.answers L.given L.broken) }
    ensures waits { WaitsOnceItResumed (calls_of L.answers L.given L.broken) }
{
    nobody_is_left_held();
}

/// So nothing is kept back at a Wait: where the replies are a host's own, what was written by then is the rendering of
/// all that is behind the statuses that were taken.
pub fn runs_write_before_they_wait<S, B, L: Link>()
    ensures { WritesBeforeItWaits S B (calls_of L.answers L.given L.broken) }
{
    tracing_is_transparent::<S, B>();
    replies_tell_all::<S, B>();
    worlds_attend::<S, B>();
    own_replies_tell::<S, B>();
    states_are_tracers();
    texts_are_whole();
    tracers_write_renderings();
}

/// So it is of `trace_local`.
pub fn traces_write_before_they_wait()
    ensures { TracesWriteBeforeTheyWait }
{
    runs_write_before_they_wait::<Shared, UserState, LocalLink>();
    schedules_are_lists::<Schedule, Shared, UserState>();
    own_replies_tell::<Shared, UserState>();
    linux_is_a_machine();
    linux_is_told();
}

/// Under the empty script a run tells the untraced kernel's log and outcome, where nobody is killed.
pub fn plain_tracing_is_transparent<S, B, L: Link>()
    ensures { PlainTracing S B (calls_of L.answers L.given L.broken) }
{
    joined_signals_are_transparent::<S, B, L>();
}

/// So it does with results replaced: exactly the scripted occurrences, counted per tracee and call.
pub fn replaced_calls_are_transparent<S, B, L: Link>()
    ensures { ReplacedCalls S B (calls_of L.answers L.given L.broken) }
{
    joined_signals_are_transparent::<S, B, L>();
}

/// So it does with signals joined to calls.
pub fn joined_signals_are_transparent<S, B, L: Link>()
    ensures { JoinedSignals S B (calls_of L.answers L.given L.broken) }
{
    runs_tell::<S, B, L>();
    no_kill_no_loss();
}

/// Whoever is killed, and whenever, a run tells a view of that log: the last item before an end by SIGKILL may be
/// left out.
pub fn tracing_is_transparent_under_kills<S, B, L: Link>()
    ensures { UnderKills S B (calls_of L.answers L.given L.broken) }
{
    runs_tell::<S, B, L>();
}

/// The four claims of `run_local`: its outcome is that of the untraced kernel by its effective turns, and its trace is
/// told by that kernel's log where nobody is killed: plainly, with results replaced, and with signals joined; and
/// whoever is killed it is told by a view of the log.
pub fn local_tracing_is_transparent()
    ensures plain { PlainRuns }
    ensures replaced { ReplacedRuns }
    ensures joined { JoinedRuns }
    ensures killed { KilledRuns }
{
    no_kill_no_loss();
}

/// Boot, schedule, script and options settle what `run_local` returns: trace, end, outcome and effective turns. Where
/// `trace_local` doesn't fail it writes that trace, and ends so.
pub fn local_runs_are_one()
    ensures runs { RunsAreOne }
    ensures traces { TracesAreRuns }
{}

/// What `trace_local` writes is told by the log itself where nobody is killed, however the run ended.
pub fn traces_tell_the_log()
    ensures { TracesTellLog }
{
    no_kill_no_loss();
}
