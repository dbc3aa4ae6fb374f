//! A whole run in one process.

ghost use Rattle.std.specs.Prelude.{◌≡◌, None, Some, Err, IfErr, IfOk, OnErr, OnOk, [], false};
ghost use Rattle.lx_boot.specs.Boots.{Refuses, fault_of};
ghost use Rattle.lx_boot.specs.declared.boots.BootFault.{BootFault};
ghost use Rattle.trace_run.specs.BootedRuns.{IsBooted, IsLeft, KeptRun, RunOf, TraceOf};
ghost use Rattle.pt_schedule.specs.Schedules.{events_left};
ghost use Rattle.trace_run.specs.LocalRuns.{FailsBy, IsLocalFault};
ghost use Rattle.trace_run.specs.Records.{Leaves, noted_if};
ghost use Rattle.host_link.specs.LocalLinks.{faults_of, given_of, host_of, is_over, noted_of, schedule_of};
ghost use Rattle.trace_run.specs.Writers.{writer_of};

use crate::laws::{booted_runs_leave, booted_runs_tell};
use crate::running::{Ended, RunFault, run, run_counting};
use crate::trace_sink::TraceSink;
use crate::written::Written;
use containers::Bytes;
use host_link::{LinkFault, LocalLink};
use lx_abi::{Boot, Occurrences, Outcome, Script};
use lx_boot::BootFault;
use pt_kernel::{Events, Host, Schedule};
use std::alloc::{AllocError, Global};
use tr_core::{Options, TraceFault};
use turn_rows::Turns;

/// What a run in one process leaves.
#[derive(Drop)]
pub struct Run {
    pub trace: Bytes,
    pub ended: Ended,
    /// Files, console and statuses, also where the run is out of turns.
    pub outcome: Outcome,
    /// The effective turns: those that reached the kernel.
    pub turns: Turns,
}

/// How a run in one process ended whose trace is written as it comes, and what it leaves.
#[derive(Drop)]
pub struct Local {
    pub ended: Result<Ended, RunFault>,
    pub host: Host,
    /// The events of the run, where they were to be noted.
    pub events: Events,
    /// How often each tracee entered each call.
    pub counts: Occurrences,
}

/// What a boot answers for a run that failed, where the trace is kept in memory.
fn refusal(fault: RunFault) -> BootFault
    requires { IsLocalFault fault }
    ensures { result ≡ BootFault.Memory }
{
    match fault {
        RunFault::Link(LinkFault::Memory | LinkFault::TooMany)
        | RunFault::Trace(TraceFault::Memory)
        | RunFault::Output => BootFault::Memory,
        RunFault::Link(_) | RunFault::Trace(_) => unreachable!(),
    }
}

/// A link to a host, which notes the events of the run if they are asked for.
fn link_to(alloc: Global, host: Host, schedule: Schedule, notes: bool) -> LocalLink
    ensures host { host_of result ≡ host }
    ensures schedule { schedule_of result ≡ schedule }
    ensures noted { noted_of result ≡ noted_if notes [] }
    ensures given { given_of result ≡ 0 }
    ensures whole { faults_of result ≡ 0 }
    ensures going { is_over result ≡ false }
{
    if notes {
        LocalLink::noting(alloc, host, schedule)
    } else {
        LocalLink::new(host, schedule)
    }
}

/// A link to a host that this boot began, which notes the events of the run if they are asked for, and lists the files
/// of its outcome if they are.
fn booted_link(
    alloc: Global,
    boot: Boot,
    schedule: Schedule,
    notes: bool,
    lists: bool,
) -> Result<LocalLink, BootFault>
    ensures link { IfOk result (IsBooted boot schedule) }
    ensures noted { IfOk result (λ link. noted_of link ≡ noted_if notes []) }
    ensures accepted { OnOk result (fault_of boot ≡ None) }
    ensures fault { IfErr result (Refuses boot) }
    ensures refused { (e : BootFault) → fault_of boot ≡ Some e → result ≡ Err e }
{
    let mut host = Host::boot(alloc, boot)?;
    host.list_files(lists);
    let link = link_to(alloc, host, schedule, notes);
    Ok(link)
}

/// A run whose trace is kept in memory.
fn kept_run(
    alloc: Global,
    link: &mut LocalLink,
    trace: &mut Written,
    script: Script,
    options: Options,
) -> Result<Ended, RunFault>
    ensures { KeptRun script options link.old trace.old result link.new trace.new }
{
    run(alloc, link, trace, script, options)
}

/// What it leaves.
fn finish(link: LocalLink, trace: Written, ended: Ended) -> Result<Run, AllocError>
    ensures { IfOk result (IsLeft link trace ended) }
{
    let host = link.into_host();
    let outcome = match host.outcome() {
        Ok(outcome) => outcome,
        Err(fault) => {
            // An implicit drop of these takes the prover many minutes.
            drop(host);
            drop(trace);
            drop(ended);
            return Err(fault);
        }
    };
    Ok(Run {
        trace: trace.into_bytes(),
        ended,
        outcome,
        turns: host.into_turns(),
    })
}

/// Boots a guest, and traces it by the events of the schedule, in this process. The boot's follow counts, not that of
/// the options. The fault is the boot's, or Memory where memory runs out, in the run too.
pub fn run_local(
    alloc: Global,
    boot: Boot,
    schedule: Schedule,
    script: Script,
    options: Options,
) -> Result<Run, BootFault>
    ensures run { IfOk result (λ run. RunOf boot schedule script options run) }
    ensures accepted { OnOk result (fault_of boot ≡ None) }
    ensures fault { IfErr result (Refuses boot) }

    // A boot with a fault is refused with it, whatever the memory.
    ensures refused { (e : BootFault) → fault_of boot ≡ Some e → result ≡ Err e }
{
    let mut options = options;
    options.follow = boot.follow;
    let mut link = booted_link(alloc, boot, schedule, false, true)?;
    booted_runs_tell();
    let mut trace = Written::new(alloc);
    match kept_run(alloc, &mut link, &mut trace, script, options) {
        Ok(ended) => match finish(link, trace, ended) {
            Ok(run) => Ok(run),
            Err(_) => Err(BootFault::Memory),
        },
        Err(fault) => {
            drop(link);
            drop(trace);
            Err(refusal(fault))
        }
    }
}

/// Boots a guest, and traces it in this process to any writer, as the trace comes; notes the events of the run if they
/// are asked for, and lists the files of its outcome if they are. The boot's follow counts, not that of the options. The outer fault is the boot's, or Memory where
/// memory runs out in booting.
pub fn trace_local<W: TraceSink>(
    alloc: Global,
    boot: Boot,
    schedule: Schedule,
    notes: bool,
    lists: bool,
    script: Script,
    options: Options,
    writer: &mut W,
) -> Result<Local, BootFault>
    ensures trace { IfOk result
        (λ local. TraceOf boot schedule script options local.ended (writer_of W.contents W.puts W.broken writer.old)
        (writer_of W.contents W.puts W.broken writer.new)) }

    // Memory was refused or the writer failed; or the schedule had 2^40 - 1 events to come, and those of `Schedule`'s
    // own functions have 2^39 at most.
    ensures fails { IfOk result (λ local. IfErr local.ended (FailsBy (events_left schedule) (W.broken writer.new))) }
    ensures left { IfOk result
        (λ local. OnOk local.ended (Leaves boot schedule script options notes local.host local.events)) }
    ensures unwritten { OnErr result (writer_of W.contents W.puts W.broken writer.new
        ≡ writer_of W.contents W.puts W.broken writer.old) }
    ensures beside { W.beside writer.new ≡ W.beside writer.old }
    ensures accepted { OnOk result (fault_of boot ≡ None) }
    ensures fault { IfErr result (Refuses boot) }

    // A boot with a fault is refused with it, whatever the memory.
    ensures refused { (e : BootFault) → fault_of boot ≡ Some e → result ≡ Err e }
{
    let mut options = options;
    options.follow = boot.follow;
    let mut local = booted_link(alloc, boot, schedule, notes, lists)?;
    booted_runs_tell();
    booted_runs_leave();
    let (ended, counts) = run_counting(alloc, &mut local, writer, script, options);
    let (host, events) = local.into_parts();
    Ok(Local {
        ended,
        host,
        events,
        counts,
    })
}
