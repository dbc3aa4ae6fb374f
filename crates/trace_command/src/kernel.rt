//! Where the kernel runs.

ghost use Rattle.std.specs.Prelude.{◌≡◌, ◌⊎◌, Ok, IfErr, IfOk, IsSome, OnErr, OnOk, codes, option_map};
ghost use Rattle.trace_run.specs.Runs.{calls_of};
ghost use Rattle.trace_run.specs.Writers.{writer_of};
ghost use Rattle.trace_command.specs.Faults.{IsUnhosted, IsUnopened};
ghost use Rattle.trace_command.specs.Noting.{AsksAlike, Notes, NotesHere};
ghost use Rattle.trace_command.specs.Tracing.{IsOnThreads, Takes, TakesAlone, Traces, TracesHere, value_of};

use crate::fault::host_fault;
use crate::kept::{Behind, Kept, Known, waits_in};
use crate::threads::run_on_threads;
use clap::ArgMatches;
use containers::Seq;
use front_end::Fault;
use host_link::{ChildLink, Link, LinkFault, Streams};
use lx_abi::{Boot, Boxed, Reply, Request, Script, Word};
use lx_boot::BootFault;
use pt_kernel::Schedule;
use std::alloc::Global;
use std::process::{OpenProcess, Processes};
use std::sync::Wait;
use std::thread::Threads;
use tr_core::Options;
use trace_run::{Ended, Local, RunFault, TraceSink, run_counting, trace_local};
use trace_words::{TraceOptions, Workers};

/// A kernel that takes its boot.
#[derive(Drop)]
pub enum Kernel<P: OpenProcess + Drop> {
    /// In this process.
    Here(Boot, Schedule),
    /// In a process of its own, where it was booted.
    There(ChildLink<P>),
    /// In this process, where threads make its turns.
    OnThreads(Boot, Workers),
}

impl<P: OpenProcess + Drop> Kernel<P> {
    /// It is in this process, and runs in the tracer's thread.
    pub fn is_here(&self) -> bool {
        match self {
            Kernel::Here(_, _) => true,
            Kernel::There(_) | Kernel::OnThreads(_, _) => false,
        }
    }
}

/// A kernel that takes this boot, where the words ask for it.
pub fn booted_kernel<R: Processes + AllocGlobal>(
    rt: &R,
    matches: &ArgMatches,
    options: TraceOptions,
    boot: Boot,
    turns: Vec<Word>,
    behind: &mut Option<ChildLink<R::Started>>,
) -> Result<Kernel<R::Started>, Fault>
where
    R::Started: Streams,
    ensures takes { IfOk result
        (λ kernel. Takes R.Started.Stdout.remaining R.Started.Stdin.contents (value_of matches.now (codes "host"))
        options.workers boot options.limit turns.items kernel) }
    ensures fault { IfErr result (λ fault. IsSome (value_of matches.now (codes "host")) × IsUnhosted fault) }
{
    match options.workers {
        None => {
            let host = matches.get_str("host");
            let words = matches.get_strs("host-arg").unwrap_or(&[]);
            let (limit, patience) = (options.limit, options.patience);
            boot_kernel(rt, host, words, boot, turns, limit, patience, behind)
        }
        Some(workers) => {
            drop(turns);
            Ok(Kernel::OnThreads(boot, workers))
        }
    }
}

/// A kernel for a boot that has no fault: in this process, or in one that the program at the path `host` serves, with
/// these words after `serve`. A host that doesn't take it stays behind.
fn boot_kernel<R: Processes + AllocGlobal>(
    rt: &R,
    host: Option<&str>,
    words: &[&str],
    boot: Boot,
    turns: Vec<Word>,
    limit: u64,
    patience: Option<u32>,
    behind: &mut Option<ChildLink<R::Started>>,
) -> Result<Kernel<R::Started>, Fault>
where
    R::Started: Streams,
    ensures takes { IfOk result
        (λ kernel. TakesAlone R.Started.Stdout.remaining R.Started.Stdin.contents
        (option_map (λ path. path.now) host.entry) boot limit turns.items kernel) }

    // A kernel in this process is always there.
    ensures fault { IfErr result (λ fault. IsSome (option_map (λ path. path.now) host.entry) × IsUnhosted fault) }
{
    let Some(path) = host else {
        return Ok(Kernel::Here(boot, Schedule::words(turns, limit)));
    };
    let mut link = match ChildLink::start_heard(rt, path, words, patience) {
        Ok(link) => link,
        Err(fault) => return Err(host_fault(fault)),
    };
    match boot_over(rt.alloc(), &mut link, boot, limit, turns) {
        Ok(()) => Ok(Kernel::There(link)),
        Err(fault) => {
            *behind = Some(link);
            Err(fault)
        }
    }
}

/// Boots the host at the other end of a link, which is to follow a schedule by these words.
fn boot_over<L: Link>(
    alloc: Global,
    link: &mut L,
    boot: Boot,
    limit: u64,
    turns: Vec<Word>,
) -> Result<(), Fault>
    ensures booted { OnOk result (calls_of L.answers L.given L.broken link.old (Request.Boot boot limit turns.items)
        (Ok Reply.Done) link.new) }
    ensures fault { IfErr result (λ fault. IsUnhosted fault) }
{
    let Ok(boot) = Boxed::new(alloc, boot) else {
        return Err(Fault::Memory);
    };
    let request = Request::Boot {
        boot,
        limit,
        words: Seq::from_vec(turns),
    };
    match link.call(request) {
        Ok(Reply::Done) => Ok(()),
        Ok(Reply::Refused { fault }) => Err(refused_boot(fault)),
        Ok(_) => Err(host_fault(LinkFault::Inadmissible)),
        Err(fault) => Err(host_fault(fault)),
    }
}

/// The fault of a boot, in which none was found before, that a host refuses with this number: a host that has memory
/// has no cause.
fn refused_boot(number: u8) -> Fault
    ensures { IsUnhosted result }
{
    if number == BootFault::Memory.number() {
        Fault::Memory
    } else {
        host_fault(LinkFault::Inadmissible)
    }
}

/// Runs the tracer on a kernel. What it leaves stays behind.
pub fn run_kernel<R: Threads + Wait + Sync + AllocGlobal, P: OpenProcess + Drop, W: TraceSink>(
    rt: &R,
    kernel: Kernel<P>,
    script: Script,
    options: Options,
    behind: &mut Behind<P>,
    lines: &mut W,
) -> Result<Result<Ended, RunFault>, Fault>
    ensures made { IfOk result (λ ended. Traces P.Stdout.remaining P.Stdin.contents options script kernel
        behind.old.kept.asked.events behind.new.kept.known.events ended
        (writer_of W.contents W.puts W.broken lines.old) (writer_of W.contents W.puts W.broken lines.new)) }
    ensures notes { IfOk result (λ ended. OnOk ended
        (Notes options script kernel behind.old.kept.asked.events behind.new.kept.known.events)) }
    ensures kept { AsksAlike behind.old.kept behind.new.kept }
    ensures fault { IfErr result (λ fault. IsOnThreads kernel × (IsUnhosted fault ⊎ IsUnopened fault)) }
    ensures unwritten { OnErr result (writer_of W.contents W.puts W.broken lines.new
        ≡ writer_of W.contents W.puts W.broken lines.old) }
    ensures beside { W.beside lines.new ≡ W.beside lines.old }
{
    match kernel {
        Kernel::Here(boot, schedule) => {
            let kept = &mut behind.kept;
            Ok(run_here(rt.alloc(), boot, schedule, script, options, kept, lines))
        }
        Kernel::There(mut link) => {
            let (ended, counts) = run_counting(rt.alloc(), &mut link, lines, script, options);
            behind.kept.known.counts = Some(counts);
            behind.link = Some(link);
            Ok(ended)
        }
        Kernel::OnThreads(boot, workers) => {
            let kept = &mut behind.kept;
            match run_on_threads(rt, boot, workers, script, options, kept, lines) {
                Ok(ended) => Ok(ended),
                Err(fault) => Err(fault),
            }
        }
    }
}

/// Runs the tracer with the kernel in this process, and keeps what is asked for beside the trace. A boot without a
/// fault is refused only for memory.
pub fn run_here<W: TraceSink>(
    alloc: Global,
    boot: Boot,
    schedule: Schedule,
    script: Script,
    options: Options,
    kept: &mut Kept,
    lines: &mut W,
) -> Result<Ended, RunFault>
    ensures traces { TracesHere options script boot schedule result
        (writer_of W.contents W.puts W.broken lines.old) (writer_of W.contents W.puts W.broken lines.new) }
    ensures notes { OnOk result
        (NotesHere options script boot schedule kept.old.asked.events kept.new.known.events) }
    ensures kept { AsksAlike kept.old kept.new }
    ensures beside { W.beside lines.new ≡ W.beside lines.old }
{
    let asked = kept.asked;
    let (notes, lists) = (asked.events, asked.files);
    match trace_local(alloc, boot, schedule, notes, lists, script, options, lines) {
        Ok(
            Local {
                ended,
                host,
                events,
                counts,
            },
        ) => {
            let waits = waits_in(alloc, asked, &ended, host.kernel());
            drop(host);
            kept.known = Known {
                events,
                waits,
                counts: Some(counts),
            };
            ended
        }
        Err(_) => Err(RunFault::Link(LinkFault::Memory)),
    }
}
