//! A run's end, by the journal of its host.

ghost use Rattle.std.specs.Prelude.{◌≡◌, true, false, IfOk, IfErr, OnOk, Ok};
ghost use Rattle.lx_kernel.specs.Outcomes.{outcome_in};
ghost use Rattle.pt_journal.specs.Told.{Told};
ghost use Rattle.host_shared.specs.HeldStates.{IsKept, Kept};
ghost use Rattle.host_shared.specs.Noting.{noted_of};
ghost use Rattle.trace_run.specs.declared.running.Ended.TheVariants.{OutOfTurns};
ghost use Rattle.trace_threads.specs.ThreadRuns.{Faults, IsCutBy, IsFaultOf, IsFinished};

use crate::fault::{ThreadsFault, threads_fault};
use crate::noted::NotedRun;
use crate::onlooker::Onlooker;
use crate::traced::Traced;
use containers::Bytes;
use host_shared::{Cut, Exchanges, Held};
use lx_abi::{Boot, Outcome};
use lx_boot::BootFault;
use lx_copies::Same;
use trace_run::local::Run;
use trace_run::{Ended, RunFault};
use transcript::Naming;
use turn_rows::Turns;

/// What is under the lock has this boot, this limit, and these exchanges.
fn is_told<J: Naming>(boot: &Boot, limit: u64, held: &Held<J>, known: &Exchanges<J>) -> bool
    ensures boot { result ≡ true → held.now.boot ≡ boot.now }
    ensures limit { result ≡ true → held.now.limit ≡ limit }
    ensures told { result ≡ true → held.now.failed ≡ false → Told held.now.journal known.now }
    ensures kept { result ≡ true → IsKept held.now }
{
    held.limit() == limit && held.boot().same(boot) && held.tells(known)
}

/// A run that is out of turns was cut, by a gate only where that may be shut.
fn is_cut(ended: &Result<Ended, RunFault>, cut: Option<Cut>, shuts: bool) -> bool
    ensures { result ≡ true → ended.now ≡ Ok OutOfTurns → IsCutBy shuts cut }
{
    match ended {
        Ok(Ended::OutOfTurns) => match cut {
            Some(Cut::Limit) | Some(Cut::Nobody) => true,
            Some(Cut::Gate) => shuts,
            None => false,
        },
        _ => true,
    }
}

/// What the host leaves, where its journal tells of these exchanges.
fn left_by<J: Naming>(
    boot: &Boot,
    limit: u64,
    shuts: bool,
    held: &Held<J>,
    known: &Exchanges<J>,
    ended: &Result<Ended, RunFault>,
) -> Result<Outcome, ThreadsFault>
    ensures outcome { IfOk result (λ outcome. outcome ≡ outcome_in held.now.host.hosting.running.shared) }
    ensures kept { OnOk result (Kept held.now) }
    ensures boot { OnOk result (held.now.boot ≡ boot.now) }
    ensures limit { OnOk result (held.now.limit ≡ limit) }
    ensures told { OnOk result (Told held.now.journal known.now) }
    ensures cut { OnOk result (ended.now ≡ Ok OutOfTurns → IsCutBy shuts held.now.cut) }
    ensures fault { IfErr result (λ fault. Faults boot.now fault) }
{
    if held.has_failed() {
        return Err(ThreadsFault::Boot(BootFault::Memory));
    }
    if !is_told(boot, limit, held, known) || !is_cut(ended, held.cut(), shuts) {
        return Err(ThreadsFault::Unlike);
    }
    match held.host().outcome() {
        Ok(outcome) => Ok(outcome),
        Err(_) => Err(ThreadsFault::Boot(BootFault::Memory)),
    }
}

/// A run that ended so, and left this. Its own fault comes first.
fn run_of(
    ended: Result<Ended, RunFault>,
    left: Result<Outcome, ThreadsFault>,
    trace: Bytes,
    turns: Turns,
) -> Result<Run, ThreadsFault>
    ensures ended { IfOk result (λ run. ended ≡ Ok run.ended) }
    ensures outcome { IfOk result (λ run. left ≡ Ok run.outcome) }
    ensures trace { IfOk result (λ run. run.trace ≡ trace) }
    ensures turns { IfOk result (λ run. run.turns ≡ turns) }
    ensures fault { IfErr result (IsFaultOf ended left) }
{
    match (ended, left) {
        (Ok(ended), Ok(outcome)) => Ok(Run {
            trace,
            ended,
            outcome,
            turns,
        }),
        (Ok(_), Err(fault)) => Err(fault),
        (Err(fault), _) => Err(threads_fault(fault)),
    }
}

/// What a run leaves, where the journal under the lock tells of it, with its events if they were asked for. The
/// onlooker sees it first.
pub fn finish<J: Naming, O: Onlooker>(
    boot: &Boot,
    limit: u64,
    shuts: bool,
    notes: bool,
    held: Held<J>,
    traced: Traced<J>,
    onlooker: &mut O,
) -> Result<NotedRun, ThreadsFault>
    ensures run { IfOk result
        (λ noted. IsFinished boot.now limit shuts held traced.known traced.trace traced.ended noted.run) }
    ensures events { IfOk result (λ noted. noted.events ≡ noted_of notes held.journal) }
    ensures fault { IfErr result (λ fault. Faults boot.now fault) }
{
    let Traced {
        started,
        ended,
        known,
        trace,
    } = traced;
    let left = left_by(boot, limit, shuts, &held, &known, &ended);
    drop(known);
    let cut = held.cut();
    let (host, journal) = held.into_parts();
    onlooker.look(host.kernel(), cut);
    let turns = host.into_turns();
    if !started {
        return Err(ThreadsFault::Start);
    }
    let Some(events) = journal.into_events(notes) else {
        return Err(ThreadsFault::Boot(BootFault::Memory));
    };
    match run_of(ended, left, trace, turns) {
        Ok(run) => Ok(NotedRun { run, events }),
        Err(fault) => {
            drop(events);
            Err(fault)
        }
    }
}
