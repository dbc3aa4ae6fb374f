//! Steps of a host, each with its entry in the journal.

ghost use Rattle.std.specs.Prelude.{◌≡◌, ◌++◌, ◌∷◌, [], true, false, None, Some, IfOk, OnOk};
ghost use Rattle.lx_abi.specs.declared.schedule.Event.TheVariants as event;
ghost use Rattle.pt_model.specs.Hosting.{with_pending};
ghost use Rattle.pt_kernel.specs.Hosts.{readiness_of, event_of, is_boot};
ghost use Rattle.pt_kernel.specs.AfterEvents.{after};
ghost use Rattle.pt_journal.specs.declared.entry.Entry.TheVariants as entry;
ghost use Rattle.transcript.specs.declared.said.Said.TheVariants.{Asked, Answered};
ghost use Rattle.host_shared.specs.Following.{Follows};

use crate::held::Memory;
use crate::noted::NotedJournal;
use crate::roster::Roster;
use crate::saying::{answer, ask};
use lx_abi::{Reply, Request};
use transcript::{Naming, Record, Transcript};

/// Puts a request, where none is pending.
pub fn put<J: Naming>(
    host: &mut Roster,
    journal: &mut NotedJournal,
    book: &Record<J>,
    said: &mut Transcript<J>,
    mine: &mut Transcript<J>,
    request: Request,
) -> Result<(), Memory>
    requires free { host.old.hosting.pending ≡ None }
    requires no_boot { is_boot request ≡ false }
    ensures host { OnOk result
        (host.new ≡ record host.old { hosting = with_pending host.old.hosting (Some request) }) }
    ensures journal { OnOk result (journal.new ≡ journal.old ++ entry.Ask request ∷ []) }
    ensures said { OnOk result (said.new ≡ said.old ++ Asked request ∷ []) }
    ensures mine { OnOk result (mine.new ≡ mine.old ++ Asked request ∷ []) }
{
    if ask(book, said, mine, &request).is_err() {
        return Err(Memory);
    }
    journal.ask(&request);
    match host.ask(request) {
        Ok(()) => Ok(()),
        Err(_) => Err(Memory),
    }
}

/// A turn of the process that comes next after the last one.
pub fn turn(
    host: &mut Roster,
    journal: &mut NotedJournal,
    last: u32,
    pid: u32,
) -> Result<(), Memory>
    requires { Follows host.old last pid }
    ensures host { OnOk result (host.new ≡ after host.old (event.Turn pid)) }
    ensures journal { OnOk result (journal.new ≡ journal.old ++ entry.Did (event.Turn pid) None ∷ []) }
{
    if journal.turn(pid).is_err() {
        return Err(Memory);
    }
    match host.turn(last, pid) {
        Ok(()) => Ok(()),
        Err(_) => Err(Memory),
    }
}

/// A Serve of a request that is ready.
#[tactic(auto, using(crate::proofs::Growing::ready_answers))]
fn served(host: &mut Roster, journal: &mut NotedJournal) -> Result<Reply, Memory>
    requires ready { (readiness_of host.old).ready ≡ true }
    ensures host { OnOk result (host.new ≡ after host.old event.Serve) }
    ensures reply { IfOk result (λ r. (event_of host.old event.Serve).reply ≡ Some r) }
    ensures journal { IfOk result (λ r. journal.new ≡ journal.old ++ entry.Did event.Serve (Some r) ∷ []) }
{
    match host.serve() {
        Ok(Some(reply)) => match journal.serve(&reply) {
            Ok(()) => Ok(reply),
            Err(_) => {
                drop(reply);
                Err(Memory)
            }
        },
        Ok(None) => unreachable!(),
        Err(_) => Err(Memory),
    }
}

/// The same, and its reply is said.
pub fn serve<J: Naming>(
    host: &mut Roster,
    journal: &mut NotedJournal,
    book: &Record<J>,
    said: &mut Transcript<J>,
    mine: &mut Transcript<J>,
) -> Result<Reply, Memory>
    requires ready { (readiness_of host.old).ready ≡ true }
    ensures host { OnOk result (host.new ≡ after host.old event.Serve) }
    ensures reply { IfOk result (λ r. (event_of host.old event.Serve).reply ≡ Some r) }
    ensures journal { IfOk result (λ r. journal.new ≡ journal.old ++ entry.Did event.Serve (Some r) ∷ []) }
    ensures said { IfOk result (λ r. said.new ≡ said.old ++ Answered r ∷ []) }
    ensures mine { IfOk result (λ r. mine.new ≡ mine.old ++ Answered r ∷ []) }
{
    match served(host, journal) {
        Ok(reply) => match answer(book, said, mine, &reply) {
            Ok(()) => Ok(reply),
            Err(Memory) => {
                drop(reply);
                Err(Memory)
            }
        },
        Err(Memory) => Err(Memory),
    }
}
