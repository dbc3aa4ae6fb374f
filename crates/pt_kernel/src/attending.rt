//! A host that attends to its pending request.

ghost use Rattle.std.specs.Prelude.{◌≡◌, ◌≤◌, ◌<◌, ◌∷◌, [], Some, IfOk, OnOk, OnErr, IsTrue, List, Option, replicate};
ghost use Rattle.lx_abi.specs.declared.schedule.Event.{Event as HostEvent};
ghost use Rattle.pt_schedule.specs.Schedules.{events_left};
ghost use Rattle.pt_schedule.specs.Rows.{run_of};
ghost use Rattle.pt_kernel.specs.Attends.{Attended, Notes};
ghost use Rattle.pt_kernel.specs.AfterEvents.{after};
ghost use Rattle.pt_kernel.specs.Hosts.{event_of};
ghost use Rattle.pt_kernel.specs.Noted.{noting};

use crate::events::Events;
use crate::host::Host;
use lx_abi::{Event, Reply};
use lx_kernel::Failed;
use pt_schedule::Schedule;

/// How many turns of the process come next by the row that is under way, as long as nothing else does.
fn turns_in_row(schedule: &Schedule, pid: u32) -> u64
    ensures { 0 < result → run_of schedule.now ≡ Some (record { pid = pid; turns = result }) }
{
    match schedule.row() {
        Some(run) if run.pid == pid => run.turns,
        Some(_) | None => 0,
    }
}

/// Notes an event that came so many times. A host of which that can't be told has failed.
#[inline(always)]
fn note(host: &mut Host, noted: &mut Events, event: Event, times: u64) -> Result<(), Failed>
    ensures noted { OnOk result (noted.new ≡ noting noted.old (replicate times event)) }
    ensures kept { OnOk result (host.new ≡ host.old) }
    ensures failed { OnErr result (IsTrue host.new.failed) }
{
    match noted.note(event, times) {
        Ok(()) => Ok(()),
        Err(_) => {
            host.fail();
            Err(Failed)
        }
    }
}

/// The turn that the schedule gave, and those that come next by the row that is under way, as many as can be made at
/// once: they are events of the schedule, and noted.
#[inline(always)]
fn turn(
    host: &mut Host,
    schedule: &mut Schedule,
    noted: &mut Events,
    pid: u32,
) -> Result<(), Failed>
    ensures fed { OnOk result ((z : Attended) (last : Option (List HostEvent))
        → Notes host.new schedule.new noted.new z last
        → Notes (after host.old (Event.Turn pid)) schedule.old (noting noted.old (Event.Turn pid ∷ [])) z last) }
    ensures fewer { OnOk result (events_left schedule.new ≤ events_left schedule.old) }
    ensures failed { OnErr result (IsTrue host.new.failed) }
{
    let event = Event::Turn { pid };
    let more = turns_in_row(schedule, pid);
    let made = host.advance(pid, more)?;
    schedule.pass(made);
    note(host, noted, event, 1)?;
    note(host, noted, event, made)?;
    Ok(())
}

/// The pending request is served whole, which is noted.
#[inline(always)]
fn serve(host: &mut Host, noted: &mut Events) -> Result<Option<Reply>, Failed>
    ensures after { OnOk result (host.new ≡ after host.old Event.Serve) }
    ensures reply { IfOk result (λ r. r ≡ (event_of host.old Event.Serve).reply) }
    ensures noted { OnOk result (noted.new ≡ noting noted.old (Event.Serve ∷ [])) }
    ensures failed { OnErr result (IsTrue host.new.failed) }
{
    note(host, noted, Event::Serve, 1)?;
    let reply = host.serve()?;
    Ok(reply)
}

/// Makes the events of a schedule until the pending request is answered, and notes them; none where the schedule has
/// ended before.
#[inline(always)]
pub fn attend(
    host: &mut Host,
    schedule: &mut Schedule,
    noted: &mut Events,
) -> Result<Option<Reply>, Failed>
    ensures attends { IfOk result (λ r. Notes host.old schedule.old noted.old
        (record { host = host.new; schedule = schedule.new; reply = r }) noted.new) }
    ensures failed { OnErr result (IsTrue host.new.failed) }
{
    'events: loop {
        match schedule.next(host) {
            None => return Ok(None),
            Some(Event::Serve) => {
                if let Some(reply) = serve(host, noted)? {
                    return Ok(Some(reply));
                }
            }
            Some(Event::Turn { pid }) => turn(host, schedule, noted, pid)?,
        }
    }
}
