//! Turns by a schedule, up to where a call is entered.

ghost use Rattle.std.specs.Prelude.{◌≡◌, ◌≤◌, ◌<◌, ◌-◌, true, false, OnOk, IfOk, IsTrue};
ghost use Rattle.lx_abi.specs.Log.{is_entry};
ghost use Rattle.lx_kernel.specs.Runs.{Run as KernelRun, mode_in};
ghost use Rattle.pt_schedule.specs.Rows.{Continues};
ghost use Rattle.pt_schedule.specs.Schedules.{events_left};
ghost use Rattle.pt_schedule.specs.Untraced.{readiness_of};
ghost use Rattle.sweep_faults.specs.Faults.{after_fault, has_begun};
ghost use Rattle.sweep_faults.specs.Heard.{HearsBeside};
ghost use Rattle.sweep_faults.specs.InRows.{InRow};
ghost use Rattle.sweep_faults.specs.Led.{entered, left_of, Before, EndsBefore, IsAhead, StandsAt};
ghost use Rattle.sweep_faults.specs.Runs.{RunsFaulted};

use crate::faults::Place;
use crate::heard::Heard;
use crate::moving::go_on;
use lx_abi::{Item, Mode};
use lx_kernel::{Failed, Kernel};
use plain_run::{goes_on, turns_in_row};
use pt_schedule::Schedule;
use sweep_rows::Calls;

/// The item is an entry of this process into the call with this number.
fn is_entry(item: &Item, pid: u32, number: u64) -> bool
    ensures { result ≡ is_entry pid number item.now }
{
    match item {
        Item::Enter {
            pid: entering,
            call,
        } => pid == *entering && number == call.number,
        _ => false,
    }
}

/// How many entries come up to a place after a turn that has logged this.
#[tactic(auto, unfolding(crate::specs::Led::left_of))]
fn left_after(place: Place, left: u64, item: &Option<Item>) -> u64
    ensures { result ≡ left_of place left item.now }
{
    match item {
        None => left,
        Some(item) => {
            if is_entry(item, place.pid, place.call) {
                left.saturating_sub(1)
            } else {
                left
            }
        }
    }
}

/// The process, which stands so, has the next turn of its row, and the place hasn't come.
fn has_next(kernel: &Kernel, pid: u32, mode: Option<Mode>, left: u64) -> bool
    requires { mode ≡ mode_in kernel.now pid }
    ensures on { IsTrue result → Continues (readiness_of kernel.now) pid }
    ensures ahead { IsTrue result → 0 < left }
{
    left > 0 && goes_on(kernel, pid, mode)
}

/// The turn that the schedule gave, and those that come next by the row that is under way, `more` at most, up to a
/// place: how many these were.
fn turn_row(
    kernel: &mut Kernel,
    pid: u32,
    more: u64,
    place: Place,
    left: &mut u64,
    heard: &mut Heard,
    calls: &Calls,
) -> Result<u64, Failed>
    requires ahead { IsAhead place left.old kernel.old.running.log }
    requires some { 0 < left.old }
    requires heard { HearsBeside calls.now heard.old kernel.old.running.log }
    ensures row { IfOk result (λ n. Before place kernel.new.running.log
        (λ f. (has_begun f kernel.old.running.log ≡ false) × InRow f kernel.old pid n kernel.new)) }
    ensures within { IfOk result (λ n. n ≤ more) }
    ensures ahead { OnOk result (IsAhead place left.new kernel.new.running.log) }
    ensures heard { OnOk result (HearsBeside calls.now heard.new kernel.new.running.log) }
{
    let mut made = 0;
    'row: loop {
        let most = (more - made).saturating_add(1);
        let mut item = None;
        let moved = match go_on(kernel, pid, most, &mut item) {
            Ok(moved) => moved,
            Err(failed) => return Err(failed),
        };
        if let Err(_) = heard.hear(&item, calls) {
            return Err(Failed);
        }
        *left = left_after(place, *left, &item);
        let behind = made + (moved.turns - 1);
        if behind >= more {
            return Ok(behind);
        }
        let next = has_next(kernel, pid, moved.after, *left);
        if !next {
            return Ok(behind);
        }
        made = behind + 1;
    }
}

/// The turn that the schedule gave, and those of its row behind it, up to a place.
fn turn(
    kernel: &mut Kernel,
    schedule: &mut Schedule,
    pid: u32,
    place: Place,
    left: &mut u64,
    heard: &mut Heard,
    calls: &Calls,
) -> Result<(), Failed>
    requires ahead { IsAhead place left.old kernel.old.running.log }
    requires some { 0 < left.old }
    requires heard { HearsBeside calls.now heard.old kernel.old.running.log }
    ensures on { OnOk result (Before place kernel.new.running.log (λ f. (has_begun f kernel.old.running.log ≡ false)
        × ((z : KernelRun) → RunsFaulted f kernel.new schedule.new z
        → RunsFaulted f (after_fault f kernel.old pid) schedule.old z))) }
    ensures fewer { OnOk result (events_left schedule.new ≤ events_left schedule.old) }
    ensures ahead { OnOk result (IsAhead place left.new kernel.new.running.log) }
    ensures heard { OnOk result (HearsBeside calls.now heard.new kernel.new.running.log) }
{
    let more = turns_in_row(schedule, pid);
    let made = match turn_row(kernel, pid, more, place, left, heard, calls) {
        Ok(made) => made,
        Err(failed) => return Err(failed),
    };
    schedule.pass(made);
    Ok(())
}

/// Makes the turns that a schedule gives, up to the one that logs the entry of a place: whether there is one.
pub fn run_up_to(
    kernel: &mut Kernel,
    schedule: &mut Schedule,
    place: Place,
    heard: &mut Heard,
    calls: &Calls,
) -> Result<bool, Failed>
    requires { HearsBeside calls.now heard.old kernel.old.running.log }
    ensures stands { IfOk result (λ there. there ≡ true
        → StandsAt place kernel.old schedule.old kernel.new schedule.new) }

    // A place that has come before has nothing to tell.
    ensures ends { IfOk result (λ there. there ≡ false → entered place kernel.old.running.log < place.n
        → EndsBefore place kernel.old schedule.old kernel.new) }
    ensures heard { OnOk result (HearsBeside calls.now heard.new kernel.new.running.log) }
{
    let ahead = heard.left_to(place);
    if ahead == 0 {
        return Ok(false);
    }
    let mut left = ahead;
    'turns: loop {
        let Some(pid) = schedule.next_plain(kernel) else {
            return Ok(false);
        };
        if let Err(failed) = turn(kernel, schedule, pid, place, &mut left, heard, calls) {
            return Err(failed);
        }
        if left == 0 {
            return Ok(true);
        }
    }
}
