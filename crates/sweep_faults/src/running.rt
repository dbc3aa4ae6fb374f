//! Turns by a schedule, up to its end, where one call of one process fails.

ghost use Rattle.std.specs.Prelude.{◌≡◌, ◌≤◌, OnOk, IfOk, IfErr, IsTrue};
ghost use Rattle.lx_kernel.specs.Runs.{Run as KernelRun, mode_in};
ghost use Rattle.pt_schedule.specs.Schedules.{events_left, next_turn_of};
ghost use Rattle.pt_schedule.specs.Untraced.{readiness_of};
ghost use Rattle.plain_run.specs.Watched.{Tells};
ghost use Rattle.plain_run.specs.declared.running.Halt.TheVariants.{Weary};
ghost use Rattle.sweep_faults.specs.Faults.{after_fault};
ghost use Rattle.sweep_faults.specs.Heard.{Hears, HearsBeside};
ghost use Rattle.sweep_faults.specs.InRows.{HasNext, InRow};
ghost use Rattle.sweep_faults.specs.Runs.{RunsFaulted, next_pid};

use crate::due::ends_at;
use crate::faults::Fault;
use crate::heard::Heard;
use crate::moving::advance;
use lx_abi::Mode;
use lx_kernel::Kernel;
use plain_run::{Halt, Watch, goes_on, turns_in_row};
use pt_schedule::Schedule;
use sweep_rows::Calls;

/// The process, which stands so, has the next turn of its row.
#[tactic(auto, using(crate::proofs::Rows::has_next))]
fn has_next(kernel: &Kernel, pid: u32, mode: Option<Mode>, fault: Fault, heard: &Heard) -> bool
    requires stands { mode ≡ mode_in kernel.now pid }
    requires heard { Hears heard.now kernel.now.running.log }
    ensures { IsTrue result → HasNext fault kernel.now pid }
{
    goes_on(kernel, pid, mode) && !ends_at(heard, kernel, pid, fault)
}

/// The turn that the schedule gave, and those that come next by the row that is under way, `more` at most: how many
/// these were.
fn turn_row<W: Watch>(
    kernel: &mut Kernel,
    pid: u32,
    more: u64,
    fault: Fault,
    heard: &mut Heard,
    calls: &Calls,
    watch: &mut W,
) -> Result<u64, Halt>
    requires { HearsBeside calls.now heard.old kernel.old.running.log }
    ensures row { IfOk result (λ n. InRow fault kernel.old pid n kernel.new) }
    ensures within { IfOk result (λ n. n ≤ more) }
    ensures heard { OnOk result (HearsBeside calls.now heard.new kernel.new.running.log) }
    ensures told { Tells kernel.old (W.told watch.old) kernel.new (W.told watch.new) }
    ensures begun { W.begun watch.new ≡ W.begun watch.old }
    ensures weary { IfErr result (λ halt. halt ≡ Weary → IsTrue (W.weary watch.new)) }
{
    let mut made = 0;
    let mut mode = kernel.mode(pid);
    'row: loop {
        let most = (more - made).min(watch.patience()).saturating_add(1);
        let moved = match advance(kernel, pid, mode, most, fault, heard, calls, watch) {
            Ok(moved) => moved,
            Err(halt) => return Err(halt),
        };
        let behind = made + (moved.turns - 1);
        if behind >= more {
            return Ok(behind);
        }
        let next = has_next(kernel, pid, moved.after, fault, heard);
        if !next {
            return Ok(behind);
        }
        made = behind + 1;
        mode = moved.after;
    }
}

/// The turn that the schedule gave, and those of its row behind it.
fn turn<W: Watch>(
    kernel: &mut Kernel,
    schedule: &mut Schedule,
    pid: u32,
    fault: Fault,
    heard: &mut Heard,
    calls: &Calls,
    watch: &mut W,
) -> Result<(), Halt>
    requires { HearsBeside calls.now heard.old kernel.old.running.log }
    ensures on { OnOk result ((z : KernelRun) → RunsFaulted fault kernel.new schedule.new z
        → RunsFaulted fault (after_fault fault kernel.old pid) schedule.old z) }
    ensures fewer { OnOk result (events_left schedule.new ≤ events_left schedule.old) }
    ensures heard { OnOk result (HearsBeside calls.now heard.new kernel.new.running.log) }
    ensures told { Tells kernel.old (W.told watch.old) kernel.new (W.told watch.new) }
    ensures begun { W.begun watch.new ≡ W.begun watch.old }
    ensures weary { IfErr result (λ halt. halt ≡ Weary → IsTrue (W.weary watch.new)) }
{
    let more = turns_in_row(schedule, pid);
    let made = match turn_row(kernel, pid, more, fault, heard, calls, watch) {
        Ok(made) => made,
        Err(halt) => return Err(halt),
    };
    schedule.pass(made);
    Ok(())
}

/// Whose turn comes next: nobody's at the schedule's end, or where everything ends.
#[inline(always)]
fn next_turn(kernel: &Kernel, schedule: &mut Schedule, fault: Fault, heard: &Heard) -> Option<u32>
    requires { Hears heard.now kernel.now.running.log }
    ensures next { result ≡ next_pid fault kernel.now schedule.old }
    ensures rest { schedule.new ≡ (next_turn_of schedule.old (readiness_of kernel.now)).schedule }
{
    let Some(pid) = schedule.next_plain(kernel) else {
        return None;
    };
    if ends_at(heard, kernel, pid, fault) {
        return None;
    }
    Some(pid)
}

/// Makes the turns that a schedule gives, up to its end, or to where everything ends, where one call of one process
/// fails, from where a kernel stands of which all was heard; the watcher is told of each.
pub fn run_faulted<W: Watch>(
    kernel: &mut Kernel,
    schedule: &mut Schedule,
    fault: Fault,
    heard: &mut Heard,
    calls: &Calls,
    watch: &mut W,
) -> Result<(), Halt>
    requires { HearsBeside calls.now heard.old kernel.old.running.log }
    ensures to { OnOk result (RunsFaulted fault kernel.old schedule.old kernel.new) }
    ensures heard { OnOk result (HearsBeside calls.now heard.new kernel.new.running.log) }

    // What was logged was told, in order, also where the run ended before its schedule.
    ensures told { Tells kernel.old (W.told watch.old) kernel.new (W.told watch.new) }
    ensures begun { W.begun watch.new ≡ W.begun watch.old }
    ensures weary { IfErr result (λ halt. halt ≡ Weary → IsTrue (W.weary watch.new)) }
{
    'turns: loop {
        let Some(pid) = next_turn(kernel, schedule, fault, heard) else {
            return Ok(());
        };
        if let Err(halt) = turn(kernel, schedule, pid, fault, heard, calls, watch) {
            return Err(halt);
        }
    }
}
