//! A run of the untraced kernel by a schedule in which a call fails, and another behind it.

ghost use Rattle.std.specs.Prelude.{◌≡◌, ◌++◌, OnOk, OnErr, IfOk, IfErr, IsTrue};
ghost use Rattle.std.specs.Option.{option_to_list};
ghost use Rattle.pt_schedule.specs.Schedules.{next_turn_of};
ghost use Rattle.pt_schedule.specs.Untraced.{readiness_of};
ghost use Rattle.plain_run.specs.Watched.{Tells};
ghost use Rattle.plain_run.specs.declared.running.Halt.TheVariants.{Weary};
ghost use Rattle.sweep_faults.specs.Deep.{DeepEndsAreSettled, DeepIsFaulted, RunsDeep};
ghost use Rattle.sweep_faults.specs.Deep.{after_deep, deep_ends_at, next_deep};
ghost use Rattle.sweep_faults.specs.Faults.{after_fault};
ghost use Rattle.sweep_faults.specs.Heard.{Hears, HearsBeside};

use crate::due::{ends_at, is_at};
use crate::failing::{fail, turn};
use crate::faults::Fault;
use crate::heard::Heard;
use crate::moving::Moved;
use lx_kernel::{Failed, Kernel};
use plain_run::{Halt, Watch, tell};
use pt_schedule::Schedule;
use sweep_rows::Calls;

/// A call fails, and then another that is entered behind it.
#[derive(Clone, Copy, Debug, PartialEq, Eq)]
pub struct Deep {
    pub first: Fault,
    pub second: Fault,
}

/// The turn of a process in which its call fails so, or another.
fn turn_first(kernel: &mut Kernel, pid: u32, first: Fault, heard: &Heard) -> Result<Moved, Failed>
    requires { Hears heard.now kernel.old.running.log }
    ensures turned { OnOk result (kernel.new ≡ after_fault first kernel.old pid) }
    ensures logged { IfOk result (λ m. kernel.new.running.log ≡ kernel.old.running.log ++ option_to_list m.item) }
    ensures log { OnErr result (kernel.new.running.log ≡ kernel.old.running.log) }
{
    if is_at(heard, kernel, pid, kernel.mode(pid), first) {
        fail(kernel, pid, first.kind, heard.asked(pid), heard.known())
    } else {
        turn(kernel, pid)
    }
}

/// The turn of a process in which one of both calls fails, or another.
fn turn_either(kernel: &mut Kernel, pid: u32, deep: Deep, heard: &Heard) -> Result<Moved, Failed>
    requires { Hears heard.now kernel.old.running.log }
    ensures turned { OnOk result (kernel.new ≡ after_deep deep kernel.old pid) }
    ensures logged { IfOk result (λ m. kernel.new.running.log ≡ kernel.old.running.log ++ option_to_list m.item) }
    ensures log { OnErr result (kernel.new.running.log ≡ kernel.old.running.log) }
{
    if is_at(heard, kernel, pid, kernel.mode(pid), deep.second) {
        fail(
            kernel,
            pid,
            deep.second.kind,
            heard.asked(pid),
            heard.known(),
        )
    } else {
        turn_first(kernel, pid, deep.first, heard)
    }
}

/// The turn of a process, and what it logs told.
#[tactic(auto, using(crate::proofs::Rows::told_item, crate::proofs::Rows::told_same, crate::proofs::Rows::weary_by))]
fn advance<W: Watch>(
    kernel: &mut Kernel,
    pid: u32,
    deep: Deep,
    heard: &mut Heard,
    calls: &Calls,
    watch: &mut W,
) -> Result<(), Halt>
    requires { HearsBeside calls.now heard.old kernel.old.running.log }
    ensures turned { OnOk result (kernel.new ≡ after_deep deep kernel.old pid) }
    ensures heard { OnOk result (HearsBeside calls.now heard.new kernel.new.running.log) }
    ensures told { Tells kernel.old (W.told watch.old) kernel.new (W.told watch.new) }
    ensures begun { W.begun watch.new ≡ W.begun watch.old }
    ensures weary { IfErr result (λ halt. halt ≡ Weary → IsTrue (W.weary watch.new)) }
{
    let moved = match turn_either(kernel, pid, deep, heard) {
        Ok(moved) => moved,
        Err(_) => return Err(Halt::Memory),
    };
    if let Err(halt) = tell(kernel, moved.turns, &moved.item, watch) {
        return Err(halt);
    }
    match heard.hear(&moved.item, calls) {
        Ok(()) => Ok(()),
        Err(_) => Err(Halt::Memory),
    }
}

/// Everything ends where the process stands.
fn deep_ends_at(heard: &Heard, kernel: &Kernel, pid: u32, deep: Deep) -> bool
    requires { Hears heard.now kernel.now.running.log }
    ensures { result ≡ deep_ends_at deep kernel.now pid }
{
    ends_at(heard, kernel, pid, deep.first) || ends_at(heard, kernel, pid, deep.second)
}

/// Whose turn comes next: nobody's at the schedule's end, or where everything ends.
fn next_turn(kernel: &Kernel, schedule: &mut Schedule, deep: Deep, heard: &Heard) -> Option<u32>
    requires { Hears heard.now kernel.now.running.log }
    ensures next { result ≡ next_deep deep kernel.now schedule.old }
    ensures rest { schedule.new ≡ (next_turn_of schedule.old (readiness_of kernel.now)).schedule }
{
    let Some(pid) = schedule.next_plain(kernel) else {
        return None;
    };
    if deep_ends_at(heard, kernel, pid, deep) {
        return None;
    }
    Some(pid)
}

/// Makes the turns that a schedule gives, up to its end, or to where everything ends, where two calls fail; the
/// watcher is told of each, and what is logged is heard.
pub fn run_deep<W: Watch>(
    kernel: &mut Kernel,
    schedule: &mut Schedule,
    deep: Deep,
    heard: &mut Heard,
    calls: &Calls,
    watch: &mut W,
) -> Result<(), Halt>
    requires { HearsBeside calls.now heard.old kernel.old.running.log }
    ensures to { OnOk result (RunsDeep deep kernel.old schedule.old kernel.new) }
    ensures heard { OnOk result (HearsBeside calls.now heard.new kernel.new.running.log) }

    // What was logged was told, in order, also where the run ended before its schedule.
    ensures told { Tells kernel.old (W.told watch.old) kernel.new (W.told watch.new) }
    ensures begun { W.begun watch.new ≡ W.begun watch.old }
    ensures weary { IfErr result (λ halt. halt ≡ Weary → IsTrue (W.weary watch.new)) }
{
    'turns: loop {
        let Some(pid) = next_turn(kernel, schedule, deep, heard) else {
            return Ok(());
        };
        if let Err(halt) = advance(kernel, pid, deep, heard, calls, watch) {
            return Err(halt);
        }
    }
}

/// Where such a run ends is settled by where it begins, its schedule and the two failures; where the second doesn't
/// come, it is the run of the first alone.
pub fn deep_runs_are_settled()
    ensures settled { DeepEndsAreSettled }
    ensures alone { DeepIsFaulted }
{}
