//! Turns by a schedule, up to its end.

ghost use Rattle.std.specs.Prelude.{◌≡◌, ◌≤◌, ◌<◌, ◌-◌, ◌++◌, Some, OnOk, IfOk, IfErr, IsTrue, List, ◌∷◌, []};
ghost use Rattle.lx_abi.specs.Log.{Noted};
ghost use Rattle.std.specs.Option.{option_to_list};
ghost use Rattle.lx_kernel.specs.Runs.{Run as KernelRun, after_turn, mode_in};
ghost use Rattle.pt_schedule.specs.Rows.{run_of, Continues};
ghost use Rattle.pt_schedule.specs.Schedules.{events_left};
ghost use Rattle.pt_schedule.specs.Untraced.{readiness_of};
ghost use Rattle.plain_run.specs.Notes.{IsTurned, RunsNoted, notes_of, turns_of, with_item};
ghost use Rattle.plain_run.specs.InRows.{InRow, ends_row as ends_row_at, may_rest as may_rest_at};
ghost use Rattle.plain_run.specs.Runs.{RunsTo, IsCause};
ghost use Rattle.plain_run.specs.Watched.{Tells};

use crate::watch::{Watch, Weary};
use lx_abi::{Item, Mode};
use lx_kernel::{Advanced, Failed, Kernel};
use pt_schedule::Schedule;

/// Why a run ended before its schedule.
#[derive(Clone, Copy, Debug, PartialEq, Eq)]
pub enum Halt {
    /// Memory was refused.
    Memory,
    /// Its watcher wants no more.
    Weary,
}

/// How many turns of the process come next by the row that is under way.
pub fn turns_in_row(schedule: &Schedule, pid: u32) -> u64
    ensures { 0 < result → run_of schedule.now ≡ Some (record { pid = pid; turns = result }) }
{
    match schedule.row() {
        Some(run) if run.pid == pid => run.turns,
        Some(_) | None => 0,
    }
}

/// Tells the watcher what the last of so many turns has logged.
pub fn tell<W: Watch>(
    kernel: &Kernel,
    turns: u64,
    item: &Option<Item>,
    watch: &mut W,
) -> Result<(), Halt>
    ensures told { W.told watch.new ≡ W.told watch.old ++ option_to_list item.now }
    ensures noted { (first : W) (ns : List Noted) → W.noting first watch.old ns
        → W.noting first watch.new (with_item kernel.now ns item.now) }
    ensures begun { W.begun watch.new ≡ W.begun watch.old }
    ensures cause { IfErr result (IsCause kernel.now.failed (W.weary watch.new)) }
{
    let told = match item {
        Some(item) => watch.see(kernel, item),
        None => watch.pass(turns),
    };
    match told {
        Ok(()) => Ok(()),
        Err(Weary) => Err(Halt::Weary),
    }
}

/// Turns of a process that are made at once, `most` at most, and what they log told.
fn advance<W: Watch>(
    kernel: &mut Kernel,
    pid: u32,
    most: u64,
    watch: &mut W,
) -> Result<Advanced, Halt>
    requires { 0 < most }
    ensures row { IfOk result (λ a. InRow kernel.old pid (a.turns - 1) kernel.new) }
    ensures some { IfOk result (λ a. 0 < a.turns) }
    ensures within { IfOk result (λ a. a.turns ≤ most) }
    ensures after { IfOk result (λ a. a.after ≡ mode_in kernel.new pid) }
    ensures noted { IfOk result (λ a. (first : W) (ns : List Noted) → W.noting first watch.old ns
        → W.noting first watch.new (ns ++ notes_of kernel.old (turns_of a.turns pid []))) }
    ensures told { Tells kernel.old (W.told watch.old) kernel.new (W.told watch.new) }
    ensures begun { W.begun watch.new ≡ W.begun watch.old }
    ensures cause { IfErr result (IsCause kernel.new.failed (W.weary watch.new)) }
{
    let mut item = None;
    let advanced = match kernel.advance(pid, most, &mut item) {
        Ok(advanced) => advanced,
        Err(Failed) => return Err(Halt::Memory),
    };
    match tell(kernel, advanced.turns, &item, watch) {
        Ok(()) => Ok(advanced),
        Err(halt) => Err(halt),
    }
}

/// A process in this mode has no next turn in its row: it is gone, or its call is finished.
fn ends_row(mode: Mode) -> bool
    ensures { result ≡ ends_row_at mode }
{
    matches!(mode, Mode::Finished | Mode::Zombie)
}

/// A process in this mode may wait, in a call or stopped.
fn may_rest(mode: Mode) -> bool
    ensures { result ≡ may_rest_at mode }
{
    matches!(mode, Mode::Doing | Mode::Stopped)
}

/// A process that stands so has the next turn of its row.
pub fn goes_on(kernel: &Kernel, pid: u32, mode: Option<Mode>) -> bool
    requires { mode ≡ mode_in kernel.now pid }
    ensures { IsTrue result → Continues (readiness_of kernel.now) pid }
{
    let Some(mode) = mode else {
        return false;
    };
    if ends_row(mode) {
        return false;
    }
    if may_rest(mode) {
        return kernel.able(pid);
    }
    true
}

/// The turn that the schedule gave, and those that come next by the row that is under way, `more` at most: how many
/// these were.
fn turn_row<W: Watch>(kernel: &mut Kernel, pid: u32, more: u64, watch: &mut W) -> Result<u64, Halt>
    ensures row { IfOk result (λ n. InRow kernel.old pid n kernel.new) }
    ensures within { IfOk result (λ n. n ≤ more) }
    ensures noted { IfOk result (λ n. (first : W) (ns : List Noted) → W.noting first watch.old ns
        → W.noting first watch.new (ns ++ notes_of kernel.old (pid ∷ turns_of n pid []))) }
    ensures told { Tells kernel.old (W.told watch.old) kernel.new (W.told watch.new) }
    ensures begun { W.begun watch.new ≡ W.begun watch.old }
    ensures cause { IfErr result (IsCause kernel.new.failed (W.weary watch.new)) }
{
    let mut made = 0;
    'row: loop {
        let most = (more - made).min(watch.patience()).saturating_add(1);
        let advanced = match advance(kernel, pid, most, watch) {
            Ok(advanced) => advanced,
            Err(halt) => return Err(halt),
        };
        let behind = made + (advanced.turns - 1);
        if behind >= more {
            return Ok(behind);
        }
        if !goes_on(kernel, pid, advanced.after) {
            return Ok(behind);
        }
        made = behind + 1;
    }
}

/// The turn that the schedule gave, and those of its row behind it.
fn turn<W: Watch>(
    kernel: &mut Kernel,
    schedule: &mut Schedule,
    pid: u32,
    watch: &mut W,
) -> Result<(), Halt>
    ensures on { OnOk result
        ((z : KernelRun) → RunsTo kernel.new schedule.new z → RunsTo (after_turn kernel.old pid) schedule.old z) }
    ensures noted { OnOk result ((first : W) → IsTurned kernel.old pid schedule.old (W.noting first watch.old)
        kernel.new schedule.new (W.noting first watch.new)) }
    ensures fewer { OnOk result (events_left schedule.new ≤ events_left schedule.old) }
    ensures told { Tells kernel.old (W.told watch.old) kernel.new (W.told watch.new) }
    ensures begun { W.begun watch.new ≡ W.begun watch.old }
    ensures cause { IfErr result (IsCause kernel.new.failed (W.weary watch.new)) }
{
    let more = turns_in_row(schedule, pid);
    let made = match turn_row(kernel, pid, more, watch) {
        Ok(made) => made,
        Err(halt) => return Err(halt),
    };
    schedule.pass(made);
    Ok(())
}

/// Makes the turns that a schedule gives, up to its end; the watcher is told of each.
pub fn run<W: Watch>(
    kernel: &mut Kernel,
    schedule: &mut Schedule,
    watch: &mut W,
) -> Result<(), Halt>
    ensures to { OnOk result (RunsTo kernel.old schedule.old kernel.new) }

    ensures noted { OnOk result ((first : W) → RunsNoted kernel.old schedule.old kernel.new (W.noting first watch.old)
        (W.noting first watch.new)) }

    // What was logged was told, in order, also where the run ended before its schedule.
    ensures told { Tells kernel.old (W.told watch.old) kernel.new (W.told watch.new) }
    ensures begun { W.begun watch.new ≡ W.begun watch.old }
    ensures cause { IfErr result (IsCause kernel.new.failed (W.weary watch.new)) }
{
    'turns: loop {
        let Some(pid) = schedule.next_plain(kernel) else {
            return Ok(());
        };
        if let Err(halt) = turn(kernel, schedule, pid, watch) {
            return Err(halt);
        }
    }
}
