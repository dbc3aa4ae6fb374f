//! A plan made once more, where the run that was made of it left no host in this process.

ghost use Rattle.std.specs.Prelude.{◌≡◌, None, IfErr, IfSome, OnOk};
ghost use Rattle.pt_schedule.specs.Schedules.{worded};
ghost use Rattle.trace_command.specs.Faults.{IsUnwritable};
ghost use Rattle.trace_command.specs.Noting.{NotesHere};

use crate::kept::Kept;
use crate::kernel::run_here;
use front_end::Fault;
use pt_kernel::Schedule;
use std::alloc::Global;
use trace_run::Written;
use trace_words::Plan;

/// Makes the run of a plan in this process, its trace in memory, and keeps what it leaves.
fn run_plan(alloc: Global, plan: Plan, kept: &mut Kept) -> Result<(), Fault>
    ensures notes { OnOk result (NotesHere plan.options plan.script plan.boot
        (worded plan.turns.items kept.old.asked.limit) kept.old.asked.events kept.new.known.events) }
    ensures fault { IfErr result (λ fault. IsUnwritable fault) }
{
    let Plan {
        boot,
        script,
        options,
        turns,
    } = plan;
    let schedule = Schedule::words(turns, kept.asked.limit);
    let mut trace = Written::new(alloc);
    match run_here(alloc, boot, schedule, script, options, kept, &mut trace) {
        Ok(ended) => {
            drop(ended);
            drop(trace);
            Ok(())
        }
        Err(_) => {
            drop(trace);
            Err(Fault::Memory)
        }
    }
}

/// Makes the run once more in this process, where a host elsewhere made it, and keeps what it leaves.
pub fn make_again(alloc: Global, kept: &mut Kept) -> Result<(), Fault>
    ensures once { kept.old.second ≡ None → kept.new.known.events ≡ kept.old.known.events }
    ensures again { IfSome kept.old.second (λ plan. OnOk result (NotesHere plan.options plan.script plan.boot
        (worded plan.turns.items kept.old.asked.limit) kept.old.asked.events kept.new.known.events)) }
    ensures fault { IfErr result (λ fault. IsUnwritable fault) }
{
    let Some(plan) = kept.second.take() else {
        return Ok(());
    };
    match run_plan(alloc, plan, kept) {
        Ok(()) => Ok(()),
        Err(fault) => Err(fault),
    }
}
