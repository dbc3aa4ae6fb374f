//! What came of the runs.

ghost use Rattle.std.specs.Prelude.{◌≡◌, IfOk, OnOk};
ghost use Rattle.sweep_runs.specs.Leaders.{IsLed};
ghost use Rattle.sweep_trials.specs.Rows.{AreTriedRows, EndsBehind, IsSecondEnd, IsTriedRow};
ghost use Rattle.sweep_trials.specs.Trials.{trials_of};

use crate::second::{SecondEnd, end_on};
use crate::trials::trials_in;
use front_end::Fault;
use std::alloc::Global;
use sweep_rows::{Reached, Setup};
use sweep_runs::{Leader, Trial, TrialRow, run_led_trial};
use sweep_words::plan::Plan;
use sweep_words::trials::{Second, Tried};

/// What came of a trial, and of the second program behind it.
#[derive(Drop)]
pub struct TriedRow {
    pub made: TrialRow,
    /// None where there is no second program.
    pub second: Option<SecondEnd>,
}

/// How a second program ends behind a trial, whose run is made again for it.
fn behind(
    alloc: Global,
    setup: &Setup,
    leader: &mut Leader,
    reference: &Reached,
    second: &Second,
    trial: Trial,
) -> Result<SecondEnd, Fault>
    requires { IsLed setup.now reference.now leader.old }
    ensures ends { IfOk result (EndsBehind setup.now second.now trial) }
    ensures led { OnOk result (IsLed setup.now reference.now leader.new) }
{
    let run = leader.reach_failing(alloc, setup, reference, trial.fault())?;
    let left = run.reached.ending.outcome.files.as_slice()?;
    let end = end_on(alloc, setup, second, left)?;
    Ok(end)
}

/// How that of a plan ends, where there is one.
fn second_end(
    alloc: Global,
    plan: &Plan,
    leader: &mut Leader,
    reference: &Reached,
    trial: Trial,
) -> Result<Option<SecondEnd>, Fault>
    requires { IsLed plan.now.setup reference.now leader.old }
    ensures ends { IfOk result (IsSecondEnd plan.now.setup plan.now.second trial) }
    ensures led { OnOk result (IsLed plan.now.setup reference.now leader.new) }
{
    match &plan.second {
        None => Ok(None),
        Some(second) => {
            let end = behind(alloc, &plan.setup, leader, reference, second, trial)?;
            Ok(Some(end))
        }
    }
}

/// Makes the run of a trial, of a boot that is accepted, and that of the second program, from where a leader stands.
fn run_led_tried(
    alloc: Global,
    plan: &Plan,
    leader: &mut Leader,
    reference: &Reached,
    trial: Trial,
) -> Result<TriedRow, Fault>
    requires { IsLed plan.now.setup reference.now leader.old }
    ensures row { IfOk result (IsTriedRow plan.now reference.now) }
    ensures trial { IfOk result (λ r. r.made.trial ≡ trial) }
    ensures led { OnOk result (IsLed plan.now.setup reference.now leader.new) }
{
    let made = run_led_trial(alloc, &plan.setup, leader, reference, trial)?;
    let second = second_end(alloc, plan, leader, reference, trial)?;
    Ok(TriedRow { made, second })
}

/// Makes the run of a trial, of a boot that is accepted, and that of the second program.
pub fn run_tried(
    alloc: Global,
    plan: &Plan,
    reference: &Reached,
    trial: Trial,
) -> Result<TriedRow, Fault>
    ensures row { IfOk result (IsTriedRow plan.now reference.now) }
    ensures trial { IfOk result (λ r. r.made.trial ≡ trial) }
{
    let mut leader = Leader::new(alloc, &plan.setup, reference)?;
    let row = run_led_tried(alloc, plan, &mut leader, reference, trial);
    drop(leader);
    row
}

/// Makes those of each trial, each from where a leader stands.
fn run_led_each(
    alloc: Global,
    plan: &Plan,
    leader: &mut Leader,
    reference: &Reached,
    trials: &[Trial],
) -> Result<Vec<TriedRow>, Fault>
    requires { IsLed plan.now.setup reference.now leader.old }
    ensures { IfOk result (λ rows. AreTriedRows plan.now reference.now trials.now rows.items) }
{
    let mut rows = Vec::new(alloc);
    let mut left = trials;
    while let Some((trial, rest)) = left.split_first() {
        let row = run_led_tried(alloc, plan, leader, reference, *trial)?;
        rows.push(row)?;
        left = rest;
    }
    Ok(rows)
}

/// Makes those of each trial.
fn run_each(
    alloc: Global,
    plan: &Plan,
    reference: &Reached,
    trials: &[Trial],
) -> Result<Vec<TriedRow>, Fault>
    ensures { IfOk result (λ rows. AreTriedRows plan.now reference.now trials.now rows.items) }
{
    let mut leader = Leader::new(alloc, &plan.setup, reference)?;
    let rows = run_led_each(alloc, plan, &mut leader, reference, trials);
    drop(leader);
    rows
}

/// Makes the runs of the trials of calls, and those of the second program.
pub fn tried_rows(
    alloc: Global,
    plan: &Plan,
    tried: &Tried,
    reference: &Reached,
) -> Result<Vec<TriedRow>, Fault>
    ensures { IfOk result (λ rows. AreTriedRows plan.now reference.now
        (trials_of tried.now plan.now.setup.boot.follow reference.now.log.items) rows.items) }
{
    let trials = trials_in(alloc, &plan.setup, tried, reference)?;
    let rows = run_each(alloc, plan, reference, trials.as_slice())?;
    Ok(rows)
}
