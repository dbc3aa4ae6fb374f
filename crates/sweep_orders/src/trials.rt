//! Runs by orders.

ghost use Rattle.std.specs.Prelude.{◌≡◌, ◌<◌, ◌+◌, ◌^◌, true, IfOk};
ghost use Rattle.lx_kernel.specs.Runs.{Run};
ghost use Rattle.plain_run.specs.Runs.{RunsTo};
ghost use Rattle.pt_schedule.specs.Schedules.{worded, most_events};
ghost use Rattle.sweep_orders.specs.Draws.{chance_of, IsDrawn};
ghost use Rattle.turn_orders.specs.Plans.{plan_of, words_of};
ghost use Rattle.turn_orders.specs.Steps.{steps_of};
ghost use Rattle.sweep_orders.specs.Trials.{first_of, IsPlanned, IsLeft, IsTrial, IsRunBy, IsRunDrawn};
ghost use Rattle.sweep_orders.specs.Orders.{AreMade};

use crate::draws::draw;
use containers::Seq;
use lx_abi::{Item, Script, Word};
use lx_copies::Copied;
use lx_kernel::Kernel;
use rand_pcg::Pcg32;
use std::alloc::{AllocError, Global};
use sweep_rows::{Ending, Setup};
use sweep_runs::{ending, run_by};
use turn_orders::{Plan, Source, plan_of, steps_of, switched, words_of};

/// No schedule gives more turns.
const MOST_TURNS: u64 = 1 << 39;

/// What the run by an order left.
#[derive(Drop)]
pub struct Trial {
    /// The words by which it was made.
    pub words: Seq<Word>,
    pub ending: Ending,
    /// Whose its steps were.
    pub order: Vec<u32>,
}

/// Whose the steps of a log are.
fn order_of(alloc: Global, log: &[Item]) -> Result<Vec<u32>, AllocError>
    ensures { IfOk result (λ order. order.items ≡ (steps_of log.now).pids) }
{
    let steps = steps_of(alloc, log)?;
    let mut order = Vec::new(alloc);
    order.extend_from_slice(steps.pids.as_slice())?;
    Ok(order)
}

/// What a run by these words left.
fn look(alloc: Global, kernel: &Kernel, words: Seq<Word>) -> Result<Trial, AllocError>
    requires { kernel.now.keeps_log ≡ true }
    ensures words { IfOk result (λ t. t.words ≡ words) }
    ensures left { IfOk result (IsLeft kernel.now) }
{
    let order = order_of(alloc, kernel.log())?;
    Ok(Trial {
        words,
        ending: ending(kernel)?,
        order,
    })
}

/// What a run by these words left, which does not go on.
fn look_at(alloc: Global, kernel: Kernel, words: Seq<Word>) -> Result<Trial, AllocError>
    requires { kernel.keeps_log ≡ true }
    ensures words { IfOk result (λ t. t.words ≡ words) }
    ensures left { IfOk result (IsLeft kernel) }
{
    let trial = look(alloc, &kernel, words);
    drop(kernel);
    trial
}

/// The kernel at the end of the run by these words, of a boot that is accepted.
fn run_words(alloc: Global, setup: &Setup, words: &[Word]) -> Result<Kernel, AllocError>
    ensures { IfOk result (RunsTo (first_of setup.now) (worded words.now setup.now.limit)) }
{
    let script = Script::empty(alloc);
    match run_by(alloc, &setup.boot, words, setup.limit, script) {
        Ok(kernel) => Ok(kernel),
        Err(_) => Err(AllocError),
    }
}

/// What the run by these words left.
fn try_words(alloc: Global, setup: &Setup, words: Seq<Word>) -> Result<Trial, AllocError>
    ensures words { IfOk result (λ t. t.words ≡ words) }
    ensures run { IfOk result (IsRunBy setup.now words) }
{
    let kernel = run_words(alloc, setup, words.as_slice())?;
    let trial = look_at(alloc, kernel, words)?;
    Ok(trial)
}

/// Where all runs begin, of a boot that is accepted.
fn first_kernel(alloc: Global, setup: &Setup) -> Result<Kernel, AllocError>
    ensures { IfOk result (λ k. k ≡ first_of setup.now) }
{
    let boot = setup.boot.copy(alloc)?;
    match Kernel::boot(alloc, boot, Script::empty(alloc)) {
        Ok(kernel) => Ok(kernel),
        Err(_) => Err(AllocError),
    }
}

/// What the run by an order left that is drawn from here on.
fn draw_on(
    alloc: Global,
    kernel: &mut Kernel,
    limit: u64,
    chance: &mut Pcg32,
) -> Result<Trial, AllocError>
    requires { kernel.old.keeps_log ≡ true }
    ensures { IfOk result (IsRunDrawn kernel.old limit chance.old) }
{
    let pids = draw(alloc, kernel, limit.min(MOST_TURNS), chance)?;
    let words = words_of(alloc, pids.as_slice())?;
    let trial = look(alloc, kernel, words)?;
    Ok(trial)
}

/// .. of a kernel that does not go on.
fn draw_whole(
    alloc: Global,
    kernel: Kernel,
    limit: u64,
    chance: &mut Pcg32,
) -> Result<Trial, AllocError>
    requires { kernel.keeps_log ≡ true }
    ensures { IfOk result (IsRunDrawn kernel limit chance.old) }
{
    let mut kernel = kernel;
    let trial = draw_on(alloc, &mut kernel, limit, chance);
    drop(kernel);
    trial
}

/// What the run by an order left that is drawn by the generator's stream with this number.
fn try_chance(alloc: Global, setup: &Setup, seed: u64, number: u64) -> Result<Trial, AllocError>
    ensures { IfOk result (IsRunDrawn (first_of setup.now) setup.now.limit (chance_of seed number)) }
{
    let kernel = first_kernel(alloc, setup)?;
    let trial = draw_whole(alloc, kernel, setup.limit, &mut Pcg32::new(seed, number))?;
    Ok(trial)
}

/// What the run by a plan left.
fn try_plan(alloc: Global, setup: &Setup, source: &Source, plan: Plan) -> Result<Trial, AllocError>
    ensures { IfOk result (IsTrial setup.now source.now plan) }
{
    match plan {
        Plan::Default => {
            let trial = try_words(alloc, setup, Seq::new(alloc))?;
            Ok(trial)
        }
        Plan::Switched(switch) => {
            let pids = switched(alloc, &source.steps, switch)?;
            let words = words_of(alloc, pids.as_slice())?;
            let trial = try_words(alloc, setup, words)?;
            Ok(trial)
        }
        Plan::ByChance(number) => {
            let trial = try_chance(alloc, setup, source.seed, number)?;
            Ok(trial)
        }
    }
}

/// What the runs by so many plans left, from this number on.
pub(crate) fn try_all(
    alloc: Global,
    setup: &Setup,
    source: &Source,
    first: usize,
    count: usize,
) -> Result<Vec<Trial>, AllocError>
    requires { first + count < 2 ^ 64 }
    ensures { IfOk result (λ trials. AreMade setup.now source.now first count trials.items) }
{
    let mut trials = Vec::new(alloc);
    let mut number = first;
    let end = first + count;
    while number < end {
        let plan = plan_of(source.switches.as_slice(), number);
        let trial = try_plan(alloc, setup, source, plan)?;
        trials.push(trial)?;
        number += 1;
    }
    Ok(trials)
}
