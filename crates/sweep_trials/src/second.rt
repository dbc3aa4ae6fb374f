//! A second program, which is started on the files that a run left.

ghost use Rattle.std.specs.Prelude.{◌≡◌, [], IfOk};
ghost use Rattle.sweep_runs.specs.Runs.{Reaches};
ghost use Rattle.sweep_trials.specs.Ends.{EndsOn, IsSecond, exits_well, is_fine as is_fine_end};
ghost use Rattle.sweep_trials.specs.Ends.{second_boot as second_boot_on};

use containers::{Bytes, Seq};
use front_boot::refuse_boot;
use front_end::{Fault, Program};
use lx_abi::{Boot, OutcomeFile, Status};
use lx_copies::copied::copy_list;
use std::alloc::{AllocError, Global};
use sweep_rows::{Reached, Setup, first_word};
use sweep_runs::{boot_on, refer};
use sweep_words::plan::Plan;
use sweep_words::trials::Second;

/// How a second program ended.
#[derive(Clone, Copy, Debug, PartialEq, Eq)]
pub struct SecondEnd {
    /// The wait word of its process 1, if it ended.
    pub word: Option<u32>,
}

fn exits_well(word: Option<u32>) -> bool
    ensures { result ≡ exits_well word }
{
    match word {
        Some(word) => word == 0,
        None => false,
    }
}

impl SecondEnd {
    /// Its process 1 exits with 0.
    pub fn is_fine(self) -> bool
        ensures { result ≡ is_fine_end self }
    {
        exits_well(self.word)
    }
}

/// The boot of the second program on these files.
fn second_boot(
    alloc: Global,
    boot: &Boot,
    argv: &Seq<Bytes>,
    left: &[OutcomeFile],
) -> Result<Boot, AllocError>
    ensures { IfOk result (λ b. b ≡ second_boot_on boot.now argv.now left.now) }
{
    let argv = copy_list(alloc, argv.as_slice())?;
    let env = copy_list(alloc, boot.env.as_slice())?;
    let first = Boot {
        limits: boot.limits,
        files: Seq::new(alloc),
        argv,
        env,
        input: Bytes::new(alloc),
        follow: boot.follow,
    };
    boot_on(alloc, first, left)
}

/// How its runs on these files begin.
fn begin(
    alloc: Global,
    setup: &Setup,
    second: &Second,
    left: &[OutcomeFile],
) -> Result<Setup, AllocError>
    ensures { IfOk result (IsSecond setup.now second.now left.now) }
{
    let boot = second_boot(alloc, &setup.boot, &second.argv, left)?;
    Ok(Setup {
        boot,
        turns: Vec::new(alloc),
        limit: second.limit,
    })
}

/// Its run from there.
fn run_second(alloc: Global, start: &Setup) -> Result<Reached, Fault>
    ensures { IfOk result (Reaches start.now []) }
{
    match refer(alloc, start) {
        Ok(reached) => Ok(reached),
        Err(fault) => Err(refuse_boot(alloc, fault)),
    }
}

/// How it ends on these files.
pub fn end_on(
    alloc: Global,
    setup: &Setup,
    second: &Second,
    left: &[OutcomeFile],
) -> Result<SecondEnd, Fault>
    ensures { IfOk result (EndsOn setup.now second.now left.now) }
{
    let start = begin(alloc, setup, second, left)?;
    let reached = run_second(alloc, &start)?;
    let word = first_word(&reached.ending.outcome);
    Ok(SecondEnd { word })
}

/// Why the second program, which ended so on these files, isn't run, if its file says it.
fn reason_of(
    alloc: Global,
    setup: &Setup,
    second: &Second,
    left: &[OutcomeFile],
    end: SecondEnd,
) -> Result<Option<String>, AllocError> {
    let Some(word) = end.word else {
        return Ok(None);
    };
    let start = begin(alloc, setup, second, left)?;
    let program = Program::of(alloc, &start.boot)?;
    program.reason(alloc, Status { word }.shell_status())
}

/// The second program of a plan is fine on the files that the whole run leaves.
pub fn check_second(alloc: Global, plan: &Plan, reference: &Reached) -> Result<(), Fault> {
    let Some(second) = &plan.second else {
        return Ok(());
    };
    let left = reference.ending.outcome.files.as_slice()?;
    let end = end_on(alloc, &plan.setup, second, left)?;
    if end.is_fine() {
        return Ok(());
    }
    match reason_of(alloc, &plan.setup, second, left, end)? {
        Some(reason) => Err(Fault::usage(format!(in alloc; "--then: {reason}"))),
        None => Err(Fault::usage(format!(in alloc;
            "--then: fails on the files that the run without a failure leaves"
        ))),
    }
}
