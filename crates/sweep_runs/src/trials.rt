//! Runs in which an occurrence of a call fails in one way or another.

ghost use Rattle.std.specs.Prelude.{◌≡◌, false, IfOk, OnOk};
ghost use Rattle.sweep_rows.specs.Endings.{first_word as first_word_of};
ghost use Rattle.sweep_rows.specs.Files.{file_notes};
ghost use Rattle.sweep_rows.specs.Verdicts.{facts_of as facts};
ghost use Rattle.sweep_rows.specs.Calls.{same_calls};
ghost use Rattle.sweep_runs.specs.Leaders.{ComparesTo, IsLed};
ghost use Rattle.sweep_runs.specs.Trials.{fault_of, verdict_by as verdict_by_kind, verdict_by_files, IsTrialRow};

use crate::leading::{Compared, Leader, reach_failing};
use crate::sweeping::notes_of;
use containers::Seq;
use lx_abi::{Ended, Outcome};
use std::alloc::{AllocError, Global};
use sweep_faults::Fault;
use sweep_rows::verdicts::Left;
use sweep_rows::{
    Ending, Facts, FileNote, Kind, Occurrence, Reached, Setup, Streams, Verdict, facts_of,
    first_word, verdict_of,
};

/// An occurrence of a call, and how it fails.
#[derive(Clone, Copy, Debug, PartialEq, Eq)]
pub struct Trial {
    pub occurrence: Occurrence,
    pub kind: Kind,
}

/// A trial, and what came of its run.
#[derive(Drop)]
pub struct TrialRow {
    pub trial: Trial,
    /// None where everything ended, and each file is whole.
    pub verdict: Option<Verdict>,
    /// The wait word of process 1, if it ended.
    pub word: Option<u32>,
    /// The processes that ended.
    pub ended: Seq<Ended>,
    /// The files that the run leaves otherwise than the reference.
    pub files: Vec<FileNote>,
    pub streams: Streams,
}

impl Trial {
    /// The occurrence's process alone fails, at that entry.
    pub fn fault(self) -> Fault
        ensures { result ≡ fault_of self }
    {
        Fault {
            pid: self.occurrence.pid,
            call: self.occurrence.call.number,
            n: self.occurrence.n,
            kind: self.kind,
        }
    }
}

/// What the files alone tell.
fn verdict_by_files(left: Left) -> Option<Verdict>
    ensures { result ≡ verdict_by_files left }
{
    if left.torn {
        Some(Verdict::Torn)
    } else if left.saved {
        Some(Verdict::Damaged)
    } else {
        None
    }
}

/// What is told of a failure of this kind.
fn verdict_by(kind: Kind, facts: Facts) -> Option<Verdict>
    ensures { result ≡ verdict_by_kind kind facts }
{
    if kind.is_stop() {
        verdict_by_files(facts.left)
    } else {
        Some(verdict_of(facts))
    }
}

/// What came of a run that leaves these files otherwise, and whose calls are alike or aren't.
fn judge(
    kind: Kind,
    reference: &Reached,
    run: &Reached,
    alike: bool,
    notes: &[FileNote],
) -> Option<Verdict>
    requires { alike ≡ same_calls reference.now.log.items run.now.log.items reference.now.ending.outcome.ended }
    ensures { result ≡ verdict_by_kind kind (facts reference.now run.now notes.now false) }
{
    verdict_by(kind, facts_of(reference, run, alike, notes, false))
}

/// What of a run is told.
fn row_of(trial: Trial, verdict: Option<Verdict>, files: Vec<FileNote>, run: Reached) -> TrialRow
    ensures trial { result.trial ≡ trial }
    ensures verdict { result.verdict ≡ verdict }
    ensures files { result.files ≡ files }
    ensures word { result.word ≡ first_word_of run.ending.outcome }
    ensures ended { result.ended ≡ run.ending.outcome.ended }
    ensures streams { result.streams ≡ run.streams }
{
    let word = first_word(&run.ending.outcome);
    let Reached {
        ending,
        streams,
        ..
    } = run;
    let Ending { outcome, .. } = ending;
    let Outcome { ended, .. } = outcome;
    TrialRow {
        trial,
        verdict,
        word,
        ended,
        files,
        streams,
    }
}

/// The row of a trial whose run came to this.
fn row_reached(
    alloc: Global,
    setup: &Setup,
    reference: &Reached,
    trial: Trial,
    run: Compared,
) -> Result<TrialRow, AllocError>
    requires { ComparesTo setup.now reference.now (fault_of trial) run }
    ensures row { IfOk result (IsTrialRow setup.now reference.now) }
    ensures trial { IfOk result (λ r. r.trial ≡ trial) }
{
    let Compared { reached, alike, .. } = run;
    let files = notes_of(alloc, &setup.boot, reference, &reached)?;
    let verdict = judge(trial.kind, reference, &reached, alike, files.as_slice());
    Ok(row_of(trial, verdict, files, reached))
}

/// Makes the run of a trial, of a boot that is accepted.
pub fn run_trial(
    alloc: Global,
    setup: &Setup,
    reference: &Reached,
    trial: Trial,
) -> Result<TrialRow, AllocError>
    ensures row { IfOk result (IsTrialRow setup.now reference.now) }
    ensures trial { IfOk result (λ r. r.trial ≡ trial) }
{
    let run = reach_failing(alloc, setup, reference, trial.fault())?;
    let row = row_reached(alloc, setup, reference, trial, run)?;
    Ok(row)
}

/// The same, from where a leader stands.
pub fn run_led_trial(
    alloc: Global,
    setup: &Setup,
    leader: &mut Leader,
    reference: &Reached,
    trial: Trial,
) -> Result<TrialRow, AllocError>
    requires { IsLed setup.now reference.now leader.old }
    ensures row { IfOk result (IsTrialRow setup.now reference.now) }
    ensures trial { IfOk result (λ r. r.trial ≡ trial) }
    ensures led { OnOk result (IsLed setup.now reference.now leader.new) }
{
    let run = leader.reach_failing(alloc, setup, reference, trial.fault())?;
    let row = row_reached(alloc, setup, reference, trial, run)?;
    Ok(row)
}
