//! What came of each run.

ghost use Rattle.std.specs.Prelude.{◌≡◌, ◌↔◌, None, Some, Err, IfOk, IfErr, OnOk, IsTrue};
ghost use Rattle.lx_boot.specs.Boots.{Refuses, fault_of};
ghost use Rattle.lx_boot.specs.declared.boots.BootFault.{BootFault as BootRefusal};
ghost use Rattle.sweep_rows.specs.Endings.{first_word};
ghost use Rattle.sweep_faults.specs.Words.{failure_of};
ghost use Rattle.sweep_rows.specs.Failures.{FailsAlone};
ghost use Rattle.sweep_runs.specs.Cases.{cases_of};
ghost use Rattle.sweep_rows.specs.Files.{file_notes};
ghost use Rattle.sweep_rows.specs.Verdicts.{facts_of, verdict_of};
ghost use Rattle.sweep_rows.specs.Calls.{same_calls};
ghost use Rattle.sweep_runs.specs.Leaders.{ComparesTo, IsLed};
ghost use Rattle.sweep_runs.specs.Rows.{fault_of as fault_of_case, kind_of, IsRow, AreRows, IsReport};

use crate::chosen::cases;
use crate::leading::{Compared, Leader, reach_failing};
use crate::progress::Progress;
use crate::runs::refer;
use containers::Seq;
use lx_abi::{Boot, Ended, Errno, Outcome, Script, sys};
use lx_boot::BootFault;
use std::alloc::{AllocError, Global};
use sweep_faults::{Fault, failure_of};
use sweep_rows::{
    Case, Ending, FileNote, Kind, Reached, Row, Setup, Streams, Verdict, Wanted, facts_of, failing,
    file_notes, first_word, verdict_of,
};

/// The run without a failure, and a row for each case.
#[derive(Drop)]
pub struct Report {
    pub reference: Reached,
    pub rows: Vec<Row>,
}

/// How a call fails with an error: close is done all the same (close(2)).
fn kind_of(call: u64, error: Errno) -> Kind
    ensures { result ≡ kind_of call error }
{
    if call == sys::SYS_CLOSE {
        Kind::Done(error)
    } else {
        Kind::Undone(error)
    }
}

/// The case's call of its process fails, and nothing else.
pub fn fault_of(case: Case) -> Fault
    ensures { result ≡ fault_of_case case }
{
    Fault {
        pid: case.occurrence.pid,
        call: case.occurrence.call.number,
        n: case.occurrence.n,
        kind: kind_of(case.occurrence.call.number, case.error),
    }
}

/// The script by which a case's call fails, in each tracee.
pub fn script_of(alloc: Global, case: Case) -> Result<Script, AllocError>
    ensures { IfOk result (FailsAlone (failure_of (fault_of_case case) case.error)) }
{
    failing(alloc, failure_of(fault_of(case), case.error))
}

/// What of a run is told.
fn row_of(case: Case, verdict: Verdict, files: Vec<FileNote>, run: Reached, has_words: bool) -> Row
    ensures case { result.case ≡ case }
    ensures verdict { result.verdict ≡ verdict }
    ensures files { result.files ≡ files }
    ensures word { result.word ≡ first_word run.ending.outcome }
    ensures ended { result.ended ≡ run.ending.outcome.ended }
    ensures streams { result.streams ≡ run.streams }
    ensures words { result.has_words ≡ has_words }
{
    let word = first_word(&run.ending.outcome);
    let Reached {
        ending,
        streams,
        ..
    } = run;
    let Ending { outcome, .. } = ending;
    let Outcome { ended, .. } = outcome;
    Row {
        case,
        verdict,
        word,
        ended,
        files,
        streams,
        has_words,
    }
}

/// The files that a run leaves otherwise than the reference.
pub(crate) fn notes_of(
    alloc: Global,
    boot: &Boot,
    reference: &Reached,
    run: &Reached,
) -> Result<Vec<FileNote>, AllocError>
    ensures { IfOk result (λ notes. notes.items
        ≡ file_notes boot.now.files reference.now.ending.outcome.files run.now.ending.outcome.files) }
{
    let given = boot.files.as_slice();
    let expected = reference.ending.outcome.files.as_slice()?;
    let left = run.ending.outcome.files.as_slice()?;
    file_notes(alloc, given, expected, left)
}

/// What came of a run that leaves these files otherwise, and whose calls are alike or aren't.
fn judge(
    reference: &Reached,
    run: &Reached,
    alike: bool,
    notes: &[FileNote],
    tells: bool,
) -> Verdict
    requires { alike ≡ same_calls reference.now.log.items run.now.log.items reference.now.ending.outcome.ended }
    ensures { result ≡ verdict_of (facts_of reference.now run.now notes.now tells) }
{
    verdict_of(facts_of(reference, run, alike, notes, tells))
}

/// What a run came to, beside the reference.
pub(crate) fn compare(
    alloc: Global,
    boot: &Boot,
    reference: &Reached,
    run: Compared,
    case: Case,
) -> Result<Row, AllocError>
    requires { run.alike
        ≡ same_calls reference.now.log.items run.reached.log.items reference.now.ending.outcome.ended }
    ensures case { IfOk result (λ r. r.case ≡ case) }
    ensures files { IfOk result (λ r. r.files.items
        ≡ file_notes boot.now.files reference.now.ending.outcome.files run.reached.ending.outcome.files) }
    ensures verdict { IfOk result (λ r. r.verdict
        ≡ verdict_of (facts_of reference.now run.reached r.files.items case.tells)) }
    ensures word { IfOk result (λ r. r.word ≡ first_word run.reached.ending.outcome) }
    ensures ended { IfOk result (λ r. r.ended ≡ run.reached.ending.outcome.ended) }
    ensures streams { IfOk result (λ r. r.streams ≡ run.reached.streams) }
    ensures words { IfOk result (λ r. r.has_words ≡ run.has_words) }
{
    let Compared {
        reached,
        alike,
        has_words,
    } = run;
    let files = notes_of(alloc, boot, reference, &reached)?;
    let verdict = judge(reference, &reached, alike, files.as_slice(), case.tells);
    Ok(row_of(case, verdict, files, reached, has_words))
}

/// The row of a case whose run came to this.
fn row_reached(
    alloc: Global,
    setup: &Setup,
    reference: &Reached,
    case: Case,
    run: Compared,
) -> Result<Row, AllocError>
    requires { ComparesTo setup.now reference.now (fault_of_case case) run }
    ensures row { IfOk result (IsRow setup.now reference.now) }
    ensures case { IfOk result (λ r. r.case ≡ case) }
{
    let row = compare(alloc, &setup.boot, reference, run, case)?;
    Ok(row)
}

/// Makes the run of a case, of a boot that is accepted.
pub fn run_case(
    alloc: Global,
    setup: &Setup,
    reference: &Reached,
    case: Case,
) -> Result<Row, AllocError>
    ensures row { IfOk result (IsRow setup.now reference.now) }
    ensures case { IfOk result (λ r. r.case ≡ case) }
{
    let run = reach_failing(alloc, setup, reference, fault_of(case))?;
    let row = row_reached(alloc, setup, reference, case, run)?;
    Ok(row)
}

/// The same, from where a leader stands.
fn run_led(
    alloc: Global,
    setup: &Setup,
    leader: &mut Leader,
    reference: &Reached,
    case: Case,
) -> Result<Row, AllocError>
    requires { IsLed setup.now reference.now leader.old }
    ensures row { IfOk result (IsRow setup.now reference.now) }
    ensures case { IfOk result (λ r. r.case ≡ case) }
    ensures led { OnOk result (IsLed setup.now reference.now leader.new) }
{
    let run = leader.reach_failing(alloc, setup, reference, fault_of(case))?;
    let row = row_reached(alloc, setup, reference, case, run)?;
    Ok(row)
}

/// Makes the run of each case, each from where a leader stands.
pub fn run_led_cases<P: Progress>(
    alloc: Global,
    setup: &Setup,
    leader: &mut Leader,
    reference: &Reached,
    cases: &[Case],
    progress: &mut P,
) -> Result<Vec<Row>, AllocError>
    requires { IsLed setup.now reference.now leader.old }
    ensures rows { IfOk result (λ rows. AreRows setup.now reference.now cases.now rows.items) }
    ensures led { OnOk result (IsLed setup.now reference.now leader.new) }
{
    let mut rows = Vec::new(alloc);
    let mut left = cases;
    while let Some((case, rest)) = left.split_first() {
        let row = run_led(alloc, setup, leader, reference, *case)?;
        rows.push(row)?;
        left = rest;
        progress.tell(rows.len(), cases.len());
    }
    Ok(rows)
}

/// Makes the run of each case, of a boot that is accepted.
pub fn run_cases<P: Progress>(
    alloc: Global,
    setup: &Setup,
    reference: &Reached,
    cases: &[Case],
    progress: &mut P,
) -> Result<Vec<Row>, AllocError>
    ensures { IfOk result (λ rows. AreRows setup.now reference.now cases.now rows.items) }
{
    let mut leader = Leader::new(alloc, setup, reference)?;
    let rows = run_led_cases(alloc, setup, &mut leader, reference, cases, progress);
    drop(leader);
    rows
}

/// Makes the run of each case that is wanted of the reference's log. The boot is that of the reference, so no run is
/// refused but for want of memory.
fn rows<P: Progress>(
    alloc: Global,
    setup: &Setup,
    reference: &Reached,
    wanted: &[Wanted],
    progress: &mut P,
) -> Result<Vec<Row>, AllocError>
    ensures { IfOk result (λ rows. AreRows setup.now reference.now
        (cases_of wanted.now setup.now.boot.follow reference.now.log.items) rows.items) }
{
    let log = reference.log.as_slice()?;
    let cases = cases(alloc, log, wanted, setup.boot.follow)?;
    let rows = run_cases(alloc, setup, reference, cases.as_slice(), progress)?;
    Ok(rows)
}

/// Makes the run without a failure, and then one for each occurrence in its log of a call that is wanted and each
/// error that is wanted of it. The fault is the boot's, or Memory where memory runs out, in a run too.
pub fn sweep<P: Progress>(
    alloc: Global,
    setup: &Setup,
    wanted: &[Wanted],
    progress: &mut P,
) -> Result<Report, BootFault>
    ensures report { IfOk result (IsReport setup.now wanted.now) }
    ensures accepted { OnOk result (fault_of setup.now.boot ≡ None) }
    ensures fault { IfErr result (Refuses setup.now.boot) }

    // A boot with a fault is refused with it, whatever the memory.
    ensures refused { (e : BootRefusal) → fault_of setup.now.boot ≡ Some e → result ≡ Err e }
{
    let reference = refer(alloc, setup)?;
    let rows = rows(alloc, setup, &reference, wanted, progress)?;
    Ok(Report { reference, rows })
}
