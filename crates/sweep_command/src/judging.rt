//! Rows whose files a command has judged.

ghost use Rattle.std.specs.Prelude.{◌≡◌, [], true, IfOk, OnOk};
ghost use Rattle.sweep_rows.specs.Summary.{checked as checked_by};
ghost use Rattle.sweep_rows.specs.Calls.{same_calls};
ghost use Rattle.sweep_rows.specs.Verdicts.{facts_of as facts, verdict_of as verdict};
ghost use Rattle.sweep_runs.specs.Leaders.{IsLed};
ghost use Rattle.sweep_runs.specs.Rows.{AreRows};
ghost use Rattle.sweep_command.specs.Checks.{is_asked, with_verdict, IsJudged, AreJudged, AreTold};

use crate::checking::Checks;
use clap::ArgMatches;
use front_end::{Fault, Shown};
use std::alloc::{AllocError, Global};
use std::env::{self, Env};
use std::process::Processes;
use std::rt::Files;
use std::thread::Threads;
use sweep_rows::{Case, Reached, Row, Setup, Verdict, checked, facts_of, rank, verdict_of};
use sweep_runs::{Compared, Leader, Silent, fault_of, reach_failing, run_led_cases};
use sweep_threads::rows_on_threads;
use sweep_words::words::Words;

/// Where files are written that are checked.
fn folder<R: Env + AllocGlobal>(rt: &R) -> Result<String, Fault> {
    match env::var(rt, "TMPDIR") {
        Ok(folder) if !folder.is_empty() => Ok(folder),
        _ => Ok(format!(in rt.alloc(); "/tmp")?),
    }
}

/// The checks by the command that the words name.
pub fn checks_of<'m, R: Env + AllocGlobal>(
    rt: &R,
    matches: &ArgMatches<'m>,
) -> Result<Checks<'m>, Fault> {
    let command = matches.get_str("check").unwrap_or("");
    Ok(Checks::new(rt.alloc(), command, folder(rt)?))
}

/// The same, where the files of the run without a failure are fine.
pub fn begin_checks<'m, R: Env + Files + Processes + AllocGlobal>(
    rt: &R,
    matches: &ArgMatches<'m>,
    words: Words,
    reference: &Reached,
) -> Result<Checks<'m>, Fault> {
    let mut checks = checks_of(rt, matches)?;
    let files = reference.ending.outcome.files.as_slice()?;
    if words.is_checked && !checks.are_fine(rt, files, files)? {
        return Err(Fault::usage(format!(in rt.alloc();
            "--check {}: fails where no call has failed",
            Shown(matches.get_str("check").unwrap_or(""))
        )));
    }
    Ok(checks)
}

/// The command is asked about a run that left other files, and was neither hung nor killed.
fn is_asked(row: &Row) -> bool
    ensures { result ≡ is_asked row.now }
{
    !row.files.is_empty() && rank(row.verdict) > rank(Verdict::Killed)
}

/// What came of a run that left files which are fine or aren't, but for them.
fn judged(reference: &Reached, run: &Compared, tells: bool, fine: bool) -> Verdict
    requires { run.now.alike
        ≡ same_calls reference.now.log.items run.now.reached.log.items reference.now.ending.outcome.ended }
    ensures { result ≡ checked_by fine (verdict (facts reference.now run.now.reached [] tells)) }
{
    let facts = facts_of(reference, &run.reached, run.alike, &[], tells);
    checked(fine, verdict_of(facts))
}

fn with_verdict(row: Row, verdict: Verdict) -> Row
    ensures { result ≡ with_verdict row verdict }
{
    Row { verdict, ..row }
}

/// Has the command judge the files that the run of a row left, for which it is made again.
fn ask<R: Files + Processes + AllocGlobal>(
    rt: &R,
    checks: &mut Checks,
    setup: &Setup,
    reference: &Reached,
    row: Row,
) -> Result<Row, Fault>
    requires { is_asked row ≡ true }
    ensures { IfOk result (IsJudged setup.now reference.now row) }
{
    let run = reach_failing(rt.alloc(), setup, reference, fault_of(row.case))?;
    let others = reference.ending.outcome.files.as_slice()?;
    let left = run.reached.ending.outcome.files.as_slice()?;
    let fine = checks.are_fine(rt, others, left)?;
    let verdict = judged(reference, &run, row.case.tells, fine);
    Ok(with_verdict(row, verdict))
}

/// A row as it is told: of one that the command isn't asked about nothing changes.
fn judge_row<R: Files + Processes + AllocGlobal>(
    rt: &R,
    checks: &mut Checks,
    setup: &Setup,
    reference: &Reached,
    row: Row,
) -> Result<Row, Fault>
    ensures { IfOk result (IsJudged setup.now reference.now row) }
{
    if is_asked(&row) {
        let judged = ask(rt, checks, setup, reference, row)?;
        return Ok(judged);
    }
    Ok(row)
}

/// Rows as they are told.
fn judge_rows<R: Files + Processes + AllocGlobal>(
    rt: &R,
    checks: &mut Checks,
    setup: &Setup,
    reference: &Reached,
    rows: Vec<Row>,
) -> Result<Vec<Row>, Fault>
    ensures { IfOk result (λ told. AreJudged setup.now reference.now rows.items told.items) }
{
    let mut told = Vec::new(rt.alloc());
    for row in rows {
        let judged = judge_row(rt, checks, setup, reference, row)?;
        told.push(judged)?;
    }
    Ok(told)
}

/// Makes the run of each case: on one thread from where a leader stands.
fn made_rows<R: Threads + Sync + AllocGlobal>(
    rt: &R,
    jobs: u8,
    setup: &Setup,
    leader: &mut Leader,
    reference: &Reached,
    cases: &[Case],
) -> Result<Vec<Row>, AllocError>
    requires { IsLed setup.now reference.now leader.old }
    ensures rows { IfOk result (λ rows. AreRows setup.now reference.now cases.now rows.items) }
    ensures led { OnOk result (IsLed setup.now reference.now leader.new) }
{
    if jobs < 2 {
        return run_led_cases(rt.alloc(), setup, leader, reference, cases, &mut Silent);
    }
    let rows = rows_on_threads(rt, rt.alloc(), jobs, setup, reference, cases, &mut Silent)?;
    Ok(rows)
}

/// Makes the run of each case, and has the command judge their files, where the words name one.
pub fn told_rows<R: Files + Processes + Threads + Sync + AllocGlobal>(
    rt: &R,
    words: Words,
    checks: &mut Checks,
    setup: &Setup,
    leader: &mut Leader,
    reference: &Reached,
    cases: &[Case],
) -> Result<Vec<Row>, Fault>
    requires { IsLed setup.now reference.now leader.old }
    ensures told { IfOk result (λ rows. AreTold words.is_checked setup.now reference.now cases.now rows.items) }
    ensures led { OnOk result (IsLed setup.now reference.now leader.new) }
{
    let rows = made_rows(rt, words.jobs, setup, leader, reference, cases)?;
    let is_checked = words.is_checked;
    if !is_checked {
        return Ok(rows);
    }
    let judged = judge_rows(rt, checks, setup, reference, rows)?;
    Ok(judged)
}
