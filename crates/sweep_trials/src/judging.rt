//! What is told of a trial, and how many came to what.

ghost use Rattle.std.specs.Prelude.{◌≡◌, ◌++◌, length, IfOk, OnOk};
ghost use Rattle.std.specs.List.{list_any};
ghost use Rattle.std.specs.Option.{option_to_list};
ghost use Rattle.sweep_report.specs.Findings.{status_of as status_by};
ghost use Rattle.sweep_report.specs.Tallies.{findings_in as findings_by, kinds_with as kinds_by};
ghost use Rattle.sweep_rows.specs.Verdicts.{is_torn as is_torn_note};
ghost use Rattle.sweep_trials.specs.Counts.{always as always_told, always_by as always_of, by_files as by_notes};
ghost use Rattle.sweep_trials.specs.Counts.{ends_first as ends_first_in, is_hung as is_hung_by, is_killed as is_kill};
ghost use Rattle.sweep_trials.specs.Counts.{own_verdict as own_of, told_by as told_by_end, verdict_of as verdict_in};
ghost use Rattle.sweep_trials.specs.Counts.{verdicts_of as verdicts_in};

use crate::rows::TriedRow;
use crate::second::SecondEnd;
use std::alloc::{AllocError, Global};
use sweep_report::findings;
use sweep_report::tally::{Tally, findings_in, kinds_with};
use sweep_rows::{FileNote, Kind, Verdict, Word};
use sweep_runs::TrialRow;
use sweep_words::plan::Plan;
use sweep_words::trials::{Deed, Second};

/// What is counted where the files tell it, or a second program does.
const BY_FILES: [Verdict; 2] = [Verdict::Torn, Verdict::Damaged];

const BY_SECOND: [Verdict; 1] = [Verdict::Broken];

fn is_killed(kind: Kind) -> bool
    ensures { result ≡ is_kill kind }
{
    matches!(kind, Kind::Killed)
}

fn is_hung(verdict: Option<Verdict>) -> bool
    ensures { result ≡ is_hung_by verdict }
{
    matches!(verdict, Some(Verdict::Hung))
}

/// Process 1 is killed, whose end is no news then, and nobody is alive.
fn ends_first(row: &TrialRow) -> bool
    ensures { result ≡ ends_first_in row.now }
{
    is_killed(row.trial.kind) && row.trial.occurrence.pid == 1 && !is_hung(row.verdict)
}

fn is_torn(note: &FileNote) -> bool
    ensures { result ≡ is_torn_note note.now }
{
    matches!(note.word, Word::Torn(..) | Word::Gone) && !note.saved
}

fn has_torn(notes: &[FileNote]) -> bool
    ensures { result ≡ list_any is_torn_note notes.now }
{
    notes.iter().any(|note| is_torn(note))
}

fn has_saved(notes: &[FileNote]) -> bool
    ensures { result ≡ list_any (λ n. n.saved) notes.now }
{
    notes.iter().any(|note| note.saved)
}

/// What files tell that are otherwise than the reference leaves them.
fn by_files(notes: &[FileNote]) -> Option<Verdict>
    ensures { result ≡ by_notes notes.now }
{
    if has_torn(notes) {
        Some(Verdict::Torn)
    } else if has_saved(notes) {
        Some(Verdict::Damaged)
    } else {
        None
    }
}

/// The files alone tell what came of the trial's own run.
pub fn is_by_files(row: &TrialRow) -> bool {
    row.trial.kind.is_stop() || ends_first(row)
}

/// What the trial's own run tells.
pub fn own_verdict(row: &TrialRow) -> Option<Verdict>
    ensures { result ≡ own_of row.now }
{
    if ends_first(row) {
        by_files(row.files.as_slice())
    } else {
        row.verdict
    }
}

/// What is told where the run itself tells this: by the second program, where there is one and the run ended. None where
/// the second program is fine.
pub fn told_by(own: Option<Verdict>, second: Option<SecondEnd>) -> Option<Verdict>
    ensures { result ≡ told_by_end own second }
{
    match second {
        None => own,
        Some(end) => {
            if is_hung(own) {
                own
            } else if end.is_fine() {
                None
            } else {
                Some(Verdict::Broken)
            }
        }
    }
}

/// What is told of a trial: by the second program, where there is one and the run ended, or else by the run. None where
/// the files are whole.
pub fn verdict_of(row: &TriedRow) -> Option<Verdict>
    ensures { result ≡ verdict_in row.now }
{
    told_by(own_verdict(&row.made), row.second)
}

fn add_verdict(verdicts: &mut Vec<Verdict>, row: &TriedRow) -> Result<(), AllocError>
    ensures { OnOk result (verdicts.new.items ≡ verdicts.old.items ++ option_to_list (verdict_in row.now)) }
{
    if let Some(verdict) = verdict_of(row) {
        verdicts.push(verdict)?;
    }
    Ok(())
}

/// The verdicts of those trials of which something is told.
fn verdicts_of(alloc: Global, rows: &[TriedRow]) -> Result<Vec<Verdict>, AllocError>
    ensures { IfOk result (λ verdicts. verdicts.items ≡ verdicts_in rows.now) }
{
    let mut verdicts = Vec::new(alloc);
    let mut left = rows;
    while let Some((row, rest)) = left.split_first() {
        add_verdict(&mut verdicts, row)?;
        left = rest;
    }
    Ok(verdicts)
}

/// The exit status of a trial of which this is told: 0 only where it is no finding.
pub fn status_of_one(strict: bool, verdict: Option<Verdict>) -> u8
    ensures { result ≡ status_by strict (option_to_list verdict) }
{
    match verdict {
        Some(verdict) => findings::status_of(strict, &[verdict]),
        None => findings::status_of(strict, &[]),
    }
}

/// The exit status: 0 only where no trial is a finding.
pub fn status_of(alloc: Global, strict: bool, rows: &[TriedRow]) -> Result<u8, AllocError>
    ensures { IfOk result (λ s. s ≡ status_by strict (verdicts_in rows.now)) }
{
    let verdicts = verdicts_of(alloc, rows)?;
    Ok(findings::status_of(strict, verdicts.as_slice()))
}

fn always_by(deed: Deed) -> &'static [Verdict]
    ensures { result.now ≡ always_of deed }
{
    match deed {
        Deed::Stop | Deed::Kill => &BY_FILES,
        Deed::Short | Deed::Begin(_) => &[],
    }
}

/// What is counted, whether some run came to it or none.
fn always(deed: Deed, second: &Option<Second>) -> &'static [Verdict]
    ensures { result.now ≡ always_told deed second.now }
{
    match second {
        None => always_by(deed),
        Some(_) => &BY_SECOND,
    }
}

/// How many trials came to what.
pub fn tally_of(
    alloc: Global,
    plan: &Plan,
    deed: Deed,
    rows: &[TriedRow],
) -> Result<Tally, AllocError>
    ensures runs { IfOk result (λ tally. tally.runs ≡ length rows.now) }
    ensures findings { IfOk result (λ tally. tally.findings ≡ findings_by plan.now.strict (verdicts_in rows.now)) }
    ensures kinds { IfOk result (λ tally.
        tally.kinds.items ≡ kinds_by (always_told deed plan.now.second) (verdicts_in rows.now)) }
{
    let verdicts = verdicts_of(alloc, rows)?;
    let verdicts = verdicts.as_slice();
    let kinds = kinds_with(alloc, always(deed, &plan.second), verdicts)?;
    Ok(Tally {
        runs: rows.len(),
        findings: findings_in(plan.strict, verdicts),
        known: 0,
        kinds,
    })
}
