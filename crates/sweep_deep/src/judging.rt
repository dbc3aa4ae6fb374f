//! What is told of a run in which a call fails behind another, and how many came to what.

ghost use Rattle.std.specs.Prelude.{◌≡◌, ◌++◌, length, IfOk, OnOk};
ghost use Rattle.std.specs.List.{flat_map};
ghost use Rattle.std.specs.Option.{option_to_list};
ghost use Rattle.sweep_report.specs.Findings.{status_of as status_by};
ghost use Rattle.sweep_report.specs.Tallies.{findings_in as findings_by, kinds_with as kinds_by};
ghost use Rattle.sweep_deep.specs.Counts.{always as always_told, verdict_of as verdict_in, verdicts_in};
ghost use Rattle.sweep_deep.specs.Counts.{verdicts_of as verdicts_behind};

use crate::rows::{Behind, TriedDeep};
use std::alloc::{AllocError, Global};
use sweep_report::findings;
use sweep_report::tally::{Tally, findings_in, kinds_with};
use sweep_rows::Verdict;
use sweep_trials::judging::told_by;
pub use sweep_trials::status_of_one;
use sweep_words::plan::Plan;
use sweep_words::trials::Second;

/// What is counted where a second program tells it.
const BY_SECOND: [Verdict; 1] = [Verdict::Broken];

/// What is told of a run: by the second program, where there is one and the run ended, or else by the run. None where
/// the second program is fine.
pub fn verdict_of(row: &TriedDeep) -> Option<Verdict>
    ensures { result ≡ verdict_in row.now }
{
    told_by(Some(row.made.row.verdict), row.second)
}

fn add_verdict(verdicts: &mut Vec<Verdict>, row: &TriedDeep) -> Result<(), AllocError>
    ensures { OnOk result (verdicts.new.items ≡ verdicts.old.items ++ option_to_list (verdict_in row.now)) }
{
    if let Some(verdict) = verdict_of(row) {
        verdicts.push(verdict)?;
    }
    Ok(())
}

/// Adds those of these rows.
fn add_verdicts(verdicts: &mut Vec<Verdict>, rows: &[TriedDeep]) -> Result<(), AllocError>
    ensures { OnOk result (verdicts.new.items ≡ verdicts.old.items ++ verdicts_in rows.now) }
{
    let mut left = rows;
    while let Some((row, rest)) = left.split_first() {
        add_verdict(verdicts, row)?;
        left = rest;
    }
    Ok(())
}

/// The verdicts of those runs of which something is told.
fn verdicts_of(alloc: Global, all: &[Behind]) -> Result<Vec<Verdict>, AllocError>
    ensures { IfOk result (λ verdicts. verdicts.items ≡ verdicts_behind all.now) }
{
    let mut verdicts = Vec::new(alloc);
    let mut left = all;
    while let Some((behind, rest)) = left.split_first() {
        add_verdicts(&mut verdicts, behind.rows.as_slice())?;
        left = rest;
    }
    Ok(verdicts)
}

/// The exit status: 0 only where none is a finding.
pub fn status_of(alloc: Global, strict: bool, all: &[Behind]) -> Result<u8, AllocError>
    ensures { IfOk result (λ s. s ≡ status_by strict (verdicts_behind all.now)) }
{
    let verdicts = verdicts_of(alloc, all)?;
    Ok(findings::status_of(strict, verdicts.as_slice()))
}

/// What is counted, whether some run came to it or none.
fn always(second: &Option<Second>) -> &'static [Verdict]
    ensures { result.now ≡ always_told second.now }
{
    match second {
        None => &[],
        Some(_) => &BY_SECOND,
    }
}

/// How many runs there are.
fn count(all: &[Behind]) -> usize {
    let mut count: usize = 0;
    for behind in all {
        count = count.saturating_add(behind.rows.len());
    }
    count
}

/// How many runs came to what.
pub fn tally_of(alloc: Global, plan: &Plan, all: &[Behind]) -> Result<Tally, AllocError>
    ensures findings { IfOk result (λ tally. tally.findings ≡ findings_by plan.now.strict (verdicts_behind all.now)) }
    ensures kinds { IfOk result (λ tally.
        tally.kinds.items ≡ kinds_by (always_told plan.now.second) (verdicts_behind all.now)) }
{
    let verdicts = verdicts_of(alloc, all)?;
    let verdicts = verdicts.as_slice();
    let kinds = kinds_with(alloc, always(&plan.second), verdicts)?;
    Ok(Tally {
        runs: count(all),
        findings: findings_in(plan.strict, verdicts),
        known: 0,
        kinds,
    })
}
