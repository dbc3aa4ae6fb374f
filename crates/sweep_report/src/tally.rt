//! How many runs came to what.

ghost use Rattle.std.specs.Prelude.{◌≡◌, ◌++◌, [], IfOk, OnOk, length};
ghost use Rattle.sweep_report.specs.Tallies.{verdicts_in, is_marked, behind, unless, unmarked, findings_in, kind_of};
ghost use Rattle.sweep_report.specs.Tallies.{is_among, is_told, kinds_of, kinds_with};

use crate::findings::counts;
use std::alloc::{AllocError, Global};
use sweep_rows::{Row, Verdict, count, rank};

/// All verdicts, the worst first.
const VERDICTS: [Verdict; 11] = [
    Verdict::Hung,
    Verdict::Killed,
    Verdict::Broken,
    Verdict::Torn,
    Verdict::Lost,
    Verdict::Dropped,
    Verdict::Damaged,
    Verdict::Warned,
    Verdict::Reported,
    Verdict::Recovered,
    Verdict::Ignored,
];

/// How many runs came to this.
#[derive(Clone, Copy, Debug, PartialEq, Eq)]
pub struct Kind {
    pub verdict: Verdict,
    pub runs: usize,
}

#[derive(Drop)]
pub struct Tally {
    pub runs: usize,
    /// The findings that aren't known.
    pub findings: usize,
    pub known: usize,
    /// The verdicts that are told, the worst first: those that some run has.
    pub kinds: Vec<Kind>,
}

/// The first is a mark.
fn is_marked(marks: &[bool]) -> bool
    ensures { result ≡ is_marked marks.now }
{
    match marks.first() {
        Some(mark) => *mark,
        None => false,
    }
}

/// Those behind the first.
fn behind(marks: &[bool]) -> &[bool]
    ensures { result.now ≡ behind marks.now }
{
    match marks.split_first() {
        Some((_, rest)) => rest,
        None => &[],
    }
}

fn add_unmarked(verdicts: &mut Vec<Verdict>, row: &Row, marked: bool) -> Result<(), AllocError>
    ensures { OnOk result (verdicts.new.items ≡ verdicts.old.items ++ unless marked row.now) }
{
    if !marked {
        verdicts.push(row.verdict)?;
    }
    Ok(())
}

/// The verdicts of those rows that aren't marked; rows behind the last mark aren't.
pub fn unmarked(alloc: Global, rows: &[Row], marks: &[bool]) -> Result<Vec<Verdict>, AllocError>
    ensures { IfOk result (λ verdicts. verdicts.items ≡ unmarked marks.now rows.now) }
{
    let mut verdicts = Vec::new(alloc);
    let mut more = marks;
    let mut left: &[Row] = rows;
    while let Some((row, rest)) = left.split_first() {
        add_unmarked(&mut verdicts, row, is_marked(more))?;
        left = rest;
        more = behind(more);
    }
    Ok(verdicts)
}

/// The verdicts of rows.
pub fn verdicts_of(alloc: Global, rows: &[Row]) -> Result<Vec<Verdict>, AllocError>
    ensures { IfOk result (λ verdicts. verdicts.items ≡ verdicts_in rows.now) }
{
    let mut verdicts = Vec::new(alloc);
    let mut left = rows;
    while let Some((row, rest)) = left.split_first() {
        verdicts.push(row.verdict)?;
        left = rest;
    }
    Ok(verdicts)
}

fn is_among(verdicts: &[Verdict], verdict: Verdict) -> bool
    ensures { result ≡ is_among verdicts.now verdict }
{
    verdicts.iter().any(|one| rank(*one) == rank(verdict))
}

/// A verdict that so many runs have is told: some run has it, or it is always told.
fn is_told(always: &[Verdict], verdict: Verdict, runs: usize) -> bool
    ensures { result ≡ is_told always.now verdict runs }
{
    runs > 0 || is_among(always, verdict)
}

/// Adds a verdict with its runs, if it is told.
fn add_kind(
    kinds: &mut Vec<Kind>,
    always: &[Verdict],
    verdicts: &[Verdict],
    verdict: Verdict,
) -> Result<(), AllocError>
    ensures { OnOk result (kinds.new.items ≡ kinds.old.items ++ kind_of always.now verdicts.now verdict) }
{
    let runs = count(verdicts, verdict);
    if is_told(always, verdict, runs) {
        kinds.push(Kind { verdict, runs })?;
    }
    Ok(())
}

/// The verdicts that some run has, and those that are always told, with their runs.
pub fn kinds_with(
    alloc: Global,
    always: &[Verdict],
    verdicts: &[Verdict],
) -> Result<Vec<Kind>, AllocError>
    ensures { IfOk result (λ kinds. kinds.items ≡ kinds_with always.now verdicts.now) }
{
    let mut kinds = Vec::new(alloc);
    let mut left: &[Verdict] = &VERDICTS;
    while let Some((verdict, rest)) = left.split_first() {
        add_kind(&mut kinds, always, verdicts, *verdict)?;
        left = rest;
    }
    Ok(kinds)
}

/// How many of these are findings.
pub fn findings_in(strict: bool, verdicts: &[Verdict]) -> usize
    ensures { result ≡ findings_in strict verdicts.now }
{
    let mut findings = 0;
    let mut left = verdicts;
    while let Some((verdict, rest)) = left.split_first() {
        if counts(strict, *verdict) {
            findings += 1;
        }
        left = rest;
    }
    findings
}

/// How many runs came to what, of which those in the second list count.
pub fn tally_of(
    alloc: Global,
    strict: bool,
    verdicts: &[Verdict],
    counted: &[Verdict],
) -> Result<Tally, AllocError>
    ensures runs { IfOk result (λ tally. tally.runs ≡ length verdicts.now) }
    ensures findings { IfOk result (λ tally. tally.findings ≡ findings_in strict counted.now) }
    ensures kinds { IfOk result (λ tally. tally.kinds.items ≡ kinds_of verdicts.now) }
{
    let kinds = kinds_with(alloc, &[], verdicts)?;
    Ok(Tally {
        runs: verdicts.len(),
        findings: findings_in(strict, counted),
        known: verdicts.len().saturating_sub(counted.len()),
        kinds,
    })
}
