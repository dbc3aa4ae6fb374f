//! Findings that are known.

ghost use Rattle.std.specs.Prelude.{◌≡◌, ◌⊎◌, [], true, false, IfOk};
ghost use Rattle.std.specs.String.{string_bytes};
ghost use Rattle.sweep_report.specs.Keys.{IsKey, IsOlder};
ghost use Rattle.sweep_report.specs.Findings.{counts as counts_by};
ghost use Rattle.sweep_command.specs.Reports.{IsMark, AreMarks};
ghost use Rattle.sweep_words.specs.Known.{IsKnown};

use crate::outputs::{check, replace};
use clap::ArgMatches;
use front_end::Fault;
use std::alloc::{AllocError, Global};
use std::io::Write;
use std::rt::Files;
use sweep_report::findings::counts;
use sweep_report::sites::{key_of, older_of, place_of, without_function};
use sweep_report::traced::TracedCalls;
use sweep_rows::{Reached, Row};
use sweep_words::known::{is_known, is_like};
use sweep_words::plan::Plan;

/// A finding's line.
fn key(
    alloc: Global,
    reference: &Reached,
    calls: &TracedCalls,
    row: &Row,
) -> Result<String, AllocError>
    ensures { IfOk result (λ key. IsKey row.now.verdict (string_bytes key)) }
{
    let place = place_of(alloc, calls, reference, &row.case.occurrence)?;
    let key = key_of(alloc, row.verdict, &place)?;
    Ok(key)
}

/// The line that an older version wrote of a finding.
fn older(
    alloc: Global,
    reference: &Reached,
    calls: &TracedCalls,
    row: &Row,
) -> Result<String, AllocError>
    ensures { IfOk result (λ older. IsOlder row.now.verdict (string_bytes older)) }
{
    let place = place_of(alloc, calls, reference, &row.case.occurrence)?;
    let older = older_of(alloc, row.verdict, &place)?;
    Ok(older)
}

/// Some line that is known is like one of these two.
fn is_one_known(known: &[String], key: &str, older: &str) -> bool
    ensures is { result ≡ true → IsKnown known.now key.now ⊎ IsKnown known.now older.now }
    ensures otherwise { result ≡ false → ¬ (IsKnown known.now key.now) × ¬ (IsKnown known.now older.now) }
{
    if is_known(known, key) {
        return true;
    }
    is_known(known, older)
}

/// A line that is known is like the finding's, as it is or as older versions wrote it.
fn is_known_finding(
    alloc: Global,
    plan: &Plan,
    reference: &Reached,
    calls: &TracedCalls,
    row: &Row,
) -> Result<bool, AllocError>
    requires { counts_by plan.now.strict row.now.verdict ≡ true }
    ensures { IfOk result (IsMark plan.now.strict plan.now.known.items row.now) }
{
    let key = key(alloc, reference, calls, row)?;
    let older = older(alloc, reference, calls, row)?;
    let known = plan.known.as_slice();
    Ok(is_one_known(known, key.as_str(), older.as_str()))
}

/// The row is a finding that is known.
#[tactic(auto, using(crate::proofs::Marking::none_known, crate::proofs::Marking::no_finding))]
pub fn is_mark(
    alloc: Global,
    plan: &Plan,
    reference: &Reached,
    calls: &TracedCalls,
    row: &Row,
) -> Result<bool, AllocError>
    ensures { IfOk result (IsMark plan.now.strict plan.now.known.items row.now) }
{
    if plan.known.is_empty() {
        return Ok(false);
    }
    if !counts(plan.strict, row.verdict) {
        return Ok(false);
    }
    let known = is_known_finding(alloc, plan, reference, calls, row)?;
    Ok(known)
}

/// Which of these rows are findings that are known.
fn each_mark(
    alloc: Global,
    plan: &Plan,
    reference: &Reached,
    calls: &TracedCalls,
    rows: &[Row],
) -> Result<Vec<bool>, AllocError>
    ensures { IfOk result (λ marks. AreMarks plan.now.strict plan.now.known.items rows.now marks.items) }
{
    let mut marks = Vec::new(alloc);
    let mut left = rows;
    while let Some((row, rest)) = left.split_first() {
        let mark = is_mark(alloc, plan, reference, calls, row)?;
        marks.push(mark)?;
        left = rest;
    }
    Ok(marks)
}

/// Which rows are findings that are known; none is, where the words name none.
#[tactic(auto, using(crate::proofs::Marking::no_marks))]
pub fn marks_of(
    alloc: Global,
    plan: &Plan,
    reference: &Reached,
    calls: &TracedCalls,
    rows: &[Row],
) -> Result<Vec<bool>, AllocError>
    ensures are { IfOk result (λ marks. AreMarks plan.now.strict plan.now.known.items rows.now marks.items) }
    ensures none { IfOk result (λ marks. plan.now.known.items ≡ [] → marks.items ≡ []) }
{
    if plan.known.is_empty() {
        return Ok(Vec::new(alloc));
    }
    let marks = each_mark(alloc, plan, reference, calls, rows)?;
    Ok(marks)
}

/// The row is a finding that isn't known.
pub fn is_new(
    alloc: Global,
    plan: &Plan,
    reference: &Reached,
    calls: &TracedCalls,
    row: &Row,
) -> Result<bool, AllocError>
    ensures { IfOk result (λ new. new ≡ true → counts_by plan.now.strict row.now.verdict ≡ true) }
{
    if !counts(plan.strict, row.verdict) {
        return Ok(false);
    }
    let known = is_mark(alloc, plan, reference, calls, row)?;
    Ok(!known)
}

/// How many rows are findings that aren't known.
pub fn findings(
    alloc: Global,
    plan: &Plan,
    reference: &Reached,
    calls: &TracedCalls,
    rows: &[Row],
) -> Result<usize, AllocError> {
    let mut count: usize = 0;
    for row in rows {
        if is_new(alloc, plan, reference, calls, row)? {
            count = count.saturating_add(1);
        }
    }
    Ok(count)
}

/// Adds the lines of all findings, where the words ask for such lines.
pub fn add_found(
    alloc: Global,
    matches: &ArgMatches,
    plan: &Plan,
    reference: &Reached,
    calls: &TracedCalls,
    rows: &[Row],
    found: &mut Vec<String>,
) -> Result<(), AllocError> {
    if matches.get_str("known").is_none() && matches.get_str("known-out").is_none() {
        return Ok(());
    }
    for row in rows {
        if counts(plan.strict, row.verdict) {
            found.push(key(alloc, reference, calls, row)?)?;
        }
    }
    Ok(())
}

fn is_met(found: &[String], line: &str) -> bool {
    found.iter().any(|key| is_like(key.as_str(), line))
}

/// The lines of findings as older versions wrote them.
fn older_lines(alloc: Global, found: &[String]) -> Result<Vec<String>, AllocError> {
    let mut older = Vec::new(alloc);
    for key in found {
        older.push(without_function(alloc, key.as_str())?)?;
    }
    Ok(older)
}

/// Tells of known lines that no finding is like.
fn tell_unmet<E: Write>(known: &[String], found: &[String], older: &[String], err: &mut E) {
    for line in known {
        if !is_met(found, line.as_str()) && !is_met(older, line.as_str()) {
            // The sweep is done, whether this can be written or not.
            let _written = writeln!(err, "strace_sweep: --known: no run is {line}");
        }
    }
}

/// The file of `--known-out` can be written. Nothing is changed.
pub fn check_known<R: Files + AllocGlobal>(rt: &R, matches: &ArgMatches) -> Result<(), Fault> {
    check(rt, "--known-out", matches.get_str("known-out"))
}

/// Lines, each once, as a file has them.
fn text_of(alloc: Global, found: &mut Vec<String>) -> Result<String, AllocError> {
    found.sort()?;
    found.dedup();
    let mut text = String::new(alloc);
    for line in found.iter() {
        text.push_str(line.as_str())?;
        text.push('\n')?;
    }
    Ok(text)
}

/// Tells of known lines that no finding is like, and writes the lines of all findings, where the words ask for them.
pub fn finish_known<R: Files + AllocGlobal, E: Write>(
    rt: &R,
    matches: &ArgMatches,
    known: &[String],
    found: Vec<String>,
    err: &mut E,
) -> Result<(), Fault> {
    let older = older_lines(rt.alloc(), found.as_slice())?;
    tell_unmet(known, found.as_slice(), older.as_slice(), err);
    let Some(path) = matches.get_str("known-out") else {
        return Ok(());
    };
    let mut found = found;
    let text = text_of(rt.alloc(), &mut found)?;
    replace(rt, "--known-out", path, text.as_bytes())
}
