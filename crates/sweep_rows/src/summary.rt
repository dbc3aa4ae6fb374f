//! What a sweep tells of all its runs: names of verdicts, how many there are of each, and the exit status.

ghost use Rattle.std.specs.Prelude.{◌≡◌};
ghost use Rattle.std.specs.List.{list_any};
ghost use Rattle.sweep_rows.specs.Verdicts.{is_finding};
ghost use Rattle.sweep_rows.specs.Summary.{rank, name_of, count, worse, checked, status};

use crate::verdicts::{Verdict, is_finding};

/// A verdict's place among all, the worst being 0.
pub fn rank(verdict: Verdict) -> u8
    ensures { result ≡ rank verdict }
{
    match verdict {
        Verdict::Hung => 0,
        Verdict::Killed => 1,
        Verdict::Broken => 2,
        Verdict::Torn => 3,
        Verdict::Lost => 4,
        Verdict::Dropped => 5,
        Verdict::Damaged => 6,
        Verdict::Warned => 7,
        Verdict::Reported => 8,
        Verdict::Recovered => 9,
        Verdict::Ignored => 10,
    }
}

pub fn name_of(verdict: Verdict) -> &'static str
    ensures { result.now ≡ name_of verdict }
{
    match verdict {
        Verdict::Hung => "hung",
        Verdict::Killed => "killed",
        Verdict::Broken => "broken",
        Verdict::Torn => "torn",
        Verdict::Lost => "lost",
        Verdict::Dropped => "dropped",
        Verdict::Damaged => "damaged",
        Verdict::Warned => "warned",
        Verdict::Reported => "reported",
        Verdict::Recovered => "recovered",
        Verdict::Ignored => "ignored",
    }
}

/// How many of these are this one.
pub fn count(verdicts: &[Verdict], verdict: Verdict) -> usize
    ensures { result ≡ count verdict verdicts.now }
{
    let mut count = 0;
    let mut left = verdicts;
    while let Some((one, rest)) = left.split_first() {
        if rank(*one) == rank(verdict) {
            count += 1;
        }
        left = rest;
    }
    count
}

/// The worse of two.
fn worse(one: Verdict, other: Verdict) -> Verdict
    ensures { result ≡ worse one other }
{
    if rank(other) < rank(one) { other } else { one }
}

/// What came of a run whose files were checked: `verdict` is what came of it but for them, and `fine` what the check
/// said.
pub fn checked(fine: bool, verdict: Verdict) -> Verdict
    ensures { result ≡ checked fine verdict }
{
    if fine {
        verdict
    } else {
        worse(Verdict::Broken, verdict)
    }
}

fn has_finding(verdicts: &[Verdict]) -> bool
    ensures { result ≡ list_any is_finding verdicts.now }
{
    verdicts.iter().any(|verdict| is_finding(*verdict))
}

/// The exit status: 0 only where none is a finding.
pub fn status(verdicts: &[Verdict]) -> u8
    ensures { result ≡ status verdicts.now }
{
    if has_finding(verdicts) { 1 } else { 0 }
}
