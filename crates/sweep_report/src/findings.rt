//! What a maintainer has to look at, and what a strict one has.

ghost use Rattle.std.specs.Prelude.{◌≡◌};
ghost use Rattle.std.specs.List.{list_any};
ghost use Rattle.sweep_report.specs.Findings as spec;

use sweep_rows::{Verdict, is_finding};

/// It is no finding, and yet is told without being asked for.
#[tactic(auto, unfolding(crate::specs::Findings::is_noticed))]
fn is_noticed(verdict: Verdict) -> bool
    ensures { result ≡ spec.is_noticed verdict }
{
    match verdict {
        Verdict::Damaged | Verdict::Warned => true,
        Verdict::Hung
        | Verdict::Killed
        | Verdict::Broken
        | Verdict::Torn
        | Verdict::Lost
        | Verdict::Dropped
        | Verdict::Reported
        | Verdict::Recovered
        | Verdict::Ignored => false,
    }
}

/// It is a finding, to a strict maintainer or to another.
#[tactic(auto, unfolding(crate::specs::Findings::counts))]
pub fn counts(strict: bool, verdict: Verdict) -> bool
    ensures { result ≡ spec.counts strict verdict }
{
    is_finding(verdict) || (strict && is_noticed(verdict))
}

fn has_finding(strict: bool, verdicts: &[Verdict]) -> bool
    ensures { result ≡ list_any (λ v. spec.counts strict v) verdicts.now }
{
    verdicts.iter().any(|verdict| counts(strict, *verdict))
}

/// The exit status: 0 only where none is a finding.
pub fn status_of(strict: bool, verdicts: &[Verdict]) -> u8
    ensures { result ≡ spec.status_of strict verdicts.now }
{
    if has_finding(strict, verdicts) { 1 } else { 0 }
}
