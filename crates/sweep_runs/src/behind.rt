//! Which calls fail behind a failure.

ghost use Rattle.std.specs.Prelude.{◌≡◌, ◌++◌, IfOk, OnOk};
ghost use Rattle.std.specs.List.{flat_map};
ghost use Rattle.sweep_runs.specs.Behind.{behind, errors_behind, is_borne, is_there, second_at, seconds_of};

use crate::chosen::add_errors;
use containers::Seq;
use lx_abi::{Errno, Item, Set};
use std::alloc::{AllocError, Global};
use sweep_faults::Place;
use sweep_rows::{Case, Errors, Occurrence, Verdict, Wanted, occurrences, possible_errors};

/// The program bore a failure: its run went another way, and is no finding.
pub fn is_borne(verdict: Verdict) -> bool
    ensures { result ≡ is_borne verdict }
{
    matches!(
        verdict,
        Verdict::Damaged | Verdict::Warned | Verdict::Reported | Verdict::Recovered
    )
}

fn is_there(place: Place, occurrence: &Occurrence) -> bool
    ensures { result ≡ is_there place occurrence.now }
{
    place.pid == occurrence.pid && place.call == occurrence.call.number && place.n == occurrence.n
}

/// The occurrences behind a place.
fn behind(found: &[Occurrence], place: Place) -> &[Occurrence]
    ensures { result.now ≡ behind place found.now }
{
    let mut left = found;
    while let Some((occurrence, rest)) = left.split_first() {
        if is_there(place, occurrence) {
            return rest;
        }
        left = rest;
    }
    left
}

/// The errors that an occurrence has there: those that are named, or else the first that it can have.
fn errors_behind(
    alloc: Global,
    occurrence: &Occurrence,
    errors: &Errors,
) -> Result<Vec<Errno>, AllocError>
    ensures { IfOk result (λ e. e.items ≡ errors_behind occurrence.now errors.now) }
{
    match errors {
        Errors::These(named) => {
            let mut all = Vec::new(alloc);
            all.extend_from_slice(named.as_slice())?;
            Ok(all)
        }
        Errors::Possible => {
            let mut possible = possible_errors(alloc, occurrence)?;
            possible.truncate(1);
            Ok(possible)
        }
    }
}

/// Adds the cases of an occurrence, if its call is wanted.
fn add_second(
    alloc: Global,
    cases: &mut Vec<Case>,
    occurrence: Occurrence,
    wanted: &Wanted,
) -> Result<(), AllocError>
    ensures { OnOk result (cases.new.items ≡ cases.old.items ++ second_at wanted.now occurrence) }
{
    if !wanted.calls.contains(occurrence.call.number) {
        return Ok(());
    }
    let errors = errors_behind(alloc, &occurrence, &wanted.errors)?;
    add_errors(cases, occurrence, errors.as_slice())?;
    Ok(())
}

/// The cases of these occurrences.
fn seconds_by(alloc: Global, found: &[Occurrence], wanted: &Wanted) -> Result<Vec<Case>, AllocError>
    ensures { IfOk result (λ cases. cases.items ≡ flat_map (second_at wanted.now) found.now) }
{
    let mut cases = Vec::new(alloc);
    let mut left = found;
    while let Some((occurrence, rest)) = left.split_first() {
        add_second(alloc, &mut cases, *occurrence, wanted)?;
        left = rest;
    }
    Ok(cases)
}

/// The calls that a log has behind a failure at this place, of those that are wanted, each with its errors.
#[tactic(auto, unfolding(crate::specs::Behind::seconds_of))]
pub fn seconds(
    alloc: Global,
    log: &[Item],
    wanted: &Wanted,
    place: Place,
    follow: bool,
) -> Result<Vec<Case>, AllocError>
    ensures { IfOk result (λ cases. cases.items ≡ seconds_of wanted.now follow place log.now) }
{
    let every_call = Set::AllBut(Seq::new(alloc));
    let found = occurrences(alloc, log, &every_call, follow)?;
    seconds_by(alloc, behind(found.as_slice(), place), wanted)
}
