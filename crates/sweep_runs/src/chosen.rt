//! Which failures a sweep tries.

ghost use Rattle.std.specs.Prelude.{◌≡◌, ◌++◌, IfOk, OnOk};
ghost use Rattle.std.specs.List.{flat_map};
ghost use Rattle.sweep_runs.specs.Cases.{cases_of, case_of, cases_at, wanted_at, all_at};

use containers::Seq;
use lx_abi::{Errno, Item, Set};
use std::alloc::{AllocError, Global};
use sweep_rows::{Case, Errors, Occurrence, Wanted, occurrences, possible_errors, tells_of_loss};

/// Adds a case for each error.
pub(crate) fn add_errors(
    cases: &mut Vec<Case>,
    occurrence: Occurrence,
    errors: &[Errno],
) -> Result<(), AllocError>
    ensures { OnOk result (cases.new.items ≡ cases.old.items ++ cases_at occurrence errors.now) }
{
    let mut left = errors;
    while let Some((error, rest)) = left.split_first() {
        let error = *error;
        let tells = tells_of_loss(&occurrence, error);
        cases.push(Case {
            occurrence,
            error,
            tells,
        })?;
        left = rest;
    }
    Ok(())
}

/// Adds the cases of an occurrence whose call is wanted.
fn add_wanted(
    alloc: Global,
    cases: &mut Vec<Case>,
    occurrence: Occurrence,
    wanted: &Wanted,
) -> Result<(), AllocError>
    ensures { OnOk result (cases.new.items ≡ cases.old.items ++ wanted_at occurrence wanted.now) }
{
    if !wanted.calls.contains(occurrence.call.number) {
        return Ok(());
    }
    match &wanted.errors {
        Errors::These(errors) => add_errors(cases, occurrence, errors.as_slice())?,
        Errors::Possible => {
            let errors = possible_errors(alloc, &occurrence)?;
            add_errors(cases, occurrence, errors.as_slice())?;
        }
    }
    Ok(())
}

/// Adds the cases of an occurrence.
fn add_all(
    alloc: Global,
    cases: &mut Vec<Case>,
    occurrence: Occurrence,
    wanted: &[Wanted],
) -> Result<(), AllocError>
    ensures { OnOk result (cases.new.items ≡ cases.old.items ++ all_at wanted.now occurrence) }
{
    let mut left = wanted;
    while let Some((one, rest)) = left.split_first() {
        add_wanted(alloc, cases, occurrence, one)?;
        left = rest;
    }
    Ok(())
}

/// The cases of these occurrences.
fn cases_by(alloc: Global, found: &[Occurrence], wanted: &[Wanted]) -> Result<Vec<Case>, AllocError>
    ensures { IfOk result (λ cases. cases.items ≡ flat_map (all_at wanted.now) found.now) }
{
    let mut cases = Vec::new(alloc);
    let mut left = found;
    while let Some((occurrence, rest)) = left.split_first() {
        add_all(alloc, &mut cases, *occurrence, wanted)?;
        left = rest;
    }
    Ok(cases)
}

/// The occurrences that a log has of calls that are wanted, each with each error that is wanted of it.
#[tactic(auto, unfolding(crate::specs::Cases::cases_of))]
pub fn cases(
    alloc: Global,
    log: &[Item],
    wanted: &[Wanted],
    follow: bool,
) -> Result<Vec<Case>, AllocError>
    ensures { IfOk result (λ cases. cases.items ≡ cases_of wanted.now follow log.now) }
{
    let every_call = Set::AllBut(Seq::new(alloc));
    let found = occurrences(alloc, log, &every_call, follow)?;
    cases_by(alloc, found.as_slice(), wanted)
}
