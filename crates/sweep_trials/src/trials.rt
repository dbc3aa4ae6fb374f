//! Which runs are made, in which something else happens to an occurrence of a call than that it has an error.

ghost use Rattle.std.specs.Prelude.{◌≡◌, ◌++◌, true, IfOk, IfSome, OnOk};
ghost use Rattle.std.specs.List.{flat_map};
ghost use Rattle.sweep_trials.specs.Trials.{IsThat, asked_of as asked_by, begins, fits as fits_in, has_count, is_entry_of};
ghost use Rattle.sweep_words.specs.declared.trials.Deed.TheVariants.{Begin};
ghost use Rattle.sweep_trials.specs.Trials.{short_if, shorts_at, trial_at as trial_of, trials_at, trials_of};

use containers::Seq;
use front_end::Fault;
use lx_abi::{Set, sys};
use std::alloc::{AllocError, Global};
use sweep_rows::{Kind, Occurrence, Reached, Setup, World, occurrences};
use sweep_runs::Trial;
use sweep_words::calls::name_of;
use sweep_words::plan::Plan;
use sweep_words::show::NamedTrial;
use sweep_words::trials::{Deed, Tried};

/// A call of this number reads or writes.
fn has_count(number: u64) -> bool
    ensures { result ≡ has_count number }
{
    number == sys::SYS_READ || number == sys::SYS_WRITE
}

/// How many bytes a call asks for, if it reads or writes; otherwise 0.
pub fn asked_of(occurrence: &Occurrence) -> u64
    ensures { result ≡ asked_by occurrence.now }
{
    if has_count(occurrence.call.number) {
        occurrence.call.arguments[2]
    } else {
        0
    }
}

fn trial_at(occurrence: Occurrence, kind: Kind) -> Trial
    ensures { result ≡ trial_of occurrence kind }
{
    Trial { occurrence, kind }
}

fn add_if(
    trials: &mut Vec<Trial>,
    is_wanted: bool,
    occurrence: Occurrence,
    count: u64,
) -> Result<(), AllocError>
    ensures { OnOk result (trials.new.items ≡ trials.old.items ++ short_if is_wanted occurrence count) }
{
    if is_wanted {
        trials.push(trial_at(occurrence, Kind::Short(count)))?;
    }
    Ok(())
}

/// Adds those in which it is short.
fn add_shorts(trials: &mut Vec<Trial>, occurrence: Occurrence) -> Result<(), AllocError>
    ensures { OnOk result (trials.new.items ≡ trials.old.items ++ shorts_at occurrence) }
{
    let asked = asked_of(&occurrence);
    let half = asked / 2;
    add_if(trials, asked > 1, occurrence, 1)?;
    add_if(trials, half > 1, occurrence, half)?;
    Ok(())
}

/// A world begins at an occurrence: it has the call fail.
fn begins(world: World, occurrence: &Occurrence) -> bool
    ensures { result ≡ begins world occurrence.now }
{
    let target = occurrence.used.target;
    world.error(&occurrence.call, target).is_some()
}

/// Adds the one in which a world begins there, if it does.
fn add_world(
    trials: &mut Vec<Trial>,
    world: World,
    occurrence: Occurrence,
) -> Result<(), AllocError>
    ensures { OnOk result (trials.new.items ≡ trials.old.items ++ trials_at (Begin world) occurrence) }
{
    if begins(world, &occurrence) {
        trials.push(trial_at(occurrence, Kind::World(world)))?;
    }
    Ok(())
}

/// Adds those of an occurrence.
fn add_trials(trials: &mut Vec<Trial>, deed: Deed, occurrence: Occurrence) -> Result<(), AllocError>
    ensures { OnOk result (trials.new.items ≡ trials.old.items ++ trials_at deed occurrence) }
{
    match deed {
        Deed::Stop => trials.push(trial_at(occurrence, Kind::Stop))?,
        Deed::Kill => trials.push(trial_at(occurrence, Kind::Killed))?,
        Deed::Short => add_shorts(trials, occurrence)?,
        Deed::Begin(world) => add_world(trials, world, occurrence)?,
    }
    Ok(())
}

/// Those of these occurrences.
fn trials_by(alloc: Global, deed: Deed, found: &[Occurrence]) -> Result<Vec<Trial>, AllocError>
    ensures { IfOk result (λ trials. trials.items ≡ flat_map (trials_at deed) found.now) }
{
    let mut trials = Vec::new(alloc);
    let mut left = found;
    while let Some((occurrence, rest)) = left.split_first() {
        add_trials(&mut trials, deed, *occurrence)?;
        left = rest;
    }
    Ok(trials)
}

/// The trials of calls, by the run without one.
pub fn trials_in(
    alloc: Global,
    setup: &Setup,
    tried: &Tried,
    reference: &Reached,
) -> Result<Vec<Trial>, AllocError>
    ensures { IfOk result (λ trials.
        trials.items ≡ trials_of tried.now setup.now.boot.follow reference.now.log.items) }
{
    let log = reference.log.as_slice()?;
    let found = occurrences(alloc, log, &tried.calls, setup.boot.follow)?;
    let trials = trials_by(alloc, tried.deed, found.as_slice())?;
    Ok(trials)
}

fn is_entry_of(named: NamedTrial, occurrence: &Occurrence) -> bool
    ensures { result ≡ is_entry_of named occurrence.now }
{
    named.pid == u64::from(occurrence.pid)
        && named.call == occurrence.call.number
        && named.n == occurrence.n
}

/// The first of these occurrences that the words name.
fn first_entry(named: NamedTrial, found: &[Occurrence]) -> Option<Occurrence>
    ensures { IfSome result (λ occurrence. is_entry_of named occurrence ≡ true) }
{
    for occurrence in found {
        if is_entry_of(named, occurrence) {
            return Some(*occurrence);
        }
    }
    None
}

/// A short call is asked for more.
fn fits(kind: Kind, occurrence: &Occurrence) -> bool
    ensures { result ≡ fits_in kind occurrence.now }
{
    match kind {
        Kind::Short(count) => count < asked_of(occurrence),
        _ => true,
    }
}

/// The occurrence that words name; none where the process doesn't make the call so often.
fn entry_of(
    alloc: Global,
    plan: &Plan,
    reference: &Reached,
    named: NamedTrial,
) -> Result<Option<Occurrence>, AllocError>
    ensures { IfOk result (λ o. IfSome o (λ occurrence. is_entry_of named occurrence ≡ true)) }
{
    let mut calls = Seq::new(alloc);
    calls.push(named.call)?;
    let log = reference.log.as_slice()?;
    let found = occurrences(alloc, log, &Set::Only(calls), plan.setup.boot.follow)?;
    Ok(first_entry(named, found.as_slice()))
}

/// The process doesn't make the call so often.
fn absent(alloc: Global, named: NamedTrial) -> Result<String, AllocError> {
    let name = name_of(alloc, named.call)?;
    format!(in alloc;
        "--show: process {} has no call {} of {name}",
        named.pid, named.n
    )
}

/// It isn't asked for more than a short call's count.
fn misfit(alloc: Global, named: NamedTrial, occurrence: &Occurrence) -> Result<String, AllocError> {
    let name = name_of(alloc, named.call)?;
    let asked = asked_of(occurrence);
    format!(in alloc;
        "--show: short= takes a count below what call {} of {name} asks for, {asked}",
        named.n
    )
}

/// The trial that words name.
pub fn named_trial(
    alloc: Global,
    plan: &Plan,
    reference: &Reached,
    named: NamedTrial,
) -> Result<Trial, Fault>
    ensures { IfOk result (IsThat named) }
{
    let Some(occurrence) = entry_of(alloc, plan, reference, named)? else {
        return Err(Fault::usage(absent(alloc, named)));
    };
    if !fits(named.kind, &occurrence) {
        return Err(Fault::usage(misfit(alloc, named, &occurrence)));
    }
    Ok(trial_at(occurrence, named.kind))
}
