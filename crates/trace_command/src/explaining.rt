//! What is told of a run's end where it is to be explained.

ghost use Rattle.std.specs.Prelude.{◌≡◌, Ok, IfOk};

use crate::heard::explain_host;
use crate::kept::Kept;
use crate::second::make_again;
use clap::ArgMatches;
use front_end::{Entered, Fault, Program};
use lx_abi::Occurrences;
use std::alloc::Global;
use std::io::Write;

/// Says on `err` why a program couldn't be run, where it ended so.
fn explain_program<E: Write>(
    alloc: Global,
    program: Program,
    status: u8,
    err: &mut E,
) -> Result<(), Fault> {
    if let Some(reason) = program.reason(alloc, status)? {
        // The run is whole, whether this can be written or not.
        let _written = writeln!(err, "strace: {reason}");
    }
    Ok(())
}

/// Says on `err` which calls aren't here, and which occurrences were never met, of a run with these entries.
fn tell_hints<E: Write>(
    alloc: Global,
    matches: &ArgMatches,
    counts: &Occurrences,
    err: &mut E,
) -> Result<(), Fault> {
    let entered = Entered::of(alloc, counts)?;
    for hint in entered.hints(alloc, matches)? {
        let _written = writeln!(err, "strace: {hint}");
    }
    Ok(())
}

/// The same, of what is known of the run.
fn tell_known_hints<E: Write>(
    alloc: Global,
    matches: &ArgMatches,
    kept: &Kept,
    err: &mut E,
) -> Result<(), Fault> {
    match &kept.known.counts {
        Some(counts) => tell_hints(alloc, matches, counts, err),
        None => Ok(()),
    }
}

/// Who waits, or that the limit was met, and behind it the hints.
fn with_hints(
    alloc: Global,
    matches: &ArgMatches,
    waits: String,
    counts: &Occurrences,
) -> Result<String, Fault> {
    let mut text = waits;
    let entered = Entered::of(alloc, counts)?;
    if entered.has_not_begun() {
        text.push_str("; the program had made no call of its own")?;
    }
    for hint in entered.hints(alloc, matches)? {
        text.push_str("; ")?;
        text.push_str(hint.as_str())?;
    }
    Ok(text)
}

/// The fault of a run that is out of turns.
fn out_of_turns(
    alloc: Global,
    matches: &ArgMatches,
    waits: String,
    counts: &Option<Occurrences>,
) -> Fault {
    match counts {
        Some(counts) => match with_hints(alloc, matches, waits, counts) {
            Ok(text) => Fault::OutOfTurns(Some(text)),
            Err(fault) => fault,
        },
        None => Fault::OutOfTurns(Some(waits)),
    }
}

/// The fault of a run, which for the end of the turns says who waits, and for a host whether it was late.
fn explain_fault(
    alloc: Global,
    matches: &ArgMatches,
    kept: &mut Kept,
    is_late: bool,
    fault: Fault,
) -> Fault {
    match explain_host(fault, is_late) {
        Fault::OutOfTurns(_) => match make_again(alloc, kept) {
            Ok(()) => match kept.known.waits.take() {
                Some(waits) => out_of_turns(alloc, matches, waits, &kept.known.counts),
                None => Fault::Memory,
            },
            Err(fault) => fault,
        },
        fault => fault,
    }
}

/// The same of a run that is whole.
fn explain_status<E: Write>(
    alloc: Global,
    matches: &ArgMatches,
    kept: &Kept,
    program: Program,
    status: u8,
    err: &mut E,
) -> Result<(), Fault> {
    explain_program(alloc, program, status, err)?;
    // Where memory has run out there are no hints.
    let _told = tell_known_hints(alloc, matches, kept, err);
    Ok(())
}

/// A run that ended so, whose host may have been late. Where its end is explained, a program that couldn't be run and
/// the hints are on `err`, and the end of the turns in the fault.
pub fn explain<E: Write>(
    alloc: Global,
    matches: &ArgMatches,
    kept: &mut Kept,
    is_late: bool,
    program: Option<Program>,
    ended: Result<u8, Fault>,
    err: &mut E,
) -> Result<u8, Fault>
    ensures { IfOk result (λ status. ended ≡ Ok status) }
{
    let Some(program) = program else {
        return ended;
    };
    match ended {
        Ok(status) => match explain_status(alloc, matches, kept, program, status, err) {
            Ok(()) => Ok(status),
            Err(fault) => Err(fault),
        },
        Err(fault) => Err(explain_fault(alloc, matches, kept, is_late, fault)),
    }
}
