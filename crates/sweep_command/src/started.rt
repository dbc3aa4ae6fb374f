//! Whether the run without a failure is one to compare others with: its program began, and ended by itself.

ghost use Rattle.std.specs.Prelude.{◌≡◌, OnOk};
ghost use Rattle.std.specs.List.{list_any};
ghost use Rattle.sweep_command.specs.Started.{Ran, begins, is_exit};

use front_end::{Fault, Program};
use lx_abi::{Errno, Item, Status, sys};
use std::alloc::{AllocError, Global};
use sweep_report::told::end_text;
use sweep_rows::{Reached, Setup, first_word};

/// The status of a process whose first execve failed.
const NOT_STARTED: u8 = 127;

/// Process 1's execve has put a program in its place.
fn begins(item: &Item) -> bool
    ensures { result ≡ begins item.now }
{
    match item {
        Item::Done {
            pid,
            call,
            result,
            ..
        } => *pid == 1 && call.number == sys::SYS_EXECVE && *result == 0,
        Item::Enter { .. } | Item::Taken { .. } | Item::Stopped { .. } | Item::Exit { .. } => false,
    }
}

fn has_begun(log: &[Item]) -> bool
    ensures { result ≡ list_any begins log.now }
{
    log.iter().any(|item| begins(item))
}

/// The word is that of a process that exited.
fn is_exit(word: Option<u32>) -> bool
    ensures { result ≡ is_exit word }
{
    match word {
        Some(word) => word % 128 == 0,
        None => false,
    }
}

/// Why the program ended with this status, if its file says it.
fn reason_of(alloc: Global, setup: &Setup, status: u8) -> Result<Option<String>, AllocError> {
    Program::of(alloc, &setup.boot)?.reason(alloc, status)
}

/// The name of the error of process 1's execve.
fn execve_error(log: &[Item]) -> Option<&'static str> {
    let result = log.iter().find_map(|item| match item {
        Item::Done { call, result, .. } if call.number == sys::SYS_EXECVE => Some(*result),
        _ => None,
    })?;
    Errno::from_number(result.wrapping_neg())?.name()
}

/// Why the program wasn't started.
fn not_started(alloc: Global, setup: &Setup, log: &[Item]) -> Result<String, AllocError> {
    match reason_of(alloc, setup, NOT_STARTED)? {
        Some(reason) => Ok(reason),
        None => {
            let error = execve_error(log).unwrap_or("an error");
            format!(in alloc; "the program isn't started: its execve fails with {error}")
        }
    }
}

/// Why the program was ended by a signal, if its file says it, or by which.
fn ended_by_signal(alloc: Global, setup: &Setup, word: Option<u32>) -> Result<String, AllocError> {
    let Some(word) = word else {
        return format!(in alloc; "process 1 doesn't end in the run without a failure");
    };
    match reason_of(alloc, setup, Status { word }.shell_status())? {
        Some(reason) => Ok(reason),
        None => {
            let end = end_text(alloc, word)?;
            format!(in alloc; "{end} ends the run without a failure")
        }
    }
}

/// Refuses a program that isn't started, or that a signal ends, in the run without a failure.
pub fn check_ran(alloc: Global, setup: &Setup, reference: &Reached) -> Result<(), Fault>
    ensures { OnOk result (Ran reference.now) }
{
    let log = reference.log.as_slice()?;
    if !has_begun(log) {
        return Err(Fault::usage(not_started(alloc, setup, log)));
    }
    let word = first_word(&reference.ending.outcome);
    if !is_exit(word) {
        return Err(Fault::usage(ended_by_signal(alloc, setup, word)));
    }
    Ok(())
}
