//! What a program says of its faults.

ghost use Rattle.std.specs.Prelude.{◌≡◌, ◌++◌, ◌⊎◌, Err, OnOk, codes, true};
ghost use Rattle.std.specs.Io.KnownBytes.{Appends};
ghost use Rattle.front_end.specs.CommandLines.{Tells};
ghost use Rattle.front_end.specs.Statuses.{IsStatusOf, is_output_or_memory, is_usage_or_memory};
ghost use Rattle.front_end.specs.Texts.{GivesReason, Reports, line_of, reason_of};

use crate::fault::{Fault, HOST};
use std::io::{self, Write};

/// Writes the line in which a program reports a fault.
fn tell_line<E: Write>(program: &str, fault: &Fault, err: &mut E) -> io::Result<()>
    ensures { OnOk result (Appends (E.contents err.old) (E.contents err.new)
        (line_of program.now fault.now ++ codes "\n")) }
{
    match fault {
        Fault::Usage(text) => writeln!(err, "{program}: {text}"),
        Fault::Expression { fault, .. } => {
            let number = fault.number();
            writeln!(err, "{program}: expression fault {number}")
        }
        Fault::Listing { line, kind } => writeln!(err, "asm: line {line} kind {kind}"),
        Fault::Host { number, .. } => writeln!(err, "{program}: host fault {number}"),
        Fault::OutOfTurns(_) => writeln!(err, "{program}: out of turns"),
        Fault::Output(_) => writeln!(err, "{program}: output fault"),
        Fault::Memory => writeln!(err, "{program}: out of memory"),
    }
}

/// Writes a fault's reason, if it has one.
fn tell_reason<E: Write>(program: &str, fault: &Fault, err: &mut E) -> io::Result<()>
    ensures { OnOk result (GivesReason program.now (reason_of fault.now)
        (E.contents err.old) (E.contents err.new)) }
{
    match fault.reason() {
        Some(reason) => writeln!(err, "{program}: {reason}"),
        None => Ok(()),
    }
}

/// Writes a fault, and its reason where it is to be explained.
fn tell<E: Write>(program: &str, fault: &Fault, explained: bool, err: &mut E) -> io::Result<()>
    ensures { OnOk result (Reports program.now fault.now explained (E.contents err.old) (E.contents err.new)) }
{
    tell_line(program, fault, err)?;
    if !explained {
        return Ok(());
    }
    tell_reason(program, fault, err)?;
    Ok(())
}

/// Reports a program's fault in one line on `err`, and in another its reason where it is to be explained. Gives its
/// status, or that of an output that can't be written where this couldn't be.
pub fn report<E: Write>(program: &str, fault: &Fault, explained: bool, err: &mut E) -> u8
    ensures told { Tells program.now fault.now explained (E.contents err.old) (E.contents err.new) result }
    ensures status { IsStatusOf (Err fault.now) result }
    ensures usage { is_usage_or_memory fault.now ≡ true → (result ≡ 2) ⊎ (result ≡ 3) }
    ensures output { is_output_or_memory fault.now ≡ true → result ≡ 3 }
{
    match tell(program, fault, explained, err) {
        Ok(()) => fault.status(),
        Err(_) => HOST,
    }
}
