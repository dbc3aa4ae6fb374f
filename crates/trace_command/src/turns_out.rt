//! The events of a run, written as a schedule that gives them.

ghost use Rattle.std.specs.Prelude.{◌≡◌, [], IfErr, IfOk, IfSome, IsSome, OnOk, codes, map};
ghost use Rattle.std.specs.Io.Buffered.{writer_buffer, writer_contents};
ghost use Rattle.std.specs.Io.KnownBytes.{Appends};
ghost use Rattle.pt_kernel.specs.Noted.{all_events, events_in};
ghost use Rattle.pt_schedule.specs.Written.{IsNumbered, event_word, words_text};
ghost use Rattle.trace_command.specs.Faults.{IsUnopened, IsUnwritable};
ghost use Rattle.trace_command.specs.Tracing.{value_of};
ghost use Rattle.trace_command.specs.TurnsOut.{is_first, kept, left_after, left_behind, text_behind};
ghost use Rattle.trace_command.specs.TurnsOut.{AreNumbered, WritesTurns, turns_text};
ghost use Rattle.front_end.specs.Streams.{opened_contents};

use crate::fault::unopened;
use clap::ArgMatches;
use front_end::{Fault, NewFile, Shown, check_file};
use lx_abi::Event;
use pt_kernel::{EventRow, Events};
use pt_schedule::{event_word, write_word};
use std::alloc::Global;
use std::io::{self, BufWriter, ErrorKind, Write};
use std::rt::Files;

/// The requests until process 1 is resumed for the first time: a schedule by words serves them before its first word.
const SERVED_FIRST: u64 = 3;

/// The event is served before the first word, as long as so many still are.
fn is_first(event: Event, left: u64) -> bool
    ensures { result ≡ is_first left event }
{
    match event {
        Event::Turn { .. } => false,
        Event::Serve => left > 0,
    }
}

/// Writes the word of an event that isn't served before the first word. Gives how many still are behind it.
fn write_event<W: Write>(writer: &mut W, event: Event, left: u64) -> io::Result<u64>
    ensures left { IfOk result (λ rest. rest ≡ left_after left event) }
    ensures text { OnOk result (Appends (W.contents writer.old) (W.contents writer.new)
        (words_text (map event_word (kept left event)))) }
    ensures number { IsNumbered (event_word event) }
{
    if is_first(event, left) {
        return Ok(left.saturating_sub(1));
    }
    write_word(writer, event_word(event))?;
    Ok(0)
}

/// The same of a row.
fn write_row<W: Write>(writer: &mut W, row: &EventRow, left: u64) -> io::Result<u64>
    ensures left { IfOk result (λ rest. rest ≡ left_behind left (events_in row.now)) }
    ensures text { OnOk result (Appends (W.contents writer.old) (W.contents writer.new)
        (text_behind left (events_in row.now))) }
    ensures numbers { OnOk result (AreNumbered (events_in row.now)) }
{
    let mut rest = left;
    for _ in 0..row.times {
        rest = write_event(writer, row.event, rest)?;
    }
    Ok(rest)
}

fn write_rows<W: Write>(writer: &mut W, rows: &[EventRow]) -> io::Result<()>
    ensures text { OnOk result
        (Appends (W.contents writer.old) (W.contents writer.new) (turns_text (all_events rows.now))) }
    ensures numbers { OnOk result (AreNumbered (all_events rows.now)) }
{
    let mut left = SERVED_FIRST;
    for row in rows {
        left = write_row(writer, row, left)?;
    }
    Ok(())
}

/// Writes the events to a writer, and keeps nothing back.
fn write_events<W: Write + Drop>(writer: &mut BufWriter<W>, events: &Events) -> io::Result<()>
    ensures text { OnOk result (IfSome events.now (λ all. Appends (writer_contents W.contents writer.old)
        (writer_contents W.contents writer.new) (turns_text all))) }
    ensures whole { OnOk result (writer_buffer writer.new ≡ []) }
    ensures numbers { OnOk result (IfSome events.now AreNumbered) }
{
    write_rows(writer, events.rows())?;
    writer.flush()
}

/// Writes the events to the file of this name. An older one stays until they are whole.
fn write_words<R: Files + AllocGlobal>(rt: &R, path: &str, events: &Events) -> io::Result<()>
    ensures { OnOk result (IfSome events.now (WritesTurns (opened_contents R.File.contents) path.now)) }
{
    let file = NewFile::new(rt, path)?;
    let mut writer = BufWriter::new(rt.alloc(), file)?;
    write_events(&mut writer, events)
}

fn unwritten(alloc: Global, path: &str, error: io::Error) -> Fault
    ensures { IsUnwritable result }
{
    if error.kind() == ErrorKind::OutOfMemory {
        return Fault::Memory;
    }
    Fault::output(format!(in alloc; "--turns-out {}: {error}", Shown(path)))
}

/// The file that `--turns-out` names, where it names one, can be written. Nothing is changed yet.
pub fn check_turns<R: Files + AllocGlobal>(rt: &R, matches: &ArgMatches) -> Result<(), Fault>
    ensures { IfErr result (λ fault. IsSome (value_of matches.now (codes "turns-out")) × IsUnopened fault) }
{
    let Some(path) = matches.get_str("turns-out") else {
        return Ok(());
    };
    match check_file(rt, path) {
        Ok(()) => Ok(()),
        Err(error) => {
            let what = format!(in rt.alloc(); "--turns-out {}", Shown(path));
            Err(unopened(rt.alloc(), what, error))
        }
    }
}

/// Writes the events to the file of this name, a word a line as `--turns` reads them.
pub fn write_turns<R: Files + AllocGlobal>(rt: &R, path: &str, events: &Events) -> Result<(), Fault>
    ensures text { OnOk result (IfSome events.now (WritesTurns (opened_contents R.File.contents) path.now)) }
    ensures fault { IfErr result (λ fault. IsUnwritable fault) }
{
    match write_words(rt, path, events) {
        Ok(()) => Ok(()),
        Err(error) => Err(unwritten(rt.alloc(), path, error)),
    }
}
