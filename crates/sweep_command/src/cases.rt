//! The sweeps of the cases that a file names, in one report.

ghost use Rattle.std.specs.Prelude.{◌≡◌, ◌==◌, IfOk};
ghost use Rattle.std.specs.List.{list_any};
ghost use Rattle.sweep_command.specs.Reports.{AreOfSweeps, IsOfCases, IsOfReport, IsOfSweep, cases_status};

use crate::knowing::finish_known;
use crate::nothing::{NOTHING, tell_nothing};
use crate::outputs::{create, path_of, replace, write};
use crate::sweeping::{Begun, begin, report, words_at};
use clap::ArgMatches;
use front_end::{Fault, Shown};
use std::alloc::Global;
use std::env::Env;
use std::fs;
use std::io::{self, IsTerminal, Read, Write};
use std::process::Processes;
use std::rt::Files;
use std::thread::Threads;
use std::time::Clock;
use sweep_report::junit::PROLOG;
use sweep_report::report::case_object;
use sweep_words::cases::{NamedCase, check_case, place_of, read_cases};
use sweep_words::known::read_known;
use sweep_words::show::shown_run;
use sweep_words::words::{COMMAND_LINE, Format, Words, words_of};

/// The input of a case.
#[derive(Drop)]
enum Input<F> {
    None,
    File(F),
}

impl<F: Read> Read for Input<F> {
    fn read(&mut self, buf: &mut [u8]) -> io::Result<usize> {
        match self {
            Input::None => Ok(0),
            Input::File(file) => file.read(buf),
        }
    }
}

impl<F> IsTerminal for Input<F> {
    fn is_terminal(&self) -> bool {
        false
    }
}

fn input_of<R: Files + AllocGlobal>(rt: &R, case: &NamedCase) -> Result<Input<R::File>, Fault> {
    let Some(path) = case.input.as_ref() else {
        return Ok(Input::None);
    };
    let alloc = rt.alloc();
    match fs::open(rt, path.as_str()) {
        Ok(file) => Ok(Input::File(file)),
        Err(error) => Err(Fault::file(
            alloc,
            format!(in alloc; "<{}", Shown(path.as_str()))?,
            error,
        )),
    }
}

/// What stands before a case in a report of this format; suites of JUnit have its name themselves.
fn heading(alloc: Global, format: Format, case: &NamedCase) -> Result<String, Fault> {
    match format {
        Format::Table => Ok(format!(in alloc; "case {}\n", Shown(case.text.as_str()))?),
        Format::Json => match case_object(alloc, case.name.as_str()) {
            Ok(object) => Ok(object),
            Err(_) => Err(Fault::Memory),
        },
        Format::Junit => Ok(String::new(alloc)),
    }
}

/// What the parser gives of the words of a case.
fn parse_case<'a>(alloc: Global, words: &'a [String]) -> Result<ArgMatches<'a>, Fault> {
    match COMMAND_LINE.parse(alloc, words) {
        Ok(matches) => Ok(matches),
        Err(error) => Err(Fault::usage(COMMAND_LINE.reason(alloc, error.kind(), words))),
    }
}

/// Reports on a case that has begun, and adds the lines of its findings; gives its status.
fn report_case<
    R: Env + Files + Clock + Processes + Threads + Sync + AllocGlobal,
    W: Write,
    E: Write + IsTerminal,
>(
    rt: &R,
    matches: &ArgMatches,
    words: Words,
    begun: &Begun,
    case: &NamedCase,
    found: &mut Vec<String>,
    writer: &mut W,
    err: &mut E,
) -> Result<u8, Fault>
    ensures { IfOk result (IsOfReport begun.now.plan words begun.now.reference) }
{
    let alloc = rt.alloc();
    let (plan, reference) = (&begun.plan, &begun.reference);
    write(alloc, heading(alloc, words.format, case)?.as_str(), writer)?;
    let status = report(rt, matches, words, plan, reference, found, writer, err)?;
    tell_nothing(alloc, status, plan, reference, err)?;
    Ok(status)
}

/// Sweeps a case, by words in which `all` stand too, and adds the lines of its findings; gives its status.
fn sweep_case<
    R: Env + Files + Clock + Processes + Threads + Sync + AllocGlobal,
    W: Write,
    E: Write + IsTerminal,
>(
    rt: &R,
    all: &ArgMatches,
    colors: bool,
    explained: bool,
    case: &NamedCase,
    found: &mut Vec<String>,
    writer: &mut W,
    err: &mut E,
) -> Result<u8, Fault>
    ensures { IfOk result IsOfSweep }
{
    let alloc = rt.alloc();
    let matches = parse_case(alloc, case.words.as_slice())?;
    check_case(alloc, all, &matches)?;
    let words = words_of(alloc, &matches, colors)?;
    let mut input = input_of(rt, case)?;
    let name = String::from_str(alloc, case.name.as_str())?;
    let begun = begin(rt, &matches, words, Some(name), explained, &mut input, err)?;
    drop(input);
    match report_case(rt, &matches, words, &begun, case, found, writer, err) {
        Ok(status) => Ok(status),
        Err(fault) => {
            drop(begun);
            Err(fault)
        }
    }
}

/// Tells in which case there is a fault.
fn tell_place<E: Write>(alloc: Global, path: &str, case: &NamedCase, err: &mut E) {
    if let Ok(place) = place_of(alloc, path, case) {
        // The fault is told, whether this can be written or not.
        let _written = writeln!(err, "strace_sweep: {place}:");
    }
}

/// The same; tells in which case there is a fault.
fn sweep_named<
    R: Env + Files + Clock + Processes + Threads + Sync + AllocGlobal,
    W: Write,
    E: Write + IsTerminal,
>(
    rt: &R,
    all: &ArgMatches,
    path: &str,
    colors: bool,
    explained: bool,
    case: &NamedCase,
    found: &mut Vec<String>,
    writer: &mut W,
    err: &mut E,
) -> Result<u8, Fault>
    ensures { IfOk result IsOfSweep }
{
    match sweep_case(rt, all, colors, explained, case, found, writer, err) {
        Ok(status) => Ok(status),
        Err(fault) => {
            tell_place(rt.alloc(), path, case, err);
            Err(fault)
        }
    }
}

/// Sweeps each case; gives their statuses.
fn sweep_each<
    R: Env + Files + Clock + Processes + Threads + Sync + AllocGlobal,
    W: Write,
    E: Write + IsTerminal,
>(
    rt: &R,
    all: &ArgMatches,
    path: &str,
    colors: bool,
    explained: bool,
    cases: &[NamedCase],
    found: &mut Vec<String>,
    writer: &mut W,
    err: &mut E,
) -> Result<Vec<u8>, Fault>
    ensures { IfOk result (λ statuses. AreOfSweeps cases.now statuses.items) }
{
    let mut statuses = Vec::new(rt.alloc());
    let mut left = cases;
    while let Some((case, rest)) = left.split_first() {
        let status = sweep_named(rt, all, path, colors, explained, case, found, writer, err)?;
        statuses.push(status)?;
        left = rest;
    }
    Ok(statuses)
}

/// What stands before all cases in a report of this format, and behind them.
fn frame(format: Format) -> (&'static str, &'static str) {
    match format {
        Format::Table | Format::Json => ("", ""),
        Format::Junit => ("<testsuites>\n", "</testsuites>\n"),
    }
}

/// Sweeps each case, and writes the report on all; gives their statuses.
fn report_cases<
    R: Env + Files + Clock + Processes + Threads + Sync + AllocGlobal,
    W: Write,
    E: Write + IsTerminal,
>(
    rt: &R,
    all: &ArgMatches,
    path: &str,
    words: Words,
    explained: bool,
    cases: &[NamedCase],
    found: &mut Vec<String>,
    writer: &mut W,
    err: &mut E,
) -> Result<Vec<u8>, Fault>
    ensures { IfOk result (λ statuses. AreOfSweeps cases.now statuses.items) }
{
    let alloc = rt.alloc();
    let colors = words.style.colors;
    let (front, back) = frame(words.format);
    if words.format == Format::Junit {
        write(alloc, PROLOG, writer)?;
    }
    write(alloc, front, writer)?;
    let statuses = sweep_each(rt, all, path, colors, explained, cases, found, writer, err)?;
    write(alloc, back, writer)?;
    Ok(statuses)
}

/// The report on all cases goes to the file that the words name, or else to `out`.
fn report_where<
    R: Env + Files + Clock + Processes + Threads + Sync + AllocGlobal,
    O: Write,
    E: Write + IsTerminal,
>(
    rt: &R,
    all: &ArgMatches,
    path: &str,
    words: Words,
    explained: bool,
    cases: &[NamedCase],
    found: &mut Vec<String>,
    out: &mut O,
    err: &mut E,
) -> Result<Vec<u8>, Fault>
    ensures { IfOk result (λ statuses. AreOfSweeps cases.now statuses.items) }
{
    let Some(output) = path_of(all) else {
        let of_out = report_cases(rt, all, path, words, explained, cases, found, out, err)?;
        return Ok(of_out);
    };
    if words.is_streamed() {
        let mut file = create(rt, output)?;
        let of_lines = report_cases(
            rt, all, path, words, explained, cases, found, &mut file, err,
        )?;
        return Ok(of_lines);
    }
    let mut text: Vec<u8> = Vec::new(rt.alloc());
    let statuses = report_cases(
        rt, all, path, words, explained, cases, found, &mut text, err,
    )?;
    replace(rt, "-o", output, text.as_slice())?;
    Ok(statuses)
}

/// The sweep of some case has this status.
fn has(statuses: &[u8], wanted: u8) -> bool
    ensures { result ≡ list_any (λ one. one == wanted) statuses.now }
{
    statuses.iter().any(|status| *status == wanted)
}

/// 1 where that of some case is, and else 0 where that of some case is: nothing was tried where none has either.
fn status_of(statuses: &[u8]) -> u8
    ensures { result ≡ cases_status statuses.now }
{
    if has(statuses, 1) {
        1
    } else if has(statuses, 0) {
        0
    } else {
        NOTHING
    }
}

/// That a file has no case, where it is so, on `err`.
fn tell_no_case<E: Write>(path: &str, cases: &[NamedCase], err: &mut E) {
    if cases.is_empty() {
        // The status says it too, whether this can be written or not.
        let _written = writeln!(err, "strace_sweep: {} has no case", Shown(path));
    }
}

/// Makes the sweep of each case that the file of this path has, where the command line has these words, and gives the
/// exit status.
pub fn sweep_cases<
    R: Env + Files + Clock + Processes + Threads + Sync + AllocGlobal,
    O: Write + IsTerminal,
    E: Write + IsTerminal,
>(
    rt: &R,
    words: &[String],
    matches: &ArgMatches,
    path: &str,
    explained: bool,
    out: &mut O,
    err: &mut E,
) -> Result<u8, Fault>
    ensures { IfOk result IsOfCases }
{
    let asked = words_at(rt, matches, out)?;
    shown_run(rt.alloc(), matches)?;
    let known = read_known(rt, matches)?;
    let cases = read_cases(rt, matches, words, path)?;
    let mut found = Vec::new(rt.alloc());
    let all = cases.as_slice();
    let statuses = report_where(
        rt, matches, path, asked, explained, all, &mut found, out, err,
    )?;
    let statuses = statuses.as_slice();
    finish_known(rt, matches, known.as_slice(), found, err)?;
    tell_no_case(path, all, err);
    Ok(status_of(statuses))
}
