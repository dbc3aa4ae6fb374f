//! A sweep, from its words to its report.

ghost use Rattle.std.specs.Prelude.{◌≡◌, [], IfOk};
ghost use Rattle.sweep_runs.specs.Runs.{Reaches};
ghost use Rattle.sweep_report.specs.Tallies.{unmarked};
ghost use Rattle.sweep_report.specs.Findings.{status_of as status_by};
ghost use Rattle.sweep_command.specs.Reports.{IsCounted, IsOfRows, IsOfFailures, IsOfEnds, IsOfAll, IsOfShown};
ghost use Rattle.sweep_command.specs.Reports.{IsOfReport, IsOfSweep};
ghost use Rattle.sweep_command.specs.Started.{Ran};

use crate::deep::{deep_reported, deep_shown};
use crate::judging::begin_checks;
use crate::knowing::{add_found, check_known, finish_known, marks_of};
use crate::naming::check_named;
use crate::nothing::{status_if, tell_nothing, tries_failures};
use crate::orders::orders_reported;
use crate::outputs::{check, create, path_of, replace, write};
use crate::reference::{limited, reference};
use crate::rows::{Choice, make, wanted_cases};
use crate::show::show;
use crate::show_trial::show_trial;
use crate::started::check_ran;
use crate::telling::{all_told, told, worst};
use crate::trials::trials_reported;
use clap::ArgMatches;
use front_end::{Fault, check_outputs};
use std::alloc::Global;
use std::env::{self, Env};
use std::io::{IsTerminal, Read, Write};
use std::process::Processes;
use std::rt::Files;
use std::thread::Threads;
use std::time::Clock;
use sweep_report::findings::status_of;
use sweep_report::junit::junit;
use sweep_report::report::{counts_object, foot, head, table};
use sweep_report::tally::{Tally, tally_of, unmarked, verdicts_of};
use sweep_report::traced::TracedCalls;
use sweep_report::untried::Untried;
use sweep_rows::{Reached, Row};
use sweep_trace::traced_calls;
use sweep_words::plan::{Plan, read_plan};
use sweep_words::show::{NamedRow, shown_run};
use sweep_words::words::{Format, Words, words_of};

/// Writes what stands above the runs, where each of them is a line.
fn write_head<W: Write>(
    alloc: Global,
    words: Words,
    plan: &Plan,
    reference: &Reached,
    runs: usize,
    writer: &mut W,
) -> Result<(), Fault> {
    if !words.is_streamed() || words.format == Format::Json {
        return Ok(());
    }
    let head = head(alloc, &plan.setup, reference, runs)?;
    write(alloc, head.as_str(), writer)
}

/// The command that shows the first of the worst runs, and how many runs came to what.
fn foot_of(
    alloc: Global,
    matches: &ArgMatches,
    plan: &Plan,
    reference: &Reached,
    calls: &TracedCalls,
    rows: &[Row],
    tally: &Tally,
    untried: &Untried,
) -> Result<String, Fault> {
    let worst = match worst(rows) {
        Some(row) => Some(told(alloc, matches, plan, reference, calls, row)?),
        None => None,
    };
    Ok(foot(alloc, &plan.setup, worst.as_ref(), tally, untried.runs)?)
}

/// What is left to write once the runs are made: the counts, and the calls with their outcomes, where runs weren't
/// written one by one.
fn rest_of(
    alloc: Global,
    matches: &ArgMatches,
    words: Words,
    plan: &Plan,
    reference: &Reached,
    calls: &TracedCalls,
    rows: &[Row],
    tally: &Tally,
    untried: &Untried,
) -> Result<String, Fault> {
    if words.format == Format::Json {
        return match counts_object(alloc, tally, untried.runs) {
            Ok(counts) => Ok(counts),
            Err(_) => Err(Fault::Memory),
        };
    }
    if words.is_streamed() {
        return foot_of(alloc, matches, plan, reference, calls, rows, tally, untried);
    }
    let told = all_told(alloc, matches, plan, reference, calls, rows)?;
    let told = told.as_slice();
    match words.format {
        Format::Junit => Ok(junit(alloc, plan.case.as_ref(), &plan.setup, told, untried.runs)?),
        _ => Ok(table(
            alloc,
            &plan.setup,
            reference,
            told,
            tally,
            words.style,
            untried,
        )?),
    }
}

/// Writes the rest of the report on these rows, and gives the exit status.
fn finish<W: Write>(
    alloc: Global,
    matches: &ArgMatches,
    words: Words,
    plan: &Plan,
    reference: &Reached,
    calls: &TracedCalls,
    rows: &[Row],
    marks: &[bool],
    untried: &Untried,
    writer: &mut W,
) -> Result<u8, Fault>
    ensures { IfOk result (λ s. s ≡ status_by plan.now.strict (unmarked marks.now rows.now)) }
{
    let verdicts = verdicts_of(alloc, rows)?;
    let counted = unmarked(alloc, rows, marks)?;
    let counted = counted.as_slice();
    let tally = tally_of(alloc, plan.strict, verdicts.as_slice(), counted)?;
    let rest = rest_of(
        alloc, matches, words, plan, reference, calls, rows, &tally, untried,
    )?;
    write(alloc, rest.as_str(), writer)?;
    Ok(status_of(plan.strict, counted))
}

/// Writes the rest of the report on these rows, and adds the lines of findings; gives the exit status.
fn conclude<W: Write>(
    alloc: Global,
    matches: &ArgMatches,
    words: Words,
    plan: &Plan,
    reference: &Reached,
    calls: &TracedCalls,
    rows: &[Row],
    untried: &Untried,
    found: &mut Vec<String>,
    writer: &mut W,
) -> Result<u8, Fault>
    ensures { IfOk result (IsCounted plan.now rows.now) }
{
    let marks = marks_of(alloc, plan, reference, calls, rows)?;
    let marks = marks.as_slice();
    let status = finish(
        alloc, matches, words, plan, reference, calls, rows, marks, untried, writer,
    )?;
    add_found(alloc, matches, plan, reference, calls, rows, found)?;
    Ok(status)
}

/// What is left of a choice, of which so many runs are made.
fn untried_of(choice: Choice, made: usize) -> Untried {
    let Choice { all, sites, .. } = choice;
    Untried {
        sites,
        runs: all.saturating_sub(made),
    }
}

/// Makes the runs with a failure, and reports them; gives the exit status.
fn failures<
    R: Env + Files + Clock + Processes + Threads + Sync + AllocGlobal,
    W: Write,
    E: Write + IsTerminal,
>(
    rt: &R,
    matches: &ArgMatches,
    words: Words,
    plan: &Plan,
    reference: &Reached,
    found: &mut Vec<String>,
    writer: &mut W,
    err: &mut E,
) -> Result<u8, Fault>
    ensures { IfOk result (IsOfRows plan.now words reference.now) }
{
    let alloc = rt.alloc();
    let tries = tries_failures(alloc, plan, reference)?;
    let mut checks = begin_checks(rt, matches, words, reference)?;
    let calls = traced_calls(alloc, &plan.setup, reference.log.as_slice()?)?;
    let choice = wanted_cases(alloc, plan, words, reference, &calls)?;
    let cases = choice.cases.as_slice();
    write_head(alloc, words, plan, reference, cases.len(), writer)?;
    let rows = make(
        rt,
        matches,
        words,
        plan,
        reference,
        &calls,
        cases,
        &mut checks,
        writer,
        err,
    )?;
    let rows = rows.as_slice();
    let untried = untried_of(choice, rows.len());
    let status = conclude(
        alloc, matches, words, plan, reference, &calls, rows, &untried, found, writer,
    )?;
    Ok(status_if(tries, status))
}

/// Reports the runs with a failure, or those with another behind it, where the words ask for these; gives the exit
/// status.
fn report_failures<
    R: Env + Files + Clock + Processes + Threads + Sync + AllocGlobal,
    W: Write,
    E: Write + IsTerminal,
>(
    rt: &R,
    matches: &ArgMatches,
    words: Words,
    plan: &Plan,
    reference: &Reached,
    found: &mut Vec<String>,
    writer: &mut W,
    err: &mut E,
) -> Result<u8, Fault>
    ensures { IfOk result (IsOfFailures plan.now words reference.now plan.now.deep) }
{
    match &plan.deep {
        Some(wanted) => {
            let alloc = rt.alloc();
            let of_deep = deep_reported(alloc, matches, words, plan, wanted, reference, writer)?;
            Ok(of_deep)
        }
        None => {
            let of_rows = failures(rt, matches, words, plan, reference, found, writer, err)?;
            Ok(of_rows)
        }
    }
}

/// Reports the runs in which something else happens to calls, where the words ask for these, or else those with a
/// failure; gives the exit status.
fn report_ends<
    R: Env + Files + Clock + Processes + Threads + Sync + AllocGlobal,
    W: Write,
    E: Write + IsTerminal,
>(
    rt: &R,
    matches: &ArgMatches,
    words: Words,
    plan: &Plan,
    reference: &Reached,
    found: &mut Vec<String>,
    writer: &mut W,
    err: &mut E,
) -> Result<u8, Fault>
    ensures { IfOk result (IsOfEnds plan.now words reference.now plan.now.tried) }
{
    match &plan.tried {
        Some(tried) => {
            let alloc = rt.alloc();
            let of_trials = trials_reported(alloc, matches, words, plan, tried, reference, writer)?;
            Ok(of_trials)
        }
        None => {
            let of_failures = report_failures(
                rt, matches, words, plan, reference, found, writer, err,
            )?;
            Ok(of_failures)
        }
    }
}

/// Reports the orders of turns, or else the runs in which something happens to a call; gives the exit status.
fn report_all<
    R: Env + Files + Clock + Processes + Threads + Sync + AllocGlobal,
    W: Write,
    E: Write + IsTerminal,
>(
    rt: &R,
    matches: &ArgMatches,
    words: Words,
    plan: &Plan,
    reference: &Reached,
    found: &mut Vec<String>,
    writer: &mut W,
    err: &mut E,
) -> Result<u8, Fault>
    ensures { IfOk result (IsOfAll plan.now words reference.now words.orders) }
{
    match words.orders {
        Some(orders) => {
            let of_orders = orders_reported(
                rt, matches, words, orders, plan, reference, writer, err,
            )?;
            Ok(of_orders)
        }
        None => {
            let of_ends = report_ends(rt, matches, words, plan, reference, found, writer, err)?;
            Ok(of_ends)
        }
    }
}

/// Writes the run that words name, and gives the exit status.
fn report_shown<W: Write>(
    alloc: Global,
    matches: &ArgMatches,
    plan: &Plan,
    reference: &Reached,
    row: NamedRow,
    writer: &mut W,
) -> Result<u8, Fault>
    ensures { IfOk result (IsOfShown plan.now reference.now row) }
{
    match row {
        NamedRow::Failure(run) => {
            let of_run = show(alloc, matches, plan, reference, run, writer)?;
            Ok(of_run)
        }
        NamedRow::Deep(named) => {
            let of_deep = deep_shown(alloc, matches, plan, reference, named, writer)?;
            Ok(of_deep)
        }
        NamedRow::Trial(named) => {
            let of_trial = show_trial(alloc, matches, plan, reference, named, writer)?;
            Ok(of_trial)
        }
    }
}

/// Reports the run that the words name, or else all, and adds the lines of findings; gives the exit status.
pub fn report<
    R: Env + Files + Clock + Processes + Threads + Sync + AllocGlobal,
    W: Write,
    E: Write + IsTerminal,
>(
    rt: &R,
    matches: &ArgMatches,
    words: Words,
    plan: &Plan,
    reference: &Reached,
    found: &mut Vec<String>,
    writer: &mut W,
    err: &mut E,
) -> Result<u8, Fault>
    ensures { IfOk result (IsOfReport plan.now words reference.now) }
{
    if let Some(row) = shown_run(rt.alloc(), matches)? {
        let of_run = report_shown(rt.alloc(), matches, plan, reference, row, writer)?;
        return Ok(of_run);
    }
    let of_all = report_all(rt, matches, words, plan, reference, found, writer, err)?;
    Ok(of_all)
}

/// Reports to a file: line by line, or what takes the place of an older report once it is whole.
fn report_to_file<
    R: Env + Files + Clock + Processes + Threads + Sync + AllocGlobal,
    E: Write + IsTerminal,
>(
    rt: &R,
    matches: &ArgMatches,
    words: Words,
    plan: &Plan,
    reference: &Reached,
    path: &str,
    found: &mut Vec<String>,
    err: &mut E,
) -> Result<u8, Fault>
    ensures { IfOk result (IsOfReport plan.now words reference.now) }
{
    if words.is_streamed() {
        let mut file = create(rt, path)?;
        let status = report(rt, matches, words, plan, reference, found, &mut file, err)?;
        return Ok(status);
    }
    let mut text: Vec<u8> = Vec::new(rt.alloc());
    let status = report(rt, matches, words, plan, reference, found, &mut text, err)?;
    replace(rt, "-o", path, text.as_slice())?;
    Ok(status)
}

/// Reports to the file that the words name, or else to `out`; gives the exit status.
fn report_where<
    R: Env + Files + Clock + Processes + Threads + Sync + AllocGlobal,
    O: Write,
    E: Write + IsTerminal,
>(
    rt: &R,
    matches: &ArgMatches,
    words: Words,
    plan: &Plan,
    reference: &Reached,
    found: &mut Vec<String>,
    out: &mut O,
    err: &mut E,
) -> Result<u8, Fault>
    ensures { IfOk result (IsOfReport plan.now words reference.now) }
{
    if let Some(path) = path_of(matches) {
        let of_file = report_to_file(rt, matches, words, plan, reference, path, found, err)?;
        return Ok(of_file);
    }
    let status = report(rt, matches, words, plan, reference, found, out, err)?;
    Ok(status)
}

/// The environment asks for no colors (no-color.org).
fn is_plain<R: Env + AllocGlobal>(rt: &R) -> bool {
    match env::var(rt, "NO_COLOR") {
        Ok(value) => !value.is_empty(),
        Err(_) => false,
    }
}

/// What a sweep begins with.
#[derive(Drop)]
pub struct Begun {
    pub plan: Plan,
    /// The run without a failure.
    pub reference: Reached,
}

/// Reads what the words ask for, those of a case of this name or of all, sees that outputs can be written, and makes
/// the run without a failure.
pub fn begin<R: Files + AllocGlobal, I: Read + IsTerminal, E: Write + IsTerminal>(
    rt: &R,
    matches: &ArgMatches,
    words: Words,
    case: Option<String>,
    explained: bool,
    input: &mut I,
    err: &mut E,
) -> Result<Begun, Fault>
    ensures reaches { IfOk result (λ begun. Reaches begun.plan.setup [] begun.reference) }
    ensures ran { IfOk result (λ begun. Ran begun.reference) }
{
    let alloc = rt.alloc();
    let mut asked = read_plan(rt, matches, input, err)?;
    asked.case = case;
    check_outputs(rt, matches)?;
    check(rt, "-o", path_of(matches))?;
    check_known(rt, matches)?;
    let plan = limited(alloc, matches, words, asked)?;
    let reference = reference(alloc, &plan.setup, explained)?;
    check_ran(alloc, &plan.setup, &reference)?;
    check_named(alloc, matches, &plan, &reference)?;
    Ok(Begun { plan, reference })
}

/// The words of a sweep whose report goes to `out`, which has colors at a terminal.
pub fn words_at<R: Env + AllocGlobal, O: IsTerminal>(
    rt: &R,
    matches: &ArgMatches,
    out: &O,
) -> Result<Words, Fault> {
    words_of(rt.alloc(), matches, out.is_terminal() && !is_plain(rt))
}

/// Makes the sweep that the words ask for, and gives the exit status.
pub fn sweep<
    R: Env + Files + Clock + Processes + Threads + Sync + AllocGlobal,
    I: Read + IsTerminal,
    O: Write + IsTerminal,
    E: Write + IsTerminal,
>(
    rt: &R,
    matches: &ArgMatches,
    explained: bool,
    input: &mut I,
    out: &mut O,
    err: &mut E,
) -> Result<u8, Fault>
    ensures { IfOk result IsOfSweep }
{
    let words = words_at(rt, matches, out)?;
    shown_run(rt.alloc(), matches)?;
    let begun = begin(rt, matches, words, None, explained, input, err)?;
    let mut found = Vec::new(rt.alloc());
    let (plan, reference) = (&begun.plan, &begun.reference);
    let status = report_where(rt, matches, words, plan, reference, &mut found, out, err)?;
    finish_known(rt, matches, begun.plan.known.as_slice(), found, err)?;
    tell_nothing(rt.alloc(), status, plan, reference, err)?;
    Ok(status)
}
