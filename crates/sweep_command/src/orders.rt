//! The report on orders of turns: a line for each result.

ghost use Rattle.std.specs.Prelude.{◌≡◌, cond, length, IfOk};
ghost use Rattle.std.specs.List.{list_any};
ghost use Rattle.sweep_orders.specs.Orders.{AreOrders};
ghost use Rattle.sweep_command.specs.Reports.{hangs, fails, orders_status, IsOfOrders};

use crate::checking::Checks;
use crate::judging::checks_of;
use crate::keeping::{check_kept, keep, path_of, text_of};
use crate::outputs::write;
use crate::progress::ShownProgress;
use clap::ArgMatches;
use front_end::{Fault, escaped};
use lx_abi::{Node, OutcomeFile, Status, Word};
use serde::Serialize;
use std::alloc::{AllocError, Global};
use std::env::Env;
use std::io::{IsTerminal, Write};
use std::process::Processes;
use std::rt::Files;
use std::thread::Threads;
use std::time::Clock;
use sweep_orders::{Explored, Found, explore_on_threads};
use sweep_report::texts::{push_part, push_wrapped, quoted_bytes};
use sweep_report::told::end_text;
use sweep_rows::{Ending, Reached, Verdict, first_word};
use sweep_words::plan::Plan;
use sweep_words::shell::{Shower, order_words, typed, words_with};
use sweep_words::words::{Format, Orders, Words};

/// So many words of an order are shown where it isn't kept.
const MOST_SHOWN: usize = 12;

/// So many bytes are shown of the console and of a file.
const MOST_BYTES: usize = 40;

/// A result, as it is told.
#[derive(Drop, Serialize)]
struct ToldOrder {
    /// The default order has this result.
    default: bool,
    /// How many different orders had it.
    orders: u64,
    ended: bool,
    /// The command of `--check` fails on its files.
    broken: bool,
    /// Process 1's exit code, or 128 and the signal that ended it.
    status: Option<u8>,
    /// What the result is.
    told: String,
    /// The words of a shortest of these orders.
    turns: String,
    /// The words of `strace_cli` that show a run by that order, where it is kept.
    words: Vec<String>,
    /// What stands for the order in a table.
    #[serde(skip)]
    shown: String,
}

/// The results; where `err` is a terminal it shows how far the runs are.
fn find<R: Clock + Threads + Sync + AllocGlobal, E: Write + IsTerminal>(
    rt: &R,
    jobs: u8,
    orders: Orders,
    plan: &Plan,
    reference: &Reached,
    err: &mut E,
) -> Result<Explored, AllocError>
    ensures { IfOk result (AreOrders plan.now.setup reference.now.log.items orders.count orders.seed) }
{
    let is_shown = err.is_terminal();
    let mut progress = ShownProgress::new(rt.alloc(), rt, err, is_shown);
    let log = reference.log.as_slice()?;
    let found = explore_on_threads(
        rt,
        rt.alloc(),
        jobs,
        &plan.setup,
        log,
        orders.count,
        orders.seed,
        &mut progress,
    );
    progress.end();
    found
}

/// The first words of an order.
fn shown(alloc: Global, words: &[Word]) -> Result<String, AllocError> {
    if words.is_empty() {
        return Ok(String::new(alloc));
    }
    let first = text_of(alloc, words.get(..MOST_SHOWN).unwrap_or(words), ' ')?;
    match words.len().checked_sub(MOST_SHOWN) {
        Some(more) if more > 0 => format!(in alloc; "--turns {first} and {more} more"),
        _ => format!(in alloc; "--turns {first}"),
    }
}

/// The words of `strace_cli` that give a run the order of a result, where it is kept.
fn own_words(
    alloc: Global,
    matches: &ArgMatches,
    number: usize,
    alive: bool,
) -> Result<Vec<String>, AllocError> {
    let Some(folder) = matches.get_str("keep") else {
        return Ok(Vec::new(alloc));
    };
    let path = path_of(alloc, folder, number)?;
    let verdict = if alive {
        Verdict::Hung
    } else {
        Verdict::Ignored
    };
    order_words(alloc, matches, path.as_str(), verdict)
}

fn content_at<'a>(files: &'a [OutcomeFile], path: &[u8]) -> Option<&'a [u8]> {
    match &files.iter().find(|file| file.path.as_slice() == path)?.node {
        Node::File(bytes) => Some(bytes.as_slice()),
        Node::Directory => Some(&[]),
    }
}

/// Some result has another content of this file.
fn is_parted(all: &[Found], path: &[u8], content: Option<&[u8]>) -> Result<bool, AllocError> {
    for one in all {
        let other = content_at(one.ending.outcome.files.as_slice()?, path);
        if other.unwrap_or(&[]) != content.unwrap_or(&[]) || other.is_some() != content.is_some() {
            return Ok(true);
        }
    }
    Ok(false)
}

/// Adds a file in which results differ, if they do.
fn push_file(
    text: &mut String,
    alloc: Global,
    all: &[Found],
    file: &OutcomeFile,
    ending: &Ending,
) -> Result<(), AllocError> {
    let path = file.path.as_slice();
    let content = content_at(ending.outcome.files.as_slice()?, path);
    if !is_parted(all, path, content)? {
        return Ok(());
    }
    let name = escaped(alloc, &file.path)?;
    let part = match content {
        None => format!(in alloc; "{name} absent")?,
        Some(bytes) => format!(in alloc; "{name} {}", quoted_bytes(alloc, bytes, MOST_BYTES)?)?,
    };
    push_part(text, part.as_str(), "; ")
}

/// What a result is: how process 1 ended, the console, and the files in which results differ.
fn result_text(alloc: Global, all: &[Found], ending: &Ending) -> Result<String, AllocError> {
    let mut text = if ending.alive {
        format!(in alloc; "never ends")?
    } else {
        match first_word(&ending.outcome) {
            Some(word) => end_text(alloc, word)?,
            None => String::new(alloc),
        }
    };
    let console = ending.outcome.console.as_slice();
    if !console.is_empty() {
        let console = quoted_bytes(alloc, console, MOST_BYTES)?;
        push_part(
            &mut text,
            format!(in alloc; "prints {console}")?.as_str(),
            "; ",
        )?;
    }
    let Some(first) = all.first() else {
        return Ok(text);
    };
    let left_first = first.ending.outcome.files.as_slice()?;
    for file in left_first {
        push_file(&mut text, alloc, all, file, ending)?;
    }
    for file in ending.outcome.files.as_slice()? {
        let path = file.path.as_slice();
        if content_at(left_first, path).is_none() {
            push_file(&mut text, alloc, all, file, ending)?;
        }
    }
    Ok(text)
}

fn tell(
    alloc: Global,
    matches: &ArgMatches,
    all: &[Found],
    found: &Found,
    number: usize,
    broken: bool,
) -> Result<ToldOrder, AllocError> {
    let own = own_words(alloc, matches, number, found.ending.alive)?;
    Ok(ToldOrder {
        default: number == 1,
        orders: found.times,
        ended: !found.ending.alive,
        broken,
        status: first_word(&found.ending.outcome).map(|word| Status { word }.shell_status()),
        told: result_text(alloc, all, &found.ending)?,
        turns: text_of(alloc, found.words.as_slice(), ' ')?,
        words: words_with(alloc, matches, Shower::Trace, own.as_slice())?,
        shown: if own.is_empty() {
            shown(alloc, found.words.as_slice())?
        } else {
            typed(alloc, own.as_slice())?
        },
    })
}

/// The name of a result: a letter, and a number behind the letters.
fn name_of(alloc: Global, place: usize) -> Result<String, AllocError> {
    match b"ABCDEFGHIJKLMNOPQRSTUVWXYZ".get(place) {
        Some(letter) => format!(in alloc; "{}", char::from(*letter)),
        None => format!(in alloc; "{place}"),
    }
}

/// How many there are of a kind.
fn many(alloc: Global, count: usize, what: &str) -> Result<String, AllocError> {
    let end = if count == 1 { "" } else { "s" };
    format!(in alloc; "{count} {what}{end}")
}

/// What is said of all orders together.
fn head(alloc: Global, orders: usize, explored: &Explored) -> Result<String, AllocError> {
    format!(in alloc;
        "{}, {} different, {}; {} of {} with one switch tried\n",
        many(alloc, orders, "order")?,
        explored.different,
        many(alloc, explored.found.len(), "result")?,
        explored.switched,
        many(alloc, explored.switches, "order")?
    )
}

fn table(
    alloc: Global,
    told: &[ToldOrder],
    orders: usize,
    explored: &Explored,
) -> Result<String, AllocError> {
    let mut report = head(alloc, orders, explored)?;
    for (place, order) in told.iter().enumerate() {
        let name = name_of(alloc, place)?;
        let mut line = format!(in alloc; "  {name:<3} {:>7}  ", order.orders)?;
        let mark = if order.broken { "BROKEN: " } else { "" };
        line.push_str(mark)?;
        push_wrapped(&mut line, order.told.as_str(), mark.len() + 15, 15)?;
        if order.default {
            line.push_str("  (the default order)")?;
        }
        report.push_str(line.as_str())?;
        report.push('\n')?;
        if !order.shown.is_empty() {
            report.push_str(format!(in alloc; "{:15}{}\n", "", order.shown)?.as_str())?;
        }
    }
    Ok(report)
}

/// What is told of all orders together.
#[derive(Drop, Serialize)]
struct ToldOrders {
    orders: u64,
    /// How many of them were different.
    different: u64,
    results: u64,
    /// How many had one switch, of how many such orders.
    switched: u64,
    switches: u64,
}

fn objects(
    alloc: Global,
    told: &[ToldOrder],
    orders: usize,
    explored: &Explored,
) -> Result<String, serde_json::Error> {
    let mut report = String::new(alloc);
    for order in told {
        report.push_str(serde_json::to_string(alloc, order)?.as_str())?;
        report.push('\n')?;
    }
    let all = ToldOrders {
        orders: orders as u64,
        different: explored.different as u64,
        results: explored.found.len() as u64,
        switched: explored.switched as u64,
        switches: explored.switches as u64,
    };
    report.push_str(serde_json::to_string(alloc, &all)?.as_str())?;
    report.push('\n')?;
    Ok(report)
}

/// Writes the order of each result to its file, where the words ask for it.
fn keep_all<R: Files + AllocGlobal>(
    rt: &R,
    matches: &ArgMatches,
    found: &[Found],
) -> Result<(), Fault> {
    if let Some(folder) = matches.get_str("keep") {
        for (place, result) in found.iter().enumerate() {
            keep(rt, folder, place.saturating_add(1), result.words.as_slice())?;
        }
    }
    Ok(())
}

/// The report on the results.
fn text_of_all(
    alloc: Global,
    matches: &ArgMatches,
    format: Format,
    orders: Orders,
    explored: &Explored,
    broken: &[bool],
) -> Result<String, Fault> {
    let found = explored.found.as_slice();
    let mut told = Vec::new(alloc);
    for (place, result) in found.iter().enumerate() {
        let is_broken = broken.get(place).is_some_and(|mark| *mark);
        let number = place.saturating_add(1);
        told.push(tell(alloc, matches, found, result, number, is_broken)?)?;
    }
    let told = told.as_slice();
    match format {
        Format::Table | Format::Junit => Ok(table(alloc, told, orders.count, explored)?),
        Format::Json => match objects(alloc, told, orders.count, explored) {
            Ok(report) => Ok(report),
            Err(_) => Err(Fault::Memory),
        },
    }
}

/// A run did not end.
fn hangs(found: &[Found]) -> bool
    ensures { result ≡ hangs found.now }
{
    found.iter().any(|one| one.ending.alive)
}

/// A run did not end, or there is more than one result and there is to be one.
fn fails(found: &[Found], one: bool) -> bool
    ensures { result ≡ fails one found.now }
{
    hangs(found) || (one && found.len() > 1)
}

/// What some result left is broken.
fn has_broken(broken: &[bool]) -> bool
    ensures { result ≡ list_any (λ b. b) broken.now }
{
    broken.iter().any(|mark| *mark)
}

/// 1 where orders fail, or what one left is broken.
fn status_of(found: &[Found], one: bool, broken: &[bool]) -> u8
    ensures { result ≡ orders_status one found.now broken.now }
{
    if fails(found, one) || has_broken(broken) {
        1
    } else {
        0
    }
}

/// The command fails on the files that a result has; it isn't asked about one that did not end.
fn is_broken<R: Files + Processes + AllocGlobal>(
    rt: &R,
    checks: &mut Checks,
    reference: &Reached,
    found: &Found,
) -> Result<bool, Fault> {
    if found.ending.alive {
        return Ok(false);
    }
    let others = reference.ending.outcome.files.as_slice()?;
    let files = found.ending.outcome.files.as_slice()?;
    Ok(!checks.are_fine(rt, others, files)?)
}

/// On which results the command fails; none, where the words have no command.
fn broken_of<R: Env + Files + Processes + AllocGlobal>(
    rt: &R,
    matches: &ArgMatches,
    words: Words,
    reference: &Reached,
    found: &[Found],
) -> Result<Vec<bool>, Fault>
    ensures { IfOk result (λ broken. length broken.items ≡ cond words.is_checked (length found.now) 0) }
{
    let mut broken = Vec::new(rt.alloc());
    if !words.is_checked {
        return Ok(broken);
    }
    let mut checks = checks_of(rt, matches)?;
    let mut left = found;
    while let Some((one, rest)) = left.split_first() {
        broken.push(is_broken(rt, &mut checks, reference, one)?)?;
        left = rest;
    }
    Ok(broken)
}

/// Writes what is told of orders.
fn write_all<R: Files + AllocGlobal, W: Write>(
    rt: &R,
    matches: &ArgMatches,
    format: Format,
    orders: Orders,
    explored: &Explored,
    broken: &[bool],
    writer: &mut W,
) -> Result<(), Fault> {
    keep_all(rt, matches, explored.found.as_slice())?;
    let text = text_of_all(rt.alloc(), matches, format, orders, explored, broken)?;
    write(rt.alloc(), text.as_str(), writer)
}

/// Tries the orders of turns, and reports each result; gives the exit status. Orders that are kept are files before the
/// runs begin.
pub fn orders_reported<
    R: Env + Files + Clock + Processes + Threads + Sync + AllocGlobal,
    W: Write,
    E: Write + IsTerminal,
>(
    rt: &R,
    matches: &ArgMatches,
    words: Words,
    orders: Orders,
    plan: &Plan,
    reference: &Reached,
    writer: &mut W,
    err: &mut E,
) -> Result<u8, Fault>
    ensures { IfOk result (IsOfOrders plan.now words orders reference.now) }
{
    if let Some(folder) = matches.get_str("keep") {
        check_kept(rt, folder)?;
    }
    let explored = find(rt, words.jobs, orders, plan, reference, err)?;
    let found = explored.found.as_slice();
    let broken = broken_of(rt, matches, words, reference, found)?;
    let broken = broken.as_slice();
    write_all(rt, matches, words.format, orders, &explored, broken, writer)?;
    Ok(status_of(found, orders.one, broken))
}
