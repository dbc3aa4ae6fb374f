//! The runs with a failure, and what is written of them as they are made.

ghost use Rattle.std.specs.Prelude.{◌≡◌, ◌<◌, ◌≤◌, ◌++◌, [], true, false, length, map, take, IfOk, OnOk};
ghost use Rattle.sweep_runs.specs.Leaders.{IsLed};
ghost use Rattle.sweep_runs.specs.Rows.{fault_of};
ghost use Rattle.sweep_command.specs.Reports.{taken, waits, every, part_of, AreAll, AreWanted, AreBegun, IsFound};
ghost use Rattle.sweep_command.specs.Reports.{IsCut};

use crate::checking::Checks;
use crate::choosing::{chosen, site_calls};
use crate::judging::told_rows;
use crate::knowing::{findings, is_new};
use crate::naming::listed;
use crate::outputs::write;
use crate::progress::ShownProgress;
use crate::telling::told;
use clap::ArgMatches;
use front_end::Fault;
use std::alloc::{AllocError, Global};
use std::io::{IsTerminal, Write};
use std::process::Processes;
use std::rt::Files;
use std::thread::Threads;
use std::time::Clock;
use sweep_report::report::{line, object};
use sweep_report::sites::is_kept;
use sweep_report::traced::TracedCalls;
use sweep_report::untried::SiteCalls;
use sweep_rows::{Case, Reached, Row, Setup};
use sweep_runs::{Leader, Progress, cases};
use sweep_words::plan::Plan;
use sweep_words::words::{Format, Shard, Words};

/// So many runs a thread are made before their rows are written.
const RUNS_A_THREAD: usize = 16;

/// These cases, of which one tells of no loss where its file is gone at the reference's end.
pub fn by_the_end(
    alloc: Global,
    reference: &Reached,
    calls: &TracedCalls,
    cases: &[Case],
) -> Result<Vec<Case>, AllocError>
    ensures { IfOk result (λ r. map fault_of r.items ≡ map fault_of cases.now) }
{
    let mut all = Vec::new(alloc);
    let log = reference.log.as_slice()?;
    let files = reference.ending.outcome.files.as_slice()?;
    let mut left = cases;
    while let Some((case, rest)) = left.split_first() {
        let tells = case.tells && is_kept(calls, log, files, &case.occurrence);
        all.push(Case { tells, ..*case })?;
        left = rest;
    }
    Ok(all)
}

/// Takes a case for which no other is waited for.
fn take(part: &mut Vec<Case>, wait: usize, case: Case) -> Result<(), AllocError>
    ensures { OnOk result (part.new.items ≡ part.old.items ++ taken wait case) }
{
    if wait == 0 {
        part.push(case)?;
    }
    Ok(())
}

/// How many cases are left out behind one, before the next is taken.
fn waits(between: usize, wait: usize) -> usize
    ensures { result ≡ waits between wait }
{
    if wait == 0 { between } else { wait - 1 }
}

/// Those of these cases that are a part's.
fn every(alloc: Global, shard: Shard, cases: &[Case]) -> Result<Vec<Case>, AllocError>
    ensures { IfOk result (λ r. r.items ≡ every shard.between shard.before cases.now) }
{
    let mut part = Vec::new(alloc);
    let mut wait = shard.before;
    let mut left = cases;
    while let Some((case, rest)) = left.split_first() {
        take(&mut part, wait, *case)?;
        wait = waits(shard.between, wait);
        left = rest;
    }
    Ok(part)
}

fn part_of(alloc: Global, shard: Option<Shard>, cases: &[Case]) -> Result<Vec<Case>, AllocError>
    ensures { IfOk result (λ r. r.items ≡ part_of shard cases.now) }
{
    if let Some(shard) = shard {
        let part = every(alloc, shard, cases)?;
        return Ok(part);
    }
    let mut all = Vec::new(alloc);
    all.extend_from_slice(cases)?;
    Ok(all)
}

/// All cases that the words ask for.
fn all_cases(
    alloc: Global,
    plan: &Plan,
    shard: Option<Shard>,
    reference: &Reached,
    calls: &TracedCalls,
) -> Result<Vec<Case>, AllocError>
    ensures { IfOk result (λ r. AreAll plan.now shard reference.now r.items) }
{
    let log = reference.log.as_slice()?;
    let cases = cases(alloc, log, plan.wanted.as_slice(), plan.setup.boot.follow)?;
    let cases = listed(alloc, plan, cases)?;
    let cases = part_of(alloc, shard, cases.as_slice())?;
    let cases = by_the_end(alloc, reference, calls, cases.as_slice())?;
    Ok(cases)
}

/// The cases that are tried, and what there is beside them.
#[derive(Drop)]
pub struct Choice {
    pub cases: Vec<Case>,
    /// How many cases there are.
    pub all: usize,
    /// How many calls each site has, where not all cases are tried.
    pub sites: Vec<SiteCalls>,
}

/// The calls of the sites, where not all cases are tried.
fn untried_sites(
    alloc: Global,
    words: Words,
    reference: &Reached,
    calls: &TracedCalls,
    cases: &[Case],
) -> Result<Vec<SiteCalls>, AllocError> {
    if words.most.is_none() {
        return Ok(Vec::new(alloc));
    }
    site_calls(alloc, reference, calls, cases)
}

/// The cases that the words ask for.
pub fn wanted_cases(
    alloc: Global,
    plan: &Plan,
    words: Words,
    reference: &Reached,
    calls: &TracedCalls,
) -> Result<Choice, AllocError>
    ensures { IfOk result (λ r. AreWanted plan.now words reference.now r.cases.items) }
{
    let all = all_cases(alloc, plan, words.shard, reference, calls)?;
    let all = all.as_slice();
    let cases = chosen(alloc, words.most, reference, calls, all)?;
    let sites = untried_sites(alloc, words, reference, calls, all)?;
    Ok(Choice {
        cases,
        all: all.len(),
        sites,
    })
}

/// How many runs are made before their rows are written. Where their time is limited each thread makes one.
fn batch_size(jobs: u8, is_timed: bool) -> usize
    ensures { 0 < result }
{
    if jobs < 2 {
        1
    } else if is_timed {
        usize::from(jobs)
    } else {
        usize::from(jobs) * RUNS_A_THREAD
    }
}

/// How many of these rows there are up to the first that is a finding and isn't known.
fn first_finding(
    alloc: Global,
    plan: &Plan,
    reference: &Reached,
    calls: &TracedCalls,
    rows: &[Row],
) -> Result<Option<usize>, AllocError>
    ensures { IfOk result (IsFound plan.now.strict rows.now) }
{
    let mut count = 0;
    while count < rows.len() {
        let new = is_new(alloc, plan, reference, calls, &rows[count])?;
        count += 1;
        if new {
            return Ok(Some(count));
        }
    }
    Ok(None)
}

/// Leaves out the rows of a batch behind the first finding that isn't known, where one ends the sweep; whether it does.
fn cut(
    alloc: Global,
    plan: &Plan,
    reference: &Reached,
    calls: &TracedCalls,
    fail_fast: bool,
    batch: &mut Vec<Row>,
) -> Result<bool, AllocError>
    ensures { IfOk result (IsCut plan.now.strict fail_fast batch.old.items batch.new.items) }
{
    if !fail_fast {
        return Ok(false);
    }
    match first_finding(alloc, plan, reference, calls, batch.as_slice())? {
        Some(count) => {
            batch.truncate(count);
            Ok(true)
        }
        None => Ok(false),
    }
}

/// The cases behind so many.
fn behind(cases: &[Case], count: usize) -> &[Case]
    requires { count ≤ length cases.now }
    ensures { take count cases.now ++ result.now ≡ cases.now }
{
    let (_, rest) = cases.split_at(count);
    rest
}

/// There are runs to make, and the sweep isn't at its end, nor its time.
fn goes_on(left: &[Case], ended: bool, late: bool) -> bool
    ensures some { result ≡ true → 0 < length left.now }
    ensures none { result ≡ false → ended ≡ false → late ≡ false → left.now ≡ [] }
{
    !ended && !late && !left.is_empty()
}

/// A row in a line, in the format that the words ask for.
fn line_of(
    alloc: Global,
    matches: &ArgMatches,
    words: Words,
    plan: &Plan,
    reference: &Reached,
    calls: &TracedCalls,
    row: &Row,
) -> Result<String, Fault> {
    let told = told(alloc, matches, plan, reference, calls, row)?;
    match words.format {
        Format::Table | Format::Junit => Ok(line(alloc, &told, words.style.colors)?),
        Format::Json => match object(alloc, &told) {
            Ok(object) => Ok(object),
            Err(_) => Err(Fault::Memory),
        },
    }
}

/// Writes a batch of rows, where rows are written one by one.
fn write_rows<W: Write>(
    alloc: Global,
    matches: &ArgMatches,
    words: Words,
    plan: &Plan,
    reference: &Reached,
    calls: &TracedCalls,
    rows: &[Row],
    writer: &mut W,
) -> Result<(), Fault> {
    if !words.is_streamed() {
        return Ok(());
    }
    for row in rows {
        let line = line_of(alloc, matches, words, plan, reference, calls, row)?;
        write(alloc, line.as_str(), writer)?;
    }
    Ok(())
}

/// Makes the runs, batch by batch, and writes the rows of each.
fn make_batches<R: Files + Processes + Threads + Sync + AllocGlobal, C: Clock, W: Write, E: Write>(
    rt: &R,
    matches: &ArgMatches,
    words: Words,
    plan: &Plan,
    reference: &Reached,
    calls: &TracedCalls,
    cases: &[Case],
    leader: &mut Leader,
    checks: &mut Checks,
    writer: &mut W,
    progress: &mut ShownProgress<C, E>,
) -> Result<Vec<Row>, Fault>
    requires { IsLed plan.now.setup reference.now leader.old }
    ensures { IfOk result (λ rows. AreBegun plan.now.strict plan.now.setup reference.now words cases.now rows.items) }
{
    let size = batch_size(words.jobs, words.seconds.is_some());
    let mut rows = Vec::new(rt.alloc());
    let mut ended = false;
    let mut left = cases;
    while goes_on(left, ended, progress.is_past(words.seconds)) {
        let (first, _) = left.split_at(size.min(left.len()));
        let mut more = told_rows(rt, words, checks, &plan.setup, leader, reference, first)?;
        ended = cut(
            rt.alloc(),
            plan,
            reference,
            calls,
            words.fail_fast,
            &mut more,
        )?;
        let made = more.as_slice();
        progress.found(findings(rt.alloc(), plan, reference, calls, made)?);
        write_rows(
            rt.alloc(),
            matches,
            words,
            plan,
            reference,
            calls,
            made,
            writer,
        )?;
        left = behind(left, more.len());
        rows.append(&mut more)?;
        progress.tell(rows.len(), cases.len());
    }
    Ok(rows)
}

/// One that stands at the boot, which is accepted.
fn first_leader(alloc: Global, setup: &Setup, reference: &Reached) -> Result<Leader, AllocError>
    ensures { IfOk result (IsLed setup.now reference.now) }
{
    Leader::new(alloc, setup, reference)
}

/// Makes the runs, batch by batch, all of which one leader serves on one thread.
fn make_led<R: Files + Processes + Threads + Sync + AllocGlobal, C: Clock, W: Write, E: Write>(
    rt: &R,
    matches: &ArgMatches,
    words: Words,
    plan: &Plan,
    reference: &Reached,
    calls: &TracedCalls,
    cases: &[Case],
    checks: &mut Checks,
    writer: &mut W,
    progress: &mut ShownProgress<C, E>,
) -> Result<Vec<Row>, Fault>
    ensures { IfOk result (λ rows. AreBegun plan.now.strict plan.now.setup reference.now words cases.now rows.items) }
{
    let mut leader = first_leader(rt.alloc(), &plan.setup, reference)?;
    let made = make_batches(
        rt,
        matches,
        words,
        plan,
        reference,
        calls,
        cases,
        &mut leader,
        checks,
        writer,
        progress,
    );
    drop(leader);
    made
}

/// Makes the runs, and writes each row as it is known, where the words ask for it. Where `err` is a terminal it shows
/// how far they are.
pub fn make<
    R: Files + Clock + Processes + Threads + Sync + AllocGlobal,
    W: Write,
    E: Write + IsTerminal,
>(
    rt: &R,
    matches: &ArgMatches,
    words: Words,
    plan: &Plan,
    reference: &Reached,
    calls: &TracedCalls,
    cases: &[Case],
    checks: &mut Checks,
    writer: &mut W,
    err: &mut E,
) -> Result<Vec<Row>, Fault>
    ensures { IfOk result (λ rows. AreBegun plan.now.strict plan.now.setup reference.now words cases.now rows.items) }
{
    let is_shown = err.is_terminal();
    let mut progress = ShownProgress::new(rt.alloc(), rt, err, is_shown);
    let made = make_led(
        rt,
        matches,
        words,
        plan,
        reference,
        calls,
        cases,
        checks,
        writer,
        &mut progress,
    );
    progress.end();
    made
}
