//! What the command line asks for.

use clap::ArgMatches;
use front_end::{CommandLine, CommandRow, Fault, Operands, Shown, Tool, expression_words, number};
use std::alloc::Global;

const NOTES: &str = "Which calls are to fail, after -e:
  fault=SET               with each error that the call can have there, by its descriptor and its flags
  fault=SET:error=E,..    with these errors (a name, or 1 to 4095)
  deep=SET[:error=E,..]   behind a failure which the program bore one of these fails too, with each of these errors, or
                          with the first that it can have there
  stop=SET                no call has an error: all ends as one of these is entered, as where the power fails
  kill=SET                likewise, but SIGKILL ends its process there, and others go on
  short=SET               likewise, but a read or write is done with one byte, and with half of its bytes
  WORLD=SET               from one of these on calls fail as in this world, but console and pipes go on:
                          full, broken or read-only, as the disk is (ENOSPC, EIO, EROFS), no-files where no
                          descriptor is left (EMFILE), no-memory (ENOMEM)
  SET    names joined by commas, as write or ?name; %file, %desc, %process, %signal, %memory; /REGEX; all; none;
         a ! in front takes all others
Without -e it is fault=all.

In each run one occurrence of one call fails, with deep= two, and nothing else is changed. What came of it, the findings
first, in capitals:
  HUNG       a process did not end
  KILLED     a signal ended process 1
  BROKEN     the check of the files that were left failed
  TORN       a file that was there is destroyed
  LOST       something else is missing or other, and nothing said so
  DROPPED    an error of close, which tells that data was lost, had no effect
  damaged    a file that was there is destroyed, and another has its content
  warned     something is missing or other, or nothing is, and something was said
  reported   process 1 ended with another code
  recovered  all is as without the failure, by other calls
  ignored    and by the same calls
  whole      with stop= or kill= no file that was there is destroyed, or the program of --then exits with 0
The report has the calls with findings, damaged and warned runs: each with its occurrences, what came of which errors,
and the words by which the first of these runs is shown. Below stand the command that shows the first
finding, and in the last line how many runs came to what: a report without it was cut.

With --orders no call fails, and each run has its own order of turns: the default one, and then by turns one that is
drawn, step by step until the run ends, and one with a switch to another process where a call returned, those first
that are far apart. Each line is a result, with how many different orders had it and the words of --turns by which a
shortest of them has it.

The status is 0 where no run is a finding, else 1 (with --orders where a run did not end or the check failed, with --one
where there are two results); 2 for words, files or a boot at fault, 3 for an output or for memory, 4 where the run
without a failure is out of turns.

Examples: make each write fail with EINTR; try 100 orders of turns
  strace_sweep -e fault=write:error=EINTR --file /p=hello -- /p </dev/null
  strace_sweep --orders 100 --keep . --file /p=letters -- /p </dev/null";

/// The most threads, orders of turns, and parts of a sweep.
const MOST_JOBS: u64 = 8;

const MOST_ORDERS: u64 = 1_000_000;

const MOST_SHARDS: u64 = 65_536;

/// The most runs that are asked for, and seconds.
const MOST_RUNS: u64 = 1_000_000_000;

const MOST_SECONDS: u64 = 1_000_000_000;

/// How the report is written.
#[derive(Clone, Copy, Debug, PartialEq, Eq)]
pub enum Format {
    Table,
    Json,
    Junit,
}

/// How a report is written.
#[derive(Clone, Copy, Debug, PartialEq, Eq)]
pub struct Style {
    /// A line a run.
    pub each: bool,
    /// With what is no more than reported.
    pub all: bool,
    pub colors: bool,
}

/// That of `strace_sweep`.
pub const COMMAND_LINE: CommandLine = CommandLine {
    name: "strace_sweep",
    row: CommandRow {
        name: "strace_sweep",
        about: "Makes each call of a modelled RV64I guest fail in turn, and tells what came of it",
        notes: Some(NOTES),
        takes: Operands::Program(Tool::Sweep),
    },
    commands: &[],
    takes_last: true,
};

/// The format that the words ask for.
fn format_of(alloc: Global, matches: &ArgMatches) -> Result<Format, Fault> {
    match matches.get_str("format") {
        None | Some("table") => Ok(Format::Table),
        Some("json") => Ok(Format::Json),
        Some("junit") => Ok(Format::Junit),
        Some(other) => Err(Fault::usage(format!(in alloc;
            "--format {}: not table, json or junit",
            Shown(other)
        ))),
    }
}

/// A number in decimal digits alone, which isn't 0.
fn count_in(digits: &str) -> Option<u64> {
    if digits.starts_with('+') {
        return None;
    }
    digits.parse().ok().filter(|count: &u64| *count > 0)
}

/// The number that an option gives, from 1 to the most.
fn count_of(
    alloc: Global,
    option: &str,
    digits: Option<&str>,
    most: u64,
) -> Result<Option<u64>, Fault> {
    let Some(digits) = digits else {
        return Ok(None);
    };
    match count_in(digits) {
        Some(count) if count <= most => Ok(Some(count)),
        Some(_) | None => Err(Fault::usage(format!(in alloc;
            "{option} {}: not a number from 1 to {most}",
            Shown(digits)
        ))),
    }
}

/// On how many threads the runs are made.
fn jobs_of(alloc: Global, matches: &ArgMatches) -> Result<u8, Fault> {
    let count = count_of(alloc, "--jobs", matches.get_str("jobs"), MOST_JOBS)?;
    Ok(u8::try_from(count.unwrap_or(1)).unwrap_or(1))
}

/// How many orders of turns are tried, and from which seed.
#[derive(Clone, Copy, Debug, PartialEq, Eq)]
pub struct Orders {
    pub count: usize,
    pub seed: u64,
    /// There is to be one result.
    pub one: bool,
}

/// The runs of a part of a sweep: so many are left out before the first of them, and between two.
#[derive(Clone, Copy, Debug, PartialEq, Eq)]
pub struct Shard {
    pub before: usize,
    pub between: usize,
}

/// The shard of `K/N`.
fn shard_in(text: &str) -> Option<Shard> {
    let (number, all) = text.split_once('/')?;
    let (number, all) = (count_in(number)?, count_in(all)?);
    if number > all || all > MOST_SHARDS {
        return None;
    }
    Some(Shard {
        before: number.saturating_sub(1) as usize,
        between: all.saturating_sub(1) as usize,
    })
}

/// The part of the sweep that the words ask for, if they don't ask for all.
fn shard_of(alloc: Global, matches: &ArgMatches) -> Result<Option<Shard>, Fault> {
    let Some(text) = matches.get_str("shard") else {
        return Ok(None);
    };
    match shard_in(text) {
        Some(shard) => Ok(Some(shard)),
        None => Err(Fault::usage(format!(in alloc;
            "--shard {}: not K/N, with K from 1 to N, and N to {MOST_SHARDS}",
            Shown(text)
        ))),
    }
}

/// The most runs, where not all are to be made. Where only their time is limited it is more than there are.
fn most_of(
    alloc: Global,
    matches: &ArgMatches,
    seconds: Option<u64>,
) -> Result<Option<usize>, Fault> {
    let most = count_of(alloc, "--max-runs", matches.get_str("max-runs"), MOST_RUNS)?;
    match most {
        Some(most) => Ok(Some(most as usize)),
        None => Ok(seconds.map(|_| usize::MAX)),
    }
}

/// Options that have no meaning where no call fails.
fn check_failures(alloc: Global, matches: &ArgMatches) -> Result<(), Fault> {
    for option in ["known", "known-out", "shard", "max-runs", "time", "runs"] {
        if matches.get_str(option).is_some() {
            return Err(Fault::usage(format!(in alloc;
                "--orders excludes --{option}: no call fails"
            )));
        }
    }
    if matches.get_str("format") == Some("junit") {
        return Err(Fault::usage(format!(in alloc;
            "--orders excludes --format junit: no call fails"
        )));
    }
    if matches.get_flag("fail-fast") {
        return Err(Fault::usage(format!(in alloc; "--orders excludes --fail-fast: no call fails")));
    }
    Ok(())
}

/// What `--orders` stands in the place of.
fn check_orders(alloc: Global, matches: &ArgMatches) -> Result<(), Fault> {
    if matches.get_str("turns").is_some() {
        return Err(Fault::usage(format!(in alloc;
            "--orders excludes --turns: each run has an order of its own"
        )));
    }
    if !expression_words(alloc, matches)?.is_empty() {
        return Err(Fault::usage(format!(in alloc; "--orders excludes -e: no call fails")));
    }
    if matches.get_str("keep") == Some("") {
        return Err(Fault::usage(format!(in alloc; "--keep: the name of the directory is empty")));
    }
    check_failures(alloc, matches)
}

/// Options that have no meaning without `--orders`.
fn check_no_orders(alloc: Global, matches: &ArgMatches) -> Result<(), Fault> {
    let one = if matches.get_flag("one") {
        Some("")
    } else {
        None
    };
    let options = [
        ("seed", matches.get_str("seed")),
        ("keep", matches.get_str("keep")),
        ("one", one),
    ];
    for (option, value) in options {
        if value.is_some() {
            return Err(Fault::usage(format!(in alloc;
                "--{option}: without --orders no order of turns is tried"
            )));
        }
    }
    Ok(())
}

/// The orders of turns that the words ask for, if they do.
fn orders_of(alloc: Global, matches: &ArgMatches) -> Result<Option<Orders>, Fault> {
    let seed = number(alloc, "--seed", matches.get_str("seed"), u64::MAX, 0)?;
    let Some(count) = count_of(alloc, "--orders", matches.get_str("orders"), MOST_ORDERS)? else {
        check_no_orders(alloc, matches)?;
        return Ok(None);
    };
    check_orders(alloc, matches)?;
    Ok(Some(Orders {
        count: count as usize,
        seed,
        one: matches.get_flag("one"),
    }))
}

/// What the words ask for beside the runs' setup.
#[derive(Clone, Copy, Debug, PartialEq, Eq)]
pub struct Words {
    pub format: Format,
    pub style: Style,
    pub jobs: u8,
    pub orders: Option<Orders>,
    pub shard: Option<Shard>,
    /// No more runs are made once one is a finding.
    pub fail_fast: bool,
    /// The most runs. Those that are likely to show something new come first then.
    pub most: Option<usize>,
    /// No run begins once so many seconds are over.
    pub seconds: Option<u64>,
    /// A command decides whether the files that runs leave are fine.
    pub is_checked: bool,
}

impl Words {
    /// Each run is written as soon as it is made.
    pub fn is_streamed(self) -> bool {
        if self.orders.is_some() {
            return false;
        }
        match self.format {
            Format::Table => self.style.each,
            Format::Json => true,
            Format::Junit => false,
        }
    }
}

/// `colors`: the report may have them.
pub fn words_of(alloc: Global, matches: &ArgMatches, colors: bool) -> Result<Words, Fault> {
    let seconds = count_of(alloc, "--time", matches.get_str("time"), MOST_SECONDS)?;
    Ok(Words {
        format: format_of(alloc, matches)?,
        style: Style {
            each: matches.get_flag("each"),
            all: matches.get_flag("all"),
            colors,
        },
        jobs: jobs_of(alloc, matches)?,
        orders: orders_of(alloc, matches)?,
        shard: shard_of(alloc, matches)?,
        fail_fast: matches.get_flag("fail-fast"),
        most: most_of(alloc, matches, seconds)?,
        seconds,
        is_checked: matches.get_str("check").is_some(),
    })
}
