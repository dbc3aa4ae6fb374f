//! Options that words don't give as they may.

ghost use Rattle.std.specs.Prelude.{codes};
ghost use Rattle.front_end.specs.Texts.{IsAbout, Says};
ghost use Rattle.trace_words.specs.OptionFaults.{IsToldBy};

use crate::options::{MOST_COLUMN, MOST_EVENTS, MOST_SECONDS, MOST_STRING, MOST_WORKERS};
use clap::ArgMatches;
use front_end::{Fault, Shown, limit_of, malformed};
use std::alloc::Global;

/// Why options ask for no run, in the order in which they are looked at.
#[derive(Clone, Copy, Debug, PartialEq, Eq)]
pub enum OptionFault {
    /// `-o` names a command, as it may in strace(1).
    Command,
    /// `--host-arg` without a host.
    HostWords,
    /// `--host-timeout` without a host.
    HostTime,
    /// The value of `-s`.
    StringLimit,
    /// The value of `--limit`.
    Limit,
    /// `-f` twice.
    FollowTwice,
    /// The value of `-a`.
    Column,
    /// `--workers` beside `--host`.
    WorkersAndHost,
    /// `--workers` beside `--turns`.
    WorkersAndTurns,
    /// The value of `--workers`.
    Workers,
    /// The value of `--limit`, with `--workers`.
    WorkersLimit,
    /// The value of `--host-timeout`.
    Patience,
}

const HOST_WORDS: &str = "--host-arg: without --host there is no host to hand words to";

const HOST_TIME: &str = "--host-timeout: without --host there is no host to wait for";

const FOLLOW_TWICE: &str = "-ff is strace's (writes a file for each process) and not here";

const WORKERS_AND_HOST: &str =
    "--workers excludes --host: threads of this process make the turns, in an order of their own";

const WORKERS_AND_TURNS: &str =
    "--workers excludes --turns: threads of this process make the turns, in an order of their own";

fn usage(alloc: Global, text: &str) -> Fault
    ensures { Says text.now result }
{
    Fault::usage(format!(in alloc; "{text}"))
}

/// `-o` names a command.
fn command(alloc: Global, name: Option<&str>) -> Fault
    ensures { IsAbout (codes "-o ") result }
{
    let name = Shown(name.unwrap_or(""));
    let text = format!(in alloc;
        "{name}: a command, which strace takes and this program doesn't; give a file"
    );
    Fault::about(alloc, "-o ", text)
}

/// The limit is none of a run on threads.
fn workers_limit(alloc: Global, limit: Option<&str>) -> Fault
    ensures { IsAbout (codes "--limit") result }
{
    let limit = limit_of(limit).unwrap_or(0);
    let text = format!(in alloc; " {limit}: with --workers not a number from 1 to {MOST_EVENTS}");
    Fault::about(alloc, "--limit", text)
}

impl OptionFault {
    /// The fault, with the value that it is found in.
    pub fn told(self, alloc: Global, matches: &ArgMatches) -> Fault
        ensures { IsToldBy self result }
    {
        match self {
            OptionFault::Command => command(alloc, matches.get_str("output")),
            OptionFault::HostWords => usage(alloc, HOST_WORDS),
            OptionFault::HostTime => usage(alloc, HOST_TIME),
            OptionFault::StringLimit => {
                malformed(
                    alloc,
                    "-s",
                    matches.get_str("string-limit"),
                    0,
                    u64::from(MOST_STRING),
                )
            }
            OptionFault::Limit => malformed(
                alloc,
                "--limit",
                matches.get_str("limit"),
                0,
                u64::MAX,
            ),
            OptionFault::FollowTwice => usage(alloc, FOLLOW_TWICE),
            OptionFault::Column => {
                malformed(
                    alloc,
                    "-a",
                    matches.get_str("columns"),
                    0,
                    u64::from(MOST_COLUMN),
                )
            }
            OptionFault::WorkersAndHost => usage(alloc, WORKERS_AND_HOST),
            OptionFault::WorkersAndTurns => usage(alloc, WORKERS_AND_TURNS),
            OptionFault::Workers => {
                malformed(
                    alloc,
                    "--workers",
                    matches.get_str("workers"),
                    1,
                    u64::from(MOST_WORKERS),
                )
            }
            OptionFault::WorkersLimit => workers_limit(alloc, matches.get_str("limit")),
            OptionFault::Patience => {
                let seconds = matches.get_str("host-timeout");
                malformed(alloc, "--host-timeout", seconds, 1, u64::from(MOST_SECONDS))
            }
        }
    }
}
