//! What a sweep is made of.

ghost use Rattle.std.specs.Prelude.{IfOk};
ghost use Rattle.sweep_words.specs.Plans.{IsPlan};

use crate::deep::read_deep;
use crate::known::read_known;
use crate::named::{NamedLine, read_named};
use crate::trials::{Second, Tried, read_second, read_tried};
use crate::wanted::read_calls;
use clap::ArgMatches;
use front_boot::read_boot;
use front_end::{Fault, limit, read_turns};
use std::io::{IsTerminal, Read, Write};
use std::rt::Files;
use sweep_rows::{Setup, Wanted};

#[derive(Drop)]
pub struct Plan {
    pub setup: Setup,
    pub wanted: Vec<Wanted>,
    /// The runs are those that a file names, and no others.
    pub is_listed: bool,
    pub named: Vec<NamedLine>,
    /// No call has an error: this happens at each entry into one of these.
    pub tried: Option<Tried>,
    /// Behind a failure that the program bore one of these fails too.
    pub deep: Option<Wanted>,
    /// It is started then on the files that are left.
    pub second: Option<Second>,
    /// The findings that are known, as lines of a file name them.
    pub known: Vec<String>,
    /// Runs that were damaged or warned are findings too.
    pub strict: bool,
    /// The name of the case, where a file has several.
    pub case: Option<String>,
}

/// Reads what the words ask for. Faults are looked for in the limit, the file of runs, the expressions, the known
/// findings, the schedule, the guest's variables, its files, the input and the boot.
pub fn read_plan<R: Files + AllocGlobal, I: Read + IsTerminal, E: Write + IsTerminal>(
    rt: &R,
    matches: &ArgMatches,
    input: &mut I,
    err: &mut E,
) -> Result<Plan, Fault>
    ensures { IfOk result (IsPlan R.File.remaining matches.now (I.remaining input.old)) }
{
    let limit = limit(rt.alloc(), matches)?;
    let named = read_named(rt, matches)?;
    let is_listed = matches.get_str("runs").is_some();
    let tried = read_tried(rt.alloc(), matches)?;
    let wanted = read_calls(rt.alloc(), matches, named.as_slice(), tried.is_some())?;
    let deep = read_deep(rt.alloc(), matches)?;
    let is_tried = tried.is_some() || deep.is_some();
    let second = read_second(rt.alloc(), matches, is_tried, limit)?;
    let known = read_known(rt, matches)?;
    let turns = read_turns(rt, matches.get_str("turns"))?;
    let follow = matches.get_flag("follow");
    let boot = read_boot(rt, "strace_sweep", matches, follow, input, err)?;
    Ok(Plan {
        setup: Setup { boot, turns, limit },
        wanted,
        is_listed,
        named,
        tried,
        deep,
        second,
        known,
        strict: matches.get_flag("strict"),
        case: None,
    })
}
