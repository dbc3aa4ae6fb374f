//! What a run is made of.

ghost use Rattle.std.specs.Prelude.{IfErr, IfOk};
ghost use Rattle.trace_words.specs.Plans.{IsPlan, RefusesPlan};

use crate::asked::TraceOptions;
use crate::copies::{copy_options, copy_script, copy_words};
use clap::ArgMatches;
use front_boot::read_boot;
use front_end::{Fault, check_outputs, read_expressions, read_turns};
use lx_abi::{Boot, Script, Word};
use lx_copies::Copied;
use std::alloc::{AllocError, Global};
use std::io::{IsTerminal, Read, Write};
use std::rt::Files;
use tr_core::Options;

#[derive(Drop)]
pub struct Plan {
    pub boot: Boot,
    pub script: Script,
    pub options: Options,
    /// The words of the schedule.
    pub turns: Vec<Word>,
}

impl Plan {
    ghost use Rattle.trace_words.specs.Copies.{IsSame};

    /// The same once more.
    pub fn again(&self, alloc: Global) -> Result<Plan, AllocError>
        ensures { IfOk result (IsSame self.now) }
    {
        let boot = self.boot.copy(alloc)?;
        let script = copy_script(alloc, &self.script)?;
        let options = copy_options(alloc, &self.options)?;
        let turns = copy_words(alloc, self.turns.as_slice())?;
        Ok(Plan {
            boot,
            script,
            options,
            turns,
        })
    }
}

/// Reads what the words ask for. Faults are looked for in the expressions, the schedule, the files to be written, the
/// guest's variables, its files, its input and the boot.
pub fn read_plan<R: Files + AllocGlobal, I: Read + IsTerminal, E: Write + IsTerminal>(
    rt: &R,
    matches: &ArgMatches,
    options: TraceOptions,
    input: &mut I,
    err: &mut E,
) -> Result<Plan, Fault>
    ensures plan { IfOk result (IsPlan R.File.remaining matches.now options (I.remaining input.old)) }
    ensures refused { IfErr result (RefusesPlan R.File.remaining matches.now options (I.remaining input.old)) }
{
    let expressions = read_expressions(rt.alloc(), matches)?;
    let turns = read_turns(rt, matches.get_str("turns"))?;
    check_outputs(rt, matches)?;
    let boot = read_boot(rt, "strace_cli", matches, options.follow, input, err)?;
    Ok(Plan {
        boot,
        script: expressions.script,
        options: Options {
            follow: options.follow,
            shown: expressions.shown,
            string_limit: options.string_limit,
            width: options.column,
        },
        turns,
    })
}
