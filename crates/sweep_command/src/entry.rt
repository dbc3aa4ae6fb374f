//! The program as a function of its words, its input and its outputs.

ghost use Rattle.sweep_command.specs.Reports.{AreSwept, IsSwept};

use crate::cases::sweep_cases;
use crate::sweeping::sweep;
use clap::ArgMatches;
use front_end::is_explained;
use std::env::Env;
use std::io::{IsTerminal, Read, Write};
use std::process::Processes;
use std::rt::Files;
use std::thread::Threads;
use std::time::Clock;
use sweep_words::words::COMMAND_LINE;

/// Makes the sweep that the words ask for, the program's name first, and gives the exit status. A fault is one line on
/// `err`; at a terminal, and where the words ask for it, another explains it.
pub fn command<
    R: Env + Files + Clock + Processes + Threads + Sync + AllocGlobal,
    I: Read + IsTerminal,
    O: Write + IsTerminal,
    E: Write + IsTerminal,
>(rt: &R, words: &[String], input: &mut I, out: &mut O, err: &mut E) -> u8 {
    let alloc = rt.alloc();
    match COMMAND_LINE.read(alloc, words) {
        Ok(matches) => match matches.get_str("cases") {
            Some(path) => run_cases(rt, words, &matches, path, out, err),
            None => run(rt, &matches, input, out, err),
        },
        Err(no_run) => COMMAND_LINE.answer(alloc, no_run, out, err),
    }
}

fn run<
    R: Env + Files + Clock + Processes + Threads + Sync + AllocGlobal,
    I: Read + IsTerminal,
    O: Write + IsTerminal,
    E: Write + IsTerminal,
>(rt: &R, matches: &ArgMatches, input: &mut I, out: &mut O, err: &mut E) -> u8
    ensures { IsSwept result }
{
    let explained = is_explained(matches, err);
    let ended = sweep(rt, matches, explained, input, out, err);
    COMMAND_LINE.settle(ended, explained, err)
}

/// The same of a file that has cases.
fn run_cases<
    R: Env + Files + Clock + Processes + Threads + Sync + AllocGlobal,
    O: Write + IsTerminal,
    E: Write + IsTerminal,
>(rt: &R, words: &[String], matches: &ArgMatches, path: &str, out: &mut O, err: &mut E) -> u8
    ensures { AreSwept result }
{
    let explained = is_explained(matches, err);
    let ended = sweep_cases(rt, words, matches, path, explained, out, err);
    COMMAND_LINE.settle(ended, explained, err)
}
