//! The program as a function of its words, its input and its outputs.

ghost use Rattle.std.specs.Prelude.{ℕ, Result};
ghost use Rattle.front_end.specs.Statuses.{IsStatusOf};
ghost use Rattle.front_end.specs.declared.fault.Fault.{Fault as Ended};
ghost use Rattle.guest_commands.specs.Plans.{RunsWords};

use crate::drill_words::read_drills;
use crate::words::COMMAND_LINE;
use crate::{asm, plain, serving};
use clap::ArgMatches;
use front_end::{Fault, is_explained};
use std::io::{IsTerminal, Read, Write};
use std::os::fd::AsRawFd;
use std::rt::{Files, Process};
use std::sync::Wait;
use std::thread::Threads;
use std::time::Clock;

/// Does what the words ask for, the program's name first, and gives the exit status. A fault is one line on `err`; at a
/// terminal, and where the words ask for it, others explain it.
pub fn command<
    R: Files + Threads + Wait + Clock + AllocGlobal + Copy + Send + 'static,
    I: Read + IsTerminal + AsRawFd + Send + Drop + 'static,
    O: Write + Send + Drop + 'static,
    E: Write + IsTerminal + Send + Drop + 'static,
>(rt: R, process: Process, words: &[String], input: I, mut out: O, mut err: E) -> u8 {
    match COMMAND_LINE.read(rt.alloc(), words) {
        Ok(matches) => choose(rt, process, &matches, input, out, err),
        Err(no_run) => COMMAND_LINE.answer(rt.alloc(), no_run, &mut out, &mut err),
    }
}

/// Runs a program, with faults explained where the words ask for it.
fn run_plain<R: Files + AllocGlobal, I: Read + IsTerminal, O: Write, E: Write + IsTerminal>(
    rt: &R,
    matches: &ArgMatches,
    input: &mut I,
    out: &mut O,
    err: &mut E,
) -> u8
    ensures { (ended : Result ℕ Ended)
        × (RunsWords R.File.remaining matches.now (I.remaining input.old) ended × IsStatusOf ended result) }
{
    let explained = is_explained(matches, err);
    let ended = plain::run(rt, matches, explained, input, out, err);
    COMMAND_LINE.settle(ended, explained, err)
}

/// Serves a tracer, by the drills that the words ask for.
fn run_serve<
    R: Threads + Wait + Clock + AllocGlobal + Copy + Send + 'static,
    I: Read + AsRawFd + Send + Drop + 'static,
    O: Write + Send + Drop + 'static,
    E: Write + IsTerminal + Send + Drop + 'static,
>(rt: R, process: Process, matches: &ArgMatches, input: I, out: O, mut err: E) -> u8 {
    match read_drills(rt.alloc(), matches.get_strs("drill").unwrap_or(&[])) {
        Ok(drills) => serving::run(rt, process, drills, input, out, err),
        Err(fault) => COMMAND_LINE.tell(fault, &mut err),
    }
}

/// Runs the subcommand.
fn choose<
    R: Files + Threads + Wait + Clock + AllocGlobal + Copy + Send + 'static,
    I: Read + IsTerminal + AsRawFd + Send + Drop + 'static,
    O: Write + Send + Drop + 'static,
    E: Write + IsTerminal + Send + Drop + 'static,
>(rt: R, process: Process, matches: &ArgMatches, mut input: I, mut out: O, mut err: E) -> u8 {
    match matches.subcommand() {
        Some(("plain", matches)) => run_plain(&rt, matches, &mut input, &mut out, &mut err),
        Some(("asm", matches)) => {
            let explained = err.is_terminal();
            COMMAND_LINE.settle(asm::run(&rt, matches), explained, &mut err)
        }
        Some(("serve", matches)) => run_serve(rt, process, matches, input, out, err),
        _ => {
            let fault = Fault::usage(format!(in rt.alloc(); "no such command"));
            COMMAND_LINE.tell(fault, &mut err)
        }
    }
}
