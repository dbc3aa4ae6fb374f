//! The runs that a file names, a line each, in the words of `--show`.

ghost use Rattle.std.specs.Prelude.{◌≡◌, ◌++◌, IfErr, OnOk, codes};
ghost use Rattle.front_end.specs.Texts.{IsAboutLine, Says};
ghost use Rattle.sweep_words.specs.Named.{RefusesBeside, RefusesLine, RefusesNamed, named_at};

use crate::known::is_remark;
use crate::show::{NamedRun, named_run};
use clap::ArgMatches;
use front_end::{Fault, Shown, expression_words, read_text};
use std::alloc::Global;
use std::rt::Files;

/// The most bytes of a file of runs.
const MOST_NAMED: u64 = 16_777_216;

/// A run, and the number of the line that names it, the first being 1.
#[derive(Clone, Copy, Debug, PartialEq, Eq)]
pub struct NamedLine {
    pub line: usize,
    pub run: NamedRun,
}

fn excluded(alloc: Global, option: &str) -> Fault
    ensures { Says (codes "--runs excludes " ++ (option.now ++ codes ": the file names the runs")) result }
{
    Fault::usage(format!(in alloc; "--runs excludes {option}: the file names the runs"))
}

/// No words name errors.
fn check_errors(alloc: Global, matches: &ArgMatches) -> Result<(), Fault>
    ensures { IfErr result (RefusesBeside matches.now) }
{
    if matches.get_str("errors").is_some() {
        return Err(excluded(alloc, "--errors"));
    }
    Ok(())
}

/// Options that have no meaning where a file names the runs.
fn check(alloc: Global, matches: &ArgMatches) -> Result<(), Fault>
    ensures { IfErr result (RefusesBeside matches.now) }
{
    let texts = expression_words(alloc, matches)?;
    if texts.is_empty() {
        return check_errors(alloc, matches);
    }
    Err(excluded(alloc, "-e"))
}

/// The fault of a line of a file.
pub fn refuse_line(alloc: Global, path: &str, line: usize, reason: &str) -> Fault
    ensures { IsAboutLine (codes "--runs ") line result }
{
    Fault::line_of(alloc, "--runs ", Shown(path), line, reason)
}

/// Adds the run that a line names; blank ones, and those that begin with a `#`, name none.
fn add_line(
    named: &mut Vec<NamedLine>,
    alloc: Global,
    path: &str,
    line: usize,
    text: &str,
) -> Result<(), Fault>
    ensures added { OnOk result (named.new.items ≡ named.old.items ++ named_at line text.now) }
    ensures refused { IfErr result (RefusesLine line text.now) }
{
    let text = text.trim();
    if is_remark(text) {
        return Ok(());
    }
    let Some(run) = named_run(text) else {
        let reason = "not CALL:ERROR:N or CALL@PID:ERROR:N, as write:EIO:2";
        return Err(refuse_line(alloc, path, line, reason));
    };
    named.push(NamedLine { line, run })?;
    Ok(())
}

/// The runs that the file of `--runs` names; none, where the words have no such file.
pub fn read_named<R: Files + AllocGlobal>(
    rt: &R,
    matches: &ArgMatches,
) -> Result<Vec<NamedLine>, Fault>
    ensures { IfErr result (RefusesNamed matches.now) }
{
    let alloc = rt.alloc();
    let mut named = Vec::new(alloc);
    let Some(path) = matches.get_str("runs") else {
        return Ok(named);
    };
    check(alloc, matches)?;
    let text = read_text(rt, "--runs ", path, MOST_NAMED)?;
    let mut line: usize = 0;
    for text in text.lines() {
        line = line.saturating_add(1);
        add_line(&mut named, alloc, path, line, text)?;
    }
    Ok(named)
}
