//! The files that a program is told to write.

ghost use Rattle.std.specs.Prelude.{◌≡◌, IfErr};
ghost use Rattle.front_end.specs.Refusals as spec;
ghost use Rattle.front_end.specs.Refusals.{RefusesOutput, RefusesOutputs};
ghost use Rattle.front_end.specs.Texts.{IsAbout};

use crate::fault::Fault;
use crate::leavings::{check_directory, check_list};
use crate::shown::Shown;
use crate::streams::check_given_stream;
use clap::ArgMatches;
use std::alloc::{AllocError, Global};
use std::io;
use std::rt::Files;

/// A file that a program is told to write.
#[derive(Clone, Copy, Debug, PartialEq, Eq)]
pub enum Output {
    /// The trace, or the report of a sweep.
    Trace,
    /// The turns of a run.
    Turns,
    /// The list of the files that a run leaves.
    Files,
    /// The findings of a sweep, as they are known.
    Known,
}

/// In the order in which they are looked at.
const OUTPUTS: [Output; 4] = [Output::Trace, Output::Turns, Output::Files, Output::Known];

impl Output {
    /// The option that names it, for the parser.
    fn id(self) -> &'static str
        ensures { result.now ≡ spec.id_of self }
    {
        match self {
            Output::Trace => "output",
            Output::Turns => "turns-out",
            Output::Files => "files-list",
            Output::Known => "known-out",
        }
    }

    /// The option as it is typed.
    fn option(self) -> &'static str
        ensures { result.now ≡ spec.option_of self }
    {
        match self {
            Output::Trace => "-o",
            Output::Turns => "--turns-out",
            Output::Files => "--files-list",
            Output::Known => "--known-out",
        }
    }
}

/// The folder of a path, and the name in it.
fn parted(path: &str) -> (&str, &str) {
    match path.rsplit_once('/') {
        Some(("", name)) => ("/", name),
        Some(parts) => parts,
        None => (".", path),
    }
}

/// The place of a file, however its path is spelled: with links followed, if they lead to one. A path that can't be
/// followed stays as it is.
fn place_of<R: Files + AllocGlobal>(rt: &R, path: &str) -> Result<String, AllocError> {
    let alloc = rt.alloc();
    if let Ok(place) = rt.canonicalize(alloc, path) {
        return Ok(place.into_string());
    }
    let (folder, name) = parted(path);
    match rt.canonicalize(alloc, folder) {
        Ok(folder) => format!(in alloc; "{}/{name}", folder.into_string()),
        Err(_) => String::from_str(alloc, path),
    }
}

/// Two paths lead to one file. Streams and devices take the bytes of several.
fn are_same<R: Files + AllocGlobal>(rt: &R, one: &str, other: &str) -> Result<bool, AllocError> {
    if one.starts_with("/dev/") || other.starts_with("/dev/") {
        return Ok(false);
    }
    if one == other {
        return Ok(true);
    }
    let one = place_of(rt, one)?;
    let other = place_of(rt, other)?;
    Ok(one.as_str() == other.as_str())
}

/// The output before this place that is written to the same file.
fn same_file<R: Files + AllocGlobal>(
    rt: &R,
    matches: &ArgMatches,
    place: usize,
    path: &str,
) -> Result<Option<Output>, AllocError> {
    for output in OUTPUTS.iter().take(place) {
        if let Some(other) = matches.get_str(output.id()) {
            if are_same(rt, path, other)? {
                return Ok(Some(*output));
            }
        }
    }
    Ok(None)
}

/// An output that stands open and can't be written.
fn unwritable(alloc: Global, option: &str, path: &str, error: io::Error) -> Fault
    ensures { IsAbout option.now result }
{
    Fault::about(
        alloc,
        option,
        format!(in alloc; " {}: {error}", Shown(path)),
    )
}

fn check_output<R: Files + AllocGlobal>(
    rt: &R,
    matches: &ArgMatches,
    place: usize,
    output: Output,
) -> Result<(), Fault>
    ensures { IfErr result (RefusesOutput matches.now output) }
{
    let alloc = rt.alloc();
    let option = output.option();
    let Some(path) = matches.get_str(output.id()) else {
        return Ok(());
    };
    if path.is_empty() {
        let text = format!(in alloc; ": the name of the file is empty");
        return Err(Fault::about(alloc, option, text));
    }
    if let Err(error) = check_given_stream(path) {
        return Err(unwritable(alloc, option, path, error));
    }
    match same_file(rt, matches, place, path) {
        Ok(None) => Ok(()),
        Ok(Some(other)) => {
            let other = other.option();
            let text = format!(in alloc; " {}: {other} writes to the same file", Shown(path));
            Err(Fault::about(alloc, option, text))
        }
        Err(_) => Err(Fault::Memory),
    }
}

/// Each output has a name, and a file of its own; files that a run leaves have a directory that is empty, and a list
/// that can be written. A stream that is named by its number was given to the program: this is asked before any is
/// opened.
pub fn check_outputs<R: Files + AllocGlobal>(rt: &R, matches: &ArgMatches) -> Result<(), Fault>
    ensures { IfErr result (RefusesOutputs matches.now) }
{
    for (place, output) in OUTPUTS.iter().enumerate() {
        check_output(rt, matches, place, *output)?;
    }
    check_directory(rt, matches)?;
    check_list(rt, matches)?;
    Ok(())
}
