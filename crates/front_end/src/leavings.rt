//! What a run leaves in the guest's files: written to a directory, and listed.

ghost use Rattle.std.specs.Prelude.{◌≡◌, ◌++◌, ◌==◌, true, IfErr, IfOk, IfSome, string_bytes};
ghost use Rattle.std.specs.List.{list_any, slice_split};
ghost use Rattle.front_end.specs.Leavings as spec;
ghost use Rattle.front_end.specs.Refusals.{RefusesDirectory, RefusesList};

use crate::fault::Fault;
use crate::replacing::{check_file, replace_file};
use crate::shown::Shown;
use clap::ArgMatches;
use containers::Bytes;
use lx_abi::{Node, Outcome, OutcomeFile};
use std::alloc::{AllocError, Global};
use std::fs::{self, File};
use std::io::{self, ErrorKind, Read, Write};
use std::rt::Files;

/// Where the files go, and their list.
#[derive(Clone, Copy, Debug)]
pub struct Leavings<'a> {
    directory: Option<&'a str>,
    list: Option<&'a str>,
}

impl<'a> Leavings<'a> {
    /// What the words ask for.
    pub fn of(matches: &ArgMatches<'a>) -> Self {
        Leavings {
            directory: matches.get_str("files-out"),
            list: matches.get_str("files-list"),
        }
    }

    /// The words ask for some.
    pub fn are_wanted(self) -> bool {
        self.directory.is_some() || self.list.is_some()
    }

    /// Writes what a run has left.
    pub fn write<R: Files + AllocGlobal>(self, rt: &R, outcome: &Outcome) -> Result<(), Fault> {
        let files = outcome.files.as_slice()?;
        if let Some(directory) = self.directory {
            write_files(rt, directory, files)?;
        }
        match self.list {
            Some(path) => write_list(rt, path, files),
            None => Ok(()),
        }
    }
}

/// Names, each ended by a NUL, are those of a directory itself and of its parent alone.
fn are_own(names: &[u8]) -> bool {
    names
        .split(|byte| *byte == 0)
        .all(|name| matches!(name, b"" | b"." | b".."))
}

/// A directory has no names but its own and its parent's.
fn is_empty<R: Files>(rt: &R, directory: &str) -> io::Result<bool> {
    let mut names = rt.open_dir(directory)?;
    let mut room = [0u8; 1024];
    for _ in 0..u64::MAX {
        let count = names.read(&mut room)?;
        if count == 0 {
            return Ok(true);
        }
        if !are_own(&room[..count]) {
            return Ok(false);
        }
    }
    Ok(false)
}

/// The directory that the files go to can be read, and is empty.
pub fn check_directory<R: Files + AllocGlobal>(rt: &R, matches: &ArgMatches) -> Result<(), Fault>
    ensures { IfErr result (RefusesDirectory matches.now) }
{
    let alloc = rt.alloc();
    let Some(directory) = matches.get_str("files-out") else {
        return Ok(());
    };
    let shown = Shown(directory);
    match is_empty(rt, directory) {
        Ok(true) => Ok(()),
        Ok(false) => {
            let text = format!(in alloc; "{shown}: the directory isn't empty");
            Err(Fault::about(alloc, "--files-out ", text))
        }
        Err(error) => Err(Fault::file_of(alloc, "--files-out ", shown, error)),
    }
}

/// The list of the files can be written.
pub fn check_list<R: Files + AllocGlobal>(rt: &R, matches: &ArgMatches) -> Result<(), Fault>
    ensures { IfErr result (RefusesList matches.now) }
{
    let Some(path) = matches.get_str("files-list") else {
        return Ok(());
    };
    match check_file(rt, path) {
        Ok(()) => Ok(()),
        Err(error) => Err(Fault::file_of(rt.alloc(), "--files-list ", Shown(path), error)),
    }
}

/// A name that leads nowhere, or up.
#[tactic(auto, unfolding(crate::specs::Leavings::is_no_name))]
fn is_no_name(part: &[u8]) -> bool
    ensures { result ≡ spec.is_no_name part.now }
{
    part == b"".as_slice() || part == b".".as_slice() || part == b"..".as_slice()
}

fn has_no_name(parts: &[u8]) -> bool
    ensures { result ≡ list_any spec.is_no_name (slice_split (λ c. c == 47) parts.now) }
{
    parts
        .split(|byte| *byte == b'/')
        .any(|part| is_no_name(part))
}

fn has_nul(path: &[u8]) -> bool
    ensures { result ≡ list_any (λ c. c == 0) path.now }
{
    path.iter().any(|byte| *byte == 0)
}

/// A path that leads from a directory to a place below it.
#[tactic(auto, unfolding(crate::specs::Leavings::is_below))]
fn is_below(path: &[u8]) -> bool
    ensures { result ≡ spec.is_below path.now }
{
    match path.split_first() {
        Some((b'/', rest)) => !has_no_name(rest) && !has_nul(rest),
        _ => false,
    }
}

/// The place of a guest's path below a directory, if it leads there.
fn place_of(alloc: Global, directory: &str, path: &[u8]) -> Result<Option<String>, AllocError>
    ensures below { IfOk result (λ place. IfSome place (λ _. spec.is_below path.now ≡ true)) }
    ensures place { IfOk result (λ place. IfSome place (λ place. string_bytes place ≡ directory.now ++ path.now)) }
{
    if !is_below(path) {
        return Ok(None);
    }
    let Ok(path) = str::from_utf8(path) else {
        return Ok(None);
    };
    let mut place = String::from_str(alloc, directory)?;
    place.push_str(path)?;
    Ok(Some(place))
}

/// Makes what isn't there yet, through no link.
fn make<R: Files>(rt: &R, path: &str, node: &Node) -> io::Result<()> {
    match node {
        Node::Directory => fs::create_dir(rt, path),
        Node::File(content) => {
            let mut file = File::create_new(rt, path)?;
            file.write_all(content.as_slice())
        }
    }
}

/// What can't be written, by the option that asks for it.
fn unwritten(alloc: Global, option: &str, path: &str, error: io::Error) -> Fault {
    if error.kind() == ErrorKind::OutOfMemory {
        return Fault::Memory;
    }
    Fault::output(format!(in alloc; "{option} {}: {error}", Shown(path)))
}

fn write_file<R: Files + AllocGlobal>(
    rt: &R,
    directory: &str,
    file: &OutcomeFile,
) -> Result<(), Fault> {
    let alloc = rt.alloc();
    let path = file.path.as_slice();
    if path == b"/".as_slice() {
        return Ok(());
    }
    let Some(there) = place_of(alloc, directory, path)? else {
        let escaped = escaped(alloc, &file.path)?;
        return Err(Fault::output(format!(in alloc;
            "--files-out {}: the guest's path {escaped} can't be written there",
            Shown(directory)
        )));
    };
    match make(rt, there.as_str(), &file.node) {
        Ok(()) => Ok(()),
        Err(error) => Err(unwritten(alloc, "--files-out", there.as_str(), error)),
    }
}

/// A fault behind which so many files and directories of all were written.
fn cut_short(alloc: Global, fault: Fault, written: usize, all: usize) -> Fault {
    match fault {
        Fault::Output(text) => Fault::output(format!(in alloc;
            "{text}; {written} of {all} files and directories were written"
        )),
        fault => fault,
    }
}

/// Makes each file and directory. Paths come in the order of their bytes, so a directory comes before what is in it.
fn write_files<R: Files + AllocGlobal>(
    rt: &R,
    directory: &str,
    files: &[OutcomeFile],
) -> Result<(), Fault> {
    for (written, file) in files.iter().enumerate() {
        match write_file(rt, directory, file) {
            Ok(()) => {}
            Err(fault) => return Err(cut_short(rt.alloc(), fault, written, files.len())),
        }
    }
    Ok(())
}

/// A path in one line: a byte that isn't a printable character of ASCII, or a backslash, is `\` and three octal digits.
pub fn escaped(alloc: Global, path: &Bytes) -> Result<String, AllocError> {
    let mut line = String::new(alloc);
    for byte in path.as_slice().iter().copied() {
        if matches!(byte, b' '..=b'~') && byte != b'\\' {
            line.push(char::from(byte))?;
        } else {
            let digits = format!(in alloc; "\\{byte:03o}")?;
            line.push_str(digits.as_str())?;
        }
    }
    Ok(line)
}

/// The line of a file: its length, or `-` for a directory, and its path.
fn line_of(alloc: Global, file: &OutcomeFile) -> Result<String, AllocError> {
    let path = escaped(alloc, &file.path)?;
    match &file.node {
        Node::File(content) => format!(in alloc; "{} {path}\n", content.len()),
        Node::Directory => format!(in alloc; "- {path}\n"),
    }
}

fn list_of(alloc: Global, files: &[OutcomeFile]) -> Result<String, AllocError> {
    let mut list = String::new(alloc);
    for file in files {
        let line = line_of(alloc, file)?;
        list.push_str(line.as_str())?;
    }
    Ok(list)
}

fn write_list<R: Files + AllocGlobal>(
    rt: &R,
    path: &str,
    files: &[OutcomeFile],
) -> Result<(), Fault> {
    let list = list_of(rt.alloc(), files)?;
    match replace_file(rt, path, list.as_bytes()) {
        Ok(()) => Ok(()),
        Err(error) => Err(unwritten(rt.alloc(), "--files-list", path, error)),
    }
}
