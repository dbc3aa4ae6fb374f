//! Checks of the files that runs leave: a command of the host's is run once where each different set of them is.

use front_end::{Fault, Shown};
use lx_abi::{Node, OutcomeFile};
use std::alloc::{AllocError, Global};
use std::fs::{self, File};
use std::io::{self, ErrorKind, Write};
use std::process::{Command, Processes, Stdio};
use std::rt::Files;

/// The most directories of this name that are tried.
const MOST_NAMES: u32 = 10_000;

/// Whether files were fine, by all in which they differ from others.
#[derive(Drop)]
struct Answer {
    differing: Vec<u8>,
    fine: bool,
}

/// The answers of a command.
#[derive(Drop)]
pub struct Checks<'c> {
    command: &'c str,
    /// Files are written below it.
    folder: String,
    answers: Vec<Answer>,
}

fn is_same(one: &Node, other: &Node) -> bool {
    match (one, other) {
        (Node::File(one), Node::File(other)) => one.as_slice() == other.as_slice(),
        (Node::Directory, Node::Directory) => true,
        _ => false,
    }
}

fn node_at<'f>(files: &'f [OutcomeFile], path: &[u8]) -> Option<&'f Node> {
    let file = files.iter().find(|file| file.path.as_slice() == path)?;
    Some(&file.node)
}

/// Adds what a file is, so that no other text is the same.
fn push_file(text: &mut Vec<u8>, alloc: Global, file: &OutcomeFile) -> Result<(), AllocError> {
    text.extend_from_slice(file.path.as_slice())?;
    match &file.node {
        Node::Directory => text.extend_from_slice(b"\0/"),
        Node::File(content) => {
            let length = format!(in alloc; "\0{}\0", content.len())?;
            text.extend_from_slice(length.as_bytes())?;
            text.extend_from_slice(content.as_slice())
        }
    }
}

/// All in which files differ from others.
fn differing(
    alloc: Global,
    others: &[OutcomeFile],
    files: &[OutcomeFile],
) -> Result<Vec<u8>, AllocError> {
    let mut text = Vec::new(alloc);
    for file in files {
        let other = node_at(others, file.path.as_slice());
        if !other.is_some_and(|other| is_same(other, &file.node)) {
            push_file(&mut text, alloc, file)?;
        }
    }
    for other in others {
        let path = other.path.as_slice();
        if node_at(files, path).is_none() {
            text.extend_from_slice(path)?;
            text.extend_from_slice(b"\0-")?;
        }
    }
    Ok(text)
}

fn unwritten(alloc: Global, path: &str, error: io::Error) -> Fault {
    if error.kind() == ErrorKind::OutOfMemory {
        return Fault::Memory;
    }
    Fault::output(format!(in alloc; "--check {}: {error}", Shown(path)))
}

/// Makes a directory of its own below another.
fn make_directory<R: Files + AllocGlobal>(rt: &R, folder: &str) -> Result<String, Fault> {
    let alloc = rt.alloc();
    for number in 0..MOST_NAMES {
        let path = format!(in alloc; "{folder}/strace_sweep.{number}")?;
        match fs::create_dir(rt, path.as_str()) {
            Ok(()) => return Ok(path),
            Err(error) if error.kind() == ErrorKind::AlreadyExists => {}
            Err(error) => return Err(unwritten(alloc, path.as_str(), error)),
        }
    }
    Err(Fault::output(format!(in alloc;
        "--check {}: has {MOST_NAMES} directories strace_sweep.N",
        Shown(folder)
    )))
}

/// A name that leads nowhere, or up.
fn is_no_name(name: &[u8]) -> bool {
    matches!(name, b"" | b"." | b"..")
}

/// The place of a guest's path below a directory, if it leads there.
fn place_of(alloc: Global, directory: &str, path: &[u8]) -> Result<Option<String>, AllocError> {
    let Some((b'/', names)) = path.split_first() else {
        return Ok(None);
    };
    let leads_away = names
        .split(|byte| *byte == b'/')
        .any(|name| is_no_name(name));
    if leads_away || names.contains(&0) {
        return Ok(None);
    }
    match str::from_utf8(path) {
        Ok(path) => Ok(Some(format!(in alloc; "{directory}{path}")?)),
        Err(_) => Ok(None),
    }
}

fn make<R: Files>(rt: &R, path: &str, node: &Node) -> io::Result<()> {
    match node {
        Node::Directory => fs::create_dir(rt, path),
        Node::File(content) => File::create_new(rt, path)?.write_all(content.as_slice()),
    }
}

/// Writes files below a directory, but for those whose path can't be one of the host's.
fn write_files<R: Files + AllocGlobal>(
    rt: &R,
    directory: &str,
    files: &[OutcomeFile],
) -> Result<(), Fault> {
    let alloc = rt.alloc();
    for file in files {
        if let Some(path) = place_of(alloc, directory, file.path.as_slice())? {
            match make(rt, path.as_str(), &file.node) {
                Ok(()) => {}
                Err(error) => return Err(unwritten(alloc, path.as_str(), error)),
            }
        }
    }
    Ok(())
}

/// The command's end is that with status 0, in this directory.
fn succeeds<R: Processes + AllocGlobal>(rt: &R, text: &str, directory: &str) -> io::Result<bool> {
    let mut command = Command::new(rt.alloc(), "/bin/sh")?;
    command.arg("-c")?;
    command.arg(text)?;
    command.current_dir(directory)?;
    command.stdin(Stdio::null());
    command.stdout(Stdio::null());
    command.stderr(Stdio::null());
    Ok(command.status(rt)?.success())
}

impl<'c> Checks<'c> {
    /// Those of a command of the shell's; files are written below this directory.
    pub fn new(alloc: Global, command: &'c str, folder: String) -> Self {
        Checks {
            command,
            folder,
            answers: Vec::new(alloc),
        }
    }

    /// What the command says of files in a directory of their own, which is taken away then.
    fn ask<R: Files + Processes + AllocGlobal>(
        &self,
        rt: &R,
        files: &[OutcomeFile],
    ) -> Result<bool, Fault> {
        let directory = make_directory(rt, self.folder.as_str())?;
        let written = write_files(rt, directory.as_str(), files);
        let fine = match written {
            Ok(()) => match succeeds(rt, self.command, directory.as_str()) {
                Ok(fine) => Ok(fine),
                Err(error) => Err(unwritten(rt.alloc(), self.command, error)),
            },
            Err(fault) => Err(fault),
        };
        // What the command leaves there, and can't be removed, is no fault of the sweep.
        let _removed = fs::remove_dir_all(rt, directory.as_str());
        fine
    }

    fn answer(&self, differing: &[u8]) -> Option<bool> {
        let answer = self
            .answers
            .iter()
            .find(|answer| answer.differing.as_slice() == differing)?;
        Some(answer.fine)
    }

    /// The files are fine; the command is asked where it wasn't asked before about files that differ from others as
    /// these do.
    pub fn are_fine<R: Files + Processes + AllocGlobal>(
        &mut self,
        rt: &R,
        others: &[OutcomeFile],
        files: &[OutcomeFile],
    ) -> Result<bool, Fault> {
        let differing = differing(rt.alloc(), others, files)?;
        if let Some(fine) = self.answer(differing.as_slice()) {
            return Ok(fine);
        }
        let fine = self.ask(rt, files)?;
        self.answers.push(Answer { differing, fine })?;
        Ok(fine)
    }
}
