//! Files that are written whole, or left as they are.

ghost use Rattle.std.specs.Prelude.{◌≡◌, IfOk, None};
ghost use Rattle.front_end.specs.Streams.{IsOpenedAt, IsOpenedFor, IsTargetOf, stream_of};

use crate::streams::{Opened, check_stream, number_of};
use std::alloc::Global;
use std::fs::{File, OpenOptions};
use std::io::{self, ErrorKind, Write};
use std::rt::Files;

/// What is written to for a path.
#[derive(Drop)]
pub enum Target {
    /// A file that is replaced, or made: its path, with links followed, and the name that it has until it is whole.
    File { path: String, part: String },
    /// What can't be replaced, by its path: a pipe, a device.
    Device(String),
    /// A stream that stands open in this process under this number.
    Stream(u64),
}

/// A file that is replaced, or made.
fn file_target(alloc: Global, path: String) -> io::Result<Target>
    ensures { IfOk result (IsTargetOf None) }
{
    let part = format!(in alloc; "{}.part", path.as_str())?;
    Ok(Target::File { path, part })
}

/// What is written to for a path that is no stream's.
fn other_target<R: Files + AllocGlobal>(rt: &R, path: &str) -> io::Result<Target>
    ensures { IfOk result (IsTargetOf None) }
{
    match rt.metadata(path) {
        Ok(metadata) if !metadata.is_file() => {
            Ok(Target::Device(String::from_str(rt.alloc(), path)?))
        }
        Ok(_) => {
            let whole = rt.canonicalize(rt.alloc(), path)?;
            file_target(rt.alloc(), whole.into_string())
        }
        Err(error) if error.kind() == ErrorKind::NotFound => {
            file_target(rt.alloc(), String::from_str(rt.alloc(), path)?)
        }
        Err(error) => Err(error),
    }
}

/// What is written to for a path.
fn target_of<R: Files + AllocGlobal>(rt: &R, path: &str) -> io::Result<Target>
    ensures { IfOk result (IsTargetOf (stream_of path.now)) }
{
    match number_of(path) {
        Some(number) => Ok(Target::Stream(number)),
        None => other_target(rt, path),
    }
}

/// A file that is written piece by piece: a new one takes the place of an older when it is flushed. A stream is written
/// where it stands, and a device is appended to.
pub struct NewFile<'r, R: Files + AllocGlobal> {
    rt: &'r R,
    target: Target,
    file: Opened<R::File>,
    is_whole: bool,
}

impl<'r, R: Files + AllocGlobal> NewFile<'r, R> {
    ghost use Rattle.std.specs.Prelude.{◌≡◌, IfOk, false};
    ghost use Rattle.front_end.specs.Streams.{IsOpenedFor, stream_of};

    /// What is written for this path. An older file stays.
    pub fn new(rt: &'r R, path: &str) -> io::Result<Self>
        ensures opened { IfOk result (λ new. IsOpenedFor (stream_of path.now) new.file) }
        ensures part { IfOk result (λ new. new.is_whole ≡ false) }
    {
        let target = target_of(rt, path)?;
        let file = open_target(rt, &target)?;
        Ok(NewFile {
            rt,
            target,
            file,
            is_whole: false,
        })
    }
}

impl<'r, R: Files + AllocGlobal> Write for NewFile<'r, R> {
    ghost use Rattle.front_end.specs.Streams.{opened_contents};

    ghost contents = { λ new. opened_contents R.File.contents new.file };

    fn write(&mut self, buf: &[u8]) -> io::Result<usize> {
        self.file.write(buf)
    }

    fn flush(&mut self) -> io::Result<()> {
        if self.is_whole {
            return Ok(());
        }
        self.file.flush()?;
        if let Target::File { path, part } = &self.target {
            self.rt.rename(part.as_str(), path.as_str())?;
        }
        self.is_whole = true;
        Ok(())
    }
}

impl<'r, R: Files + AllocGlobal> Drop for NewFile<'r, R> {
    /// What couldn't be written whole is of no use, and goes.
    fn drop(self) {
        let NewFile {
            rt,
            target,
            file,
            is_whole,
        } = self;
        if !is_whole {
            remove_part(rt, &target);
        }
        drop(file);
    }
}

fn remove_part<R: Files>(rt: &R, target: &Target) {
    if let Target::File { path: _, part } = target {
        // The fault that counts is the first.
        let _removed = rt.remove_file(part.as_str());
    }
}

/// The error of a part that can't be made, which says whose file is in its way.
fn part_error(error: io::Error) -> io::Error {
    if error.kind() == ErrorKind::AlreadyExists {
        io::Error::new(
            ErrorKind::AlreadyExists,
            "the file of this name and .part, to which it is written first, exists",
        )
    } else {
        error
    }
}

fn open_device<R: Files>(rt: &R, path: &str) -> io::Result<R::File> {
    OpenOptions::new().append(true).open(rt, path)
}

/// Opens what is written: the part of a file, which isn't there yet, or a device. A stream stands open.
fn open_target<R: Files + AllocGlobal>(rt: &R, target: &Target) -> io::Result<Opened<R::File>>
    ensures { IfOk result (IsOpenedAt target.now) }
{
    match target {
        Target::Stream(number) => {
            check_stream(*number)?;
            Ok(Opened::Stream(*number))
        }
        Target::Device(path) => Ok(Opened::File(open_device(rt, path.as_str())?)),
        Target::File { path: _, part } => match File::create_new(rt, part.as_str()) {
            Ok(file) => Ok(Opened::File(file)),
            Err(error) => Err(part_error(error)),
        },
    }
}

/// It can be written. Nothing is changed.
fn check_target<R: Files + AllocGlobal>(rt: &R, target: &Target) -> io::Result<()> {
    let opened = open_target(rt, target)?;
    drop(opened);
    match target {
        Target::Stream(_) | Target::Device(_) => Ok(()),
        Target::File { path: _, part } => rt.remove_file(part.as_str()),
    }
}

/// A file of this path can be written. Nothing is changed.
pub fn check_file<R: Files + AllocGlobal>(rt: &R, path: &str) -> io::Result<()> {
    let target = target_of(rt, path)?;
    check_target(rt, &target)
}

/// Makes a file anew, which is written as it comes. A stream is written where it stands, and a device is appended to.
pub fn create_file<R: Files + AllocGlobal>(rt: &R, path: &str) -> io::Result<Opened<R::File>>
    ensures { IfOk result (IsOpenedFor (stream_of path.now)) }
{
    match target_of(rt, path)? {
        Target::Stream(number) => Ok(Opened::Stream(number)),
        Target::Device(path) => Ok(Opened::File(open_device(rt, path.as_str())?)),
        Target::File { path, part: _ } => Ok(Opened::File(File::create(rt, path.as_str())?)),
    }
}

/// Writes a file: a new one takes the place of an older once it is whole. A stream is written where it stands, and a
/// device is appended to.
pub fn replace_file<R: Files + AllocGlobal>(rt: &R, path: &str, content: &[u8]) -> io::Result<()> {
    let mut file = NewFile::new(rt, path)?;
    file.write_all(content)?;
    file.flush()
}
