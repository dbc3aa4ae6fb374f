//! What a program is started with.

use crate::fault::Fault;
use std::env::{self, Env};
use std::fs::File;
use std::io;
use std::io::ErrorKind;
use std::rt::Files;

/// What reads as empty, and takes no bytes where it is open for reading alone.
const NULL: &str = "/dev/null";

/// How many standard streams there are.
const STREAMS: usize = 3;

/// The words that a program was started with, and what holds the numbers of standard streams that were closed.
#[derive(Drop)]
pub struct Begun<F: Drop> {
    /// The program's name first.
    pub words: Vec<String>,
    held: Vec<F>,
}

/// Opens a file for each standard stream, so that each stream that was closed is one of these, and no file or pipe that
/// the program opens takes its number: to read such a stream gives nothing, and to write to it fails.
fn hold_streams<R: Files + AllocGlobal>(rt: &R) -> Result<Vec<R::File>, Fault> {
    let mut held = Vec::new(rt.alloc());
    for _ in 0..STREAMS {
        match File::open(rt, NULL) {
            Ok(file) => held.push(file)?,
            Err(error) => return Err(Fault::file(rt.alloc(), NULL, error)),
        }
    }
    Ok(held)
}

fn arguments<R: Env + AllocGlobal>(rt: &R) -> Result<Vec<String>, Fault> {
    match env::args(rt) {
        Ok(words) => Ok(words.collect(rt.alloc())?),
        Err(error) => Err(fault_of(rt, error)),
    }
}

fn fault_of<R: AllocGlobal>(rt: &R, error: io::Error) -> Fault {
    match error.kind() {
        ErrorKind::InvalidData => Fault::usage(format!(in rt.alloc(); "a word isn't UTF-8")),
        _ => Fault::file(rt.alloc(), "the words", error),
    }
}

/// What the program is started with. It is kept as long as files are opened.
pub fn begin<R: Env + Files + AllocGlobal>(rt: &R) -> Result<Begun<R::File>, Fault> {
    let held = hold_streams(rt)?;
    let words = arguments(rt)?;
    Ok(Begun { words, held })
}
