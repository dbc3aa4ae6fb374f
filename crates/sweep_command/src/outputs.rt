//! Where a report goes.

use clap::ArgMatches;
use front_end::{Fault, Opened, Shown, check_file, create_file, replace_file};
use std::alloc::Global;
use std::io::{self, Write};
use std::rt::Files;

/// The file of `-o`; none where that is standard output, which is written without opening it.
pub fn path_of<'m>(matches: &'m ArgMatches) -> Option<&'m str> {
    match matches.get_str("output") {
        None | Some("/dev/stdout" | "/dev/fd/1") => None,
        Some(path) => Some(path),
    }
}

fn refused(alloc: Global, option: &str, path: &str, error: io::Error) -> Fault {
    match format!(in alloc; "{option} {}", Shown(path)) {
        Ok(what) => Fault::file(alloc, what, error),
        Err(error) => Fault::from(error),
    }
}

fn unwritten(alloc: Global) -> Fault {
    Fault::output(format!(in alloc; "the report could not be written"))
}

/// The file that an option names can be written. Nothing is changed.
pub fn check<R: Files + AllocGlobal>(
    rt: &R,
    option: &str,
    path: Option<&str>,
) -> Result<(), Fault> {
    let Some(path) = path else {
        return Ok(());
    };
    match check_file(rt, path) {
        Ok(()) => Ok(()),
        Err(error) => Err(refused(rt.alloc(), option, path, error)),
    }
}

/// Makes the file anew, which is written as the report comes.
pub fn create<R: Files + AllocGlobal>(rt: &R, path: &str) -> Result<Opened<R::File>, Fault> {
    match create_file(rt, path) {
        Ok(file) => Ok(file),
        Err(error) => Err(refused(rt.alloc(), "-o", path, error)),
    }
}

/// A whole text takes the place of the older file that an option names.
pub fn replace<R: Files + AllocGlobal>(
    rt: &R,
    option: &str,
    path: &str,
    text: &[u8],
) -> Result<(), Fault> {
    let alloc = rt.alloc();
    match replace_file(rt, path, text) {
        Ok(()) => Ok(()),
        Err(_) => Err(Fault::output(format!(in alloc;
            "{option} {} could not be written",
            Shown(path)
        ))),
    }
}

/// Writes a part of the report, and sees that it is out.
pub fn write<W: Write>(alloc: Global, text: &str, writer: &mut W) -> Result<(), Fault> {
    if writer.write_all(text.as_bytes()).is_ok() && writer.flush().is_ok() {
        Ok(())
    } else {
        Err(unwritten(alloc))
    }
}
