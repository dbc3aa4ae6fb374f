//! A listing assembled into an ELF file.

use clap::ArgMatches;
use front_end::{Fault, Shown, read_text};
use rv_asm::assemble;
use std::alloc::Global;
use std::fs;
use std::rt::Files;

/// The most bytes of a listing: 64 for each of its image. Labels without end make no larger image, but take time.
const MOST_LISTING: u64 = 4_194_304;

/// The ELF file of a listing.
fn file_of(alloc: Global, listing: &str) -> Result<Vec<u8>, Fault> {
    match assemble(alloc, listing) {
        Ok(image) => Ok(elf_image::write(alloc, &image)?),
        Err(fault) => {
            Err(Fault::Listing {
                line: fault.line,
                kind: fault.kind.number(),
            })
        }
    }
}

fn write_file<R: Files + AllocGlobal>(rt: &R, path: &str, content: &[u8]) -> Result<(), Fault> {
    match fs::write(rt, path, content) {
        Ok(()) => Ok(()),
        Err(error) => Err(Fault::file(rt.alloc(), Shown(path), error)),
    }
}

/// Assembles the file IN and writes the file OUT.
pub fn run<R: Files + AllocGlobal>(rt: &R, matches: &ArgMatches) -> Result<u8, Fault> {
    let listing = read_text(rt, "", matches.get_str("in").unwrap_or(""), MOST_LISTING)?;
    let file = file_of(rt.alloc(), listing.as_str())?;
    write_file(rt, matches.get_str("out").unwrap_or(""), file.as_slice())?;
    Ok(0)
}
