//! Listings with ample memory, one of each kind of answer. Others stand in guests/runs.

use elf_image::Image;
use rv_asm::assemble;
use std::alloc::{AllocError, Global};
use std::test::Fail;

/// The line and the number of the fault, or zeros.
fn fault_in(alloc: Global, text: &str) -> (usize, u8) {
    match assemble(alloc, text) {
        Ok(image) => {
            drop(image);
            (0, 0)
        }
        Err(fault) => (fault.line, fault.kind.number()),
    }
}

/// The only segment has these bytes.
fn has_bytes(image: &Image, bytes: &[u8]) -> bool {
    match image.segments.as_slice() {
        [segment] => segment.bytes.as_slice() == bytes,
        _ => false,
    }
}

/// The entry of a listing's image, and whether these bytes are all of it.
fn content(alloc: Global, text: &str, bytes: &[u8]) -> Option<(u64, bool)> {
    match assemble(alloc, text) {
        Ok(image) => {
            let content = (image.entry, has_bytes(&image, bytes));
            drop(image);
            Some(content)
        }
        Err(_) => None,
    }
}

#[test]
fn a_listing_is_assembled_or_refused(rt: HostRuntime) {
    let bytes = [0x13u8, 0, 0, 0, 0x37, 5, 1, 0, 0x13, 5, 0x45, 0];
    let content = content(rt.alloc(), "nop\nx: _start: la a0, x", &bytes);
    assert_eq!(rt; content, Some((0x10004, true)));
    assert_eq!(rt; fault_in(rt.alloc(), "nop\nj nowhere"), (2, 4));
    assert_eq!(rt; fault_in(rt.alloc(), ""), (0, 0));
}

/// How long the file of a listing is.
fn length(alloc: Global, text: &str) -> Result<usize, Fail> {
    let image = assemble(alloc, text)?;
    let file = elf_image::write(alloc, &image);
    drop(image);
    Ok(file?.len())
}

#[test]
fn the_file_is_headers_and_content(rt: HostRuntime) -> Result<(), Fail> {
    let length = length(rt.alloc(), "_start: li a0, 0\nli a7, 94\necall\n")?;
    assert_eq!(rt; length, 64 + 56 + 12);
    Ok(())
}
