//! Files of programs: what is read of them, what they are refused for, and that an image is written as its file.

use elf_image::{FaultyField, Image, Rights, content_of, faulty_field, is_compressed, read, write};
use std::alloc::{AllocError, Global};
use std::test::Fail;

/// A program of one segment, the whole file at 0x10000, which writes `hi` and ends.
static FILE: [u8; 159] = [
    // The ELF header: class 64, little endian; executable, RISC-V; entry 0x10078; table at 64; one
    // header of 56 bytes.
    0x7f, 0x45, 0x4c, 0x46, 2, 1, 1, 0, 0, 0, 0, 0, 0, 0, 0, 0, //
    2, 0, 243, 0, 1, 0, 0, 0, 0x78, 0, 1, 0, 0, 0, 0, 0, //
    64, 0, 0, 0, 0, 0, 0, 0, 0, 0, 0, 0, 0, 0, 0, 0, //
    0, 0, 0, 0, 0, 0, 56, 0, 1, 0, 0, 0, 0, 0, 0, 0, //
    // The program header: to be loaded; read and execute; offset 0; address 0x10000; 159 bytes.
    1, 0, 0, 0, 5, 0, 0, 0, 0, 0, 0, 0, 0, 0, 0, 0, //
    0, 0, 1, 0, 0, 0, 0, 0, 0, 0, 0, 0, 0, 0, 0, 0, //
    159, 0, 0, 0, 0, 0, 0, 0, 159, 0, 0, 0, 0, 0, 0, 0, //
    0, 0, 0, 0, 0, 0, 0, 0, //
    // Nine instructions, then the text.
    0x13, 0x05, 0x10, 0x00, 0xb7, 0x05, 0x01, 0x00, 0x93, 0x85, 0xc5, 0x09, //
    0x13, 0x06, 0x30, 0x00, 0x93, 0x08, 0x00, 0x04, 0x73, 0x00, 0x00, 0x00, //
    0x13, 0x05, 0x00, 0x00, 0x93, 0x08, 0xe0, 0x05, 0x73, 0x00, 0x00, 0x00, //
    b'h', b'i', b'\n',
];

/// So many of its first bytes.
fn first(length: usize) -> &'static [u8] {
    FILE.get(..length).unwrap_or(&[])
}

/// So many of its first bytes, with these at these places.
fn changed(alloc: Global, length: usize, changes: &[(usize, u8)]) -> Result<Vec<u8>, AllocError> {
    let mut file = first(length).to_vec(alloc)?;
    for (place, value) in changes {
        if let Some(byte) = file.get_mut(*place) {
            *byte = *value;
        }
    }
    Ok(file)
}

/// The number of the fault that a file is refused for, 0 if it is read, and the field.
fn refusal(alloc: Global, file: &[u8]) -> (u8, Option<FaultyField>) {
    match read(alloc, file) {
        Ok(image) => {
            drop(image);
            (0, None)
        }
        Err(fault) => (fault.number(), faulty_field(file, fault)),
    }
}

/// The first length at which the file isn't refused as it should be.
fn wrong_length(alloc: Global) -> Option<usize> {
    for length in 0..160 {
        let wanted = match length {
            0..=3 => 1,
            4..=158 => 4,
            _ => 0,
        };
        let (number, _) = refusal(alloc, first(length));
        if number != wanted {
            return Some(length);
        }
    }
    None
}

#[test]
fn cut_files_are_refused(rt: HostRuntime) {
    assert_eq!(rt; wrong_length(rt.alloc()), None);
}

/// How many bytes there are, one of them changed, the number of the fault, and the field.
type Row = (usize, (usize, u8), u8, Option<FaultyField>);

/// Fields with the values that files of other systems and linkers have there, among others.
const ROWS: &[Row] = &[
    (159, (0, 0x7e), 1, None),
    (159, (4, 1), 2, Some(FaultyField::Class(1))),
    (159, (5, 2), 2, Some(FaultyField::Encoding(2))),
    (159, (18, 62), 2, Some(FaultyField::Machine(62))),
    (159, (19, 1), 2, Some(FaultyField::Machine(499))),
    (159, (16, 3), 3, Some(FaultyField::FileType(3))),
    (159, (54, 32), 3, Some(FaultyField::HeaderSize(32))),
    (159, (56, 0), 3, Some(FaultyField::HeaderCount(0))),
    (159, (64, 2), 3, None),
    (159, (104, 0), 3, None),
    (159, (56, 2), 4, Some(FaultyField::HeaderTable(64))),
    (159, (96, 160), 4, None),
    (159, (104, 158), 5, None),
    (159, (56, 65), 6, Some(FaultyField::HeaderCount(65))),
    // Too many headers come before a table that is cut.
    (64, (56, 65), 6, Some(FaultyField::HeaderCount(65))),
    (159, (33, 1), 4, Some(FaultyField::HeaderTable(320))),
    (159, (82, 0), 6, None),
    (159, (84, 0x20), 6, None),
    (159, (107, 2), 6, None),
    (159, (9, 1), 0, None),
];

fn is_refused_so(alloc: Global, row: Row) -> Result<bool, AllocError> {
    let (length, change, number, field) = row;
    let file = changed(alloc, length, &[change])?;
    Ok(refusal(alloc, file.as_slice()) == (number, field))
}

/// The first row whose file isn't refused so.
fn wrong_row(alloc: Global) -> Result<Option<Row>, AllocError> {
    for row in ROWS {
        if !is_refused_so(alloc, *row)? {
            return Ok(Some(*row));
        }
    }
    Ok(None)
}

#[test]
fn changed_bytes_are_refused(rt: HostRuntime) -> Result<(), Fail> {
    assert_eq!(rt; wrong_row(rt.alloc())?, None);
    Ok(())
}

/// Whether a file with these `e_flags` is said to be compressed.
fn compressed(alloc: Global, flags: u8) -> Result<bool, AllocError> {
    let file = changed(alloc, 159, &[(48, flags)])?;
    Ok(is_compressed(file.as_slice()))
}

/// The first `e_flags` of which a bit isn't read as it should be.
fn wrong_flags(alloc: Global) -> Result<Option<u8>, AllocError> {
    for (flags, wanted) in [(0, false), (1, true), (4, false), (5, true)] {
        if compressed(alloc, flags)? != wanted {
            return Ok(Some(flags));
        }
    }
    Ok(None)
}

#[test]
fn compressed_programs_say_so(rt: HostRuntime) -> Result<(), Fail> {
    assert_eq!(rt; wrong_flags(rt.alloc())?, None);
    Ok(())
}

/// The program header of this type has this content, where the header of the file leads to so many bytes from its last
/// three on.
fn has_content(
    alloc: Global,
    kind: u32,
    size: u8,
    content: Option<&[u8]>,
) -> Result<bool, AllocError> {
    let file = changed(alloc, 159, &[(72, 156), (96, size)])?;
    Ok(content_of(file.as_slice(), kind) == content)
}

/// The last three bytes, nothing past the file's end, no content of a type that isn't there: of these the first that isn't
/// so, by its type and size.
fn wrong_content(alloc: Global) -> Result<Option<(u32, u8)>, AllocError> {
    let rows: [(u32, u8, Option<&[u8]>); 3] = [
        (1, 3, Some(b"hi\n")),
        (1, 4, Some(b"")),
        (3, 3, None),
    ];
    for (kind, size, content) in rows {
        if !has_content(alloc, kind, size, content)? {
            return Ok(Some((kind, size)));
        }
    }
    Ok(None)
}

#[test]
fn contents_of_headers(rt: HostRuntime) -> Result<(), Fail> {
    assert_eq!(rt; wrong_content(rt.alloc())?, None);
    Ok(())
}

/// The fault of the file with its header twice, the second for a segment of 8 bytes at this place of the page.
fn fault_of_two(alloc: Global, place: u8) -> Result<u8, AllocError> {
    let mut file = changed(alloc, 120, &[(56, 2)])?;
    let second = changed(alloc, 120, &[(80, place), (96, 8), (104, 8)])?;
    file.extend_from_slice(second.get(64..).unwrap_or(&[]))?;
    let (number, _) = refusal(alloc, file.as_slice());
    Ok(number)
}

fn faults_of_two(alloc: Global) -> Result<[u8; 2], AllocError> {
    Ok([fault_of_two(alloc, 0x9e)?, fault_of_two(alloc, 0x9f)?])
}

#[test]
fn segments_share_pages_but_no_byte(rt: HostRuntime) -> Result<(), Fail> {
    assert_eq!(rt; faults_of_two(rt.alloc())?, [5, 0]);
    Ok(())
}

/// The entry is that of the file, and the only segment is the file at 0x10000, to be read and executed.
fn is_of_the_file(image: &Image) -> bool {
    let rights = Rights {
        read: true,
        write: false,
        execute: true,
    };
    match image.segments.as_slice() {
        [segment] => {
            (image.entry, segment.address, segment.size) == (0x10078, 0x10000, 159)
                && segment.rights == rights
                && segment.bytes.as_slice() == first(159)
        }
        _ => false,
    }
}

/// The file is read as what it is.
fn is_read(alloc: Global, file: &[u8]) -> bool {
    match read(alloc, file) {
        Ok(image) => {
            let is_so = is_of_the_file(&image);
            drop(image);
            is_so
        }
        Err(_) => false,
    }
}

/// The file of the file's image.
fn written(alloc: Global) -> Result<Vec<u8>, Fail> {
    let image = read(alloc, first(159))?;
    let written = write(alloc, &image);
    drop(image);
    Ok(written?)
}

/// What is written of the file's image is as long as a header, a program header and the file, and is read as the file is.
fn is_written(alloc: Global) -> Result<bool, Fail> {
    let written = written(alloc)?;
    Ok(written.len() == 64 + 56 + 159 && is_read(alloc, written.as_slice()))
}

#[test]
fn a_file_is_read_and_written(rt: HostRuntime) -> Result<(), Fail> {
    assert!(rt; is_read(rt.alloc(), first(159)));
    assert!(rt; is_written(rt.alloc())?);
    Ok(())
}
