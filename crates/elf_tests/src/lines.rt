//! Units of lines by hand, all with the same program.

use crate::units::{LINE_STRINGS, UNIT_4, UNIT_5, UNIT_5_WIDE};
use elf_lines::{Sections, Source, index_of, rows_in, source_of};
use std::test::Fail;

/// An address, and its line (0: none).
const LINES: [(u64, u64); 11] = [
    (0xfff, 0),
    (0x1000, 1),
    (0x1003, 1),
    (0x1004, 10),
    (0x1008, 12),
    (0x1018, 12),
    (0x1019, 9),
    (0x101f, 9),
    (0x1020, 9),
    (0x1027, 9),
    (0x1028, 0),
];

#[test]
fn lines_of_addresses(rt: HostRuntime) -> Result<(), Fail> {
    for unit in [UNIT_5.as_slice(), UNIT_5_WIDE.as_slice(), UNIT_4.as_slice()] {
        let index = index_of(rt.alloc(), unit)?;
        for (address, line) in LINES {
            match index.row_at(address) {
                Some(row) => assert_eq!(rt; row.line, line, "at {address}"),
                None => assert_eq!(rt; line, 0, "at {address}"),
            }
        }
    }
    Ok(())
}

#[test]
fn paths_of_addresses(rt: HostRuntime) -> Result<(), Fail> {
    // version 4 has no file 0, of which the last row is
    for (unit, address, path) in [
        (UNIT_5.as_slice(), 0x1000, b"/top/sub/b.h".as_slice()),
        (UNIT_5.as_slice(), 0x1008, b"/top/a.c".as_slice()),
        (UNIT_5_WIDE.as_slice(), 0x1000, b"/top/sub/b.h".as_slice()),
        (UNIT_5_WIDE.as_slice(), 0x1008, b"/top/a.c".as_slice()),
        (UNIT_4.as_slice(), 0x1000, b"a.c".as_slice()),
        (UNIT_4.as_slice(), 0x1008, b"".as_slice()),
    ] {
        let index = index_of(rt.alloc(), unit)?;
        let row = index.row_at(address).ok_or("no row")?;
        let sections = Sections {
            lines: unit,
            line_strings: &LINE_STRINGS,
            strings: &[],
        };
        match source_of(sections, row) {
            Some(source) => assert!(rt; source.path(rt.alloc())?.as_slice() == path),
            None => assert!(rt; path.is_empty()),
        }
    }
    Ok(())
}

#[test]
fn cut_units(rt: HostRuntime) -> Result<(), Fail> {
    for unit in [UNIT_5.as_slice(), UNIT_5_WIDE.as_slice(), UNIT_4.as_slice()] {
        for end in 0..unit.len() {
            assert_eq!(rt; rows_in(rt.alloc(), &unit[..end])?.len(), 0, "cut at {end}");
        }
    }
    Ok(())
}

/// Directories, a name, and the path of these.
const PATHS: [(&'static str, &'static str, &'static str, &'static str); 9] = [
    ("/top", "sub", "a.c", "/top/sub/a.c"),
    ("/top", "/sub", "a.c", "/sub/a.c"),
    ("/top", "sub", "/a.c", "/a.c"),
    ("/top", "", "a.c", "/top/a.c"),
    ("/", "", "a.c", "/a.c"),
    ("/top/", "sub/", "a.c", "/top/sub/a.c"),
    ("", "sub", "a.c", "sub/a.c"),
    ("", "", "a.c", "a.c"),
    (".", "../x", "a.c", "./../x/a.c"),
];

#[test]
fn paths(rt: HostRuntime) -> Result<(), Fail> {
    for (unit_directory, directory, name, path) in PATHS {
        let source = Source {
            unit_directory: unit_directory.as_bytes(),
            directory: directory.as_bytes(),
            name: name.as_bytes(),
        };
        assert!(rt; source.path(rt.alloc())?.as_slice() == path.as_bytes());
    }
    Ok(())
}
