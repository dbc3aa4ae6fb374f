//! Sections by their names, and names of functions.

use elf_symbols::{functions_of, section_named};
use std::alloc::{AllocError, Global};
use std::test::Fail;

/// An ELF header up to e_shoff, and behind it up to e_shnum: 7F 45 4C 46, ELFCLASS64, ELFDATA2LSB; e_shentsize is 64.
const HEAD: [u8; 40] = [
    0x7f, 0x45, 0x4c, 0x46, 2, 1, 1, 0, 0, 0, 0, 0, 0, 0, 0, 0, 2, 0, 243, 0, 1, 0, 0, 0, 0, 0, 0,
    0, 0, 0, 0, 0, 0, 0, 0, 0, 0, 0, 0, 0,
];

const BEHIND: [u8; 12] = [0, 0, 0, 0, 64, 0, 56, 0, 0, 0, 64, 0];

/// sh_name, sh_type, sh_flags, sh_addr, sh_offset, sh_size, sh_link, sh_entsize.
type Header = [u32; 8];

/// A file of these contents and section headers behind them, the last of which is that of the names.
fn file_of(
    alloc: Global,
    contents: &[u8],
    headers: &[Header],
    names: u16,
) -> Result<Vec<u8>, AllocError> {
    let mut file = Vec::from_slice(alloc, &HEAD)?;
    let start = 64_u64.wrapping_add(contents.len() as u64);
    file.extend_from_slice(&start.to_le_bytes())?;
    file.extend_from_slice(&BEHIND)?;
    file.extend_from_slice(&names.wrapping_add(1).to_le_bytes())?;
    file.extend_from_slice(&names.to_le_bytes())?;
    file.extend_from_slice(contents)?;
    for header in headers {
        file.extend_from_slice(&header[0].to_le_bytes())?;
        file.extend_from_slice(&header[1].to_le_bytes())?;
        for number in 2..6 {
            file.extend_from_slice(&u64::from(header[number]).to_le_bytes())?;
        }
        file.extend_from_slice(&header[6].to_le_bytes())?;
        file.extend_from_slice(&[0; 12])?;
        file.extend_from_slice(&u64::from(header[7]).to_le_bytes())?;
    }
    Ok(file)
}

/// Names of sections: at 1 .text, at 7 .bss, at 12 .debug_line, and at 24 .debug_line_str.
const NAMES: &'static str = "\0.text\0.bss\0.debug_line\0.debug_line_str\0";

/// None, .text, .bss without bytes in the file, .debug_line twice, the first of them compressed, .debug_line_str behind
/// the end of the file, and the names.
const SECTIONS: [Header; 7] = [
    [0, 0, 0, 0, 0, 0, 0, 0],
    [1, 1, 6, 0x10000, 64, 8, 0, 0],
    [7, 8, 3, 0x20000, 64, 8, 0, 0],
    [12, 1, 0x800, 0, 72, 8, 0, 0],
    [12, 1, 0, 0, 80, 4, 0, 0],
    [24, 1, 0, 0, 80, 4000, 0, 0],
    [0, 3, 0, 0, 64, 40, 0, 0],
];

/// A name, and the start, the size and the address of the section that has it; size 0 where none has.
const WANTED: [(&'static str, usize, usize, u64); 8] = [
    (".text", 64, 8, 0x10000),
    (".bss", 0, 0, 0),
    (".debug_line", 80, 4, 0),
    (".debug_line_str", 0, 0, 0),
    (".debug", 0, 0, 0),
    ("text", 0, 0, 0),
    (".tex", 0, 0, 0),
    ("line", 0, 0, 0),
];

#[test]
fn sections_by_name(rt: HostRuntime) -> Result<(), Fail> {
    let file = file_of(rt.alloc(), NAMES.as_bytes(), &SECTIONS, 6)?;
    for (name, start, size, address) in WANTED {
        match section_named(&file, name.as_bytes()) {
            Some(section) => {
                assert_eq!(rt; section.content.start, start);
                assert_eq!(rt; section.content.size, size);
                assert_eq!(rt; section.address, address);
            }
            None => assert_eq!(rt; size, 0),
        }
    }
    for end in 0..file.len() {
        assert!(rt; section_named(&file[..end], b".debug_line".as_slice()).is_none());
    }
    Ok(())
}

/// How many bytes the names of symbols have.
const ROOM: usize = 6000;

/// A symbol's st_name, and how many bytes of its name are told: behind the last symbol 6,000 letters stand, and no
/// zero.
const SYMBOLS: [(u32, usize); 4] = [(1, 4096), (1904, 4096), (1905, 4095), (5999, 1)];

/// The symbols, and their names.
const NAMED: [Header; 2] = [[0, 2, 0, 0, 64, 96, 1, 24], [0, 3, 0, 0, 160, 6000, 0, 0]];

#[test]
fn long_names(rt: HostRuntime) -> Result<(), Fail> {
    let mut contents = Vec::new(rt.alloc());
    for (name, _) in SYMBOLS {
        contents.extend_from_slice(&name.to_le_bytes())?;
        contents.extend_from_slice(&[2, 0, 1, 0])?;
        contents.extend_from_slice(&[0; 16])?;
    }
    for _ in 0..ROOM {
        contents.push(b'a')?;
    }
    let file = file_of(rt.alloc(), &contents, &NAMED, 1)?;
    let functions = functions_of(rt.alloc(), &file)?;
    assert_eq!(rt; functions.len(), 4);
    for (function, (_, length)) in functions.iter().zip(SYMBOLS.iter()) {
        assert_eq!(rt; function.length, *length);
    }
    Ok(())
}
