//! The file of a row: its directories and its name, and the path that they make.

ghost use Rattle.std.specs.Prelude.{◌≡◌, codes, IfOk};
ghost use Rattle.dwarf_data.specs.Reading.{Gives};
ghost use Rattle.elf_lines.specs.Files.{pools};
ghost use Rattle.elf_lines.specs.Sources as spec;

use crate::fields::Header;
use crate::files::{Strings, directory_in, file_in};
use crate::headers::{header_at, unit_at};
use crate::rows::Row;
use dwarf_data::{behind, text};
use elf_symbols::{bytes_of, section_named};
use std::alloc::{AllocError, Global};

/// The sections that lines and files stand in: `.debug_line`, `.debug_line_str` and `.debug_str`. One that a file
/// doesn't have is empty.
#[derive(Clone, Copy)]
pub struct Sections<'a> {
    pub lines: &'a [u8],
    pub line_strings: &'a [u8],
    pub strings: &'a [u8],
}

/// The file of a row. `directory` is empty where the file stands in that of its unit; the unit's is empty where its
/// table doesn't tell it, as in version 4.
#[derive(Clone, Copy)]
pub struct Source<'a> {
    pub unit_directory: &'a [u8],
    pub directory: &'a [u8],
    pub name: &'a [u8],
}

/// What the section of this name has.
fn section<'a>(file: &'a [u8], name: &[u8]) -> &'a [u8]
    ensures { result.now ≡ spec.section file.now name.now }
{
    match section_named(file, name) {
        Some(section) => bytes_of(file, section.content),
        None => &[],
    }
}

/// The sections of an ELF64 file.
pub fn sections_of(file: &[u8]) -> Sections
    ensures lines { result.lines.now ≡ spec.section file.now (codes ".debug_line") }
    ensures line_strings { result.line_strings.now ≡ spec.section file.now (codes ".debug_line_str") }
    ensures strings { result.strings.now ≡ spec.section file.now (codes ".debug_str") }
{
    Sections {
        lines: section(file, b".debug_line".as_slice()),
        line_strings: section(file, b".debug_line_str".as_slice()),
        strings: section(file, b".debug_str".as_slice()),
    }
}

/// The header and the tables of the unit at an offset of `.debug_line`.
#[tactic(auto, unfolding(crate::specs::Sources::tables_of))]
fn tables_of(lines: &[u8], at: usize) -> Option<(Header, &[u8])>
    ensures { Gives (λ x. (x.0, x.1.now)) result (spec.tables_of lines.now at) }
{
    let (wide, content, _) = unit_at(behind(at as u64, lines))?;
    let (header, _, tables, _) = header_at(wide, content)?;
    Some((header, tables))
}

/// The directory of a file, where it has one of its own.
#[tactic(auto, unfolding(crate::specs::Sources::own_directory))]
fn own_directory<'a>(
    header: Header,
    strings: Strings<'a>,
    number: u64,
    tables: &'a [u8],
) -> Option<&'a [u8]>
    ensures { Gives (λ x. x.now) result
        (spec.own_directory header (pools strings.entry) number tables.now) }
{
    if number == 0 {
        return Some(&[]);
    }
    let (directory, _) = directory_in(header, strings, number, tables)?;
    Some(text(directory.path))
}

/// The file of a row; none where the tables of its unit don't tell it.
#[tactic(auto, unfolding(crate::specs::Sources::source_of))]
pub fn source_of<'a>(sections: Sections<'a>, row: Row) -> Option<Source<'a>>
    ensures { Gives (λ x. (x.unit_directory.now, x.directory.now, x.name.now)) result
        (spec.source_of sections.entry row) }
{
    let (header, tables) = tables_of(sections.lines, row.unit)?;
    let strings = Strings {
        wide: header.wide,
        line_strings: sections.line_strings,
        strings: sections.strings,
    };
    let (file, _) = file_in(header, strings, row.file, tables)?;
    let directory = own_directory(header, strings, file.directory, tables)?;
    let (unit, _) = directory_in(header, strings, 0, tables)?;
    Some(Source {
        unit_directory: text(unit.path),
        directory,
        name: text(file.path),
    })
}

fn is_absolute(path: &[u8]) -> bool
    ensures { result ≡ spec.is_absolute path.now }
{
    match path.first() {
        Some(byte) => *byte == b'/',
        None => false,
    }
}

fn is_empty(path: &[u8]) -> bool
    ensures { result ≡ spec.is_empty path.now }
{
    path.is_empty()
}

fn ends_in_slash(directory: &[u8]) -> bool
    ensures { result ≡ spec.ends_in_slash directory.now }
{
    !directory.is_empty() && directory[directory.len() - 1] == b'/'
}

/// What stands between a directory and a path in it.
fn slash_behind(directory: &[u8]) -> &'static [u8]
    ensures { result.now ≡ spec.slash_behind directory.now }
{
    if ends_in_slash(directory) {
        return &[];
    }
    b"/".as_slice()
}

/// Whether a path stays as it is in a directory.
fn stands_alone(directory: &[u8], path: &[u8]) -> bool
    ensures { result ≡ spec.stands_alone directory.now path.now }
{
    is_absolute(path) || is_empty(directory)
}

/// A path in a directory.
#[tactic(auto, unfolding(crate::specs::Sources::joined))]
fn joined(alloc: Global, directory: &[u8], path: &[u8]) -> Result<Vec<u8>, AllocError>
    ensures { IfOk result (λ v. v.items ≡ spec.joined directory.now path.now) }
{
    if stands_alone(directory, path) {
        let whole = path.to_vec(alloc)?;
        return Ok(whole);
    }
    let mut whole = directory.to_vec(alloc)?;
    whole.extend_from_slice(slash_behind(directory))?;
    whole.extend_from_slice(path)?;
    Ok(whole)
}

impl Source<'_> {
    /// The path: the name in its directory, and that in its unit's, up to the first of them that is absolute.
    pub fn path(&self, alloc: Global) -> Result<Vec<u8>, AllocError>
        ensures { IfOk result (λ v. v.items
            ≡ spec.path_of self.now.unit_directory.now self.now.directory.now self.now.name.now) }
    {
        let own = joined(alloc, self.directory, self.name)?;
        let whole = joined(alloc, self.unit_directory, &own)?;
        Ok(whole)
    }
}
