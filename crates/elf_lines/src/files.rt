//! The tables of a unit: directories and files by their numbers.

ghost use Rattle.std.specs.Prelude.{◌≡◌, ◌*◌};
ghost use Rattle.elf_lines.specs.Files as spec;
ghost use Rattle.dwarf_data.specs.Reading.{Gives};

use crate::fields::Header;
use crate::headers::offset_at;
use dwarf_data::{
    behind, behind_uleb128s, read_bytes, read_u8, read_u16, read_u32, read_u64, read_uleb128,
    text_length,
};

/// The strings that offsets are of: `.debug_line_str` and `.debug_str`, and whether offsets have 8 bytes.
#[derive(Clone, Copy)]
pub struct Strings<'a> {
    pub wide: bool,
    pub line_strings: &'a [u8],
    pub strings: &'a [u8],
}

/// How many attributes an entry has, and their kinds and forms.
#[derive(Clone, Copy)]
pub struct Format<'a> {
    pub count: u8,
    pub pairs: &'a [u8],
}

/// What an entry tells: a path, given by the bytes that it begins, and the number of a directory.
#[derive(Clone, Copy)]
pub struct Entry<'a> {
    pub path: &'a [u8],
    pub directory: u64,
}

/// A text that stands here.
#[tactic(auto, unfolding(crate::specs::Files::string_at))]
fn string_at(bytes: &[u8]) -> Option<(&[u8], u64, &[u8])>
    ensures { Gives (λ x. (x.0.now, x.1, x.2.now)) result (spec.string_at bytes.now) }
{
    let length = text_length(bytes);
    if bytes.len() <= length {
        return None;
    }
    Some((bytes, 0, &bytes[length + 1..]))
}

/// A text that stands at an offset of these.
#[tactic(auto, unfolding(crate::specs::Files::text_at))]
fn text_at<'a>(wide: bool, strings: &'a [u8], bytes: &'a [u8]) -> Option<(&'a [u8], u64, &'a [u8])>
    ensures { Gives (λ x. (x.0.now, x.1, x.2.now)) result (spec.text_at wide strings.now bytes.now) }
{
    let (offset, rest) = offset_at(wide, bytes)?;
    Some((behind(offset, strings), 0, rest))
}

/// Bytes that are read past.
#[tactic(auto, unfolding(crate::specs::Files::data_at))]
fn data_at(size: u64, bytes: &[u8]) -> Option<(&[u8], u64, &[u8])>
    ensures { Gives (λ x. (x.0.now, x.1, x.2.now)) result (spec.data_at size bytes.now) }
{
    let (_, rest) = read_bytes(size, bytes)?;
    Some((&[], 0, rest))
}

#[tactic(auto, unfolding(crate::specs::Files::block_at))]
fn block_at(bytes: &[u8]) -> Option<(&[u8], u64, &[u8])>
    ensures { Gives (λ x. (x.0.now, x.1, x.2.now)) result (spec.block_at bytes.now) }
{
    let (size, rest) = read_uleb128(bytes)?;
    data_at(size, rest)
}

#[tactic(auto, unfolding(crate::specs::Files::udata_at))]
fn udata_at(bytes: &[u8]) -> Option<(&[u8], u64, &[u8])>
    ensures { Gives (λ x. (x.0.now, x.1, x.2.now)) result (spec.udata_at bytes.now) }
{
    let (number, rest) = read_uleb128(bytes)?;
    Some((&[], number, rest))
}

#[tactic(auto, unfolding(crate::specs::Files::number_of))]
fn data1_at(bytes: &[u8]) -> Option<(&[u8], u64, &[u8])>
    ensures { Gives (λ x. (x.0.now, x.1, x.2.now)) result (spec.number_of 1 bytes.now) }
{
    let (number, rest) = read_u8(bytes)?;
    Some((&[], u64::from(number), rest))
}

#[tactic(auto, unfolding(crate::specs::Files::number_of))]
fn data2_at(bytes: &[u8]) -> Option<(&[u8], u64, &[u8])>
    ensures { Gives (λ x. (x.0.now, x.1, x.2.now)) result (spec.number_of 2 bytes.now) }
{
    let (number, rest) = read_u16(bytes)?;
    Some((&[], u64::from(number), rest))
}

#[tactic(auto, unfolding(crate::specs::Files::number_of))]
fn data4_at(bytes: &[u8]) -> Option<(&[u8], u64, &[u8])>
    ensures { Gives (λ x. (x.0.now, x.1, x.2.now)) result (spec.number_of 4 bytes.now) }
{
    let (number, rest) = read_u32(bytes)?;
    Some((&[], u64::from(number), rest))
}

#[tactic(auto, unfolding(crate::specs::Files::number_of))]
fn data8_at(bytes: &[u8]) -> Option<(&[u8], u64, &[u8])>
    ensures { Gives (λ x. (x.0.now, x.1, x.2.now)) result (spec.number_of 8 bytes.now) }
{
    let (number, rest) = read_u64(bytes)?;
    Some((&[], number, rest))
}

/// An attribute of a form (7.5.6).
#[tactic(auto, unfolding(crate::specs::Files::attribute_at))]
fn attribute_at<'a>(
    strings: Strings<'a>,
    form: u64,
    bytes: &'a [u8],
) -> Option<(&'a [u8], u64, &'a [u8])>
    ensures { Gives (λ x. (x.0.now, x.1, x.2.now)) result
        (spec.attribute_at (spec.pools strings.entry) form bytes.now) }
{
    match form {
        0x05 => data2_at(bytes),
        0x06 => data4_at(bytes),
        0x07 => data8_at(bytes),
        0x08 => string_at(bytes),
        0x09 => block_at(bytes),
        0x0b => data1_at(bytes),
        0x0e => text_at(strings.wide, strings.strings, bytes),
        0x0f => udata_at(bytes),
        0x1e => data_at(16, bytes),
        0x1f => text_at(strings.wide, strings.line_strings, bytes),
        _ => None,
    }
}

/// An entry, once an attribute of this kind is read too.
fn told<'a>(kind: u64, text: &'a [u8], number: u64, entry: Entry<'a>) -> Entry<'a>
    ensures { spec.place result ≡ spec.told kind text.now number (spec.place entry.entry) }
{
    match kind {
        1 => Entry {
            path: text,
            directory: entry.directory,
        },
        2 => Entry {
            path: entry.path,
            directory: number,
        },
        _ => entry,
    }
}

/// The kind and the form of an attribute.
#[tactic(auto, unfolding(crate::specs::Files::format_at))]
fn format_at(bytes: &[u8]) -> Option<(u64, u64, &[u8])>
    ensures { Gives (λ x. (x.0, x.1, x.2.now)) result (spec.format_at bytes.now) }
{
    let (kind, rest) = read_uleb128(bytes)?;
    let (form, rest) = read_uleb128(rest)?;
    Some((kind, form, rest))
}

/// An entry of this format.
fn entry_at<'a>(
    strings: Strings<'a>,
    format: Format,
    bytes: &'a [u8],
) -> Option<(Entry<'a>, &'a [u8])>
    ensures { Gives (λ x. (spec.place x.0, x.1.now)) result
        (spec.entry_at (spec.pools strings.entry) (spec.shape format.entry) bytes.now) }
{
    let mut entry = Entry {
        path: &[],
        directory: 0,
    };
    let mut left = bytes;
    let mut pairs = format.pairs;
    for _ in 0..format.count {
        let Some((kind, form, rest)) = format_at(pairs) else {
            return None;
        };
        let Some((text, number, behind)) = attribute_at(strings, form, left) else {
            return None;
        };
        entry = told(kind, text, number, entry);
        left = behind;
        pairs = rest;
    }
    Some((entry, left))
}

/// Whether no entry follows.
fn is_end(counted: bool, bytes: &[u8]) -> bool
    ensures { result ≡ spec.is_end counted bytes.now }
{
    match bytes.first() {
        Some(byte) => !counted && *byte == 0,
        None => true,
    }
}

/// The entry behind so many others.
fn entry_behind<'a>(
    counted: bool,
    strings: Strings<'a>,
    format: Format,
    count: u64,
    bytes: &'a [u8],
) -> Option<(Entry<'a>, &'a [u8])>
    ensures { Gives (λ x. (spec.place x.0, x.1.now)) result
        (spec.entry_behind counted (spec.pools strings.entry) (spec.shape format.entry) count bytes.now) }
{
    let mut left = bytes;
    for _ in 0..count {
        if is_end(counted, left) {
            return None;
        }
        let Some((_, rest)) = entry_at(strings, format, left) else {
            return None;
        };
        left = rest;
    }
    if is_end(counted, left) {
        return None;
    }
    entry_at(strings, format, left)
}

/// The bytes behind so many entries.
fn behind_entries<'a>(
    strings: Strings<'a>,
    format: Format,
    count: u64,
    bytes: &'a [u8],
) -> Option<&'a [u8]>
    ensures { Gives (λ x. x.now) result
        (spec.behind_entries (spec.pools strings.entry) (spec.shape format.entry) count bytes.now) }
{
    let mut left = bytes;
    for _ in 0..count {
        let Some((_, rest)) = entry_at(strings, format, left) else {
            return None;
        };
        left = rest;
    }
    Some(left)
}

/// The bytes behind all directories of version 4: texts up to an empty one.
fn behind_texts(count: usize, bytes: &[u8]) -> Option<&[u8]>
    ensures { Gives (λ x. x.now) result (spec.behind_texts count bytes.now) }
{
    let mut left = bytes;
    for _ in 0..count {
        if is_end(false, left) {
            return Some(behind(1, left));
        }
        let Some((_, _, rest)) = string_at(left) else {
            return None;
        };
        left = rest;
    }
    None
}

fn count_with(attributes: u8, count: u64) -> u64
    ensures { result ≡ spec.count_with attributes count }
{
    if attributes == 0 { 0 } else { count }
}

/// A table of version 5: the format of its entries, how many there are, and these.
#[tactic(auto, unfolding(crate::specs::Files::table_at))]
fn table_at(bytes: &[u8]) -> Option<(Format, u64, &[u8])>
    ensures { Gives (λ x. (spec.shape x.0, x.1, x.2.now)) result (spec.table_at bytes.now) }
{
    let (attributes, pairs) = read_u8(bytes)?;
    let rest = behind_uleb128s(2 * u64::from(attributes), pairs)?;
    let (count, entries) = read_uleb128(rest)?;
    let format = Format {
        count: attributes,
        pairs,
    };
    Some((format, count_with(attributes, count), entries))
}

/// The entry with a number of a table of version 5.
#[tactic(auto, unfolding(crate::specs::Files::numbered))]
fn numbered<'a>(strings: Strings<'a>, number: u64, bytes: &'a [u8]) -> Option<(Entry<'a>, &'a [u8])>
    ensures { Gives (λ x. (spec.place x.0, x.1.now)) result
        (spec.numbered (spec.pools strings.entry) number bytes.now) }
{
    let (format, count, entries) = table_at(bytes)?;
    if count <= number {
        return None;
    }
    entry_behind(true, strings, format, number, entries)
}

/// The bytes behind a table of version 5.
#[tactic(auto, unfolding(crate::specs::Files::behind_table))]
fn behind_table<'a>(strings: Strings<'a>, bytes: &'a [u8]) -> Option<&'a [u8]>
    ensures { Gives (λ x. x.now) result (spec.behind_table (spec.pools strings.entry) bytes.now) }
{
    let (format, count, entries) = table_at(bytes)?;
    behind_entries(strings, format, count, entries)
}

/// The kinds and forms of version 4: of a directory, and of a file.
const DIRECTORY_PAIRS: [u8; 2] = [1, 8];

const FILE_PAIRS: [u8; 8] = [1, 8, 2, 15, 3, 15, 4, 15];

/// The entry of a file, in the tables of a unit.
#[tactic(auto, unfolding(crate::specs::Files::file_in))]
pub fn file_in<'a>(
    header: Header,
    strings: Strings<'a>,
    number: u64,
    tables: &'a [u8],
) -> Option<(Entry<'a>, &'a [u8])>
    ensures { Gives (λ x. (spec.place x.0, x.1.now)) result
        (spec.file_in header (spec.pools strings.entry) number tables.now) }
{
    if header.version == 5 {
        let rest = behind_table(strings, tables)?;
        return numbered(strings, number, rest);
    }
    if number == 0 {
        return None;
    }
    let rest = behind_texts(tables.len(), tables)?;
    let format = Format {
        count: 4,
        pairs: &FILE_PAIRS,
    };
    entry_behind(false, strings, format, number - 1, rest)
}

/// The entry of a directory; directory 0 of version 4 stands in `.debug_info`, and isn't told.
#[tactic(auto, unfolding(crate::specs::Files::directory_in))]
pub fn directory_in<'a>(
    header: Header,
    strings: Strings<'a>,
    number: u64,
    tables: &'a [u8],
) -> Option<(Entry<'a>, &'a [u8])>
    ensures { Gives (λ x. (spec.place x.0, x.1.now)) result
        (spec.directory_in header (spec.pools strings.entry) number tables.now) }
{
    if header.version == 5 {
        return numbered(strings, number, tables);
    }
    if number == 0 {
        let entry = Entry {
            path: &[],
            directory: 0,
        };
        return Some((entry, tables));
    }
    let format = Format {
        count: 1,
        pairs: &DIRECTORY_PAIRS,
    };
    entry_behind(false, strings, format, number - 1, tables)
}
