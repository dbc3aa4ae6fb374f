//! Units of `.debug_line`, and their headers (DWARF 5, 6.2.4).

ghost use Rattle.std.specs.Prelude.{◌≡◌};
ghost use Rattle.dwarf_data.specs.Reading.{Gives};
ghost use Rattle.elf_lines.specs.Headers as spec;

use crate::fields::Header;
use dwarf_data::{read_bytes, read_u8, read_u16, read_u32, read_u64};

/// The length that says that 8 bytes follow with it.
const WIDE: u32 = 0xffff_ffff;

/// A unit, behind the first 4 bytes of its length.
#[tactic(auto, unfolding(crate::specs::Headers::unit_of))]
fn unit_of(size: u32, bytes: &[u8]) -> Option<(bool, &[u8], &[u8])>
    ensures { Gives (λ x. (x.0, x.1.now, x.2.now)) result (spec.unit_of size bytes.now) }
{
    if size == WIDE {
        let (size, rest) = read_u64(bytes)?;
        let (content, rest) = read_bytes(size, rest)?;
        return Some((true, content, rest));
    }
    let (content, rest) = read_bytes(u64::from(size), bytes)?;
    Some((false, content, rest))
}

/// A unit: whether its offsets have 8 bytes, its bytes behind its length, and the bytes behind it.
#[tactic(auto, unfolding(crate::specs::Headers::unit_at))]
pub fn unit_at(bytes: &[u8]) -> Option<(bool, &[u8], &[u8])>
    ensures { Gives (λ x. (x.0, x.1.now, x.2.now)) result (spec.unit_at bytes.now) }
{
    let (size, rest) = read_u32(bytes)?;
    unit_of(size, rest)
}

/// An offset or a length.
pub fn offset_at(wide: bool, bytes: &[u8]) -> Option<(u64, &[u8])>
    ensures { Gives (λ x. (x.0, x.1.now)) result (spec.offset wide bytes.now) }
{
    if wide {
        return read_u64(bytes);
    }
    let (offset, rest) = read_u32(bytes)?;
    Some((u64::from(offset), rest))
}

#[tactic(auto, unfolding(crate::specs::Headers::is_read))]
fn is_read(header: Header) -> bool
    ensures { result ≡ spec.is_read header }
{
    (header.version == 4 || header.version == 5)
        && header.maximum_operations == 1
        && 0 < header.line_range
        && 0 < header.opcode_base
}

/// A header, if it is one that is read.
fn checked(header: Header, rest: &[u8]) -> Option<(Header, &[u8])>
    ensures { Gives (λ x. (x.0, x.1.now)) result (spec.checked header rest.now) }
{
    if is_read(header) {
        Some((header, rest))
    } else {
        None
    }
}

/// Three bytes.
#[tactic(auto, unfolding(crate::specs::Headers::three_at))]
fn three_at(bytes: &[u8]) -> Option<(u8, u8, u8, &[u8])>
    ensures { Gives (λ x. (x.0, x.1, x.2, x.3.now)) result (spec.three_at bytes.now) }
{
    let (a, rest) = read_u8(bytes)?;
    let (b, rest) = read_u8(rest)?;
    let (c, rest) = read_u8(rest)?;
    Some((a, b, c, rest))
}

/// The fields from minimum_instruction_length to opcode_base.
#[tactic(auto, unfolding(crate::specs::Headers::fields_at))]
fn fields_at(wide: bool, version: u16, bytes: &[u8]) -> Option<(Header, &[u8])>
    ensures { Gives (λ x. (x.0, x.1.now)) result (spec.fields_at wide version bytes.now) }
{
    let (minimum_instruction_length, maximum_operations, is_stmt, rest) = three_at(bytes)?;
    let (line_base, line_range, opcode_base, rest) = three_at(rest)?;
    let header = Header {
        wide,
        version,
        minimum_instruction_length,
        maximum_operations,
        default_is_stmt: is_stmt != 0,
        line_base,
        line_range,
        opcode_base,
    };
    checked(header, rest)
}

/// The header of a unit, the lengths of its opcodes, its tables, and its program.
#[tactic(auto, unfolding(crate::specs::Headers::header_at))]
pub fn header_at(wide: bool, content: &[u8]) -> Option<(Header, &[u8], &[u8], &[u8])>
    ensures { Gives (λ x. (x.0, x.1.now, x.2.now, x.3.now)) result (spec.header_at wide content.now) }
{
    let (version, rest) = read_u16(content)?;
    let (_, rest) = read_bytes(if version == 5 { 2 } else { 0 }, rest)?;
    let (size, rest) = offset_at(wide, rest)?;
    let (fields, program) = read_bytes(size, rest)?;
    let (header, rest) = fields_at(wide, version, fields)?;
    let (lengths, tables) = read_bytes(u64::from(header.opcode_base.saturating_sub(1)), rest)?;
    Some((header, lengths, tables, program))
}
