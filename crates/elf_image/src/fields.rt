//! Numbers in a file, the lowest byte first.

ghost use Rattle.std.specs.Prelude.{◌≡◌, ◌+◌, ◌≤◌, ◌<◌, ◌++◌, length, OnOk};
ghost use Rattle.elf_image.specs.Fields.{number_at, field_bytes, fields_bytes};

use byteorder::{ByteOrder, LittleEndian};
use std::alloc::AllocError;

/// A number of a header. The names are those of the gABI's data types.
#[derive(Clone, Copy, Debug)]
pub enum Field {
    Byte(u8),
    Half(u16),
    Word(u32),
    Double(u64),
}

/// The byte at an offset.
#[tactic(auto, unfolding(crate::specs::Fields::number_at))]
pub fn byte_at(bytes: &[u8], offset: usize) -> u8
    requires { offset < length bytes.now }
    ensures { result ≡ number_at 1 offset bytes.now }
{
    bytes[offset]
}

/// The number of two bytes at an offset.
#[tactic(auto, unfolding(crate::specs::Fields::number_at))]
pub fn half_at(bytes: &[u8], offset: usize) -> u16
    requires { offset + 2 ≤ length bytes.now }
    ensures { result ≡ number_at 2 offset bytes.now }
{
    LittleEndian::read_u16(&bytes[offset..])
}

/// The number of four bytes at an offset.
#[tactic(auto, unfolding(crate::specs::Fields::number_at))]
pub fn word_at(bytes: &[u8], offset: usize) -> u32
    requires { offset + 4 ≤ length bytes.now }
    ensures { result ≡ number_at 4 offset bytes.now }
{
    LittleEndian::read_u32(&bytes[offset..])
}

/// The number of eight bytes at an offset.
#[tactic(auto, unfolding(crate::specs::Fields::number_at))]
pub fn double_at(bytes: &[u8], offset: usize) -> u64
    requires { offset + 8 ≤ length bytes.now }
    ensures { result ≡ number_at 8 offset bytes.now }
{
    LittleEndian::read_u64(&bytes[offset..])
}

fn put_field(out: &mut Vec<u8>, field: Field) -> Result<(), AllocError>
    ensures { OnOk result (out.new.items ≡ out.old.items ++ field_bytes field) }
{
    match field {
        Field::Byte(value) => out.extend_from_slice(&[value]),
        Field::Half(value) => out.extend_from_slice(&value.to_le_bytes()),
        Field::Word(value) => out.extend_from_slice(&value.to_le_bytes()),
        Field::Double(value) => out.extend_from_slice(&value.to_le_bytes()),
    }
}

/// Appends fields one after the other.
pub fn put_fields(out: &mut Vec<u8>, fields: &[Field]) -> Result<(), AllocError>
    ensures { OnOk result (out.new.items ≡ out.old.items ++ fields_bytes fields.now) }
{
    for field in fields {
        put_field(out, *field)?;
    }
    Ok(())
}
