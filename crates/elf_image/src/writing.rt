//! The file of an image: the headers, then the contents, in order.

ghost use Rattle.std.specs.Prelude.{◌≡◌, ◌+◌, ◌*◌, ◌++◌, ◌%◌, ◌^◌, length, OnOk, IfOk};
ghost use Rattle.elf_image.specs.Fields.{fields_bytes};
ghost use Rattle.elf_image.specs.Files.{flags_of, header_fields, segment_fields, table_of, contents_of, file_of};
ghost use Rattle.elf_image.specs.Images.{IsElf, IsLaidOut};

use crate::fields::{Field, put_fields};
use crate::image::{Image, Rights, Segment};
use std::alloc::{AllocError, Global};

fn flags(rights: Rights) -> u32
    ensures { result ≡ flags_of rights }
{
    let execute = if rights.execute { 1 } else { 0 };
    let write = if rights.write { 2 } else { 0 };
    let read = if rights.read { 4 } else { 0 };
    execute + write + read
}

fn put_header(out: &mut Vec<u8>, entry: u64, count: u16) -> Result<(), AllocError>
    ensures { OnOk result (out.new.items ≡ out.old.items ++ fields_bytes (header_fields entry count)) }
{
    let fields = [
        Field::Word(0x464c_457f),
        Field::Byte(2),
        Field::Byte(1),
        Field::Byte(1),
        Field::Byte(0),
        Field::Double(0),
        Field::Half(2),
        Field::Half(243),
        Field::Word(1),
        Field::Double(entry),
        Field::Double(64),
        Field::Double(0),
        Field::Word(0),
        Field::Half(64),
        Field::Half(56),
        Field::Half(count),
        Field::Half(0),
        Field::Half(0),
        Field::Half(0),
    ];
    put_fields(out, &fields)
}

fn put_segment(out: &mut Vec<u8>, offset: u64, segment: &Segment) -> Result<(), AllocError>
    ensures { OnOk result (out.new.items ≡ out.old.items ++ fields_bytes (segment_fields offset segment.now)) }
{
    let fields = [
        Field::Word(1),
        Field::Word(flags(segment.rights)),
        Field::Double(offset),
        Field::Double(segment.address),
        Field::Double(0),
        Field::Double(segment.bytes.len() as u64),
        Field::Double(segment.size),
        Field::Double(0),
    ];
    put_fields(out, &fields)
}

fn put_table(out: &mut Vec<u8>, first: u64, segments: &[Segment]) -> Result<(), AllocError>
    ensures { OnOk result (out.new.items ≡ out.old.items ++ table_of first segments.now) }
{
    let mut offset = first;
    for segment in segments {
        put_segment(out, offset, segment)?;
        offset = offset.wrapping_add(segment.bytes.len() as u64);
    }
    Ok(())
}

fn put_contents(out: &mut Vec<u8>, segments: &[Segment]) -> Result<(), AllocError>
    ensures { OnOk result (out.new.items ≡ out.old.items ++ contents_of segments.now) }
{
    for segment in segments {
        out.extend_from_slice(segment.bytes.as_slice())?;
    }
    Ok(())
}

/// The file of an image, which [`read`](crate::read) reads as the same image.
///
/// An image that is not laid out as a file's has a file too, which `read` may refuse.
#[tactic(auto, unfolding(crate::specs::Files::file_of))]
pub fn write(alloc: Global, image: &Image) -> Result<Vec<u8>, AllocError>
    ensures file { IfOk result (λ file. file.items ≡ file_of image.now) }
    ensures read_again { IfOk result (λ file. IsLaidOut image.now → IsElf file.items image.now) }
{
    let segments = image.segments.as_slice();
    let count = segments.len();
    let mut out = Vec::new(alloc);
    put_header(&mut out, image.entry, (count % 65536) as u16)?;
    put_table(
        &mut out,
        (count as u64).wrapping_mul(56).wrapping_add(64),
        segments,
    )?;
    put_contents(&mut out, segments)?;
    Ok(out)
}
