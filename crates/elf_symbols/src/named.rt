//! Sections by their names (gABI, "Sections").

ghost use Rattle.std.specs.Prelude.{◌≡◌, ◌+◌, ◌≤◌, drop, length, take, IfSome};
ghost use Rattle.elf_symbols.specs.Named as spec;
ghost use Rattle.elf_symbols.specs.Sections.{header_count, headers_offset};

use crate::sections::{Content, HEADER_SIZE, content_at, has_headers, texts_of};
use elf_image::{double_at, half_at, word_at};

/// A section: what it has in its file, and the address at which that is loaded, 0 where it isn't.
#[derive(Clone, Copy, Debug, PartialEq, Eq)]
pub struct Section {
    pub content: Content,
    pub address: u64,
}

/// The type of a section that takes no room in its file, SHT_NOBITS.
const NO_BITS: u32 = 8;

/// SHF_COMPRESSED.
const COMPRESSED: u64 = 0x800;

/// The bytes behind so many; none behind the last.
fn behind(bytes: &[u8], count: usize) -> &[u8]
    ensures { result.now ≡ drop count bytes.now }
{
    if bytes.len() < count {
        return &[];
    }
    &bytes[count..]
}

/// So many bytes, or as many as there are.
fn up_to(bytes: &[u8], count: usize) -> &[u8]
    ensures { result.now ≡ take count bytes.now }
{
    if bytes.len() < count {
        return bytes;
    }
    &bytes[..count]
}

/// The bytes of a part of a file.
pub fn bytes_of(bytes: &[u8], content: Content) -> &[u8]
    ensures { result.now ≡ spec.bytes_of bytes.now content }
{
    up_to(behind(bytes, content.start), content.size)
}

/// Whether this text begins some bytes, with a zero behind it.
#[tactic(auto, unfolding(crate::specs::Named::begins))]
fn begins(name: &[u8], bytes: &[u8]) -> bool
    ensures { result ≡ spec.begins name.now bytes.now }
{
    name.len() < bytes.len() && &bytes[..name.len()] == name && bytes[name.len()] == 0
}

/// Whether the section with the header at an offset has this name, and stands in the file as it is.
#[tactic(auto, unfolding(crate::specs::Named::is_named))]
fn is_named(name: &[u8], bytes: &[u8], names: &[u8], at: usize) -> bool
    requires { at + 64 ≤ length bytes.now }
    ensures { result ≡ spec.is_named name.now bytes.now names.now at }
{
    begins(name, behind(names, word_at(bytes, at) as usize))
        && word_at(bytes, at + 4) != NO_BITS
        && double_at(bytes, at + 8) / COMPRESSED % 2 == 0
}

/// The offset of the first of so many section headers that has this name, where they begin at an offset.
fn named_from(name: &[u8], bytes: &[u8], names: &[u8], start: u64, count: u16) -> Option<usize>
    ensures found { result ≡ spec.named_from name.now bytes.now names.now start count }
    ensures inside { IfSome result (λ at. at + 64 ≤ length bytes.now) }
{
    let mut at = start as usize;
    for _ in 0..count {
        if bytes.len() < at || bytes.len() - at < HEADER_SIZE {
            return None;
        }
        if is_named(name, bytes, names, at) {
            return Some(at);
        }
        at += HEADER_SIZE;
    }
    None
}

/// The section with the header at an offset.
#[tactic(auto, unfolding(crate::specs::Named::section_at))]
fn section_at(bytes: &[u8], at: usize) -> Option<Section>
    requires { at + 64 ≤ length bytes.now }
    ensures found { result ≡ spec.section_at bytes.now at }
    ensures inside { IfSome result (λ s. s.content.start + s.content.size ≤ length bytes.now) }
{
    let Some(content) = content_at(bytes, at) else {
        return None;
    };
    Some(Section {
        content,
        address: double_at(bytes, at + 16),
    })
}

/// The section of this name, where these are the names.
fn section_among(name: &[u8], bytes: &[u8], names: &[u8]) -> Option<Section>
    requires { 64 ≤ length bytes.now }
    ensures found { result
        ≡ spec.section_behind bytes.now
        (spec.named_from name.now bytes.now names.now (headers_offset bytes.now) (header_count bytes.now)) }
    ensures inside { IfSome result (λ s. s.content.start + s.content.size ≤ length bytes.now) }
{
    match named_from(name, bytes, names, double_at(bytes, 40), half_at(bytes, 60)) {
        Some(at) => section_at(bytes, at),
        None => None,
    }
}

/// The first section of a file that has this name, and stands in the file as it is; none where there is no such section
/// whose bytes all lie in the file.
#[tactic(auto, unfolding(crate::specs::Named::section_named))]
pub fn section_named(bytes: &[u8], name: &[u8]) -> Option<Section>
    ensures found { result ≡ spec.section_named bytes.now name.now }
    ensures inside { IfSome result (λ s. s.content.start + s.content.size ≤ length bytes.now) }
{
    if !has_headers(bytes) {
        return None;
    }
    let Some(names) = texts_of(bytes, u32::from(half_at(bytes, 62))) else {
        return None;
    };
    section_among(name, bytes, bytes_of(bytes, names))
}
