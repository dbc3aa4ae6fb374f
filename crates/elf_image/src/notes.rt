//! What a file says of its program beside the image.

ghost use Rattle.std.specs.Prelude.{◌≡◌, ◌+◌, ◌≤◌, length, option_map, IfSome};
ghost use Rattle.elf_image.specs.Notes as spec;

use crate::fields::{double_at, half_at, word_at};
use crate::headers;
use crate::reading::HEADER_SIZE;

/// Whether the program has instructions of 16 bits.
#[tactic(auto, unfolding(crate::specs::Notes::is_compressed))]
pub fn is_compressed(bytes: &[u8]) -> bool
    ensures { result ≡ spec.is_compressed bytes.now }
{
    bytes.len() >= HEADER_SIZE && word_at(bytes, 48) % 2 == 1
}

/// The offset of the first program header of a type.
fn header_of(bytes: &[u8], kind: u32) -> Option<usize>
    ensures found { result ≡ spec.header_of kind bytes.now }
    ensures inside { IfSome result (λ at. at + 56 ≤ length bytes.now) }
{
    if bytes.len() < HEADER_SIZE {
        return None;
    }
    let count = half_at(bytes, 56);
    let mut at = double_at(bytes, 32) as usize;
    for _ in 0..count {
        if bytes.len() < at || bytes.len() - at < headers::SIZE {
            return None;
        }
        if word_at(bytes, at) == kind {
            return Some(at);
        }
        at += headers::SIZE;
    }
    None
}

#[tactic(auto, unfolding(crate::specs::Notes::content_at))]
fn content_at(bytes: &[u8], at: usize) -> &[u8]
    requires { at + 56 ≤ length bytes.now }
    ensures { result.now ≡ spec.content_at bytes.now at }
{
    let start = double_at(bytes, at + 8) as usize;
    let size = double_at(bytes, at + 32) as usize;
    if bytes.len() < start || bytes.len() - start < size {
        return &[];
    }
    &bytes[start..start + size]
}

/// What the first program header of a type leads to; nothing, where that passes the end of the file.
pub fn content_of(bytes: &[u8], kind: u32) -> Option<&[u8]>
    ensures { option_map (λ content. content.now) result
        ≡ option_map (spec.content_at bytes.now) (spec.header_of kind bytes.now) }
{
    match header_of(bytes, kind) {
        Some(at) => Some(content_at(bytes, at)),
        None => None,
    }
}
