//! The text of a line: names, marks, blanks and the comment at its end.

ghost use Rattle.std.specs.Prelude.{◌≡◌, ◌≤◌, ◌==◌, length, option_map, IfOk};
ghost use Rattle.std.specs.List.{slice_split};
ghost use Rattle.rv_syntax.specs.Text.{is_blank, is_name_byte, is_code, run, skipped, word_at, after_mark, uncommented, is_done, texts};

use std::alloc::{AllocError, Global};

fn blank(byte: u8) -> bool
    ensures { result ≡ is_blank byte }
{
    byte == b' ' || byte == b'\t' || byte == b'\r'
}

fn in_name(byte: u8) -> bool
    ensures { result ≡ is_name_byte byte }
{
    byte.is_ascii_alphanumeric() || byte == b'_' || byte == b'.' || byte == b'$'
}

fn blanks(text: &[u8]) -> usize
    ensures value { result ≡ run is_blank text.now }
    ensures within { result ≤ length text.now }
{
    for (i, byte) in text.iter().enumerate() {
        if !blank(*byte) {
            return i;
        }
    }
    text.len()
}

fn word_length(text: &[u8]) -> usize
    ensures value { result ≡ run is_name_byte text.now }
    ensures within { result ≤ length text.now }
{
    for (i, byte) in text.iter().enumerate() {
        if !in_name(*byte) {
            return i;
        }
    }
    text.len()
}

fn comment_at(text: &[u8]) -> usize
    ensures value { result ≡ run is_code text.now }
    ensures within { result ≤ length text.now }
{
    for (i, byte) in text.iter().enumerate() {
        if *byte == b'#' {
            return i;
        }
    }
    text.len()
}

/// What follows the blanks.
#[tactic(auto, unfolding(crate::specs::Text::skipped))]
pub fn skip(text: &[u8]) -> &[u8]
    ensures { result.now ≡ skipped text.now }
{
    let (_, rest) = text.split_at(blanks(text));
    rest
}

/// The word that a text begins with, perhaps an empty one, and what follows it.
#[tactic(auto, unfolding(crate::specs::Text::word_at))]
pub fn word(text: &[u8]) -> (&[u8], &[u8])
    ensures { (result.0.now, result.1.now) ≡ word_at text.now }
{
    let start = skip(text);
    start.split_at(word_length(start))
}

/// What follows a byte, if the text begins with it.
#[tactic(auto, unfolding(crate::specs::Text::after_mark))]
pub fn mark(text: &[u8], byte: u8) -> Option<&[u8]>
    ensures { option_map (λ r. r.now) result ≡ after_mark byte text.now }
{
    match skip(text) {
        [first, rest @ ..] if *first == byte => Some(rest),
        _ => None,
    }
}

/// The text before its comment.
#[tactic(auto, unfolding(crate::specs::Text::uncommented))]
pub fn without_comment(text: &[u8]) -> &[u8]
    ensures { result.now ≡ uncommented text.now }
{
    let (front, _) = text.split_at(comment_at(text));
    front
}

/// Whether there is nothing but blanks and a comment.
#[tactic(auto, unfolding(crate::specs::Text::is_done))]
pub fn done(text: &[u8]) -> bool
    ensures { result ≡ is_done text.now }
{
    without_comment(skip(text)).is_empty()
}

/// The pieces of a text between the bytes of one kind.
pub fn pieces(alloc: Global, text: &[u8], separator: u8) -> Result<Vec<&[u8]>, AllocError>
    ensures { IfOk result (λ v. texts v.items ≡ slice_split (λ b. b == separator) text.now) }
{
    text.split(|byte| *byte == separator).collect(alloc)
}
