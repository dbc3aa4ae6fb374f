//! Words that a guest has in its memory.

ghost use Rattle.std.specs.Prelude.{◌≡◌, ◌≤◌, IfOk, IfSome, IfNone, is_some, not, false};
ghost use Rattle.std.specs.List.{list_any};
ghost use Rattle.lx_proc.specs.Texts.{any_length, whole, text_at as text_in, texts_at as texts_in, list_at as list_in};
ghost use Rattle.lx_proc.specs.Read.{text_of, ReadsWithin, Reads, is_unreadable, too_large_if, is_text as is_text_at, is_no_text, AreTexts};

use containers::Bytes;
use lx_abi::limits::{START_LIMIT, WORD_COST};
use rv_mem::Space;
use std::alloc::{AllocError, Global};

/// As many bytes as an address space has.
const ANY_LENGTH: u64 = 1 << 38;

/// What stands at an address where a text is wanted.
#[derive(Drop)]
pub enum Text {
    /// The bytes before the NUL.
    Whole(Bytes),
    /// No NUL among as many bytes as are looked at.
    TooLong,
    /// No NUL before the first byte that cannot be read.
    Unreadable,
}

/// What stands at an address where a list of texts is wanted.
#[derive(Drop)]
pub enum Words {
    /// The texts, up to the null pointer.
    Whole(Vec<Bytes>),
    /// All can be read, and are more than a program's start may have. None is kept.
    TooLarge,
    /// A pointer or a text cannot be read.
    Unreadable,
}

impl Words {
    /// A pointer or a text cannot be read.
    pub fn is_unreadable(&self) -> bool
        ensures { result ≡ is_unreadable self.now }
    {
        match self {
            Words::Whole(_) | Words::TooLarge => false,
            Words::Unreadable => true,
        }
    }
}

/// The text at an address, of at most `limit` bytes with its NUL. Addresses wrap at 64 bits.
pub fn text_at(
    alloc: Global,
    memory: &mut Space,
    address: u64,
    limit: u64,
) -> Result<Text, AllocError>
    ensures text { IfOk result (λ t. text_of t ≡ text_in memory.old limit address) }
    ensures kept { memory.new ≡ memory.old }
{
    let mut text = Bytes::new(alloc);
    let mut at = address;
    for _ in 0..limit {
        let Ok(byte) = memory.read_array::<1>(at) else {
            return Ok(Text::Unreadable);
        };
        if byte[0] == 0 {
            return Ok(Text::Whole(text));
        }
        text.extend(&byte)?;
        at = at.wrapping_add(1);
    }
    Ok(Text::TooLong)
}

/// The text at an address, unless it cannot be read or has more bytes than there is room for.
fn text_within(
    alloc: Global,
    memory: &mut Space,
    address: u64,
    room: u64,
) -> Result<Option<Bytes>, AllocError>
    requires { room ≤ any_length }
    ensures text { IfOk result (λ t. ReadsWithin t room (whole (text_in memory.old any_length address))) }
    ensures kept { memory.new ≡ memory.old }
{
    match text_at(alloc, memory, address, room)? {
        Text::Whole(text) => Ok(Some(text)),
        Text::TooLong | Text::Unreadable => Ok(None),
    }
}

/// Where the NUL of the text at an address stands, if the text can be read. Nothing of it is kept.
fn text_end(memory: &mut Space, address: u64) -> Option<u64>
    ensures text { is_some result ≡ is_text_at memory.old address }
    ensures passed { IfSome result (AreTexts memory.old address) }
    ensures kept { memory.new ≡ memory.old }
{
    let mut at = address;
    for _ in 0..ANY_LENGTH {
        let Ok(byte) = memory.read_array::<1>(at) else {
            return None;
        };
        if byte[0] == 0 {
            return Some(at);
        }
        at = at.wrapping_add(1);
    }
    None
}

/// Addresses from one to another whose texts can be read, as was seen last.
#[derive(Clone, Copy)]
struct Seen {
    from: u64,
    to: u64,
}

/// The text at an address can be read. What was seen isn't read again.
fn is_text(memory: &mut Space, seen: &mut Seen, address: u64) -> bool
    requires { AreTexts memory.old seen.old.from seen.old.to }
    ensures text { result ≡ is_text_at memory.old address }
    ensures seen { AreTexts memory.old seen.new.from seen.new.to }
    ensures kept { memory.new ≡ memory.old }
{
    if seen.from <= address && address <= seen.to {
        return true;
    }
    match text_end(memory, address) {
        None => false,
        Some(to) => {
            *seen = Seen { from: address, to };
            true
        }
    }
}

/// The texts at all these addresses can be read. Where the addresses ascend, no byte is read twice.
fn are_texts(memory: &mut Space, addresses: &[u64]) -> bool
    ensures texts { result ≡ not (list_any (is_no_text memory.old) addresses.now) }
    ensures kept { memory.new ≡ memory.old }
{
    let mut seen = Seen { from: 1, to: 0 };
    for address in addresses {
        if !is_text(memory, &mut seen, *address) {
            return false;
        }
    }
    true
}

/// The pointers from an address on, of which there are fewer than `limit`, up to a null pointer. What they point to is
/// not looked at.
fn pointers_at(
    alloc: Global,
    memory: &mut Space,
    address: u64,
    limit: u64,
) -> Result<Option<Vec<u64>>, AllocError>
    ensures none { IfOk result (λ p. IfNone p (is_some (texts_in memory.old limit address) ≡ false)) }
    ensures some { IfOk result (λ p. IfSome p (λ v.
        is_some (texts_in memory.old limit address) ≡ not (list_any (is_no_text memory.old) v.items))) }
    ensures kept { memory.new ≡ memory.old }
{
    let mut pointers = Vec::new(alloc);
    let mut at = address;
    for _ in 0..limit {
        let Ok(bytes) = memory.read_array::<8>(at) else {
            return Ok(None);
        };
        let pointer = u64::from_le_bytes(bytes);
        if pointer == 0 {
            return Ok(Some(pointers));
        }
        pointers.push(pointer)?;
        at = at.wrapping_add(8);
    }
    Ok(None)
}

/// The pointers from an address on, of which there are fewer than `limit` before a null pointer, and the texts at them
/// can be read. The texts are looked at in the order of their addresses, so that many pointers to one text cost no more
/// than the text.
fn is_list(alloc: Global, memory: &mut Space, address: u64, limit: u64) -> Result<bool, AllocError>
    ensures list { IfOk result (λ r. r ≡ is_some (texts_in memory.old limit address)) }
    ensures kept { memory.new ≡ memory.old }
{
    match pointers_at(alloc, memory, address, limit)? {
        None => Ok(false),
        Some(mut pointers) => {
            pointers.sort_unstable();
            Ok(are_texts(memory, pointers.as_slice()))
        }
    }
}

/// What a list is that has at least one text too many from here on, if all of them can be read.
fn too_large(
    alloc: Global,
    memory: &mut Space,
    address: u64,
    limit: u64,
) -> Result<Words, AllocError>
    ensures words { IfOk result (λ w. w ≡ too_large_if (is_some (texts_in memory.old limit address))) }
    ensures kept { memory.new ≡ memory.old }
{
    if is_list(alloc, memory, address, limit)? {
        Ok(Words::TooLarge)
    } else {
        Ok(Words::Unreadable)
    }
}

/// The texts at the pointers from an address on, up to a null pointer.
fn texts_at(alloc: Global, memory: &mut Space, address: u64) -> Result<Words, AllocError>
    ensures words { IfOk result (λ w. Reads w (texts_in memory.old any_length address)) }
    ensures kept { memory.new ≡ memory.old }
{
    let mut texts = Vec::new(alloc);
    let mut room = START_LIMIT as u64;
    let mut at = address;
    for i in 0..ANY_LENGTH {
        let Ok(bytes) = memory.read_array::<8>(at) else {
            return Ok(Words::Unreadable);
        };
        let pointer = u64::from_le_bytes(bytes);
        if pointer == 0 {
            return Ok(Words::Whole(texts));
        }
        let Some(text) = text_within(alloc, memory, pointer, room)? else {
            let words = too_large(alloc, memory, at, ANY_LENGTH - i)?;
            return Ok(words);
        };
        let Some(less) = room.checked_sub((text.len() + WORD_COST) as u64) else {
            let others = too_large(alloc, memory, at, ANY_LENGTH - i)?;
            return Ok(others);
        };
        room = less;
        texts.push(text)?;
        at = at.wrapping_add(8);
    }
    Ok(Words::Unreadable)
}

/// A list of texts, as `execve` takes it: no text at address 0, and else those at the pointers from the address on, up
/// to a null pointer. What a program's start has no room for is looked at, and not kept.
pub fn list_at(alloc: Global, memory: &mut Space, address: u64) -> Result<Words, AllocError>
    ensures list { IfOk result (λ w. Reads w (list_in memory.old address)) }
    ensures kept { memory.new ≡ memory.old }
{
    if address == 0 {
        return Ok(Words::Whole(Vec::new(alloc)));
    }
    texts_at(alloc, memory, address)
}
