//! The symbol table of a file (gABI, "Sections").

ghost use Rattle.std.specs.Prelude.{◌≡◌, ◌+◌, ◌≤◌, true, length, IfSome};
ghost use Rattle.elf_symbols.specs.Sections as spec;

use elf_image::{byte_at, double_at, half_at, word_at};

/// What a section has in its file.
#[derive(Clone, Copy, Debug, PartialEq, Eq)]
pub struct Content {
    pub start: usize,
    pub size: usize,
}

/// A table of symbols, and their names.
#[derive(Clone, Copy, Debug, PartialEq, Eq)]
pub struct SymbolTable {
    pub symbols: Content,
    pub names: Content,
}

/// The size of the ELF header, and that of a section's header.
pub const HEADER_SIZE: usize = 64;

/// 7F 45 4C 46, the lowest byte first.
const MAGIC: u32 = 0x464c_457f;

/// The types of sections with symbols, SHT_SYMTAB, and with texts, SHT_STRTAB.
const SYMBOLS: u32 = 2;

const TEXTS: u32 = 3;

/// The size of a symbol.
pub const SYMBOL_SIZE: usize = 24;

/// Whether so many bytes from an offset on pass the end of these.
pub fn passes_end(bytes: &[u8], at: u64, size: u64) -> bool
    ensures { result ≡ spec.passes_end bytes.now at size }
{
    let length = bytes.len() as u64;
    length < at || length - at < size
}

#[tactic(auto, unfolding(crate::specs::Sections::is_wide))]
fn is_wide(bytes: &[u8]) -> bool
    requires { 64 ≤ length bytes.now }
    ensures { result ≡ spec.is_wide bytes.now }
{
    word_at(bytes, 0) == MAGIC
        && byte_at(bytes, 4) == 2
        && byte_at(bytes, 5) == 1
        && half_at(bytes, 58) == 64
}

/// Whether this is a file of 64 bits, the lowest byte first, whose section headers have 64 bytes each.
#[tactic(auto, unfolding(crate::specs::Sections::has_headers))]
pub fn has_headers(bytes: &[u8]) -> bool
    ensures has { result ≡ spec.has_headers bytes.now }
    ensures long { result ≡ true → 64 ≤ length bytes.now }
{
    bytes.len() >= HEADER_SIZE && is_wide(bytes)
}

/// The offset of the first section header of a symbol table, where headers begin at an offset.
fn header_from(bytes: &[u8], start: u64, count: u16) -> Option<usize>
    ensures found { result ≡ spec.header_from bytes.now start count }
    ensures inside { IfSome result (λ at. at + 64 ≤ length bytes.now) }
{
    let mut at = start as usize;
    for _ in 0..count {
        if bytes.len() < at || bytes.len() - at < HEADER_SIZE {
            return None;
        }
        if word_at(bytes, at + 4) == SYMBOLS {
            return Some(at);
        }
        at += HEADER_SIZE;
    }
    None
}

/// The offset of the symbol table's header.
fn header_of(bytes: &[u8]) -> Option<usize>
    ensures found { result ≡ spec.header_of bytes.now }
    ensures inside { IfSome result (λ at. at + 64 ≤ length bytes.now) }
    ensures long { IfSome result (λ _. 64 ≤ length bytes.now) }
{
    if !has_headers(bytes) {
        return None;
    }
    header_from(bytes, double_at(bytes, 40), half_at(bytes, 60))
}

/// What the section with the header at an offset has.
#[tactic(auto, unfolding(crate::specs::Sections::content_at))]
pub fn content_at(bytes: &[u8], at: usize) -> Option<Content>
    requires { at + 64 ≤ length bytes.now }
    ensures found { result ≡ spec.content_at bytes.now at }
    ensures inside { IfSome result (λ c. c.start + c.size ≤ length bytes.now) }
{
    let start = double_at(bytes, at + 24);
    let size = double_at(bytes, at + 32);
    if passes_end(bytes, start, size) {
        return None;
    }
    Some(Content {
        start: start as usize,
        size: size as usize,
    })
}

#[tactic(auto, unfolding(crate::specs::Sections::texts_at))]
fn texts_at(bytes: &[u8], at: usize) -> Option<Content>
    requires { at + 64 ≤ length bytes.now }
    ensures found { result ≡ spec.texts_at bytes.now at }
    ensures inside { IfSome result (λ c. c.start + c.size ≤ length bytes.now) }
{
    if word_at(bytes, at + 4) != TEXTS {
        return None;
    }
    content_at(bytes, at)
}

/// What the section of texts with this number has.
#[tactic(auto, unfolding(crate::specs::Sections::texts_of))]
pub fn texts_of(bytes: &[u8], number: u32) -> Option<Content>
    requires { 64 ≤ length bytes.now }
    ensures found { result ≡ spec.texts_of bytes.now number }
    ensures inside { IfSome result (λ c. c.start + c.size ≤ length bytes.now) }
{
    let start = double_at(bytes, 40);
    let place = 64 * u64::from(number);
    if u32::from(half_at(bytes, 60)) <= number || passes_end(bytes, start, place + 64) {
        return None;
    }
    texts_at(bytes, start as usize + place as usize)
}

/// The symbol table with the header at an offset.
#[tactic(auto, unfolding(crate::specs::Sections::table_at))]
fn table_at(bytes: &[u8], at: usize) -> Option<SymbolTable>
    requires long { 64 ≤ length bytes.now }
    requires inside { at + 64 ≤ length bytes.now }
    ensures found { result ≡ spec.table_at bytes.now at }
    ensures symbols { IfSome result (λ t. t.symbols.start + t.symbols.size ≤ length bytes.now) }
    ensures names { IfSome result (λ t. t.names.start + t.names.size ≤ length bytes.now) }
{
    if double_at(bytes, at + 56) != SYMBOL_SIZE as u64 {
        return None;
    }
    let Some(symbols) = content_at(bytes, at) else {
        return None;
    };
    let Some(names) = texts_of(bytes, word_at(bytes, at + 40)) else {
        return None;
    };
    Some(SymbolTable { symbols, names })
}

/// The symbol table of a file; none where it has none that is whole, and all of whose parts lie in the file.
pub fn table_of(bytes: &[u8]) -> Option<SymbolTable>
    ensures found { result ≡ spec.table_of bytes.now }
    ensures symbols { IfSome result (λ t. t.symbols.start + t.symbols.size ≤ length bytes.now) }
    ensures names { IfSome result (λ t. t.names.start + t.names.size ≤ length bytes.now) }
{
    match header_of(bytes) {
        Some(at) => table_at(bytes, at),
        None => None,
    }
}
