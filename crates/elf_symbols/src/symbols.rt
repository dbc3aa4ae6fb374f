//! The functions that a symbol table names (gABI, "Symbol Table").

ghost use Rattle.std.specs.Prelude.{◌≡◌, ◌+◌, ◌*◌, ◌≤◌, length, IfOk, Some, None, if◌then◌else◌};
ghost use Rattle.elf_symbols.specs.Symbols as spec;

use crate::sections::{Content, SYMBOL_SIZE, SymbolTable, table_of};
use elf_image::{byte_at, double_at, word_at};
use std::alloc::{AllocError, Global};

/// A function of a program: its addresses, and where its name stands in the file.
#[derive(Clone, Copy, Debug, PartialEq, Eq)]
pub struct Function {
    pub start: u64,
    pub size: u64,
    pub name: usize,
    pub length: usize,
}

/// The type of a function's symbol, STT_FUNC.
const FUNCTION_TYPE: u8 = 2;

/// The most bytes of a name that are told.
const MOST: usize = 4096;

/// How many bytes stand before the first zero.
fn text_length(bytes: &[u8]) -> usize
    ensures { result ≡ spec.text_length bytes.now }
{
    let mut length: usize = 0;
    let mut left = bytes;
    while let Some((byte, rest)) = left.split_first() {
        if *byte == 0 {
            return length;
        }
        length += 1;
        left = rest;
    }
    length
}

/// How many bytes are looked at for a name, where so many are left.
fn room_of(left: usize) -> usize
    ensures of { result ≡ spec.room_of left }
    ensures within { result ≤ left }
{
    if left < MOST { left } else { MOST }
}

/// The function of the symbol at an offset, if it is one's that has a name.
fn symbol_at(bytes: &[u8], names: Content, at: usize) -> Option<Function>
    requires inside { at + 24 ≤ length bytes.now }
    requires names { names.start + names.size ≤ length bytes.now }
    ensures { result
        ≡ (if spec.is_function bytes.now names at then Some (spec.function_of bytes.now names at) else None) }
{
    let place = word_at(bytes, at) as usize;
    if byte_at(bytes, at + 4) % 16 != FUNCTION_TYPE || place == 0 || names.size <= place {
        return None;
    }
    let name = names.start + place;
    Some(Function {
        start: double_at(bytes, at + 8),
        size: double_at(bytes, at + 16),
        name,
        length: text_length(&bytes[name..name + room_of(names.size - place)]),
    })
}

/// The functions among so many symbols, from an offset on.
fn functions_from(
    alloc: Global,
    bytes: &[u8],
    names: Content,
    at: usize,
    count: usize,
) -> Result<Vec<Function>, AllocError>
    requires inside { at + 24 * count ≤ length bytes.now }
    requires names { names.start + names.size ≤ length bytes.now }
    ensures { IfOk result (λ v. v.items ≡ spec.functions_from bytes.now names at count) }
{
    let mut found = Vec::new(alloc);
    let mut next = at;
    for _ in 0..count {
        if let Some(function) = symbol_at(bytes, names, next) {
            found.push(function)?;
        }
        next += SYMBOL_SIZE;
    }
    Ok(found)
}

/// The functions that a table names.
fn functions_in(
    alloc: Global,
    bytes: &[u8],
    table: SymbolTable,
) -> Result<Vec<Function>, AllocError>
    requires symbols { table.symbols.start + table.symbols.size ≤ length bytes.now }
    requires names { table.names.start + table.names.size ≤ length bytes.now }
    ensures { IfOk result (λ v. v.items ≡ spec.functions_in bytes.now (Some table)) }
{
    let Content { start, size } = table.symbols;
    let functions = functions_from(alloc, bytes, table.names, start, size / SYMBOL_SIZE)?;
    Ok(functions)
}

/// The functions that the symbol table of a file names, in its order; none where the file has no such table.
pub fn functions_of(alloc: Global, bytes: &[u8]) -> Result<Vec<Function>, AllocError>
    ensures { IfOk result (λ v. v.items ≡ spec.functions_of bytes.now) }
{
    let Some(table) = table_of(bytes) else {
        return Ok(Vec::new(alloc));
    };
    let functions = functions_in(alloc, bytes, table)?;
    Ok(functions)
}

/// The name of a function of this file.
#[tactic(auto, unfolding(crate::specs::Symbols::name_of))]
pub fn name_of(bytes: &[u8], function: Function) -> &[u8]
    ensures { result.now ≡ spec.name_of bytes.now function }
{
    let (start, length) = (function.name, function.length);
    if bytes.len() < start || bytes.len() - start < length {
        return &[];
    }
    &bytes[start..start + length]
}
