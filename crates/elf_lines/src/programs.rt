//! Line number programs (DWARF 5, 6.2.2 and 6.2.5).

ghost use Rattle.std.specs.Prelude.{◌≡◌, ◌++◌, ◌≤◌, OnOk, option_to_list};
ghost use Rattle.elf_lines.specs.Programs as spec;
ghost use Rattle.dwarf_data.specs.Reading.{Gives};

use crate::fields::Header;
use crate::rows::Row;
use byteorder::{ByteOrder, LittleEndian};
use dwarf_data::{behind_uleb128s, read_bytes, read_sleb128, read_u16, read_uleb128};
use std::alloc::AllocError;

/// The registers of the machine that say something of files and lines.
#[derive(Clone, Copy)]
pub struct Registers {
    pub address: u64,
    pub file: u64,
    pub line: u64,
    pub is_stmt: bool,
}

/// What an opcode appends: nothing, a row, or the last row of a sequence.
#[derive(Clone, Copy)]
pub enum Appended {
    Nothing,
    Row,
    LastRow,
}

/// At the start of each sequence.
fn initial(header: Header) -> Registers
    ensures { result ≡ spec.initial header }
{
    Registers {
        address: 0,
        file: 1,
        line: 1,
        is_stmt: header.default_is_stmt,
    }
}

fn advanced(header: Header, now: Registers, count: u64) -> Registers
    ensures { result ≡ spec.advanced header now count }
{
    Registers {
        address: now.address.wrapping_add(u64::from(header.minimum_instruction_length).wrapping_mul(
            count,
        )),
        file: now.file,
        line: now.line,
        is_stmt: now.is_stmt,
    }
}

/// A byte that may be below 0, in two's complement.
fn signed_byte(byte: u8) -> u64
    ensures { result ≡ spec.signed_byte byte }
{
    if byte < 128 {
        u64::from(byte)
    } else {
        u64::from(byte) + (u64::MAX - 255)
    }
}

fn quotient(number: u8, range: u8) -> u64
    ensures { result ≡ spec.quotient number range }
{
    if range == 0 {
        return 0;
    }
    u64::from(number / range)
}

fn remainder(number: u8, range: u8) -> u64
    ensures { result ≡ spec.remainder number range }
{
    if range == 0 {
        return 0;
    }
    u64::from(number % range)
}

fn special(header: Header, now: Registers, opcode: u8) -> Registers
    requires { header.opcode_base ≤ opcode }
    ensures { result ≡ spec.special header now opcode }
{
    let adjusted = opcode - header.opcode_base;
    let moved = advanced(header, now, quotient(adjusted, header.line_range));
    let lines = signed_byte(header.line_base).wrapping_add(remainder(adjusted, header.line_range));
    Registers {
        address: moved.address,
        file: moved.file,
        line: moved.line.wrapping_add(lines),
        is_stmt: moved.is_stmt,
    }
}

/// What a standard opcode that appends no row does, and the bytes behind its operands.
#[tactic(auto, unfolding(crate::specs::Programs::moved))]
fn moved<'a>(
    header: Header,
    lengths: &[u8],
    now: Registers,
    opcode: u8,
    bytes: &'a [u8],
) -> Option<(Registers, &'a [u8])>
    ensures { Gives (λ x. (x.0, x.1.now)) result (spec.moved header lengths.now now opcode bytes.now) }
{
    match opcode {
        2 => {
            let (count, rest) = read_uleb128(bytes)?;
            Some((advanced(header, now, count), rest))
        }
        3 => {
            let (lines, rest) = read_sleb128(bytes)?;
            let line = now.line.wrapping_add(lines);
            Some((Registers { line, ..now }, rest))
        }
        4 => {
            let (file, rest) = read_uleb128(bytes)?;
            Some((Registers { file, ..now }, rest))
        }
        6 => {
            let is_stmt = !now.is_stmt;
            Some((Registers { is_stmt, ..now }, bytes))
        }
        8 => {
            let count = quotient(255 - header.opcode_base, header.line_range);
            Some((advanced(header, now, count), bytes))
        }
        9 => {
            let (size, rest) = read_u16(bytes)?;
            let address = now.address.wrapping_add(u64::from(size));
            Some((Registers { address, ..now }, rest))
        }
        _ => {
            let rest = behind_uleb128s(operands(lengths, opcode), bytes)?;
            Some((now, rest))
        }
    }
}

/// What a standard opcode does, and the bytes behind its operands.
#[tactic(auto, unfolding(crate::specs::Programs::standard))]
fn standard<'a>(
    header: Header,
    lengths: &[u8],
    now: Registers,
    opcode: u8,
    bytes: &'a [u8],
) -> Option<(Registers, Appended, &'a [u8])>
    ensures { Gives (λ x. (x.0, x.1, x.2.now)) result
        (spec.standard header lengths.now now opcode bytes.now) }
{
    if opcode == 1 {
        return Some((now, Appended::Row, bytes));
    }
    let (next, rest) = moved(header, lengths, now, opcode, bytes)?;
    Some((next, Appended::Nothing, rest))
}

/// How many operands a standard opcode has.
fn operands(lengths: &[u8], opcode: u8) -> u64
    ensures { result ≡ spec.operands lengths.now opcode }
{
    if opcode == 0 {
        return 0;
    }
    match lengths.get(opcode as usize - 1) {
        Some(count) => u64::from(*count),
        None => 0,
    }
}

/// What an extended opcode does.
#[tactic(auto, unfolding(crate::specs::Programs::extended))]
fn extended(now: Registers, block: &[u8]) -> (Registers, Appended)
    ensures { result ≡ spec.extended now block.now }
{
    let Some((opcode, operands)) = block.split_first() else {
        return (now, Appended::Nothing);
    };
    if *opcode == 1 {
        return (now, Appended::LastRow);
    }
    if *opcode == 2 && operands.len() == 8 {
        let address = LittleEndian::read_u64(operands);
        return (Registers { address, ..now }, Appended::Nothing);
    }
    (now, Appended::Nothing)
}

/// What the opcode at the front of bytes does, and the bytes behind it.
#[tactic(auto, unfolding(crate::specs::Programs::opcode_at))]
fn opcode_at<'a>(
    header: Header,
    lengths: &[u8],
    now: Registers,
    bytes: &'a [u8],
) -> Option<(Registers, Appended, &'a [u8])>
    ensures { Gives (λ x. (x.0, x.1, x.2.now)) result
        (spec.opcode_at header lengths.now now bytes.now) }
{
    let (opcode, rest) = bytes.split_first()?;
    if header.opcode_base <= *opcode {
        return Some((special(header, now, *opcode), Appended::Row, rest));
    }
    if *opcode == 0 {
        let (size, rest) = read_uleb128(rest)?;
        let (block, rest) = read_bytes(size, rest)?;
        let (next, appended) = extended(now, block);
        return Some((next, appended, rest));
    }
    standard(header, lengths, now, *opcode, rest)
}

/// The row that was appended last, up to one that is appended now.
fn up_to(unit: usize, last: Option<Registers>, now: Registers) -> Option<Row>
    ensures { result ≡ spec.up_to unit last now }
{
    let Some(last) = last else {
        return None;
    };
    if now.address <= last.address {
        return None;
    }
    Some(Row {
        address: last.address,
        end: now.address,
        file: last.file,
        line: last.line,
        is_stmt: last.is_stmt,
        unit,
    })
}

fn ended(unit: usize, last: Option<Registers>, now: Registers, appended: Appended) -> Option<Row>
    ensures { result ≡ spec.ended unit last now appended }
{
    match appended {
        Appended::Nothing => None,
        Appended::Row | Appended::LastRow => up_to(unit, last, now),
    }
}

fn last_behind(last: Option<Registers>, now: Registers, appended: Appended) -> Option<Registers>
    ensures { result ≡ spec.last_behind last now appended }
{
    match appended {
        Appended::Nothing => last,
        Appended::Row => Some(now),
        Appended::LastRow => None,
    }
}

fn registers_behind(header: Header, now: Registers, appended: Appended) -> Registers
    ensures { result ≡ spec.registers_behind header now appended }
{
    match appended {
        Appended::Nothing | Appended::Row => now,
        Appended::LastRow => initial(header),
    }
}

fn put(found: &mut Vec<Row>, row: Option<Row>) -> Result<(), AllocError>
    ensures { OnOk result (found.new.items ≡ found.old.items ++ option_to_list row) }
{
    match row {
        Some(row) => {
            found.push(row)?;
            Ok(())
        }
        None => Ok(()),
    }
}

/// Appends the rows of a program, of the unit at an offset.
pub fn put_rows(
    found: &mut Vec<Row>,
    header: Header,
    lengths: &[u8],
    unit: usize,
    program: &[u8],
) -> Result<(), AllocError>
    ensures { OnOk result
        (found.new.items ≡ found.old.items ++ spec.rows_of_program header lengths.now unit program.now) }
{
    let mut registers = initial(header);
    let mut last = None;
    let mut left = program;
    for _ in 0..program.len() {
        let Some((now, appended, rest)) = opcode_at(header, lengths, registers, left) else {
            return Ok(());
        };
        put(found, ended(unit, last, now, appended))?;
        last = last_behind(last, now, appended);
        registers = registers_behind(header, now, appended);
        left = rest;
    }
    Ok(())
}
