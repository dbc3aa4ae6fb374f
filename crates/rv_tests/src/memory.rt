//! Calls of a space, a script of them each, and what they tell. Numbers and bytes are worked out by hand.
use rv_isa::Mnemonic;
use rv_mem::{MemFault, Rights, Space};
use std::alloc::{AllocError, Global};
use std::test::Fail;

const NONE: Rights = Rights {
    read: false,
    write: false,
    execute: false,
};

pub(crate) const READ: Rights = Rights { read: true, ..NONE };

pub(crate) const READ_WRITE: Rights = Rights {
    write: true,
    ..READ
};

pub(crate) const EXECUTE: Rights = Rights {
    execute: true,
    ..NONE
};

// The calls again without what they promise, so that a test may make many.

pub(crate) fn map(
    space: &mut Space,
    first: u16,
    pages: u16,
    rights: Rights,
) -> Result<(), MemFault> {
    space.map(4096 * u64::from(first), u64::from(pages), rights)
}

fn unmap(space: &mut Space, first: u16, pages: u16) {
    space.unmap(4096 * u64::from(first), u64::from(pages));
}

fn read(space: &Space, address: u64, len: usize) -> Result<Vec<u8>, MemFault> {
    space.read(address, len)
}

fn peek(space: &Space, address: u64, len: usize) -> Result<Vec<u8>, AllocError> {
    space.peek(address, len)
}

fn write(space: &mut Space, address: u64, bytes: &[u8]) -> Result<(), MemFault> {
    space.write(address, bytes)
}

fn fill(
    alloc: Global,
    space: &mut Space,
    address: u64,
    byte: u8,
    count: usize,
) -> Result<(), MemFault> {
    match Vec::from_elem(alloc, byte, count) {
        Ok(bytes) => write(space, address, bytes.as_slice()),
        Err(_) => Err(MemFault::Memory),
    }
}

pub(crate) fn load(space: &mut Space, address: u64, bytes: &[u8]) -> Result<(), MemFault> {
    space.load(address, bytes)
}

fn fetch(space: &mut Space, address: u64) -> Result<u32, MemFault> {
    space.fetch(address)
}

fn load_double(space: &mut Space, address: u64) -> Result<u64, MemFault> {
    Ok(u64::from_le_bytes(space.read_array(address)?))
}

fn store_double(space: &mut Space, address: u64, value: u64) -> Result<(), MemFault> {
    space.write_array(address, value.to_le_bytes())
}

fn highest_free(space: &Space, pages: u64, low: u64, high: u64) -> Option<u64> {
    space.highest_free(pages, low, high)
}

fn keep(space: &mut Space, address: u64) {
    space.keep(address);
}

/// The first instruction of the code that a page lends, which it has back then.
fn lent(space: &mut Space, start: u64) -> Option<Mnemonic> {
    let code = space.lend(start)?;
    let first = match code.places().first() {
        None => Mnemonic::Unknown,
        Some(inst) => inst.mnemonic,
    };
    space.take_back(start, code);
    Some(first)
}

fn read_near(space: &Space, address: u64) -> Option<[u8; 2]> {
    space.read_near(address)
}

fn write_near(space: &mut Space, beside: u64, address: u64, byte: u8) -> bool {
    space.write_near(beside, address, [byte])
}

fn fork(space: &Space) -> Result<Space, AllocError> {
    space.fork()
}

/// A call; pages by the number of the first, and how many.
#[derive(Clone, Copy)]
enum Call {
    Map(u16, u16, Rights),
    Unmap(u16, u16),
    Write(u64, &'static [u8]),
    /// A write of a byte so many times.
    Fill(u64, u8, usize),
    Load(u64, &'static [u8]),
    Store(u64, u64),
    Read(u64, usize),
    Peek(u64, usize),
    Double(u64),
    Fetch(u64),
    /// How many pages, between two addresses.
    Free(u64, u64, u64),
    /// The first byte of each of the first eight pages; a dot stands for a page that is missing.
    Firsts,
    Keep(u64),
    Lent(u64),
    ReadNear(u64),
    /// A write of a byte beside the page that begins at an address.
    WriteNear(u64, u64, u8),
}

#[derive(Clone, Copy)]
enum Told {
    Done,
    Number(u64),
    Place(Option<u64>),
    Bytes(&'static [u8]),
    Length(usize),
    Code(Option<Mnemonic>),
    Pair(Option<[u8; 2]>),
    Is(bool),
    Unmapped(u64),
    Forbidden(u64),
    TooLarge,
}

fn is_fault(fault: MemFault, told: Told) -> bool {
    match (fault, told) {
        (MemFault::Unmapped(address), Told::Unmapped(wanted)) => address == wanted,
        (MemFault::Forbidden(address), Told::Forbidden(wanted)) => address == wanted,
        (MemFault::TooLarge, Told::TooLarge) => true,
        _ => false,
    }
}

fn is_done(answer: Result<(), MemFault>, told: Told) -> bool {
    match answer {
        Ok(()) => matches!(told, Told::Done),
        Err(fault) => is_fault(fault, told),
    }
}

fn is_number(answer: Result<u64, MemFault>, told: Told) -> bool {
    match answer {
        Ok(number) => matches!(told, Told::Number(wanted) if number == wanted),
        Err(fault) => is_fault(fault, told),
    }
}

fn is_place(place: Option<u64>, told: Told) -> bool {
    match told {
        Told::Place(wanted) => place == wanted,
        _ => false,
    }
}

fn is_code(code: Option<Mnemonic>, told: Told) -> bool {
    matches!(told, Told::Code(wanted) if code == wanted)
}

fn is_pair(pair: Option<[u8; 2]>, told: Told) -> bool {
    matches!(told, Told::Pair(wanted) if pair == wanted)
}

fn are_bytes(bytes: &[u8], told: Told) -> bool {
    match told {
        Told::Bytes(wanted) => bytes == wanted,
        Told::Length(wanted) => bytes.len() == wanted,
        _ => false,
    }
}

fn is_read(answer: Result<Vec<u8>, MemFault>, told: Told) -> bool {
    match answer {
        Ok(bytes) => are_bytes(bytes.as_slice(), told),
        Err(fault) => is_fault(fault, told),
    }
}

fn is_peeked(answer: Result<Vec<u8>, AllocError>, told: Told) -> bool {
    match answer {
        Ok(bytes) => are_bytes(bytes.as_slice(), told),
        Err(_) => false,
    }
}

fn firsts(space: &Space, alloc: Global) -> Result<Vec<u8>, AllocError> {
    let mut bytes = Vec::new(alloc);
    for number in 0..8u64 {
        let byte = peek(space, 4096 * number, 1)?.first().copied();
        bytes.push(byte.unwrap_or(b'.'))?;
    }
    Ok(bytes)
}

/// A call tells this.
fn tells(alloc: Global, space: &mut Space, call: Call, told: Told) -> bool {
    match call {
        Call::Map(first, pages, rights) => is_done(map(space, first, pages, rights), told),
        Call::Unmap(first, pages) => {
            unmap(space, first, pages);
            true
        }
        Call::Write(address, bytes) => is_done(write(space, address, bytes), told),
        Call::Fill(address, byte, count) => is_done(fill(alloc, space, address, byte, count), told),
        Call::Load(address, bytes) => is_done(load(space, address, bytes), told),
        Call::Store(address, value) => is_done(store_double(space, address, value), told),
        Call::Read(address, len) => is_read(read(space, address, len), told),
        Call::Peek(address, len) => is_peeked(peek(space, address, len), told),
        Call::Double(address) => is_number(load_double(space, address), told),
        Call::Fetch(address) => is_number(fetch(space, address).map(u64::from), told),
        Call::Free(pages, low, high) => is_place(highest_free(space, pages, low, high), told),
        Call::Firsts => is_peeked(firsts(space, alloc), told),
        Call::Keep(address) => {
            keep(space, address);
            true
        }
        Call::Lent(start) => is_code(lent(space, start), told),
        Call::ReadNear(address) => is_pair(read_near(space, address), told),
        Call::WriteNear(beside, address, byte) => {
            matches!(told, Told::Is(wanted) if write_near(space, beside, address, byte) == wanted)
        }
    }
}

/// Pages 1 to 3 for reading and writing, 4 for reading, 5 and 6 for execution, 8 with no right.
const EXAMPLE: [Call; 4] = [
    Call::Map(1, 3, READ_WRITE),
    Call::Map(4, 1, READ),
    Call::Map(5, 2, EXECUTE),
    Call::Map(8, 1, NONE),
];

/// Pages 1 to 6, each of which begins with its number as a digit.
const NUMBERED: [Call; 7] = [
    Call::Map(1, 6, READ_WRITE),
    Call::Write(0x1000, b"1"),
    Call::Write(0x2000, b"2"),
    Call::Write(0x3000, b"3"),
    Call::Write(0x4000, b"4"),
    Call::Write(0x5000, b"5"),
    Call::Write(0x6000, b"6"),
];

const DONE: Told = Told::Done;

type Row = (Call, Told);

/// Bytes and doubles across pages.
const ACROSS: &[Row] = &[
    (Call::Fill(0x1ffe, 7, 4100), DONE),
    (Call::Write(0x1ffe, &[1, 2, 3, 4]), DONE),
    (
        Call::Read(0x1ff8, 8),
        Told::Bytes(&[0, 0, 0, 0, 0, 0, 1, 2]),
    ),
    (
        Call::Read(0x1ffc, 8),
        Told::Bytes(&[0, 0, 1, 2, 3, 4, 7, 7]),
    ),
    (
        Call::Read(0x2ffe, 8),
        Told::Bytes(&[7, 7, 7, 7, 0, 0, 0, 0]),
    ),
    (Call::Double(0x1ff8), Told::Number(0x0201_0000_0000_0000)),
    (Call::Double(0x1ffc), Told::Number(0x0707_0403_0201_0000)),
    (Call::Double(0x2ffe), Told::Number(0x0707_0707)),
    (Call::Store(0x1ffd, 0x8877_6655_4433_2211), DONE),
    (Call::Double(0x1ffd), Told::Number(0x8877_6655_4433_2211)),
    (Call::Read(0x2000, 2), Told::Bytes(&[0x44, 0x55])),
];

/// Words are fetched at any address.
const FETCHED: &[Row] = &[
    (Call::Load(0x5ffe, &[0x13, 0x05, 0x10, 0x00]), DONE),
    (Call::Fetch(0x5ffe), Told::Number(0x0010_0513)),
    (Call::Fetch(0x5000), Told::Number(0)),
    (Call::Fetch(0x6ffd), Told::Unmapped(0x7000)),
    (Call::Fetch(0x4ffe), Told::Forbidden(0x4ffe)),
];

/// The first bad byte is named; an access goes up to an end.
const ENDS: &[Row] = &[
    (Call::Double(0xfff), Told::Unmapped(0xfff)),
    (Call::Store(0xfff, 1), Told::Unmapped(0xfff)),
    (Call::Double(0x3ff9), Told::Number(0)),
    (Call::Store(0x3ff9, 1), Told::Forbidden(0x4000)),
    (Call::Double(0x4ff9), Told::Forbidden(0x5000)),
    (Call::Store(0x4ff9, 1), Told::Forbidden(0x4ff9)),
    (Call::Double(0x7ffc), Told::Unmapped(0x7ffc)),
    (Call::Store(0x7ffc, 1), Told::Unmapped(0x7ffc)),
    (Call::Double(0x8fff), Told::Forbidden(0x8fff)),
    (Call::Store(0x8fff, 1), Told::Forbidden(0x8fff)),
    (Call::Double(u64::MAX), Told::Unmapped(u64::MAX)),
    (Call::Store(u64::MAX, 1), Told::Unmapped(u64::MAX)),
    (Call::Double(u64::MAX - 7), Told::Unmapped(u64::MAX - 7)),
    (Call::Store(u64::MAX - 7, 1), Told::Unmapped(u64::MAX - 7)),
    (Call::Double(0x3ff8), Told::Number(0)),
    (Call::Read(u64::MAX, 0), Told::Length(0)),
];

/// A peek stops at the first unmapped byte.
const PEEKED: &[Row] = &[
    (Call::Load(0x8ffe, &[5, 6]), DONE),
    (Call::Peek(0x8ffe, 9), Told::Bytes(&[5, 6])),
    (Call::Peek(0x8ffe, 1), Told::Bytes(&[5])),
    (Call::Peek(0x7fff, 2), Told::Bytes(&[])),
    (Call::Peek(u64::MAX, 2), Told::Bytes(&[])),
    (Call::Peek(0x4800, 0x3000), Told::Length(0x2800)),
];

/// Pages that are mapped again keep their bytes and get the rights; those that are unmapped are gone.
const GROWN: &[Row] = &[
    (Call::Load(0x4000, &[9]), DONE),
    (Call::Map(0, 10, READ), DONE),
    (Call::Read(0, 0xa000), Told::Length(0xa000)),
    (Call::Read(0x4000, 1), Told::Bytes(&[9])),
    (Call::Write(0x4000, &[1]), Told::Forbidden(0x4000)),
    (Call::Fetch(0x5000), Told::Number(0)),
    (Call::Unmap(2, 20), DONE),
    (Call::Read(0x1000, 0x2000), Told::Unmapped(0x2000)),
    (Call::Peek(0, 0x3000), Told::Length(0x2000)),
];

/// Room is found from the top.
const ROOM: &[Row] = &[
    (Call::Free(1, 0, 0xa000), Told::Place(Some(0x9000))),
    (Call::Free(1, 0, 0x9fff), Told::Place(Some(0x7000))),
    (Call::Free(2, 0, 0x9fff), Told::Place(None)),
    (Call::Free(1, 0x7000, 0x9000), Told::Place(Some(0x7000))),
    (Call::Free(1, 0x7001, 0x9000), Told::Place(None)),
    (Call::Free(1, 0, 0x1000), Told::Place(Some(0))),
    (Call::Free(0, 1, 0x8fff), Told::Place(Some(0x8000))),
    (Call::Free(0, 1, 0xfff), Told::Place(None)),
    (
        Call::Free(3, 0, u64::MAX),
        Told::Place(Some(0xffff_ffff_ffff_c000)),
    ),
    (Call::Free(u64::MAX, 0, u64::MAX), Told::Place(None)),
];

/// Pages 16 to 34, each second of them: nine holes of one page.
const HOLED: [Call; 11] = [
    Call::Map(16, 20, READ),
    Call::Unmap(17, 1),
    Call::Unmap(19, 1),
    Call::Unmap(21, 1),
    Call::Unmap(23, 1),
    Call::Unmap(25, 1),
    Call::Unmap(27, 1),
    Call::Unmap(29, 1),
    Call::Unmap(31, 1),
    Call::Unmap(33, 1),
    Call::Unmap(35, 1),
];

/// Holes that are too small are passed over, and those that grow or shrink are known as what they are then.
const HOLES: &[Row] = &[
    (Call::Free(1, 0, 0x24000), Told::Place(Some(0x23000))),
    (Call::Free(1, 0, 0x23000), Told::Place(Some(0x21000))),
    (Call::Free(1, 0x21001, 0x23000), Told::Place(None)),
    (Call::Free(2, 0, 0x24000), Told::Place(Some(0xe000))),
    (Call::Free(2, 0xe001, 0x24000), Told::Place(None)),
    (Call::Free(3, 0, 0x24000), Told::Place(Some(0xd000))),
    (Call::Free(16, 0, 0x24000), Told::Place(Some(0))),
    (Call::Free(17, 0, 0x24000), Told::Place(None)),
    (Call::Unmap(26, 1), DONE),
    (Call::Free(2, 0, 0x24000), Told::Place(Some(0x1a000))),
    (Call::Free(3, 0, 0x24000), Told::Place(Some(0x19000))),
    (Call::Free(4, 0, 0x24000), Told::Place(Some(0xc000))),
    (Call::Map(26, 1, READ), DONE),
    (Call::Free(3, 0, 0x24000), Told::Place(Some(0xd000))),
    (Call::Unmap(20, 3), DONE),
    (Call::Free(5, 0, 0x24000), Told::Place(Some(0x13000))),
    (Call::Free(6, 0, 0x24000), Told::Place(Some(0xa000))),
    (Call::Map(21, 1, READ), DONE),
    (Call::Free(2, 0, 0x24000), Told::Place(Some(0x16000))),
    (Call::Free(2, 0, 0x17000), Told::Place(Some(0x13000))),
    (Call::Free(3, 0, 0x24000), Told::Place(Some(0xd000))),
];

/// There are 16,384 pages at most.
const LIMITED: &[Row] = &[
    (Call::Map(5, 16_000, READ), DONE),
    (Call::Map(20_000, 385, READ), Told::TooLarge),
    (Call::Map(4, 16_385, READ), Told::TooLarge),
    (Call::Map(0, u16::MAX, READ), Told::TooLarge),
    (Call::Map(20_000, 384, READ), DONE),
    (Call::Map(4, 1, READ), Told::TooLarge),
    (Call::Map(5, 16_000, READ), DONE),
    (Call::Map(4, 2, READ), Told::TooLarge),
    (Call::Peek(0x4000, 1), Told::Length(0)),
];

/// Pages stay where others are unmapped.
const UNMAPPED: &[Row] = &[
    (Call::Unmap(3, 1), DONE),
    (Call::Firsts, Told::Bytes(b".12.456.")),
    (Call::Unmap(8, 9), DONE),
    (Call::Firsts, Told::Bytes(b".12.456.")),
    (Call::Unmap(6, 60_000), DONE),
    (Call::Firsts, Told::Bytes(b".12.45..")),
    (Call::Unmap(0, 3), DONE),
    (Call::Firsts, Told::Bytes(b"....45..")),
    (Call::Unmap(4, 1), DONE),
    (Call::Firsts, Told::Bytes(b".....5..")),
    (Call::Unmap(0, 60_000), DONE),
    (Call::Firsts, Told::Bytes(b"........")),
];

/// Pages come back blank.
const BLANK: &[Row] = &[
    (Call::Unmap(2, 2), DONE),
    (Call::Map(0, 6, READ), DONE),
    (Call::Firsts, Told::Bytes(b"\x001\x00\x00456.")),
    (Call::Write(0x1fff, &[7, 7]), Told::Forbidden(0x2000)),
    (Call::Peek(0x1fff, 1), Told::Bytes(&[0])),
];

/// Pages are crossed in whatever order they were mapped.
const CROSSED: &[Row] = &[
    (Call::Map(7, 1, READ_WRITE), DONE),
    (Call::Map(5, 1, READ_WRITE), DONE),
    (Call::Map(6, 1, READ_WRITE), DONE),
    (Call::Fill(0x5fff, 3, 4098), DONE),
    (Call::Fill(0x4fff, 3, 4098), Told::Unmapped(0x4fff)),
    (Call::Fill(0x6fff, 3, 4098), Told::Unmapped(0x8000)),
    (Call::Read(0x6ffe, 4), Told::Bytes(&[3, 3, 3, 0])),
];

/// What is near is what was used lately, and of pages whose numbers agree in their lowest 6 bits the last; elsewhere
/// there is no answer.
const NEAR: &[Row] = &[
    (Call::Map(1, 1, READ_WRITE), DONE),
    (Call::Map(3, 1, READ), DONE),
    (Call::Map(65, 1, READ), DONE),
    (Call::Store(0x1008, 0x0102), DONE),
    (Call::ReadNear(0x1008), Told::Pair(Some([2, 1]))),
    (Call::ReadNear(0x3000), Told::Pair(None)),
    (Call::Double(0x3000), Told::Number(0)),
    (Call::WriteNear(0, 0x1009, 7), Told::Is(true)),
    (Call::ReadNear(0x1008), Told::Pair(Some([2, 7]))),
    (Call::WriteNear(0x1000, 0x1009, 8), Told::Is(false)),
    (Call::ReadNear(0x1008), Told::Pair(Some([2, 7]))),
    (Call::WriteNear(0, 0x3000, 7), Told::Is(false)),
    (Call::Double(0x41000), Told::Number(0)),
    (Call::WriteNear(0, 0x1009, 7), Told::Is(false)),
];

/// Code is lent of a page of which instructions were kept. It knows nothing of the words that were written to since, and
/// no store is near while a page has code.
const KEPT: &[Row] = &[
    (Call::Map(2, 1, EXECUTE), DONE),
    (Call::Load(0x2000, &[0x73, 0, 0, 0]), DONE),
    (Call::Fetch(0x2000), Told::Number(0x73)),
    (Call::Lent(0x2000), Told::Code(None)),
    (Call::Keep(0x2000), DONE),
    (Call::Lent(0x2000), Told::Code(Some(Mnemonic::Ecall))),
    (Call::Lent(0x2000), Told::Code(Some(Mnemonic::Ecall))),
    (Call::Lent(0x2004), Told::Code(None)),
    (Call::Lent(0x42000), Told::Code(None)),
    (Call::Load(0x2004, &[0x13, 0, 0, 0]), DONE),
    (Call::Lent(0x2000), Told::Code(Some(Mnemonic::Ecall))),
    (Call::Load(0x2003, &[0]), DONE),
    (Call::Lent(0x2000), Told::Code(Some(Mnemonic::Unknown))),
    (Call::Keep(0x2000), DONE),
    (Call::Map(2, 1, READ_WRITE), DONE),
    (Call::Double(0x2000), Told::Number(0x13_0000_0073)),
    (Call::WriteNear(0, 0x2000, 0x13), Told::Is(false)),
    (Call::Lent(0x2000), Told::Code(Some(Mnemonic::Ecall))),
    (Call::Store(0x2000, 0x13), DONE),
    (Call::Lent(0x2000), Told::Code(Some(Mnemonic::Unknown))),
    (Call::Keep(0x2000), DONE),
    (Call::Lent(0x2000), Told::Code(Some(Mnemonic::NoOperation))),
    (Call::Map(3, 1, READ_WRITE), DONE),
    (Call::Keep(0x3000), DONE),
    (Call::Lent(0x3000), Told::Code(None)),
];

/// What a space begins with, and the rows.
type Script = (&'static [Call], &'static [Row]);

const SCRIPTS: [Script; 13] = [
    (&EXAMPLE, ACROSS),
    (&EXAMPLE, FETCHED),
    (&EXAMPLE, ENDS),
    (&EXAMPLE, PEEKED),
    (&EXAMPLE, GROWN),
    (&EXAMPLE, ROOM),
    (&HOLED, HOLES),
    (&[], LIMITED),
    (&NUMBERED, UNMAPPED),
    (&NUMBERED, BLANK),
    (&[], CROSSED),
    (&[], NEAR),
    (&[], KEPT),
];

fn all_succeed(alloc: Global, space: &mut Space, calls: &[Call]) -> bool {
    for call in calls {
        if !tells(alloc, space, *call, DONE) {
            return false;
        }
    }
    true
}

/// A space after these calls, each of which succeeds.
fn begun(alloc: Global, calls: &[Call]) -> Result<Space, Fail> {
    let mut space = Space::new(alloc);
    if all_succeed(alloc, &mut space, calls) {
        return Ok(space);
    }
    drop(space);
    Err(Fail::from("a script begins"))
}

/// How many rows tell what they should, up to the first that doesn't.
fn followed(alloc: Global, space: &mut Space, rows: &[Row]) -> usize {
    let mut count = 0usize;
    for (call, told) in rows {
        if !tells(alloc, space, *call, *told) {
            break;
        }
        count = count.saturating_add(1);
    }
    count
}

/// The same of a space after these calls.
fn followed_anew(alloc: Global, calls: &[Call], rows: &[Row]) -> Result<usize, Fail> {
    let mut space = begun(alloc, calls)?;
    let count = followed(alloc, &mut space, rows);
    drop(space);
    Ok(count)
}

/// The first script that isn't followed to its end, and how many of its rows were.
fn unfollowed(alloc: Global) -> Result<Option<(usize, usize)>, Fail> {
    let mut number = 0usize;
    for (calls, rows) in SCRIPTS {
        let count = followed_anew(alloc, calls, rows)?;
        if count != rows.len() {
            return Ok(Some((number, count)));
        }
        number = number.saturating_add(1);
    }
    Ok(None)
}

#[test]
fn scripts(rt: HostRuntime) -> Result<(), Fail> {
    assert_eq!(rt; unfollowed(rt.alloc())?, None);
    Ok(())
}

/// Pages 1 to 6, each of which begins with its number as a digit.
fn numbered(alloc: Global) -> Result<Space, Fail> {
    begun(alloc, &NUMBERED)
}

/// The child loses page 2 and writes on page 1, the parent on page 3.
fn change_both(parent: &mut Space, child: &mut Space) -> Result<(), MemFault> {
    unmap(child, 2, 1);
    write(child, 0x1000, b"9")?;
    write(parent, 0x3000, b"7")
}

/// The pages of a space begin so.
fn begin(alloc: Global, space: &Space, bytes: &[u8]) -> Result<bool, AllocError> {
    Ok(firsts(space, alloc)?.as_slice() == bytes)
}

/// Changes both: whether each of them has its own changes then.
fn change_and_look(alloc: Global, parent: &mut Space, child: &mut Space) -> Result<bool, Fail> {
    change_both(parent, child)?;
    Ok(begin(alloc, parent, b".127456.")? && begin(alloc, child, b".9.3456.")?)
}

/// The same of a space and its fork.
fn part_ways(alloc: Global) -> Result<bool, Fail> {
    let mut parent = numbered(alloc)?;
    let do_so = match fork(&parent) {
        Ok(mut child) => {
            let do_so = change_and_look(alloc, &mut parent, &mut child);
            drop(child);
            do_so
        }
        Err(fault) => Err(Fail::from(fault)),
    };
    drop(parent);
    do_so
}

#[test]
fn forked_spaces_go_their_own_ways(rt: HostRuntime) -> Result<(), Fail> {
    assert!(rt; part_ways(rt.alloc())?);
    Ok(())
}

/// A map that may be refused memory leaves pages as they were, or is made.
fn map_or_leave(alloc: Global, space: &mut Space) -> Result<bool, Fail> {
    unmap(space, 3, 1);
    if map(space, 0, 40, EXECUTE).is_ok() {
        return Ok(fetch(space, 0x27ffc) == Ok(0));
    }
    let are_left = begin(alloc, space, b".12.456.")?;
    Ok(are_left && fetch(space, 0x1000) == Err(MemFault::Forbidden(0x1000)))
}

fn is_mapped_or_left(alloc: Global) -> Result<bool, Fail> {
    let mut space = numbered(alloc)?;
    let is_so = map_or_leave(alloc, &mut space);
    drop(space);
    is_so
}

/// With each allocation made to fail in turn, this shows that a call that is refused memory changes nothing.
#[test]
fn a_refused_map_changes_nothing(rt: HostRuntime) -> Result<(), Fail> {
    assert!(rt; is_mapped_or_left(rt.alloc())?);
    Ok(())
}

fn forks(space: &Space) -> bool {
    match fork(space) {
        Ok(child) => {
            drop(child);
            true
        }
        Err(_) => false,
    }
}

/// How many of a thousand forks of a space succeed.
fn count_forks(space: &mut Space) -> Result<u32, MemFault> {
    map(space, 0, 100, READ_WRITE)?;
    let mut count = 0u32;
    for _ in 0..1_000u16 {
        count = count.wrapping_add(u32::from(forks(space)));
    }
    Ok(count)
}

fn count_forks_anew(alloc: Global) -> Result<u32, MemFault> {
    let mut space = Space::new(alloc);
    let count = count_forks(&mut space);
    drop(space);
    count
}

/// A hundred pages forked a thousand times, each copy dropped at once. No page is copied, so all of it makes fewer than
/// 60,000 requests for memory: with that one refused (`rt try rv_tests --test --fail-alloc 60000`) every fork succeeds.
#[test]
fn forks_share_their_pages(rt: HostRuntime) -> Result<(), Fail> {
    assert_eq!(rt; count_forks_anew(rt.alloc())?, 1_000);
    Ok(())
}

/// Whether the parent has what was written across its shared pages, or neither space was changed.
fn write_or_leave(alloc: Global, parent: &mut Space, child: &Space) -> Result<bool, AllocError> {
    let wanted = if write(parent, 0x2ffe, &[b'x'; 4099]).is_ok() {
        b".12xx56."
    } else {
        b".123456."
    };
    Ok(begin(alloc, parent, wanted)? && begin(alloc, child, b".123456.")?)
}

fn is_written_or_left(alloc: Global) -> Result<bool, Fail> {
    let mut parent = numbered(alloc)?;
    let is_so = match fork(&parent) {
        Ok(child) => {
            let is_so = write_or_leave(alloc, &mut parent, &child);
            drop(child);
            is_so
        }
        Err(_) => Err(AllocError),
    };
    drop(parent);
    Ok(is_so?)
}

/// With each allocation made to fail in turn, this shows that a write to shared pages that is refused memory changes
/// neither space.
#[test]
fn a_refused_write_to_shared_pages_changes_nothing(rt: HostRuntime) -> Result<(), Fail> {
    assert!(rt; is_written_or_left(rt.alloc())?);
    Ok(())
}
