//! The bytes of a statement: how many, and which.

ghost use Rattle.std.specs.Prelude.{◌≡◌, ◌≤◌, ◌<◌, ◌+◌, ◌*◌, ◌++◌, ◌^◌, map, option_map, IfSome, IfOk, OnOk, Ok, ℕ, List, replicate, length};
ghost use Rattle.std.specs.List.{list_all};
ghost use Rattle.rv_asm.specs.Codes.{Location, bytes_in, size_of, padding, place_of, place_named, address_of, distance, upper_part, lower_part, add, setting, pointing, fits, if_so, instructions_of, encoded, words_of, is_range_kind, is_out_of_range, placed_size, AllSpelled, number_bytes, numbers_bytes, words_bytes, bytes_of};
ghost use Rattle.rv_syntax.specs.Statements.{Said, said};
ghost use Rattle.rv_asm.specs.declared.code.Expansion.{Expansion};
ghost use Rattle.rv_isa.specs.declared.inst.Inst.{Inst};

use crate::fault::AsmKind;
use crate::labels::Labels;
use rv_isa::{ImmediateOperation, Inst, Register, encode};
use rv_syntax::{Number, Statement, Width, numbered};
use std::alloc::{AllocError, Global};

/// Where the image ends at the latest.
pub const END: u128 = 0x20000;

/// What a statement becomes: no instruction, or one, or two.
#[derive(Clone, Copy, Debug)]
pub enum Expansion<T> {
    Nothing,
    One(T),
    Two(T, T),
}

/// The bytes of a number.
fn bytes_in(width: Width) -> u64
    ensures value { result ≡ bytes_in width }
    ensures small { result ≤ 8 }
{
    match width {
        Width::Byte => 1,
        Width::Word => 4,
        Width::Double => 8,
    }
}

/// The bytes from an address up to the next multiple of a number.
fn padding(multiple: u128, at: u64) -> u128
    requires { 0 < multiple }
    ensures { result ≡ padding multiple at }
{
    (multiple - u128::from(at) % multiple) % multiple
}

/// The bytes that a statement fills at an address.
#[tactic(auto, unfolding(crate::specs::Codes::size_of))]
pub fn size(statement: &Statement, at: u64) -> u128
    ensures { result ≡ size_of at (said statement.now) }
{
    match statement {
        Statement::Does(_) | Statement::Branches { .. } | Statement::Jumps { .. } => 4,
        Statement::Points { .. } => 8,
        Statement::Sets { number, .. } if number.is_within(2048) => 4,
        Statement::Sets { .. } => 8,
        Statement::Numbers { width, numbers } => {
            u128::from(bytes_in(*width)) * numbers.len() as u128
        }
        Statement::Text(bytes) => bytes.len() as u128,
        Statement::Space(number) => number.magnitude,
        Statement::Align(number) if number.magnitude == 0 => 0,
        Statement::Align(number) => padding(number.magnitude, at),
    }
}

/// The address of a label.
pub fn find_address(labels: &Labels, name: &[u8]) -> Option<u64>
    ensures value { result ≡ address_of labels.now name.now }
    ensures small { IfSome result (λ a. a ≤ 0x20000) }
{
    match labels.find(name) {
        Some(symbol) => Some(symbol.address),
        None => None,
    }
}

fn distance(at: u64, target: u64) -> i32
    ensures { result ≡ distance at target }
{
    if at <= target {
        (target - at).min(0x7fff_ffff) as i32
    } else {
        -((at - target).min(0x7fff_ffff) as i32)
    }
}

fn upper_part(number: u32) -> u32
    ensures { result ≡ upper_part number }
{
    ((u64::from(number) + 2048) / 4096 % 0x10_0000) as u32
}

fn lower_part(number: u32) -> i32
    ensures { result ≡ lower_part number }
{
    ((u64::from(number) + 2048) % 4096) as i32 - 2048
}

fn add(rd: Register, rs1: Register, immediate: i32) -> Inst
    ensures { result ≡ add rd rs1 immediate }
{
    Inst::Immediate {
        operation: ImmediateOperation::Add,
        rd,
        rs1,
        immediate,
    }
}

/// The instructions that set a register to a number of 32 bits.
fn setting(rd: Register, number: Number) -> Result<Expansion<Inst>, AsmKind>
    ensures { result ≡ setting rd number }
{
    if number.is_within(2048) {
        return Ok(Expansion::One(add(rd, numbered(0), number.narrow())));
    }
    if !number.is_within(1 << 31) {
        return Err(AsmKind::Range);
    }
    let bits = (number.low_bits() % (1 << 32)) as u32;
    Ok(Expansion::Two(
        Inst::Lui {
            rd,
            upper: upper_part(bits),
        },
        Inst::AddImmediateWord {
            rd,
            rs1: rd,
            immediate: lower_part(bits),
        },
    ))
}

/// The instructions that set a register to an address.
fn pointing(rd: Register, target: u64) -> Result<Expansion<Inst>, AsmKind>
    ensures { result ≡ pointing rd target }
{
    if target >= 0x7fff_f800 {
        return Err(AsmKind::Range);
    }
    let address = target as u32;
    Ok(Expansion::Two(
        Inst::Lui {
            rd,
            upper: upper_part(address),
        },
        add(rd, rd, lower_part(address)),
    ))
}

fn fits(width: Width, number: &Number) -> bool
    ensures { result ≡ fits width number.now }
{
    let bits = 8 * bytes_in(width);
    number.is_within(1 << (bits - 1)) || (!number.negative && number.magnitude < 1 << bits)
}

fn all_fit(width: Width, numbers: &[Number]) -> bool
    ensures { result ≡ list_all (fits width) numbers.now }
{
    numbers.iter().all(|number| fits(width, number))
}

fn if_so(holds: bool) -> Result<Expansion<Inst>, AsmKind>
    ensures { result ≡ if_so holds }
{
    if holds {
        Ok(Expansion::Nothing)
    } else {
        Err(AsmKind::Range)
    }
}

/// The instructions of a statement at an address.
#[tactic(auto, unfolding(crate::specs::Codes::instructions_of))]
pub fn instructions(
    statement: &Statement,
    at: u64,
    labels: &Labels,
) -> Result<Expansion<Inst>, AsmKind>
    ensures { result ≡ instructions_of labels.now at (said statement.now) }
{
    match statement {
        Statement::Does(inst) => Ok(Expansion::One(*inst)),
        Statement::Sets { rd, number } => setting(*rd, *number),
        Statement::Branches {
            condition,
            rs1,
            rs2,
            label,
        } => match find_address(labels, label) {
            None => Err(AsmKind::Label),
            Some(target) => Ok(Expansion::One(Inst::Branch {
                condition: *condition,
                rs1: *rs1,
                rs2: *rs2,
                offset: distance(at, target),
            })),
        },
        Statement::Jumps { rd, label } => match find_address(labels, label) {
            None => Err(AsmKind::Label),
            Some(target) => Ok(Expansion::One(Inst::Jal {
                rd: *rd,
                offset: distance(at, target),
            })),
        },
        Statement::Points { rd, label } => match find_address(labels, label) {
            None => Err(AsmKind::Label),
            Some(target) => pointing(*rd, target),
        },
        Statement::Numbers { width, numbers } => if_so(all_fit(*width, numbers.as_slice())),
        Statement::Text(_) => Ok(Expansion::Nothing),
        Statement::Space(number) => if_so(!number.negative),
        Statement::Align(number) => if_so(!number.negative && number.magnitude > 0),
    }
}

fn word_of(inst: Inst) -> Result<u32, AsmKind>
    ensures { result ≡ encoded inst }
{
    match encode(inst) {
        Ok(word) => Ok(word),
        Err(_) => Err(AsmKind::Range),
    }
}

/// The words of instructions.
pub fn words(instructions: Expansion<Inst>) -> Result<Expansion<u32>, AsmKind>
    ensures { result ≡ words_of instructions }
{
    match instructions {
        Expansion::Nothing => Ok(Expansion::Nothing),
        Expansion::One(inst) => Ok(Expansion::One(word_of(inst)?)),
        Expansion::Two(first, second) => {
            let first = word_of(first)?;
            let second = word_of(second)?;
            Ok(Expansion::Two(first, second))
        }
    }
}

/// Whether the numbers of a statement don't fit, wherever labels stand.
#[tactic(auto, unfolding(crate::specs::Codes::is_out_of_range))]
fn is_out_of_range(alloc: Global, statement: &Statement, at: u64) -> bool
    ensures { result ≡ is_out_of_range at (said statement.now) }
{
    match instructions(statement, at, &Labels::new(alloc)) {
        Err(kind) => is_range(kind),
        Ok(found) => match words(found) {
            Err(kind) => is_range(kind),
            Ok(_) => false,
        },
    }
}

fn is_range(kind: AsmKind) -> bool
    ensures { result ≡ is_range_kind kind }
{
    match kind {
        AsmKind::Range => true,
        _ => false,
    }
}

/// The bytes that a statement fills where labels are placed.
#[tactic(auto, unfolding(crate::specs::Codes::placed_size))]
pub fn placed_size(alloc: Global, statement: &Statement, at: u64) -> u64
    requires { at ≤ 0x20000 }
    ensures value { result ≡ placed_size at (said statement.now) }
    ensures within { at + result ≤ 0x20000 }
{
    let size = size(statement, at);
    if is_out_of_range(alloc, statement, at) || u128::from(at).saturating_add(size) > END {
        return 0;
    }
    size as u64
}

/// The words of a statement spell its instructions: what decoding a word gives is the statement's
/// instruction, since a word spells one instruction alone.
pub fn words_spell_instructions()
    ensures { (is : Expansion Inst) (ws : Expansion ℕ) → words_of is ≡ Ok ws → AllSpelled is ws }
{}

/// The bytes of a statement are as many as its size says, so that a label stands where the sizes
/// before it say.
pub fn sizes_agree()
    ensures { (ps : List Location) (at : ℕ) (s : Said) (is : Expansion Inst) (ws : Expansion ℕ)
        → instructions_of ps at s ≡ Ok is → words_of is ≡ Ok ws → length (bytes_of at s ws) ≡ size_of at s }
{}

fn put_number(out: &mut Vec<u8>, width: Width, number: &Number) -> Result<(), AllocError>
    ensures { OnOk result (out.new.items ≡ out.old.items ++ number_bytes width number.now) }
{
    let bits = number.low_bits();
    match width {
        Width::Byte => out.extend_from_slice(&[(bits % 256) as u8]),
        Width::Word => out.extend_from_slice(&((bits % (1 << 32)) as u32).to_le_bytes()),
        Width::Double => out.extend_from_slice(&bits.to_le_bytes()),
    }
}

fn put_numbers(out: &mut Vec<u8>, width: Width, numbers: &[Number]) -> Result<(), AllocError>
    ensures { OnOk result (out.new.items ≡ out.old.items ++ numbers_bytes width numbers.now) }
{
    for number in numbers {
        put_number(out, width, number)?;
    }
    Ok(())
}

fn put_words(out: &mut Vec<u8>, words: Expansion<u32>) -> Result<(), AllocError>
    ensures { OnOk result (out.new.items ≡ out.old.items ++ words_bytes words) }
{
    match words {
        Expansion::Nothing => Ok(()),
        Expansion::One(word) => out.extend_from_slice(&word.to_le_bytes()),
        Expansion::Two(first, second) => {
            out.extend_from_slice(&first.to_le_bytes())?;
            out.extend_from_slice(&second.to_le_bytes())
        }
    }
}

fn put_zeros(out: &mut Vec<u8>, count: u64) -> Result<(), AllocError>
    ensures { OnOk result (out.new.items ≡ out.old.items ++ replicate count 0) }
{
    for _ in 0..count {
        out.push(0)?;
    }
    Ok(())
}

/// Appends the bytes of a statement.
#[tactic(auto, unfolding(crate::specs::Codes::bytes_of, crate::specs::Codes::size_of))]
pub fn put(
    out: &mut Vec<u8>,
    statement: &Statement,
    at: u64,
    words: Expansion<u32>,
) -> Result<(), AllocError>
    requires { size_of at (said statement.now) < 2 ^ 64 }
    ensures { OnOk result (out.new.items ≡ out.old.items ++ bytes_of at (said statement.now) words) }
{
    match statement {
        Statement::Numbers { width, numbers } => put_numbers(out, *width, numbers.as_slice()),
        Statement::Text(bytes) => out.extend_from_slice(bytes.as_slice()),
        Statement::Space(number) => put_zeros(out, number.magnitude as u64),
        Statement::Align(number) if number.magnitude == 0 => Ok(()),
        Statement::Align(number) => put_zeros(out, padding(number.magnitude, at) as u64),
        _ => put_words(out, words),
    }
}
