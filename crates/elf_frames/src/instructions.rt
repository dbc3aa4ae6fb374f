//! Call frame instructions (DWARF 5, 6.4.2 and 7.24).

ghost use Rattle.std.specs.Prelude.{◌≡◌};
ghost use Rattle.elf_frames.specs.Instructions as spec;

use crate::entries::Factors;
use crate::numbers::{Number, fixed_u8, fixed_u16, fixed_u32, signed, unsigned};

/// How a frame's caller had a register (DWARF 5, 6.4.1).
#[derive(Clone, Copy, Debug, PartialEq, Eq)]
pub enum Rule {
    /// Nothing is said.
    Unset,
    Undefined,
    SameValue,
    /// It was saved at this offset from the CFA.
    Offset(u64),
    /// It was the CFA and this offset.
    ValOffset(u64),
    /// It was saved in another register.
    Register(u64),
}

/// What an instruction does (DWARF 5, 6.4.2), its factored operands multiplied.
#[derive(Clone, Copy)]
pub enum Instruction {
    Nop,
    AdvanceLoc(u64),
    /// Gives a register a rule: DW_CFA_offset, undefined, same_value, register, val_offset.
    SetRule(u64, Rule),
    Restore(u64),
    RememberState,
    RestoreState,
    DefCfa(u64, u64),
    DefCfaRegister(u64),
    DefCfaOffset(u64),
}

/// Which operands a code has.
#[derive(Clone, Copy)]
pub enum Operands {
    Nothing,
    Byte,
    Half,
    Word,
    Unsigned,
    Signed,
    Pair,
    SignedPair,
}

/// The operands, 0 where there is none, and the offset behind them.
#[derive(Clone, Copy)]
pub struct Operation {
    pub first: u64,
    pub second: u64,
    pub next: usize,
}

/// An instruction, and the offset behind it.
#[derive(Clone, Copy)]
pub struct Decoded {
    pub instruction: Instruction,
    pub next: usize,
}

#[tactic(auto, unfolding(crate::specs::Instructions::operands_of))]
fn operands_of(code: u64) -> Operands
    ensures { result ≡ spec.operands_of code }
{
    match code {
        2 => Operands::Byte,
        3 => Operands::Half,
        4 => Operands::Word,
        6 | 7 | 8 | 13 | 14 => Operands::Unsigned,
        5 | 9 | 12 | 20 => Operands::Pair,
        17 | 18 | 21 => Operands::SignedPair,
        19 => Operands::Signed,
        _ => Operands::Nothing,
    }
}

fn only(number: Option<Number>) -> Option<Operation>
    ensures { result ≡ spec.only number }
{
    match number {
        Some(number) => Some(Operation {
            first: number.value,
            second: 0,
            next: number.next,
        }),
        None => None,
    }
}

#[tactic(auto, unfolding(crate::specs::Instructions::pair_at))]
fn pair_at(bytes: &[u8], at: usize) -> Option<Operation>
    ensures { result ≡ spec.pair_at bytes.now at }
{
    let first = unsigned(bytes, at)?;
    let second = unsigned(bytes, first.next)?;
    Some(Operation {
        first: first.value,
        second: second.value,
        next: second.next,
    })
}

#[tactic(auto, unfolding(crate::specs::Instructions::signed_pair_at))]
fn signed_pair_at(bytes: &[u8], at: usize) -> Option<Operation>
    ensures { result ≡ spec.signed_pair_at bytes.now at }
{
    let first = unsigned(bytes, at)?;
    let second = signed(bytes, first.next)?;
    Some(Operation {
        first: first.value,
        second: second.value,
        next: second.next,
    })
}

#[tactic(auto, unfolding(crate::specs::Instructions::operation_at))]
fn operation_at(operands: Operands, bytes: &[u8], at: usize) -> Option<Operation>
    ensures { result ≡ spec.operation_at operands bytes.now at }
{
    match operands {
        Operands::Nothing => Some(Operation {
            first: 0,
            second: 0,
            next: at,
        }),
        Operands::Byte => only(fixed_u8(bytes, at)),
        Operands::Half => only(fixed_u16(bytes, at)),
        Operands::Word => only(fixed_u32(bytes, at)),
        Operands::Unsigned => only(unsigned(bytes, at)),
        Operands::Signed => only(signed(bytes, at)),
        Operands::Pair => pair_at(bytes, at),
        Operands::SignedPair => signed_pair_at(bytes, at),
    }
}

/// The rule that a code gives a register.
#[tactic(auto, unfolding(crate::specs::Instructions::rule_of))]
fn rule_of(factors: Factors, code: u64, operand: u64) -> Option<Rule>
    ensures { result ≡ spec.rule_of factors code operand }
{
    match code {
        5 | 17 => Some(Rule::Offset(factors.data_alignment.wrapping_mul(operand))),
        7 => Some(Rule::Undefined),
        8 => Some(Rule::SameValue),
        9 => Some(Rule::Register(operand)),
        20 | 21 => Some(Rule::ValOffset(factors.data_alignment.wrapping_mul(operand))),
        _ => None,
    }
}

/// What a code that gives no rule does.
#[tactic(auto, unfolding(crate::specs::Instructions::other_of))]
fn other_of(factors: Factors, code: u64, first: u64, second: u64) -> Option<Instruction>
    ensures { result ≡ spec.other_of factors code first second }
{
    let Factors {
        code_alignment,
        data_alignment,
    } = factors;
    match code {
        0 => Some(Instruction::Nop),
        2 | 3 | 4 => Some(Instruction::AdvanceLoc(code_alignment.wrapping_mul(first))),
        6 => Some(Instruction::Restore(first)),
        10 => Some(Instruction::RememberState),
        11 => Some(Instruction::RestoreState),
        12 => Some(Instruction::DefCfa(first, second)),
        13 => Some(Instruction::DefCfaRegister(first)),
        14 => Some(Instruction::DefCfaOffset(first)),
        18 => Some(Instruction::DefCfa(first, data_alignment.wrapping_mul(second))),
        19 => Some(Instruction::DefCfaOffset(data_alignment.wrapping_mul(first))),
        _ => None,
    }
}

fn set_or(register: u64, rule: Option<Rule>, other: Option<Instruction>) -> Option<Instruction>
    ensures { result ≡ spec.set_or register rule other }
{
    match rule {
        Some(rule) => Some(Instruction::SetRule(register, rule)),
        None => other,
    }
}

fn with_next(next: usize, instruction: Option<Instruction>) -> Option<Decoded>
    ensures { result ≡ spec.with_next next instruction }
{
    match instruction {
        Some(instruction) => Some(Decoded { instruction, next }),
        None => None,
    }
}

/// A code below 64, with its operands.
#[tactic(auto, unfolding(crate::specs::Instructions::extended_at))]
fn extended_at(factors: Factors, code: u64, bytes: &[u8], at: usize) -> Option<Decoded>
    ensures { result ≡ spec.extended_at factors code bytes.now at }
{
    let Some(
        Operation {
            first,
            second,
            next,
        },
    ) = operation_at(operands_of(code), bytes, at)
    else {
        return None;
    };
    let rule = rule_of(factors, code, second);
    let other = other_of(factors, code, first, second);
    with_next(next, set_or(first, rule, other))
}

/// DW_CFA_offset.
#[tactic(auto, unfolding(crate::specs::Instructions::offset_at))]
fn offset_at(factors: Factors, register: u64, bytes: &[u8], at: usize) -> Option<Decoded>
    ensures { result ≡ spec.offset_at factors register bytes.now at }
{
    let Some(number) = unsigned(bytes, at) else {
        return None;
    };
    let offset = factors.data_alignment.wrapping_mul(number.value);
    Some(Decoded {
        instruction: Instruction::SetRule(register, Rule::Offset(offset)),
        next: number.next,
    })
}

/// The instruction that this byte begins.
#[tactic(auto, unfolding(crate::specs::Instructions::decoded_with))]
fn decoded_with(factors: Factors, byte: u64, bytes: &[u8], at: usize) -> Option<Decoded>
    ensures { result ≡ spec.decoded_with factors byte bytes.now at }
{
    if byte / 64 == 1 {
        let delta = factors.code_alignment.wrapping_mul(byte % 64);
        Some(Decoded {
            instruction: Instruction::AdvanceLoc(delta),
            next: at,
        })
    } else if byte / 64 == 2 {
        offset_at(factors, byte % 64, bytes, at)
    } else if byte / 64 == 3 {
        Some(Decoded {
            instruction: Instruction::Restore(byte % 64),
            next: at,
        })
    } else {
        extended_at(factors, byte, bytes, at)
    }
}

/// The instruction at an offset, by the factors of a CIE.
#[tactic(auto, unfolding(crate::specs::Instructions::decoded_at))]
pub fn decoded_at(factors: Factors, bytes: &[u8], at: usize) -> Option<Decoded>
    ensures { result ≡ spec.decoded_at factors bytes.now at }
{
    let Some(byte) = fixed_u8(bytes, at) else {
        return None;
    };
    decoded_with(factors, byte.value, bytes, byte.next)
}
