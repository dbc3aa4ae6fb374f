ghost use Rattle.std.specs.Prelude.{◌≡◌, ℕ, ◌↔◌, Some, IfSome, IfNone};
ghost use Rattle.rv_isa.specs.Fields.{rd_of, rs1_of, rs2_of, funct3_of, funct7_of, i_immediate, s_immediate, b_immediate, j_immediate};
ghost use Rattle.rv_isa.specs.Decoding.{instruction};
ghost use Rattle.rv_isa.specs.Spelling.{Spells};
ghost use Rattle.rv_isa.specs.declared.inst.Inst.{Inst};

use crate::inst::Inst;
use crate::operations::{
    Condition, ImmediateOperation, LoadKind, Operation, Shift, StoreKind, WordOperation,
};
use crate::register::Register;

fn rd(word: u32) -> Register
    ensures { result.number ≡ rd_of word }
{
    Register::new((word >> 7 & 31) as u8)
}

fn rs1(word: u32) -> Register
    ensures { result.number ≡ rs1_of word }
{
    Register::new((word >> 15 & 31) as u8)
}

fn rs2(word: u32) -> Register
    ensures { result.number ≡ rs2_of word }
{
    Register::new((word >> 20 & 31) as u8)
}

fn funct3(word: u32) -> u32
    ensures { result ≡ funct3_of word }
{
    word >> 12 & 7
}

fn funct7(word: u32) -> u32
    ensures { result ≡ funct7_of word }
{
    word >> 25
}

fn immediate_i(word: u32) -> i32
    ensures { result ≡ i_immediate word }
{
    word.cast_signed() >> 20
}

fn immediate_s(word: u32) -> i32
    ensures { result ≡ s_immediate word }
{
    let high = word.cast_signed() >> 25;
    high * 32 + (word >> 7 & 31) as i32
}

fn immediate_b(word: u32) -> i32
    ensures { result ≡ b_immediate word }
{
    let field = (word >> 31) * 4096
        + (word >> 7 & 1) * 2048
        + (word >> 25 & 63) * 32
        + (word >> 8 & 15) * 2;
    let value = field as i32;
    if value < 4096 { value } else { value - 8192 }
}

fn immediate_j(word: u32) -> i32
    ensures { result ≡ j_immediate word }
{
    let field = (word >> 31) * 0x100000
        + (word >> 12 & 255) * 4096
        + (word >> 20 & 1) * 2048
        + (word >> 21 & 1023) * 2;
    let value = field as i32;
    if value < 0x100000 {
        value
    } else {
        value - 0x200000
    }
}

/// A word spells one instruction at most.
pub fn one_instruction()
    ensures { (w : ℕ) (i j : Inst) → Spells i w → Spells j w → i ≡ j }
{}

/// The instruction of a word as a function of the word, for every number.
pub fn instruction_is_spelled()
    ensures { (w : ℕ) (i : Inst) → (instruction w ≡ Some i) ↔ Spells i w }
{}

/// The instruction that the word spells, if there is one.
fn spelled(word: u32) -> Option<Inst>
    ensures found { IfSome result (λ i. Spells i word) }
    ensures none { IfNone result ((i : Inst) → Spells i word → ⊥) }
{
    let (rd, rs1, rs2) = (rd(word), rs1(word), rs2(word));
    let funct3 = funct3(word);
    let inst = match word & 0x7f {
        0x37 => Inst::Lui {
            rd,
            upper: word >> 12,
        },
        0x17 => Inst::Auipc {
            rd,
            upper: word >> 12,
        },
        0x6f => Inst::Jal {
            rd,
            offset: immediate_j(word),
        },
        0x67 if funct3 == 0 => Inst::Jalr {
            rd,
            rs1,
            offset: immediate_i(word),
        },
        0x63 => {
            let condition = Condition::from_funct3(funct3)?;
            Inst::Branch {
                condition,
                rs1,
                rs2,
                offset: immediate_b(word),
            }
        }
        0x03 => {
            let kind = LoadKind::from_funct3(funct3)?;
            Inst::Load {
                kind,
                rd,
                rs1,
                offset: immediate_i(word),
            }
        }
        0x23 => {
            let kind = StoreKind::from_funct3(funct3)?;
            Inst::Store {
                kind,
                rs1,
                rs2,
                offset: immediate_s(word),
            }
        }
        0x13 if funct3 == 1 || funct3 == 5 => {
            let shift = Shift::from_fields(funct3, word >> 26 << 1)?;
            Inst::ShiftImmediate {
                shift,
                rd,
                rs1,
                amount: word >> 20 & 63,
            }
        }
        0x13 => {
            let operation = ImmediateOperation::from_funct3(funct3)?;
            Inst::Immediate {
                operation,
                rd,
                rs1,
                immediate: immediate_i(word),
            }
        }
        0x1b if funct3 == 0 => Inst::AddImmediateWord {
            rd,
            rs1,
            immediate: immediate_i(word),
        },
        0x1b => {
            let shift = Shift::from_fields(funct3, funct7(word))?;
            Inst::ShiftImmediateWord {
                shift,
                rd,
                rs1,
                amount: word >> 20 & 31,
            }
        }
        0x33 => {
            let operation = Operation::from_fields(funct3, funct7(word))?;
            Inst::Operation {
                operation,
                rd,
                rs1,
                rs2,
            }
        }
        0x3b => {
            let operation = WordOperation::from_fields(funct3, funct7(word))?;
            Inst::WordOperation {
                operation,
                rd,
                rs1,
                rs2,
            }
        }
        0x0f if funct3 == 0 => Inst::Fence {
            rd,
            rs1,
            ordering: word >> 20,
        },
        0x73 if word == 0x73 => Inst::EnvironmentCall,
        0x73 if word == 0x100073 => Inst::EnvironmentBreak,
        _ => return None,
    };
    Some(inst)
}

/// The instruction that a word spells. A word of which there is none is illegal.
pub fn decode(word: u32) -> Option<Inst>
    ensures exact { (i : Inst) → (result ≡ Some i) ↔ Spells i word }
    ensures value { result ≡ instruction word }
{
    one_instruction();
    spelled(word)
}
