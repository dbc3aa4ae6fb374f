ghost use Rattle.std.specs.Prelude.{◌≡◌, ◌<◌, ◌^◌, ◌↔◌, ℕ, Ok, IfOk, OnErr, IsTrue};
ghost use Rattle.rv_isa.specs.Fields.{IsSigned, field};
ghost use Rattle.rv_isa.specs.Spelling.{Spells, r_word, i_word, s_word, b_word, u_word, j_word};

use crate::inst::Inst;
use crate::register::Register;

/// The instruction has no word: a number in it is too large for its field, or a jump is odd.
#[derive(Clone, Copy, PartialEq, Eq, Debug)]
pub struct Unencodable;

/// Room for one field of the word.
fn fits(holds: bool) -> Result<(), Unencodable>
    ensures ok { IfOk result (λ _. IsTrue holds) }
    ensures err { OnErr result (IsTrue holds → ⊥) }
{
    if holds { Ok(()) } else { Err(Unencodable) }
}

/// The bits of an integer of 12 bits.
fn field12(value: i32) -> Result<u32, Unencodable>
    ensures ok { IfOk result (λ n. (n ≡ field 11 value) × IsSigned 11 value × (n < 2 ^ 12)) }
    ensures err { OnErr result (IsSigned 11 value → ⊥) }
{
    match value {
        0..=2047 => Ok(value as u32),
        -2048..=-1 => Ok((value + 4096) as u32),
        _ => Err(Unencodable),
    }
}

/// The bits of an even integer of 13 bits.
fn field13(value: i32) -> Result<u32, Unencodable>
    ensures ok { IfOk result (λ n. (n ≡ field 12 value) × IsSigned 12 value × (n < 2 ^ 13)) }
    ensures err { OnErr result (IsSigned 12 value → ⊥) }
{
    match value {
        0..=4095 => Ok(value as u32),
        -4096..=-1 => Ok((value + 8192) as u32),
        _ => Err(Unencodable),
    }
}

/// The bits of an even integer of 21 bits.
fn field21(value: i32) -> Result<u32, Unencodable>
    ensures ok { IfOk result (λ n. (n ≡ field 20 value) × IsSigned 20 value × (n < 2 ^ 21)) }
    ensures err { OnErr result (IsSigned 20 value → ⊥) }
{
    match value {
        0..=0xfffff => Ok(value as u32),
        -0x100000..=-1 => Ok((value + 0x200000) as u32),
        _ => Err(Unencodable),
    }
}

fn r_type(opcode: u32, rd: Register, funct3: u32, rs1: Register, rs2: u32, funct7: u32) -> u32
    requires opcode { opcode < 128 }
    requires funct3 { funct3 < 8 }
    requires rs2 { rs2 < 32 }
    requires funct7 { funct7 < 128 }
    ensures { result ≡ r_word opcode rd.number funct3 rs1.number rs2 funct7 }
{
    opcode
        | u32::from(rd.number) << 7
        | funct3 << 12
        | u32::from(rs1.number) << 15
        | rs2 << 20
        | funct7 << 25
}

fn i_type(opcode: u32, rd: Register, funct3: u32, rs1: Register, imm: u32) -> u32
    requires opcode { opcode < 128 }
    requires funct3 { funct3 < 8 }
    requires imm { imm < 4096 }
    ensures { result ≡ i_word opcode rd.number funct3 rs1.number imm }
{
    opcode | u32::from(rd.number) << 7 | funct3 << 12 | u32::from(rs1.number) << 15 | imm << 20
}

fn s_type(opcode: u32, funct3: u32, rs1: Register, rs2: Register, imm: u32) -> u32
    requires opcode { opcode < 128 }
    requires funct3 { funct3 < 8 }
    requires imm { imm < 4096 }
    ensures { result ≡ s_word opcode funct3 rs1.number rs2.number imm }
{
    opcode
        + (imm & 31) * 128
        + funct3 * 4096
        + u32::from(rs1.number) * 0x8000
        + u32::from(rs2.number) * 0x100000
        + (imm >> 5) * 0x2000000
}

fn b_type(opcode: u32, funct3: u32, rs1: Register, rs2: Register, imm: u32) -> u32
    requires opcode { opcode < 128 }
    requires funct3 { funct3 < 8 }
    requires imm { imm < 8192 }
    ensures { result ≡ b_word opcode funct3 rs1.number rs2.number imm }
{
    opcode
        + (imm >> 11 & 1) * 128
        + (imm >> 1 & 15) * 256
        + funct3 * 4096
        + u32::from(rs1.number) * 0x8000
        + u32::from(rs2.number) * 0x100000
        + (imm >> 5 & 63) * 0x2000000
        + (imm >> 12) * 0x80000000
}

fn u_type(opcode: u32, rd: Register, imm: u32) -> u32
    requires opcode { opcode < 128 }
    requires imm { imm < 0x100000 }
    ensures { result ≡ u_word opcode rd.number imm }
{
    opcode | u32::from(rd.number) << 7 | imm << 12
}

fn j_type(opcode: u32, rd: Register, imm: u32) -> u32
    requires opcode { opcode < 128 }
    requires imm { imm < 0x200000 }
    ensures { result ≡ j_word opcode rd.number imm }
{
    opcode
        + u32::from(rd.number) * 128
        + (imm >> 12 & 255) * 4096
        + (imm >> 11 & 1) * 0x100000
        + (imm >> 1 & 1023) * 0x200000
        + (imm >> 20) * 0x80000000
}

/// The word of an instruction.
pub fn encode(inst: Inst) -> Result<u32, Unencodable>
    ensures ok { IfOk result (λ w. Spells inst w) }
    ensures err { OnErr result ((w : ℕ) → Spells inst w → ⊥) }
{
    match inst {
        Inst::Lui { rd, upper } => {
            fits(upper < 0x100000)?;
            Ok(u_type(0x37, rd, upper))
        }
        Inst::Auipc { rd, upper } => {
            fits(upper < 0x100000)?;
            Ok(u_type(0x17, rd, upper))
        }
        Inst::Jal { rd, offset } => {
            let imm = field21(offset)?;
            fits(imm % 2 == 0)?;
            Ok(j_type(0x6f, rd, imm))
        }
        Inst::Jalr { rd, rs1, offset } => Ok(i_type(0x67, rd, 0, rs1, field12(offset)?)),
        Inst::Branch {
            condition,
            rs1,
            rs2,
            offset,
        } => {
            let imm = field13(offset)?;
            fits(imm % 2 == 0)?;
            Ok(b_type(0x63, condition.funct3(), rs1, rs2, imm))
        }
        Inst::Load {
            kind,
            rd,
            rs1,
            offset,
        } => { Ok(i_type(0x03, rd, kind.funct3(), rs1, field12(offset)?)) }
        Inst::Store {
            kind,
            rs1,
            rs2,
            offset,
        } => { Ok(s_type(0x23, kind.funct3(), rs1, rs2, field12(offset)?)) }
        Inst::Immediate {
            operation,
            rd,
            rs1,
            immediate,
        } => { Ok(i_type(0x13, rd, operation.funct3(), rs1, field12(immediate)?)) }
        Inst::ShiftImmediate {
            shift,
            rd,
            rs1,
            amount,
        } => {
            fits(amount < 64)?;
            Ok(i_type(0x13, rd, shift.funct3(), rs1, amount + shift.funct7() * 32))
        }
        Inst::AddImmediateWord { rd, rs1, immediate } => {
            Ok(i_type(0x1b, rd, 0, rs1, field12(immediate)?))
        }
        Inst::ShiftImmediateWord {
            shift,
            rd,
            rs1,
            amount,
        } => {
            fits(amount < 32)?;
            Ok(r_type(0x1b, rd, shift.funct3(), rs1, amount, shift.funct7()))
        }
        Inst::Operation {
            operation,
            rd,
            rs1,
            rs2,
        } => {
            let (funct3, funct7) = (operation.funct3(), operation.funct7());
            Ok(r_type(0x33, rd, funct3, rs1, u32::from(rs2.number), funct7))
        }
        Inst::WordOperation {
            operation,
            rd,
            rs1,
            rs2,
        } => {
            let (funct3, funct7) = (operation.funct3(), operation.funct7());
            Ok(r_type(0x3b, rd, funct3, rs1, u32::from(rs2.number), funct7))
        }
        Inst::Fence { rd, rs1, ordering } => {
            fits(ordering < 4096)?;
            Ok(i_type(0x0f, rd, 0, rs1, ordering))
        }
        Inst::EnvironmentCall => Ok(0x73),
        Inst::EnvironmentBreak => Ok(0x100073),
    }
}
