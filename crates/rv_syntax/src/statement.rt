//! Statements: a mnemonic and its operands.

ghost use Rattle.std.specs.Prelude.{◌≡◌, option_map, IfOk};
ghost use Rattle.rv_syntax.specs.Operands.{numbers_of};
ghost use Rattle.rv_syntax.specs.Statements.{said, on_registers, on_number, with_number, on_memory, with_label, move, without_operands, instruction_of, pieces, lone_string, directive_of};
ghost use Rattle.rv_syntax.specs.Text.{texts};

use crate::forms::{
    Alone, Directive, Form, Memory, RegisterAndLabel, RegisterAndNumber, ThreeRegisters,
    TwoAndNumber, Width,
};
use crate::names::numbered;
use crate::numbers::Number;
use crate::operands;
use crate::strings::take_string;
use crate::text::{done, pieces, without_comment};
use rv_isa::{Condition, ImmediateOperation, Inst, Register};
use std::alloc::{AllocError, Global};

/// What a line says.
#[derive(Debug, Drop)]
pub enum Statement<'a> {
    /// An instruction that the text determines.
    Does(Inst),
    Sets {
        rd: Register,
        number: Number,
    },
    Branches {
        condition: Condition,
        rs1: Register,
        rs2: Register,
        label: &'a [u8],
    },
    Jumps {
        rd: Register,
        label: &'a [u8],
    },
    /// A register gets the address of a label.
    Points {
        rd: Register,
        label: &'a [u8],
    },
    Numbers {
        width: Width,
        numbers: Vec<Number>,
    },
    Text(Vec<u8>),
    Space(Number),
    Align(Number),
}

fn on_registers(kind: ThreeRegisters, rd: Register, rs1: Register, rs2: Register) -> Inst
    ensures { result ≡ on_registers kind rd rs1 rs2 }
{
    match kind {
        ThreeRegisters::Operation(operation) => Inst::Operation {
            operation,
            rd,
            rs1,
            rs2,
        },
        ThreeRegisters::WordOperation(operation) => Inst::WordOperation {
            operation,
            rd,
            rs1,
            rs2,
        },
    }
}

fn on_number(kind: TwoAndNumber, rd: Register, rs1: Register, number: Number) -> Inst
    ensures { result ≡ on_number kind rd rs1 number }
{
    match kind {
        TwoAndNumber::Immediate(operation) => Inst::Immediate {
            operation,
            rd,
            rs1,
            immediate: number.narrow(),
        },
        TwoAndNumber::Shift(shift) => Inst::ShiftImmediate {
            shift,
            rd,
            rs1,
            amount: number.narrow_unsigned(),
        },
        TwoAndNumber::AddWord => Inst::AddImmediateWord {
            rd,
            rs1,
            immediate: number.narrow(),
        },
        TwoAndNumber::ShiftWord(shift) => Inst::ShiftImmediateWord {
            shift,
            rd,
            rs1,
            amount: number.narrow_unsigned(),
        },
    }
}

fn with_number<'a>(kind: RegisterAndNumber, rd: Register, number: Number) -> Statement<'a>
    ensures { said result ≡ with_number kind rd number }
{
    match kind {
        RegisterAndNumber::Lui => Statement::Does(Inst::Lui {
            rd,
            upper: number.narrow_unsigned(),
        }),
        RegisterAndNumber::Auipc => Statement::Does(Inst::Auipc {
            rd,
            upper: number.narrow_unsigned(),
        }),
        RegisterAndNumber::SetNumber => Statement::Sets { rd, number },
    }
}

fn on_memory(kind: Memory, register: Register, number: Number, base: Register) -> Inst
    ensures { result ≡ on_memory kind register number base }
{
    let offset = number.narrow();
    match kind {
        Memory::Load(kind) => Inst::Load {
            kind,
            rd: register,
            rs1: base,
            offset,
        },
        Memory::Store(kind) => Inst::Store {
            kind,
            rs1: base,
            rs2: register,
            offset,
        },
        Memory::JumpToRegister => Inst::Jalr {
            rd: register,
            rs1: base,
            offset,
        },
    }
}

fn with_label(kind: RegisterAndLabel, register: Register, label: &[u8]) -> Statement<'_>
    ensures { said result ≡ with_label kind register label.entry.now }
{
    match kind {
        RegisterAndLabel::BranchZero(condition) => Statement::Branches {
            condition,
            rs1: register,
            rs2: numbered(0),
            label,
        },
        RegisterAndLabel::JumpAndLink => Statement::Jumps {
            rd: register,
            label,
        },
        RegisterAndLabel::SetAddress => Statement::Points {
            rd: register,
            label,
        },
    }
}

fn move_register(rd: Register, rs1: Register) -> Inst
    ensures { result ≡ move rd rs1 }
{
    Inst::Immediate {
        operation: ImmediateOperation::Add,
        rd,
        rs1,
        immediate: 0,
    }
}

fn without_operands(kind: Alone) -> Inst
    ensures { result ≡ without_operands kind }
{
    match kind {
        Alone::Return => Inst::Jalr {
            rd: numbered(0),
            rs1: numbered(1),
            offset: 0,
        },
        Alone::Nothing => move_register(numbered(0), numbered(0)),
        Alone::Fence => Inst::Fence {
            rd: numbered(0),
            rs1: numbered(0),
            ordering: 0,
        },
        Alone::EnvironmentCall => Inst::EnvironmentCall,
        Alone::EnvironmentBreak => Inst::EnvironmentBreak,
    }
}

/// What the operands of an instruction say, if they fit it.
#[tactic(auto, unfolding(crate::specs::Statements::instruction_of))]
pub fn instruction(form: Form, text: &[u8]) -> Option<Statement<'_>>
    ensures { option_map said result ≡ instruction_of form text.now }
{
    match form {
        Form::ThreeRegisters(kind) => {
            let (rd, rs1, rs2) = operands::three_registers(text)?;
            Some(Statement::Does(on_registers(kind, rd, rs1, rs2)))
        }
        Form::TwoAndNumber(kind) => {
            let (rd, rs1, number) = operands::two_and_number(text)?;
            Some(Statement::Does(on_number(kind, rd, rs1, number)))
        }
        Form::TwoRegisters => {
            let (rd, rs1) = operands::two_registers(text)?;
            Some(Statement::Does(move_register(rd, rs1)))
        }
        Form::RegisterAndNumber(kind) => {
            let (rd, number) = operands::register_and_number(text)?;
            Some(with_number(kind, rd, number))
        }
        Form::Memory(kind) => {
            let (register, number, base) = operands::memory_operands(text)?;
            Some(Statement::Does(on_memory(kind, register, number, base)))
        }
        Form::TwoAndLabel(condition) => {
            let (rs1, rs2, label) = operands::two_and_label(text)?;
            Some(Statement::Branches {
                condition,
                rs1,
                rs2,
                label,
            })
        }
        Form::RegisterAndLabel(kind) => {
            let (register, label) = operands::register_and_label(text)?;
            Some(with_label(kind, register, label))
        }
        Form::Label => {
            let label = operands::lone_label(text)?;
            Some(Statement::Jumps {
                rd: numbered(0),
                label,
            })
        }
        Form::Alone(kind) if done(text) => Some(Statement::Does(without_operands(kind))),
        Form::Alone(_) => None,
    }
}

fn numbers(alloc: Global, pieces: &[&[u8]]) -> Result<Option<Vec<Number>>, AllocError>
    ensures { IfOk result (λ r. option_map (λ v. v.items) r ≡ numbers_of (texts pieces.now)) }
{
    let mut numbers = Vec::new(alloc);
    for piece in pieces {
        match operands::lone_number(piece) {
            Some(number) => numbers.push(number)?,
            None => return Ok(None),
        }
    }
    Ok(Some(numbers))
}

fn numbers_in(alloc: Global, text: &[u8]) -> Result<Option<Vec<Number>>, AllocError>
    ensures { IfOk result (λ r. option_map (λ v. v.items) r ≡ numbers_of (pieces text.now)) }
{
    let pieces = pieces(alloc, without_comment(text), b',')?;
    numbers(alloc, pieces.as_slice())
}

#[tactic(auto, unfolding(crate::specs::Statements::lone_string))]
fn string(alloc: Global, text: &[u8]) -> Result<Option<Vec<u8>>, AllocError>
    ensures { IfOk result (λ r. option_map (λ v. v.items) r ≡ lone_string text.now) }
{
    match take_string(alloc, text)? {
        Some((bytes, rest)) if done(rest) => Ok(Some(bytes)),
        _ => Ok(None),
    }
}

/// What the operands of a directive say, if they fit it.
#[tactic(auto, unfolding(crate::specs::Statements::directive_of))]
pub fn directive(
    alloc: Global,
    kind: Directive,
    text: &[u8],
) -> Result<Option<Statement<'_>>, AllocError>
    ensures { IfOk result (λ r. option_map said r ≡ directive_of kind text.now) }
{
    match kind {
        Directive::Numbers(width) => {
            match numbers_in(alloc, text)? {
                Some(numbers) => Ok(Some(Statement::Numbers { width, numbers })),
                None => Ok(None),
            }
        }
        Directive::Ascii => {
            let Some(bytes) = string(alloc, text)? else {
                return Ok(None);
            };
            Ok(Some(Statement::Text(bytes)))
        }
        Directive::Asciz => {
            let Some(mut bytes) = string(alloc, text)? else {
                return Ok(None);
            };
            bytes.push(0)?;
            Ok(Some(Statement::Text(bytes)))
        }
        Directive::Space => match operands::lone_number(text) {
            Some(number) => Ok(Some(Statement::Space(number))),
            None => Ok(None),
        },
        Directive::Align => match operands::lone_number(text) {
            Some(number) => Ok(Some(Statement::Align(number))),
            None => Ok(None),
        },
    }
}
