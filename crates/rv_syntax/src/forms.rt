//! The mnemonics, each with its operands and what it stands for.

ghost use Rattle.std.specs.Prelude.{◌≡◌, map};
ghost use Rattle.rv_syntax.specs.Forms.{row, meaning_in, meaning_of};

use rv_isa::{Condition, ImmediateOperation, LoadKind, Operation, Shift, StoreKind, WordOperation};

/// What the operands rd, rs1, rs2 are for.
#[derive(Clone, Copy, Debug)]
pub enum ThreeRegisters {
    Operation(Operation),
    WordOperation(WordOperation),
}

/// What the operands rd, rs1 and a number are for.
#[derive(Clone, Copy, Debug)]
pub enum TwoAndNumber {
    Immediate(ImmediateOperation),
    Shift(Shift),
    /// ADDIW.
    AddWord,
    ShiftWord(Shift),
}

/// What the operands rd and a number are for.
#[derive(Clone, Copy, Debug)]
pub enum RegisterAndNumber {
    Lui,
    Auipc,
    /// The pseudoinstruction `li`.
    SetNumber,
}

/// What the operands of the form `a0, 8(sp)` are for.
#[derive(Clone, Copy, Debug)]
pub enum Memory {
    Load(LoadKind),
    Store(StoreKind),
    /// JALR.
    JumpToRegister,
}

/// What a register and a label are for.
#[derive(Clone, Copy, Debug)]
pub enum RegisterAndLabel {
    /// A branch against x0, as `beqz`.
    BranchZero(Condition),
    /// JAL.
    JumpAndLink,
    /// The pseudoinstruction `la`.
    SetAddress,
}

/// An instruction that stands without operands.
#[derive(Clone, Copy, Debug)]
pub enum Alone {
    /// JALR from ra to x0.
    Return,
    /// ADDI of 0 to x0.
    Nothing,
    /// The other fields of its word are 0.
    Fence,
    EnvironmentCall,
    EnvironmentBreak,
}

/// The operands of an instruction.
#[derive(Clone, Copy, Debug)]
pub enum Form {
    ThreeRegisters(ThreeRegisters),
    TwoAndNumber(TwoAndNumber),
    /// ADDI of 0.
    TwoRegisters,
    RegisterAndNumber(RegisterAndNumber),
    Memory(Memory),
    /// A branch.
    TwoAndLabel(Condition),
    RegisterAndLabel(RegisterAndLabel),
    /// JAL to x0.
    Label,
    Alone(Alone),
}

/// The bytes of a number in memory: 1, 4 or 8.
#[derive(Clone, Copy, Debug)]
pub enum Width {
    Byte,
    Word,
    Double,
}

/// What fills memory with bytes.
#[derive(Clone, Copy, Debug)]
pub enum Directive {
    /// Numbers, one or more.
    Numbers(Width),
    /// A string.
    Ascii,
    /// A string, and a NUL behind it.
    Asciz,
    /// A number of zeros.
    Space,
    /// Zeros up to a multiple of a number of bytes.
    Align,
}

/// What a mnemonic stands for.
#[derive(Clone, Copy, Debug)]
pub enum Meaning {
    Instruction(Form),
    Directive(Directive),
}

/// The mnemonics, and what they stand for.
const MNEMONICS: [(&[u8], Meaning); 67] = [
    (
        b"add",
        Meaning::Instruction(Form::ThreeRegisters(ThreeRegisters::Operation(Operation::Add))),
    ),
    (
        b"sub",
        Meaning::Instruction(Form::ThreeRegisters(ThreeRegisters::Operation(Operation::Sub))),
    ),
    (
        b"sll",
        Meaning::Instruction(Form::ThreeRegisters(ThreeRegisters::Operation(Operation::ShiftLeft))),
    ),
    (
        b"slt",
        Meaning::Instruction(Form::ThreeRegisters(ThreeRegisters::Operation(Operation::SetLess))),
    ),
    (
        b"sltu",
        Meaning::Instruction(Form::ThreeRegisters(ThreeRegisters::Operation(
            Operation::SetLessUnsigned,
        ))),
    ),
    (
        b"xor",
        Meaning::Instruction(Form::ThreeRegisters(ThreeRegisters::Operation(Operation::Xor))),
    ),
    (
        b"srl",
        Meaning::Instruction(Form::ThreeRegisters(ThreeRegisters::Operation(
            Operation::ShiftRightLogical,
        ))),
    ),
    (
        b"sra",
        Meaning::Instruction(Form::ThreeRegisters(ThreeRegisters::Operation(
            Operation::ShiftRightArithmetic,
        ))),
    ),
    (
        b"or",
        Meaning::Instruction(Form::ThreeRegisters(ThreeRegisters::Operation(Operation::Or))),
    ),
    (
        b"and",
        Meaning::Instruction(Form::ThreeRegisters(ThreeRegisters::Operation(Operation::And))),
    ),
    (
        b"addw",
        Meaning::Instruction(Form::ThreeRegisters(ThreeRegisters::WordOperation(
            WordOperation::Add,
        ))),
    ),
    (
        b"subw",
        Meaning::Instruction(Form::ThreeRegisters(ThreeRegisters::WordOperation(
            WordOperation::Sub,
        ))),
    ),
    (
        b"sllw",
        Meaning::Instruction(Form::ThreeRegisters(ThreeRegisters::WordOperation(
            WordOperation::ShiftLeft,
        ))),
    ),
    (
        b"srlw",
        Meaning::Instruction(Form::ThreeRegisters(ThreeRegisters::WordOperation(
            WordOperation::ShiftRightLogical,
        ))),
    ),
    (
        b"sraw",
        Meaning::Instruction(Form::ThreeRegisters(ThreeRegisters::WordOperation(
            WordOperation::ShiftRightArithmetic,
        ))),
    ),
    (
        b"addi",
        Meaning::Instruction(Form::TwoAndNumber(TwoAndNumber::Immediate(ImmediateOperation::Add))),
    ),
    (
        b"slti",
        Meaning::Instruction(Form::TwoAndNumber(TwoAndNumber::Immediate(
            ImmediateOperation::SetLess,
        ))),
    ),
    (
        b"sltiu",
        Meaning::Instruction(Form::TwoAndNumber(TwoAndNumber::Immediate(
            ImmediateOperation::SetLessUnsigned,
        ))),
    ),
    (
        b"xori",
        Meaning::Instruction(Form::TwoAndNumber(TwoAndNumber::Immediate(ImmediateOperation::Xor))),
    ),
    (
        b"ori",
        Meaning::Instruction(Form::TwoAndNumber(TwoAndNumber::Immediate(ImmediateOperation::Or))),
    ),
    (
        b"andi",
        Meaning::Instruction(Form::TwoAndNumber(TwoAndNumber::Immediate(ImmediateOperation::And))),
    ),
    (
        b"slli",
        Meaning::Instruction(Form::TwoAndNumber(TwoAndNumber::Shift(Shift::Left))),
    ),
    (
        b"srli",
        Meaning::Instruction(Form::TwoAndNumber(TwoAndNumber::Shift(Shift::RightLogical))),
    ),
    (
        b"srai",
        Meaning::Instruction(Form::TwoAndNumber(TwoAndNumber::Shift(Shift::RightArithmetic))),
    ),
    (
        b"addiw",
        Meaning::Instruction(Form::TwoAndNumber(TwoAndNumber::AddWord)),
    ),
    (
        b"slliw",
        Meaning::Instruction(Form::TwoAndNumber(TwoAndNumber::ShiftWord(Shift::Left))),
    ),
    (
        b"srliw",
        Meaning::Instruction(Form::TwoAndNumber(TwoAndNumber::ShiftWord(Shift::RightLogical))),
    ),
    (
        b"sraiw",
        Meaning::Instruction(Form::TwoAndNumber(TwoAndNumber::ShiftWord(Shift::RightArithmetic))),
    ),
    (
        b"lui",
        Meaning::Instruction(Form::RegisterAndNumber(RegisterAndNumber::Lui)),
    ),
    (
        b"auipc",
        Meaning::Instruction(Form::RegisterAndNumber(RegisterAndNumber::Auipc)),
    ),
    (
        b"li",
        Meaning::Instruction(Form::RegisterAndNumber(RegisterAndNumber::SetNumber)),
    ),
    (
        b"lb",
        Meaning::Instruction(Form::Memory(Memory::Load(LoadKind::Byte))),
    ),
    (
        b"lh",
        Meaning::Instruction(Form::Memory(Memory::Load(LoadKind::Half))),
    ),
    (
        b"lw",
        Meaning::Instruction(Form::Memory(Memory::Load(LoadKind::Word))),
    ),
    (
        b"ld",
        Meaning::Instruction(Form::Memory(Memory::Load(LoadKind::Double))),
    ),
    (
        b"lbu",
        Meaning::Instruction(Form::Memory(Memory::Load(LoadKind::ByteUnsigned))),
    ),
    (
        b"lhu",
        Meaning::Instruction(Form::Memory(Memory::Load(LoadKind::HalfUnsigned))),
    ),
    (
        b"lwu",
        Meaning::Instruction(Form::Memory(Memory::Load(LoadKind::WordUnsigned))),
    ),
    (
        b"sb",
        Meaning::Instruction(Form::Memory(Memory::Store(StoreKind::Byte))),
    ),
    (
        b"sh",
        Meaning::Instruction(Form::Memory(Memory::Store(StoreKind::Half))),
    ),
    (
        b"sw",
        Meaning::Instruction(Form::Memory(Memory::Store(StoreKind::Word))),
    ),
    (
        b"sd",
        Meaning::Instruction(Form::Memory(Memory::Store(StoreKind::Double))),
    ),
    (
        b"jalr",
        Meaning::Instruction(Form::Memory(Memory::JumpToRegister)),
    ),
    (
        b"beq",
        Meaning::Instruction(Form::TwoAndLabel(Condition::Equal)),
    ),
    (
        b"bne",
        Meaning::Instruction(Form::TwoAndLabel(Condition::NotEqual)),
    ),
    (
        b"blt",
        Meaning::Instruction(Form::TwoAndLabel(Condition::Less)),
    ),
    (
        b"bge",
        Meaning::Instruction(Form::TwoAndLabel(Condition::GreaterEqual)),
    ),
    (
        b"bltu",
        Meaning::Instruction(Form::TwoAndLabel(Condition::LessUnsigned)),
    ),
    (
        b"bgeu",
        Meaning::Instruction(Form::TwoAndLabel(Condition::GreaterEqualUnsigned)),
    ),
    (
        b"beqz",
        Meaning::Instruction(Form::RegisterAndLabel(RegisterAndLabel::BranchZero(
            Condition::Equal,
        ))),
    ),
    (
        b"bnez",
        Meaning::Instruction(Form::RegisterAndLabel(RegisterAndLabel::BranchZero(
            Condition::NotEqual,
        ))),
    ),
    (
        b"jal",
        Meaning::Instruction(Form::RegisterAndLabel(RegisterAndLabel::JumpAndLink)),
    ),
    (
        b"la",
        Meaning::Instruction(Form::RegisterAndLabel(RegisterAndLabel::SetAddress)),
    ),
    (b"j", Meaning::Instruction(Form::Label)),
    (b"mv", Meaning::Instruction(Form::TwoRegisters)),
    (b"ret", Meaning::Instruction(Form::Alone(Alone::Return))),
    (b"nop", Meaning::Instruction(Form::Alone(Alone::Nothing))),
    (b"fence", Meaning::Instruction(Form::Alone(Alone::Fence))),
    (
        b"ecall",
        Meaning::Instruction(Form::Alone(Alone::EnvironmentCall)),
    ),
    (
        b"ebreak",
        Meaning::Instruction(Form::Alone(Alone::EnvironmentBreak)),
    ),
    (
        b".byte",
        Meaning::Directive(Directive::Numbers(Width::Byte)),
    ),
    (
        b".word",
        Meaning::Directive(Directive::Numbers(Width::Word)),
    ),
    (
        b".dword",
        Meaning::Directive(Directive::Numbers(Width::Double)),
    ),
    (b".ascii", Meaning::Directive(Directive::Ascii)),
    (b".asciz", Meaning::Directive(Directive::Asciz)),
    (b".space", Meaning::Directive(Directive::Space)),
    (b".align", Meaning::Directive(Directive::Align)),
];

fn meaning_in(entries: &[(&[u8], Meaning)], name: &[u8]) -> Option<Meaning>
    ensures { result ≡ meaning_in (map row entries.now) name.now }
{
    for (mnemonic, meaning) in entries {
        if *mnemonic == name {
            return Some(*meaning);
        }
    }
    None
}

/// The meaning of a mnemonic.
pub fn find_meaning(name: &[u8]) -> Option<Meaning>
    ensures { result ≡ meaning_of name.now }
{
    meaning_in(&MNEMONICS, name)
}
