//! The kinds of each format, and the fields of the word that tell them apart.

ghost use Rattle.std.specs.Prelude.{◌≡◌, ◌≢◌, ◌<◌, IfSome, IfNone};

/// What a branch asks of two registers.
#[derive(Clone, Copy, PartialEq, Eq, Debug)]
pub enum Condition {
    /// BEQ.
    Equal,
    /// BNE.
    NotEqual,
    /// BLT.
    Less,
    /// BGE.
    GreaterEqual,
    /// BLTU.
    LessUnsigned,
    /// BGEU.
    GreaterEqualUnsigned,
}

impl Condition {
    ghost use Rattle.rv_isa.specs.Table.{condition_funct3};
    ghost use Rattle.rv_isa.specs.declared.operations.Condition.{Condition};

    pub(crate) fn funct3(self) -> u32
        ensures value { result ≡ condition_funct3 self }
        ensures bound { result < 8 }
    {
        match self {
            Condition::Equal => 0,
            Condition::NotEqual => 1,
            Condition::Less => 4,
            Condition::GreaterEqual => 5,
            Condition::LessUnsigned => 6,
            Condition::GreaterEqualUnsigned => 7,
        }
    }

    pub(crate) fn from_funct3(funct3: u32) -> Option<Self>
        ensures found { IfSome result (λ x. condition_funct3 x ≡ funct3) }
        ensures none { IfNone result ((x : Condition) → condition_funct3 x ≢ funct3) }
    {
        Some(match funct3 {
            0 => Condition::Equal,
            1 => Condition::NotEqual,
            4 => Condition::Less,
            5 => Condition::GreaterEqual,
            6 => Condition::LessUnsigned,
            7 => Condition::GreaterEqualUnsigned,
            _ => return None,
        })
    }
}

/// How many bytes a load reads, and how they fill the register.
#[derive(Clone, Copy, PartialEq, Eq, Debug)]
pub enum LoadKind {
    /// LB.
    Byte,
    /// LH.
    Half,
    /// LW.
    Word,
    /// LD.
    Double,
    /// LBU.
    ByteUnsigned,
    /// LHU.
    HalfUnsigned,
    /// LWU.
    WordUnsigned,
}

impl LoadKind {
    ghost use Rattle.rv_isa.specs.Table.{load_funct3};
    ghost use Rattle.rv_isa.specs.declared.operations.LoadKind.{LoadKind};

    pub(crate) fn funct3(self) -> u32
        ensures value { result ≡ load_funct3 self }
        ensures bound { result < 8 }
    {
        match self {
            LoadKind::Byte => 0,
            LoadKind::Half => 1,
            LoadKind::Word => 2,
            LoadKind::Double => 3,
            LoadKind::ByteUnsigned => 4,
            LoadKind::HalfUnsigned => 5,
            LoadKind::WordUnsigned => 6,
        }
    }

    pub(crate) fn from_funct3(funct3: u32) -> Option<Self>
        ensures found { IfSome result (λ x. load_funct3 x ≡ funct3) }
        ensures none { IfNone result ((x : LoadKind) → load_funct3 x ≢ funct3) }
    {
        Some(match funct3 {
            0 => LoadKind::Byte,
            1 => LoadKind::Half,
            2 => LoadKind::Word,
            3 => LoadKind::Double,
            4 => LoadKind::ByteUnsigned,
            5 => LoadKind::HalfUnsigned,
            6 => LoadKind::WordUnsigned,
            _ => return None,
        })
    }
}

/// How many bytes a store writes.
#[derive(Clone, Copy, PartialEq, Eq, Debug)]
pub enum StoreKind {
    /// SB.
    Byte,
    /// SH.
    Half,
    /// SW.
    Word,
    /// SD.
    Double,
}

impl StoreKind {
    ghost use Rattle.rv_isa.specs.Table.{store_funct3};
    ghost use Rattle.rv_isa.specs.declared.operations.StoreKind.{StoreKind};

    pub(crate) fn funct3(self) -> u32
        ensures value { result ≡ store_funct3 self }
        ensures bound { result < 8 }
    {
        match self {
            StoreKind::Byte => 0,
            StoreKind::Half => 1,
            StoreKind::Word => 2,
            StoreKind::Double => 3,
        }
    }

    pub(crate) fn from_funct3(funct3: u32) -> Option<Self>
        ensures found { IfSome result (λ x. store_funct3 x ≡ funct3) }
        ensures none { IfNone result ((x : StoreKind) → store_funct3 x ≢ funct3) }
    {
        Some(match funct3 {
            0 => StoreKind::Byte,
            1 => StoreKind::Half,
            2 => StoreKind::Word,
            3 => StoreKind::Double,
            _ => return None,
        })
    }
}

/// What is done with a register and an immediate.
#[derive(Clone, Copy, PartialEq, Eq, Debug)]
pub enum ImmediateOperation {
    /// ADDI.
    Add,
    /// SLTI.
    SetLess,
    /// SLTIU.
    SetLessUnsigned,
    /// XORI.
    Xor,
    /// ORI.
    Or,
    /// ANDI.
    And,
}

impl ImmediateOperation {
    ghost use Rattle.rv_isa.specs.Table.{immediate_funct3};
    ghost use Rattle.rv_isa.specs.declared.operations.ImmediateOperation.{ImmediateOperation};

    pub(crate) fn funct3(self) -> u32
        ensures value { result ≡ immediate_funct3 self }
        ensures bound { result < 8 }
    {
        match self {
            ImmediateOperation::Add => 0,
            ImmediateOperation::SetLess => 2,
            ImmediateOperation::SetLessUnsigned => 3,
            ImmediateOperation::Xor => 4,
            ImmediateOperation::Or => 6,
            ImmediateOperation::And => 7,
        }
    }

    pub(crate) fn from_funct3(funct3: u32) -> Option<Self>
        ensures found { IfSome result (λ x. immediate_funct3 x ≡ funct3) }
        ensures none { IfNone result ((x : ImmediateOperation) → immediate_funct3 x ≢ funct3) }
    {
        Some(match funct3 {
            0 => ImmediateOperation::Add,
            2 => ImmediateOperation::SetLess,
            3 => ImmediateOperation::SetLessUnsigned,
            4 => ImmediateOperation::Xor,
            6 => ImmediateOperation::Or,
            7 => ImmediateOperation::And,
            _ => return None,
        })
    }
}

/// A shift by a number that stands in the word.
#[derive(Clone, Copy, PartialEq, Eq, Debug)]
pub enum Shift {
    /// SLLI, SLLIW.
    Left,
    /// SRLI, SRLIW.
    RightLogical,
    /// SRAI, SRAIW.
    RightArithmetic,
}

impl Shift {
    ghost use Rattle.rv_isa.specs.Table.{shift_funct3, shift_funct7};
    ghost use Rattle.rv_isa.specs.declared.operations.Shift.{Shift};

    pub(crate) fn funct3(self) -> u32
        ensures value { result ≡ shift_funct3 self }
        ensures bound { result < 8 }
    {
        match self {
            Shift::Left => 1,
            Shift::RightLogical => 5,
            Shift::RightArithmetic => 5,
        }
    }

    pub(crate) fn funct7(self) -> u32
        ensures value { result ≡ shift_funct7 self }
        ensures bound { result < 0x21 }
    {
        match self {
            Shift::Left => 0,
            Shift::RightLogical => 0,
            Shift::RightArithmetic => 0x20,
        }
    }

    pub(crate) fn from_fields(funct3: u32, funct7: u32) -> Option<Self>
        ensures found { IfSome result (λ x. (shift_funct3 x ≡ funct3) × (shift_funct7 x ≡ funct7)) }
        ensures none { IfNone result ((x : Shift) → shift_funct3 x ≡ funct3 → shift_funct7 x ≢ funct7) }
    {
        Some(match (funct3, funct7) {
            (1, 0) => Shift::Left,
            (5, 0) => Shift::RightLogical,
            (5, 0x20) => Shift::RightArithmetic,
            _ => return None,
        })
    }
}

/// What is done with two registers.
#[derive(Clone, Copy, PartialEq, Eq, Debug)]
pub enum Operation {
    /// ADD.
    Add,
    /// SUB.
    Sub,
    /// SLL.
    ShiftLeft,
    /// SLT.
    SetLess,
    /// SLTU.
    SetLessUnsigned,
    /// XOR.
    Xor,
    /// SRL.
    ShiftRightLogical,
    /// SRA.
    ShiftRightArithmetic,
    /// OR.
    Or,
    /// AND.
    And,
}

impl Operation {
    ghost use Rattle.rv_isa.specs.Table.{operation_funct3, operation_funct7};
    ghost use Rattle.rv_isa.specs.declared.operations.Operation.{Operation};

    pub(crate) fn funct3(self) -> u32
        ensures value { result ≡ operation_funct3 self }
        ensures bound { result < 8 }
    {
        match self {
            Operation::Add => 0,
            Operation::Sub => 0,
            Operation::ShiftLeft => 1,
            Operation::SetLess => 2,
            Operation::SetLessUnsigned => 3,
            Operation::Xor => 4,
            Operation::ShiftRightLogical => 5,
            Operation::ShiftRightArithmetic => 5,
            Operation::Or => 6,
            Operation::And => 7,
        }
    }

    pub(crate) fn funct7(self) -> u32
        ensures value { result ≡ operation_funct7 self }
        ensures bound { result < 0x21 }
    {
        match self {
            Operation::Add => 0,
            Operation::Sub => 0x20,
            Operation::ShiftLeft => 0,
            Operation::SetLess => 0,
            Operation::SetLessUnsigned => 0,
            Operation::Xor => 0,
            Operation::ShiftRightLogical => 0,
            Operation::ShiftRightArithmetic => 0x20,
            Operation::Or => 0,
            Operation::And => 0,
        }
    }

    pub(crate) fn from_fields(funct3: u32, funct7: u32) -> Option<Self>
        ensures found { IfSome result (λ x. (operation_funct3 x ≡ funct3) × (operation_funct7 x ≡ funct7)) }
        ensures none { IfNone result ((x : Operation) → operation_funct3 x ≡ funct3 → operation_funct7 x ≢ funct7) }
    {
        Some(match (funct3, funct7) {
            (0, 0) => Operation::Add,
            (0, 0x20) => Operation::Sub,
            (1, 0) => Operation::ShiftLeft,
            (2, 0) => Operation::SetLess,
            (3, 0) => Operation::SetLessUnsigned,
            (4, 0) => Operation::Xor,
            (5, 0) => Operation::ShiftRightLogical,
            (5, 0x20) => Operation::ShiftRightArithmetic,
            (6, 0) => Operation::Or,
            (7, 0) => Operation::And,
            _ => return None,
        })
    }
}

/// What is done with the low halves of two registers.
#[derive(Clone, Copy, PartialEq, Eq, Debug)]
pub enum WordOperation {
    /// ADDW.
    Add,
    /// SUBW.
    Sub,
    /// SLLW.
    ShiftLeft,
    /// SRLW.
    ShiftRightLogical,
    /// SRAW.
    ShiftRightArithmetic,
}

impl WordOperation {
    ghost use Rattle.rv_isa.specs.Table.{word_operation_funct3, word_operation_funct7};
    ghost use Rattle.rv_isa.specs.declared.operations.WordOperation.{WordOperation};

    pub(crate) fn funct3(self) -> u32
        ensures value { result ≡ word_operation_funct3 self }
        ensures bound { result < 8 }
    {
        match self {
            WordOperation::Add => 0,
            WordOperation::Sub => 0,
            WordOperation::ShiftLeft => 1,
            WordOperation::ShiftRightLogical => 5,
            WordOperation::ShiftRightArithmetic => 5,
        }
    }

    pub(crate) fn funct7(self) -> u32
        ensures value { result ≡ word_operation_funct7 self }
        ensures bound { result < 0x21 }
    {
        match self {
            WordOperation::Add => 0,
            WordOperation::Sub => 0x20,
            WordOperation::ShiftLeft => 0,
            WordOperation::ShiftRightLogical => 0,
            WordOperation::ShiftRightArithmetic => 0x20,
        }
    }

    pub(crate) fn from_fields(funct3: u32, funct7: u32) -> Option<Self>
        ensures found { IfSome result (λ x. (word_operation_funct3 x ≡ funct3) × (word_operation_funct7 x ≡ funct7)) }
        ensures none { IfNone result ((x : WordOperation)
            → word_operation_funct3 x ≡ funct3 → word_operation_funct7 x ≢ funct7) }
    {
        Some(match (funct3, funct7) {
            (0, 0) => WordOperation::Add,
            (0, 0x20) => WordOperation::Sub,
            (1, 0) => WordOperation::ShiftLeft,
            (5, 0) => WordOperation::ShiftRightLogical,
            (5, 0x20) => WordOperation::ShiftRightArithmetic,
            _ => return None,
        })
    }
}
