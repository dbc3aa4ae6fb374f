use crate::operations::{
    Condition, ImmediateOperation, LoadKind, Operation, Shift, StoreKind, WordOperation,
};
use crate::register::Register;

/// An instruction of RV64I, by the format of its word.
///
/// A value may hold a number that its word has no room for: `encode` says which do. Offsets and
/// immediates are the numbers that the instruction adds, in bytes where they move pc.
#[derive(Clone, Copy, PartialEq, Eq, Debug)]
pub enum Inst {
    /// LUI. `upper` is what bits 31 to 12 of the register become.
    Lui {
        rd: Register,
        upper: u32,
    },
    /// AUIPC. `upper` counts units of 4,096.
    Auipc {
        rd: Register,
        upper: u32,
    },
    /// JAL.
    Jal {
        rd: Register,
        offset: i32,
    },
    /// JALR.
    Jalr {
        rd: Register,
        rs1: Register,
        offset: i32,
    },
    /// BEQ, BNE, BLT, BGE, BLTU, BGEU.
    Branch {
        condition: Condition,
        rs1: Register,
        rs2: Register,
        offset: i32,
    },
    /// LB, LH, LW, LD, LBU, LHU, LWU.
    Load {
        kind: LoadKind,
        rd: Register,
        rs1: Register,
        offset: i32,
    },
    /// SB, SH, SW, SD: `rs2` is what is stored.
    Store {
        kind: StoreKind,
        rs1: Register,
        rs2: Register,
        offset: i32,
    },
    /// ADDI, SLTI, SLTIU, XORI, ORI, ANDI.
    Immediate {
        operation: ImmediateOperation,
        rd: Register,
        rs1: Register,
        immediate: i32,
    },
    /// SLLI, SRLI, SRAI.
    ShiftImmediate {
        shift: Shift,
        rd: Register,
        rs1: Register,
        amount: u32,
    },
    /// ADDIW.
    AddImmediateWord {
        rd: Register,
        rs1: Register,
        immediate: i32,
    },
    /// SLLIW, SRLIW, SRAIW.
    ShiftImmediateWord {
        shift: Shift,
        rd: Register,
        rs1: Register,
        amount: u32,
    },
    /// ADD, SUB, SLL, SLT, SLTU, XOR, SRL, SRA, OR, AND.
    Operation {
        operation: Operation,
        rd: Register,
        rs1: Register,
        rs2: Register,
    },
    /// ADDW, SUBW, SLLW, SRLW, SRAW.
    WordOperation {
        operation: WordOperation,
        rd: Register,
        rs1: Register,
        rs2: Register,
    },
    /// FENCE. `ordering` is bits 31 to 20: the mode, the predecessors and the successors.
    Fence {
        rd: Register,
        rs1: Register,
        ordering: u32,
    },
    /// ECALL.
    EnvironmentCall,
    /// EBREAK.
    EnvironmentBreak,
}
