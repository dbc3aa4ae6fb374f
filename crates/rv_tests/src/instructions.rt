//! Words worked out by hand from the formats and the table of the manual. What each mnemonic is written as, and does,
//! stands in guests/runs.

use rv_isa::{Condition, Inst, Register, Shift, Unencodable, decode, encode};

fn x(number: u8) -> Register {
    Register::new(number % 32)
}

/// The instruction has this word, and the word this instruction.
fn matches(word: u32, inst: Inst) -> bool {
    encode(inst) == Ok(word) && decode(word) == Some(inst)
}

/// The first row whose word isn't that of its instruction.
fn mismatch(rows: &[(u32, Inst)]) -> Option<u32> {
    for (word, inst) in rows {
        if !matches(*word, *inst) {
            return Some(*word);
        }
    }
    None
}

/// lui x10, 0x12345 · auipc x5, 0xfffff · jal x1, 2048 · jal x0, -4 · jalr x1, -2048(x6)
fn jumps() -> [(u32, Inst); 5] {
    [
        (
            0x1234_5537,
            Inst::Lui {
                rd: x(10),
                upper: 0x12345,
            },
        ),
        (
            0xffff_f297,
            Inst::Auipc {
                rd: x(5),
                upper: 0xfffff,
            },
        ),
        (
            0x0010_00ef,
            Inst::Jal {
                rd: x(1),
                offset: 2048,
            },
        ),
        (
            0xffdf_f06f,
            Inst::Jal {
                rd: x(0),
                offset: -4,
            },
        ),
        (
            0x8003_00e7,
            Inst::Jalr {
                rd: x(1),
                rs1: x(6),
                offset: -2048,
            },
        ),
    ]
}

#[test]
fn jumps_and_upper_immediates(rt: HostRuntime) {
    assert_eq!(rt; mismatch(&jumps()), None);
}

/// beq x1, x2, 16 · bne x10, x0, -8 · blt x3, x4, 4094 · bge x5, x6, -4096 ·
/// bltu x30, x31, 2048 · bgeu x8, x9, -2
const BRANCHES: [(u32, Condition, u8, u8, i32); 6] = [
    (0x0020_8863, Condition::Equal, 1, 2, 16),
    (0xfe05_1ce3, Condition::NotEqual, 10, 0, -8),
    (0x7e41_cfe3, Condition::Less, 3, 4, 4094),
    (0x8062_d063, Condition::GreaterEqual, 5, 6, -4096),
    (0x01ff_60e3, Condition::LessUnsigned, 30, 31, 2048),
    (0xfe94_7fe3, Condition::GreaterEqualUnsigned, 8, 9, -2),
];

fn wrong_branch() -> Option<u32> {
    for (word, condition, rs1, rs2, offset) in BRANCHES {
        let inst = Inst::Branch {
            condition,
            rs1: x(rs1),
            rs2: x(rs2),
            offset,
        };
        if !matches(word, inst) {
            return Some(word);
        }
    }
    None
}

#[test]
fn branches(rt: HostRuntime) {
    assert_eq!(rt; wrong_branch(), None);
}

/// addiw x22, x23, -1 · fence rw, w · fence with its register fields set · ecall · ebreak
fn fences() -> [(u32, Inst); 5] {
    [
        (
            0xfffb_8b1b,
            Inst::AddImmediateWord {
                rd: x(22),
                rs1: x(23),
                immediate: -1,
            },
        ),
        (
            0x0310_000f,
            Inst::Fence {
                rd: x(0),
                rs1: x(0),
                ordering: 0x031,
            },
        ),
        (
            0xfff1_008f,
            Inst::Fence {
                rd: x(1),
                rs1: x(2),
                ordering: 0xfff,
            },
        ),
        (0x0000_0073, Inst::EnvironmentCall),
        (0x0010_0073, Inst::EnvironmentBreak),
    ]
}

#[test]
fn fences_and_environment(rt: HostRuntime) {
    assert_eq!(rt; mismatch(&fences()), None);
}

/// Words of the mnemonics in guests/runs/listings.runs, in its order.
const WORDS: &[u32] = &[
    // lb, lh, lw, ld, lbu, lhu, lwu, sb, sh, sw, sd
    0xfff1_0083,
    0x0022_1183,
    0x7ff3_2283,
    0x8004_3383,
    0x0005_4483,
    0x0066_5583,
    0x00c7_6683,
    0xfe11_0fa3,
    0x0032_1123,
    0x7e53_2fa3,
    0x8074_3023,
    // addi, slti, sltiu, xori, ori, andi
    0xfff5_8513,
    0x7ff6_a613,
    0x8007_b713,
    0x5558_c813,
    0xaaa9_e913,
    0x0ffa_fa13,
    // slli, srli, srai, slliw, srliw, sraiw
    0x03f0_9593,
    0x0201_5613,
    0x4011_d693,
    0x0000_959b,
    0x01f0_959b,
    0x0101_561b,
    0x4011_d69b,
    // add, sub, sll, slt, sltu, xor, srl, sra, or, and
    0x0031_00b3,
    0x4062_8233,
    0x0094_13b3,
    0x00c5_a533,
    0x00f7_36b3,
    0x0128_c833,
    0x015a_59b3,
    0x418b_db33,
    0x01bd_6cb3,
    0x01ee_fe33,
    // addw, subw, sllw, srlw, sraw
    0x0020_8fbb,
    0x4052_01bb,
    0x0083_933b,
    0x00b5_54bb,
    0x40e6_d63b,
];

/// The first of these that isn't that of the instruction that it stands for.
fn misread() -> Option<u32> {
    for word in WORDS {
        match decode(*word) {
            Some(inst) if encode(inst) == Ok(*word) => {}
            _ => return Some(*word),
        }
    }
    None
}

#[test]
fn each_word_is_that_of_its_instruction(rt: HostRuntime) {
    assert_eq!(rt; misread(), None);
}

const ILLEGAL: &[u32] = &[
    // SLLIW with bit 25 set, SRLI with bit 31 set, SUB with funct3 4
    0x0200_959b,
    0x8201_5613,
    0x4062_c233,
    // JALR with funct3 1, a branch with funct3 2, LOAD 7, STORE 4, ADDIW 2, FENCE.I
    0x8003_10e7,
    0x0020_a863,
    0xfff1_7083,
    0xfe11_4fa3,
    0xfffb_ab1b,
    0x0000_100f,
    // URET, CSRRW, a compressed pair, all zeros, all ones
    0x0020_0073,
    0x3000_1073,
    0x4501_4501,
    0,
    0xffff_ffff,
];

/// The first of these that is taken for an instruction.
fn taken() -> Option<u32> {
    for word in ILLEGAL {
        if decode(*word).is_some() {
            return Some(*word);
        }
    }
    None
}

#[test]
fn illegal_words(rt: HostRuntime) {
    assert_eq!(rt; taken(), None);
}

fn too_large() -> [Inst; 8] {
    [
        Inst::Lui {
            rd: x(1),
            upper: 0x100000,
        },
        Inst::Jal {
            rd: x(1),
            offset: 0x100000,
        },
        Inst::Jal {
            rd: x(1),
            offset: 3,
        },
        Inst::Jalr {
            rd: x(1),
            rs1: x(2),
            offset: 2048,
        },
        Inst::Branch {
            condition: Condition::Equal,
            rs1: x(1),
            rs2: x(2),
            offset: -4098,
        },
        Inst::ShiftImmediate {
            shift: Shift::Left,
            rd: x(1),
            rs1: x(2),
            amount: 64,
        },
        Inst::ShiftImmediateWord {
            shift: Shift::Left,
            rd: x(1),
            rs1: x(2),
            amount: 32,
        },
        Inst::Fence {
            rd: x(0),
            rs1: x(0),
            ordering: 4096,
        },
    ]
}

/// The first of these that has a word.
fn encoded() -> Option<Inst> {
    for inst in too_large() {
        if encode(inst) != Err(Unencodable) {
            return Some(inst);
        }
    }
    None
}

#[test]
fn numbers_too_large_for_their_fields(rt: HostRuntime) {
    assert_eq!(rt; encoded(), None);
}
