//! Which instructions run near, a matter of speed that no clause speaks of. What they do is compared with `step`.

use crate::hart::{
    CODE, DATA, READ_ONLY, UNMAPPED, double, guest, hart, load_double, make_run, stepped,
};
use rv_hart::{Hart, run_near};
use rv_mem::Space;
use std::alloc::Global;
use std::test::Fail;

const MINUS_1: u64 = 0xffff_ffff_ffff_ffff;

fn make_near_run(hart: &mut Hart, space: &mut Space) -> u64 {
    run_near(hart, space, 1)
}

/// Has the word met and the data used last, and then runs near: how many instructions run, and the double then.
fn meet_and_run(hart: &mut Hart, space: &mut Space) -> Result<(u64, u64), Fail> {
    let mut first = *hart;
    make_run(&mut first, space, 1)?;
    load_double(space)?;
    double(space)?;
    let ran = make_near_run(hart, space);
    Ok((ran, double(space)?))
}

/// The same in a guest, and the hart.
fn run_met(alloc: Global, word: u32, hart: Hart) -> Result<(u64, Hart, u64), Fail> {
    let mut space = guest(alloc, word)?;
    let mut hart = hart;
    let told = meet_and_run(&mut hart, &mut space);
    drop(space);
    let (ran, double) = told?;
    Ok((ran, hart, double))
}

/// A word at CODE, x1 and x2, and how many instructions run near: one, or none.
type Row = (u32, u64, u64, u64);

const ROWS: [Row; 60] = [
    // lui x3, 0x80000 · auipc x3, 1
    (0x8000_01b7, 0, 0, 1),
    (0x0000_1197, 0, 0, 1),
    // add, sub, sll, slt, sltu, xor, srl, sra, or, and x3, x1, x2
    (0x0020_81b3, MINUS_1, 2, 1),
    (0x4020_81b3, 0, 1, 1),
    (0x0020_91b3, 1, 65, 1),
    (0x0020_a1b3, MINUS_1, 0, 1),
    (0x0020_b1b3, MINUS_1, 0, 1),
    (0x0020_c1b3, 12, 10, 1),
    (0x0020_d1b3, 1 << 63, 63, 1),
    (0x4020_d1b3, 1 << 63, 63, 1),
    (0x0020_e1b3, 12, 10, 1),
    (0x0020_f1b3, 12, 10, 1),
    // addw, subw, sllw, srlw, sraw x3, x1, x2
    (0x0020_81bb, 0x7fff_ffff, 1, 1),
    (0x4020_81bb, 0, 1, 1),
    (0x0020_91bb, 1, 63, 1),
    (0x0020_d1bb, 0xffff_ffff_8000_0000, 31, 1),
    (0x4020_d1bb, 0x8000_0000, 31, 1),
    // addi x3, x1, -1 · slti x3, x1, -1 · sltiu x3, x1, -1 · xori x3, x1, -1 ·
    // ori x3, x1, 0xf0 · andi x3, x1, -16
    (0xfff0_8193, 0, 0, 1),
    (0xfff0_a193, 0, 0, 1),
    (0xfff0_b193, 0, 0, 1),
    (0xfff0_c193, 5, 0, 1),
    (0x0f00_e193, 1, 0, 1),
    (0xff00_f193, 0xff, 0, 1),
    // slli, srli, srai x3, x1, 63 · addiw x3, x1, -1 · slliw, srliw, sraiw x3, x1, 31
    (0x03f0_9193, 3, 0, 1),
    (0x03f0_d193, 1 << 63, 0, 1),
    (0x43f0_d193, 1 << 63, 0, 1),
    (0xfff0_819b, 0x8000_0000, 0, 1),
    (0x01f0_919b, 1, 0, 1),
    (0x01f0_d19b, 0xffff_ffff, 0, 1),
    (0x41f0_d19b, 0x8000_0000, 0, 1),
    // lb, lh, lw, ld, lbu, lhu, lwu x3, 0(x1) · lw x3, 1(x1)
    (0x0000_8183, DATA, 0, 1),
    (0x0000_9183, DATA, 0, 1),
    (0x0000_a183, DATA, 0, 1),
    (0x0000_b183, DATA, 0, 1),
    (0x0000_c183, DATA, 0, 1),
    (0x0000_d183, DATA, 0, 1),
    (0x0000_e183, DATA, 0, 1),
    (0x0010_a183, DATA, 0, 1),
    // sb, sh, sw, sd x2, 0(x1)
    (0x0020_8023, DATA, 0x1122_3344_5566_7788, 1),
    (0x0020_9023, DATA, 0x1122_3344_5566_7788, 1),
    (0x0020_a023, DATA, 0x1122_3344_5566_7788, 1),
    (0x0020_b023, DATA, 0x1122_3344_5566_7788, 1),
    // jal x3, 8 · jalr x3, 1(x1)
    (0x0080_01ef, 0, 0, 1),
    (0x0010_81e7, DATA, 0, 1),
    // beq, bne, blt, bge, bltu, bgeu x1, x2, 8
    (0x0020_8463, 1, 1, 1),
    (0x0020_9463, 1, 1, 1),
    (0x0020_c463, MINUS_1, 1, 1),
    (0x0020_d463, MINUS_1, 1, 1),
    (0x0020_e463, MINUS_1, 1, 1),
    (0x0020_f463, MINUS_1, 1, 1),
    // bne x0, x0, 6 is not taken · fence
    (0x0000_1363, 0, 0, 1),
    (0x0ff0_000f, 0, 0, 1),
    // jal x3, 2 · jalr x3, 2(x1) · beq x0, x0, 6
    (0x0020_01ef, 0, 0, 0),
    (0x0020_81e7, DATA, 0, 0),
    (0x0000_0363, 0, 0, 0),
    // a word of zeros · ebreak
    (0, 0, 0, 0),
    (0x0010_0073, 0, 0, 0),
    // ld x3, 0(x1) · sd x2, 0(x1)
    (0x0000_b183, UNMAPPED - 4, 0, 0),
    (0x0000_b183, CODE, 0, 0),
    (0x0020_b023, READ_ONLY - 4, 0, 0),
];

/// As many run near as should, and do what a step does.
fn is_near(alloc: Global, row: Row) -> Result<bool, Fail> {
    let (word, x1, x2, near) = row;
    let hart = hart(CODE, x1, x2);
    let (_, after, double) = stepped(alloc, word, hart)?;
    Ok(run_met(alloc, word, hart)? == (near, after, double))
}

/// The first row that isn't so.
fn wrong_row(alloc: Global) -> Result<Option<Row>, Fail> {
    for row in ROWS {
        if !is_near(alloc, row)? {
            return Ok(Some(row));
        }
    }
    Ok(None)
}

#[test]
fn near_steps(rt: HostRuntime) -> Result<(), Fail> {
    assert_eq!(rt; wrong_row(rt.alloc())?, None);
    Ok(())
}
