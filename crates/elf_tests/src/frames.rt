//! A table of frames by hand. What is wanted is what `readelf --debug-dump=frames-interp` says of it.

ghost use Rattle.std.specs.Prelude.{ℕ, Option, Some, None};

use elf_frames::instructions::Rule;
use elf_frames::{Frame, Memory, Table, index_of, row_of, stack_of};
use elf_symbols::sections::Content;
use std::test::Fail;

/// A CIE of version 3, and FDEs of 0x10300 to 0x10310, of no address at 0x10270, and of 0x10260 to 0x10294: 16 bytes of
/// stack from 0x10264 to 0x10290, ra from 0x10280 to 0x10288.
const BYTES: [u8; 104] = [
    12, 0, 0, 0, 255, 255, 255, 255, 3, 0, 1, 124, 1, 13, 2, 0, 20, 0, 0, 0, 0, 0, 0, 0, 0, 3, 1,
    0, 0, 0, 0, 0, 16, 0, 0, 0, 0, 0, 0, 0, 20, 0, 0, 0, 0, 0, 0, 0, 112, 2, 1, 0, 0, 0, 0, 0, 0,
    0, 0, 0, 0, 0, 0, 0, 36, 0, 0, 0, 0, 0, 0, 0, 96, 2, 1, 0, 0, 0, 0, 0, 52, 0, 0, 0, 0, 0, 0, 0,
    68, 14, 16, 92, 129, 2, 72, 193, 72, 14, 0, 0, 0, 0, 0, 0,
];

const TABLE: Table = Table {
    content: Content {
        start: 0,
        size: 104,
    },
    address: 0,
    is_eh_frame: false,
};

/// An address, the start of its FDE (0: none), the CFA's offset, and whether ra is at CFA - 8.
const ROWS: [(u64, u64, u64, bool); 13] = [
    (0x1025f, 0, 0, false),
    (0x10260, 0x10260, 0, false),
    (0x10263, 0x10260, 0, false),
    (0x10264, 0x10260, 16, false),
    (0x1027f, 0x10260, 16, false),
    (0x10280, 0x10260, 16, true),
    (0x10287, 0x10260, 16, true),
    (0x10288, 0x10260, 16, false),
    (0x10293, 0x10260, 0, false),
    (0x10294, 0, 0, false),
    (0x102ff, 0, 0, false),
    (0x1030f, 0x10300, 0, false),
    (0x10310, 0, 0, false),
];

#[test]
fn rows(rt: HostRuntime) -> Result<(), Fail> {
    let index = index_of(rt.alloc(), TABLE, &BYTES)?;
    for (address, start, offset, is_saved) in ROWS {
        match index.fde_at(address) {
            Some(fde) => {
                let row = row_of(&BYTES, fde, address).ok_or("no row")?;
                assert_eq!(rt; fde.start, start);
                assert_eq!(rt; row.cfa_register, 2);
                assert_eq!(rt; row.cfa_offset, offset);
                assert!(rt; row.rules[1] == ra_rule(is_saved));
            }
            None => assert_eq!(rt; start, 0),
        }
    }
    Ok(())
}

fn ra_rule(is_saved: bool) -> Rule {
    if is_saved {
        Rule::Offset(0xffff_ffff_ffff_fff8)
    } else {
        Rule::Unset
    }
}

/// Eight bytes at 0x8008.
#[derive(Drop)]
struct Slot {
    value: u64,
}

impl Memory for Slot {
    ghost double_at = { λ slot address. if address == 0x8008 then Some slot.value else None };

    ghost use Rattle.std.specs.Prelude.{◌==◌, if◌then◌else◌, Some, None};

    fn double(&self, address: u64) -> Option<u64> {
        if address == 0x8008 {
            Some(self.value)
        } else {
            None
        }
    }
}

#[test]
fn stacks(rt: HostRuntime) -> Result<(), Fail> {
    let index = index_of(rt.alloc(), TABLE, &BYTES)?;
    let mut registers = [0; 32];
    registers[1] = 0x20000;
    registers[2] = 0x8000;
    let memory = Slot { value: 0x10288 };
    for (pc, caller) in [(0x10260, 0x20000), (0x10284, 0x10288), (0x30000, 0x20000)] {
        let innermost = Frame::innermost(pc, registers);
        let stack = stack_of(rt.alloc(), &memory, &BYTES, &index, innermost)?;
        assert!(rt; stack.as_slice() == [pc, caller].as_slice());
    }
    Ok(())
}

/// How many instructions a long FDE has, each DW_CFA_nop.
const NOPS: u32 = 1_000_000;

/// In time that grows with what an FDE has, not with what a row holds too.
#[test]
fn long_fdes(rt: HostRuntime) -> Result<(), Fail> {
    let mut bytes = Vec::from_slice(rt.alloc(), &BYTES[..16])?;
    bytes.extend_from_slice(&NOPS.wrapping_add(20).to_le_bytes())?;
    bytes.extend_from_slice(&BYTES[20..40])?;
    for _ in 0..NOPS {
        bytes.push(0)?;
    }
    let index = index_of(rt.alloc(), TABLE, &bytes)?;
    let fde = index.fde_at(0x10300).ok_or("no FDE")?;
    assert!(rt; row_of(&bytes, fde, 0x10300).is_some());
    Ok(())
}
