//! LEB128. The first numbers are those of DWARF 5, 7.6.

use dwarf_data::{read_sleb128, read_uleb128};
use std::test::Fail;

/// Bytes, the unsigned number that they spell, the signed one, and how many bytes are left.
const NUMBERS: [([u8; 3], u64, i64, usize); 8] = [
    ([2, 0, 0], 2, 2, 2),
    ([127, 0, 0], 127, -1, 2),
    ([128, 1, 0], 128, 128, 1),
    ([129, 1, 0], 129, 129, 1),
    ([185, 100, 0], 12857, -3527, 1),
    ([255, 0, 0], 127, 127, 1),
    ([128, 127, 0], 16256, -128, 1),
    ([229, 142, 38], 624485, 624485, 0),
];

#[test]
fn spell(rt: HostRuntime) -> Result<(), Fail> {
    for (bytes, plain, signed, left) in NUMBERS {
        let (value, rest) = read_uleb128(&bytes).ok_or("no number")?;
        assert_eq!(rt; value, plain);
        assert_eq!(rt; rest.len(), left);
        let (value, _) = read_sleb128(&bytes).ok_or("no number")?;
        assert_eq!(rt; value.cast_signed(), signed);
    }
    for bytes in [&[128, 128], [128; 11].as_slice()] {
        assert!(rt; read_uleb128(bytes).is_none());
        assert!(rt; read_sleb128(bytes).is_none());
    }
    Ok(())
}
