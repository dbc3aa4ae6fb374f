//! Descriptors: one that a path is relative to, and the pair of a pipe.

ghost use Rattle.std.specs.Prelude.{◌≤◌, length};
ghost use Rattle.tr_values.specs.Descriptors as spec;
ghost use Rattle.tr_values.specs.Sheets.{Leaves};

use crate::numbers;
use crate::sheet::{Needed, Sheet};
use crate::structs::{half_at, struct_at};

/// `AT_FDCWD`, or a number.
#[tactic(auto, unfolding(crate::specs::Descriptors::directory))]
pub fn directory(sheet: &mut Sheet<'_>, x: u64) -> Result<(), Needed>
    ensures { Leaves result sheet.new (spec.directory x sheet.old) }
{
    if x % (1 << 32) == (1 << 32) - 100 {
        sheet.put("AT_FDCWD")
    } else {
        numbers::int(sheet, x)
    }
}

#[tactic(auto, unfolding(crate::specs::Descriptors::pair_read))]
fn pair_read(sheet: &mut Sheet<'_>, bytes: &[u8]) -> Result<(), Needed>
    requires { 8 ≤ length bytes.now }
    ensures { Leaves result sheet.new (spec.pair_read bytes.now sheet.old) }
{
    sheet.put("[")?;
    numbers::int(sheet, half_at(bytes, 0))?;
    sheet.put(", ")?;
    numbers::int(sheet, half_at(bytes, 4))?;
    sheet.put("]")
}

/// The two descriptors that pipe2 gives.
#[tactic(auto, unfolding(crate::specs::Descriptors::pair))]
pub fn pair(sheet: &mut Sheet<'_>, address: u64) -> Result<(), Needed>
    ensures { Leaves result sheet.new (spec.pair address sheet.old) }
{
    struct_at!(sheet, address, 8, pair_read)
}
