//! Numbers.

ghost use Rattle.tr_values.specs.Numbers as spec;
ghost use Rattle.tr_values.specs.Sheets.{Leaves};

use crate::sheet::{Needed, Sheet};

/// The low 32 bits, signed.
#[tactic(auto, unfolding(crate::specs::Numbers::int))]
pub fn int(sheet: &mut Sheet<'_>, x: u64) -> Result<(), Needed>
    ensures { Leaves result sheet.new (spec.int x sheet.old) }
{
    let low = x % (1 << 32);
    if low < 1 << 31 {
        sheet.decimal(low)
    } else {
        sheet.put("-")?;
        sheet.decimal((1 << 32) - low)
    }
}

/// All 64 bits, signed.
#[tactic(auto, unfolding(crate::specs::Numbers::long))]
pub fn long(sheet: &mut Sheet<'_>, x: u64) -> Result<(), Needed>
    ensures { Leaves result sheet.new (spec.long x sheet.old) }
{
    if x < 1 << 63 {
        sheet.decimal(x)
    } else {
        sheet.put("-")?;
        sheet.decimal(u64::MAX - x + 1)
    }
}

#[tactic(auto, unfolding(crate::specs::Numbers::unsigned))]
pub fn unsigned(sheet: &mut Sheet<'_>, x: u64) -> Result<(), Needed>
    ensures { Leaves result sheet.new (spec.unsigned x sheet.old) }
{
    sheet.decimal(x)
}

/// `NULL`, or hex.
#[tactic(auto, unfolding(crate::specs::Numbers::pointer))]
pub fn pointer(sheet: &mut Sheet<'_>, x: u64) -> Result<(), Needed>
    ensures { Leaves result sheet.new (spec.pointer x sheet.old) }
{
    if x == 0 {
        sheet.put("NULL")
    } else {
        sheet.hex(x)
    }
}

#[tactic(auto, unfolding(crate::specs::Numbers::hex))]
pub fn hex(sheet: &mut Sheet<'_>, x: u64) -> Result<(), Needed>
    ensures { Leaves result sheet.new (spec.hex x sheet.old) }
{
    if x == 0 { sheet.put("0") } else { sheet.hex(x) }
}

/// Octal, with a leading 0 and at least three characters.
#[tactic(auto, unfolding(crate::specs::Numbers::mode))]
pub fn mode(sheet: &mut Sheet<'_>, x: u64) -> Result<(), Needed>
    ensures { Leaves result sheet.new (spec.mode x sheet.old) }
{
    sheet.put(if x < 8 { "00" } else { "0" })?;
    sheet.octal(x)
}
