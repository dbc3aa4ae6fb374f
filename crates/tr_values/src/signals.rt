//! Signals and sets of signals.

ghost use Rattle.std.specs.Prelude.{◌≤◌, ◌+◌, length};
ghost use Rattle.tr_values.specs.Signals as spec;
ghost use Rattle.tr_values.specs.Sheets.{Leaves, put};

use crate::numbers;
use crate::sheet::{Needed, Sheet};
use crate::structs::{struct_at, word_at};
use lx_abi::Signal;

/// A name with `SIG`, else the low 32 bits, signed.
#[tactic(auto, unfolding(crate::specs::Signals::signal_number))]
pub fn signal_number(sheet: &mut Sheet<'_>, x: u64) -> Result<(), Needed>
    ensures { Leaves result sheet.new (spec.signal_number x sheet.old) }
{
    match Signal::from_number(x % (1 << 32)) {
        Some(signal) => {
            sheet.put("SIG")?;
            sheet.put(signal.name())
        }
        None => numbers::int(sheet, x),
    }
}

/// A name without `SIG`, else the number.
pub(crate) fn bare_signal(sheet: &mut Sheet<'_>, n: u64) -> Result<(), Needed>
    ensures { Leaves result sheet.new (put (spec.bare_signal n) sheet.old) }
{
    match Signal::from_number(n) {
        Some(signal) => sheet.put(signal.name()),
        None => sheet.decimal(n),
    }
}

/// Of so many signals from `n` on those in a set, of which the lowest bit is `n`'s.
#[tactic(auto, unfolding(crate::specs::Signals::signals_text))]
fn signals(sheet: &mut Sheet<'_>, count: u64, some: bool, n: u64, set: u64) -> Result<(), Needed>
    requires { n + count ≤ 65 }
    ensures { Leaves result sheet.new (put (spec.signals_text count some n set) sheet.old) }
{
    if count == 0 {
        return Ok(());
    }
    if set % 2 != 1 {
        return signals(sheet, count - 1, some, n + 1, set / 2);
    }
    sheet.put(if some { " " } else { "" })?;
    bare_signal(sheet, n)?;
    signals(sheet, count - 1, true, n + 1, set / 2)
}

#[tactic(auto, unfolding(crate::specs::Signals::set_shown))]
pub(crate) fn set_shown(sheet: &mut Sheet<'_>, set: u64) -> Result<(), Needed>
    ensures { Leaves result sheet.new (spec.set_shown set sheet.old) }
{
    sheet.put("[")?;
    signals(sheet, 64, false, 1, set)?;
    sheet.put("]")
}

fn set_read(sheet: &mut Sheet<'_>, bytes: &[u8]) -> Result<(), Needed>
    requires { 8 ≤ length bytes.now }
    ensures { Leaves result sheet.new (spec.set_read bytes.now sheet.old) }
{
    set_shown(sheet, word_at(bytes, 0))
}

/// A set in memory.
#[tactic(auto, unfolding(crate::specs::Signals::signal_set))]
pub fn signal_set(sheet: &mut Sheet<'_>, address: u64) -> Result<(), Needed>
    ensures { Leaves result sheet.new (spec.signal_set address sheet.old) }
{
    struct_at!(sheet, address, 8, set_read)
}

/// The mask in the signal frame at the stack pointer.
#[tactic(auto, unfolding(crate::specs::Signals::frame_mask))]
pub fn frame_mask(sheet: &mut Sheet<'_>, sp: u64) -> Result<(), Needed>
    ensures { Leaves result sheet.new (spec.frame_mask sp sheet.old) }
{
    sheet.put("{mask=")?;
    signal_set(sheet, sp.wrapping_add(256))?;
    sheet.put("}")
}
