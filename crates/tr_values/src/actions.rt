//! The action of a signal.

ghost use Rattle.std.specs.Prelude.{◌≤◌, length};
ghost use Rattle.tr_values.specs.Actions as spec;
ghost use Rattle.tr_values.specs.Sheets.{Leaves};

use crate::flags;
use crate::sheet::{Needed, Sheet};
use crate::signals::set_shown;
use crate::structs::{struct_at, word_at};
use lx_abi::flags::HANDLERS;

#[tactic(auto, unfolding(crate::specs::Actions::handler))]
fn handler(sheet: &mut Sheet<'_>, x: u64) -> Result<(), Needed>
    ensures { Leaves result sheet.new (spec.handler x sheet.old) }
{
    flags::named(sheet, &HANDLERS, x)
}

#[tactic(auto, unfolding(crate::specs::Actions::action_read))]
fn action_read(sheet: &mut Sheet<'_>, bytes: &[u8]) -> Result<(), Needed>
    requires { 24 ≤ length bytes.now }
    ensures { Leaves result sheet.new (spec.action_read bytes.now sheet.old) }
{
    sheet.put("{sa_handler=")?;
    handler(sheet, word_at(bytes, 0))?;
    sheet.put(", sa_mask=")?;
    set_shown(sheet, word_at(bytes, 16))?;
    sheet.put(", sa_flags=")?;
    flags::action_flags(sheet, word_at(bytes, 8))?;
    sheet.put("}")
}

/// A struct sigaction in memory.
#[tactic(auto, unfolding(crate::specs::Actions::action))]
pub fn action(sheet: &mut Sheet<'_>, address: u64) -> Result<(), Needed>
    ensures { Leaves result sheet.new (spec.action address sheet.old) }
{
    struct_at!(sheet, address, 24, action_read)
}
