//! The arguments of clone.

ghost use Rattle.tr_values.specs.Children as spec;
ghost use Rattle.tr_values.specs.Sheets.{Leaves};

use crate::numbers;
use crate::sheet::{Needed, Sheet};

#[tactic(auto, unfolding(crate::specs::Children::child_stack))]
pub fn child_stack(sheet: &mut Sheet<'_>, address: u64) -> Result<(), Needed>
    ensures { Leaves result sheet.new (spec.child_stack address sheet.old) }
{
    sheet.put("child_stack=")?;
    numbers::pointer(sheet, address)
}

#[tactic(auto, unfolding(crate::specs::Children::clone_flags))]
pub fn clone_flags(sheet: &mut Sheet<'_>, word: u64) -> Result<(), Needed>
    ensures { Leaves result sheet.new (spec.clone_flags word sheet.old) }
{
    sheet.put("flags=")?;
    if word == 17 {
        sheet.put("SIGCHLD")
    } else {
        numbers::hex(sheet, word)
    }
}
