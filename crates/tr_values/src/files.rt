//! What stat tells of a file.

ghost use Rattle.std.specs.Prelude.{◌≤◌, length};
ghost use Rattle.tr_values.specs.Files as spec;
ghost use Rattle.tr_values.specs.Sheets.{Leaves};

use crate::sheet::{Needed, Sheet};
use crate::structs::{half_at, struct_at, word_at};
use crate::{flags, numbers};
use lx_abi::flags::FILE_TYPES;

#[tactic(auto, unfolding(crate::specs::Files::file_type))]
fn file_type(sheet: &mut Sheet<'_>, x: u64) -> Result<(), Needed>
    ensures { Leaves result sheet.new (spec.file_type x sheet.old) }
{
    flags::named(sheet, &FILE_TYPES, x)
}

/// A type and permissions.
#[tactic(auto, unfolding(crate::specs::Files::file_mode))]
fn file_mode(sheet: &mut Sheet<'_>, mode: u64) -> Result<(), Needed>
    ensures { Leaves result sheet.new (spec.file_mode mode sheet.old) }
{
    file_type(sheet, mode / 4096 * 4096)?;
    sheet.put("|")?;
    numbers::mode(sheet, mode % 4096)
}

#[tactic(auto, unfolding(crate::specs::Files::stat_read))]
fn stat_read(sheet: &mut Sheet<'_>, bytes: &[u8]) -> Result<(), Needed>
    requires { 128 ≤ length bytes.now }
    ensures { Leaves result sheet.new (spec.stat_read bytes.now sheet.old) }
{
    sheet.put("{st_mode=")?;
    file_mode(sheet, half_at(bytes, 16))?;
    sheet.put(", st_size=")?;
    sheet.decimal(word_at(bytes, 48))?;
    sheet.put(", ...}")
}

/// A struct stat in memory.
#[tactic(auto, unfolding(crate::specs::Files::stat))]
pub fn stat(sheet: &mut Sheet<'_>, address: u64) -> Result<(), Needed>
    ensures { Leaves result sheet.new (spec.stat address sheet.old) }
{
    struct_at!(sheet, address, 128, stat_read)
}
