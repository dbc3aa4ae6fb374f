//! Paths.

ghost use Rattle.tr_args.specs.Paths as spec;
ghost use Rattle.tr_values.specs.Sheets.{Leaves};

use tr_values::escapes::{cut, first, nul_at, quoted};
use tr_values::{Needed, Sheet, numbers};

#[tactic(auto, unfolding(crate::specs::Paths::path_read))]
fn path_read(sheet: &mut Sheet<'_>, address: u64, bytes: &[u8]) -> Result<(), Needed>
    ensures { Leaves result sheet.new (spec.path_read address bytes.now sheet.old) }
{
    let nul = nul_at(bytes);
    if nul < bytes.len() {
        quoted(sheet, first(bytes, nul))
    } else if bytes.len() < 4096 {
        numbers::pointer(sheet, address)
    } else {
        cut(sheet, first(bytes, 4095))
    }
}

/// All of a path, and of one without a NUL in 4,096 bytes the first 4,095.
#[tactic(auto, unfolding(crate::specs::Paths::path))]
pub(crate) fn path(sheet: &mut Sheet<'_>, address: u64) -> Result<(), Needed>
    ensures { Leaves result sheet.new (spec.path address sheet.old) }
{
    if address == 0 {
        return sheet.put("NULL");
    }
    let bytes = sheet.read(address, 4096)?;
    path_read(sheet, address, bytes)
}
