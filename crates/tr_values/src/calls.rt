//! Calls.

ghost use Rattle.tr_values.specs.Calls as spec;
ghost use Rattle.tr_values.specs.Sheets.{Leaves, put};

use crate::sheet::{Needed, Sheet};
use lx_abi::calls::call_name;

/// The name of a call, or its number.
pub fn name(sheet: &mut Sheet<'_>, number: u64) -> Result<(), Needed>
    ensures { Leaves result sheet.new (put (spec.name_text number) sheet.old) }
{
    match call_name(number) {
        Some(name) => sheet.put(name),
        None => {
            sheet.put("syscall_")?;
            sheet.hex(number)
        }
    }
}
