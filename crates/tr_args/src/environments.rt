//! The environment of a program.

ghost use Rattle.tr_args.specs.Environments as spec;
ghost use Rattle.tr_values.specs.Sheets.{Leaves, put};

use crate::lists::{null_at, words};
use tr_values::{Needed, Sheet, numbers};

fn variables(sheet: &mut Sheet<'_>, count: u64) -> Result<(), Needed>
    ensures { Leaves result sheet.new (put (spec.variables count) sheet.old) }
{
    sheet.put(" /* ")?;
    sheet.decimal(count)?;
    sheet.put(if count == 1 { " var */" } else { " vars */" })
}

#[tactic(auto, unfolding(crate::specs::Environments::environment_read))]
fn environment_read(sheet: &mut Sheet<'_>, address: u64, bytes: &[u8]) -> Result<(), Needed>
    ensures { Leaves result sheet.new (spec.environment_read address bytes.now sheet.old) }
{
    numbers::pointer(sheet, address)?;
    let words = words(bytes);
    let count = null_at(words);
    if count < words.len() {
        variables(sheet, count as u64)
    } else {
        sheet.put("")
    }
}

/// The address of the environment, and how many variables it has.
#[tactic(auto, unfolding(crate::specs::Environments::environment))]
pub(crate) fn environment(sheet: &mut Sheet<'_>, address: u64) -> Result<(), Needed>
    ensures { Leaves result sheet.new (spec.environment address sheet.old) }
{
    if address == 0 {
        return sheet.put("NULL");
    }
    let bytes = sheet.read(address, 4096)?;
    environment_read(sheet, address, bytes)
}
