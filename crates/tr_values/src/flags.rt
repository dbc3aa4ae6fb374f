//! Flags and named numbers.

ghost use Rattle.std.specs.Prelude.{◌≡◌, map, IsTrue};
ghost use Rattle.std.specs.List.{list_all};
ghost use Rattle.lx_abi.specs.Flags.{named as named_row, is_flag};
ghost use Rattle.tr_values.specs.Flags as spec;
ghost use Rattle.tr_values.specs.Sheets.{Leaves, put};

use crate::numbers;
use crate::sheet::{Needed, Sheet};
use lx_abi::flags as tables;
use lx_abi::flags::{Named, has};

fn bar(sheet: &mut Sheet<'_>, some: bool) -> Result<(), Needed>
    ensures { Leaves result sheet.new (put (spec.bar some) sheet.old) }
{
    sheet.put(if some { "|" } else { "" })
}

fn rest(sheet: &mut Sheet<'_>, some: bool, word: u64) -> Result<(), Needed>
    ensures { Leaves result sheet.new (put (spec.rest_text some word) sheet.old) }
{
    if word == 0 {
        return sheet.put(if some { "" } else { "0" });
    }
    bar(sheet, some)?;
    sheet.hex(word)
}

/// Names, and the rest in hex, beside a name that may stand there already.
#[tactic(auto, unfolding(crate::specs::Flags::flags_text))]
fn more_flags(sheet: &mut Sheet<'_>, some: bool, word: u64, rows: &[Named]) -> Result<(), Needed>
    requires { IsTrue (list_all is_flag rows.now) }
    ensures { Leaves result sheet.new (put (spec.flags_text some word (map named_row rows.now)) sheet.old) }
{
    match rows {
        [] => rest(sheet, some, word),
        [flag, more @ ..] => {
            if !has(word, *flag) {
                return more_flags(sheet, some, word, more);
            }
            bar(sheet, some)?;
            sheet.put(flag.1)?;
            more_flags(sheet, true, word - flag.0, more)
        }
    }
}

fn flags(sheet: &mut Sheet<'_>, rows: &[Named], word: u64) -> Result<(), Needed>
    requires { IsTrue (list_all is_flag rows.now) }
    ensures { Leaves result sheet.new (spec.flags (map named_row rows.now) word sheet.old) }
{
    more_flags(sheet, false, word, rows)
}

fn flags_or(sheet: &mut Sheet<'_>, none: &str, rows: &[Named], word: u64) -> Result<(), Needed>
    requires { IsTrue (list_all is_flag rows.now) }
    ensures { Leaves result sheet.new (spec.flags_or none.now (map named_row rows.now) word sheet.old) }
{
    if word == 0 {
        sheet.put(none)
    } else {
        more_flags(sheet, false, word, rows)
    }
}

/// The name of a number, else hex.
#[tactic(auto, unfolding(crate::specs::Flags::name_of, crate::specs::Numbers::hex))]
pub(crate) fn named(sheet: &mut Sheet<'_>, rows: &[Named], number: u64) -> Result<(), Needed>
    ensures { Leaves result sheet.new (spec.named (map named_row rows.now) number sheet.old) }
{
    match rows {
        [] => numbers::hex(sheet, number),
        [row, more @ ..] => {
            if row.0 == number {
                sheet.put(row.1)
            } else {
                named(sheet, more, number)
            }
        }
    }
}

fn access_mode(sheet: &mut Sheet<'_>, number: u64) -> Result<(), Needed>
    ensures { Leaves result sheet.new (spec.access_mode number sheet.old) }
{
    named(sheet, &tables::ACCESS_MODES, number)
}

/// An access mode and flags beside it.
#[tactic(auto, unfolding(crate::specs::Flags::open_flags))]
pub fn open_flags(sheet: &mut Sheet<'_>, word: u64) -> Result<(), Needed>
    ensures { Leaves result sheet.new (spec.open_flags word sheet.old) }
{
    access_mode(sheet, word % 4)?;
    more_flags(sheet, true, word - word % 4, &tables::OPEN_FLAGS)
}

#[tactic(auto, unfolding(crate::specs::Flags::descriptor_flags))]
pub fn descriptor_flags(sheet: &mut Sheet<'_>, word: u64) -> Result<(), Needed>
    ensures { Leaves result sheet.new (spec.descriptor_flags word sheet.old) }
{
    flags(sheet, &tables::DESCRIPTOR_FLAGS, word)
}

#[tactic(auto, unfolding(crate::specs::Flags::stat_flags))]
pub fn stat_flags(sheet: &mut Sheet<'_>, word: u64) -> Result<(), Needed>
    ensures { Leaves result sheet.new (spec.stat_flags word sheet.old) }
{
    flags(sheet, &tables::STAT_FLAGS, word)
}

#[tactic(auto, unfolding(crate::specs::Flags::unlink_flags))]
pub fn unlink_flags(sheet: &mut Sheet<'_>, word: u64) -> Result<(), Needed>
    ensures { Leaves result sheet.new (spec.unlink_flags word sheet.old) }
{
    flags(sheet, &tables::UNLINK_FLAGS, word)
}

#[tactic(auto, unfolding(crate::specs::Flags::protection))]
pub fn protection(sheet: &mut Sheet<'_>, word: u64) -> Result<(), Needed>
    ensures { Leaves result sheet.new (spec.protection word sheet.old) }
{
    flags_or(sheet, "PROT_NONE", &tables::PROTECTIONS, word)
}

#[tactic(auto, unfolding(crate::specs::Flags::map_flags))]
pub fn map_flags(sheet: &mut Sheet<'_>, word: u64) -> Result<(), Needed>
    ensures { Leaves result sheet.new (spec.map_flags word sheet.old) }
{
    flags(sheet, &tables::MAP_FLAGS, word)
}

#[tactic(auto, unfolding(crate::specs::Flags::wait_options))]
pub fn wait_options(sheet: &mut Sheet<'_>, word: u64) -> Result<(), Needed>
    ensures { Leaves result sheet.new (spec.wait_options word sheet.old) }
{
    flags(sheet, &tables::WAIT_OPTIONS, word)
}

#[tactic(auto, unfolding(crate::specs::Flags::action_flags))]
pub(crate) fn action_flags(sheet: &mut Sheet<'_>, word: u64) -> Result<(), Needed>
    ensures { Leaves result sheet.new (spec.action_flags word sheet.old) }
{
    flags(sheet, &tables::ACTION_FLAGS, word)
}

#[tactic(auto, unfolding(crate::specs::Flags::whence))]
pub fn whence(sheet: &mut Sheet<'_>, number: u64) -> Result<(), Needed>
    ensures { Leaves result sheet.new (spec.whence number sheet.old) }
{
    named(sheet, &tables::WHENCES, number)
}

#[tactic(auto, unfolding(crate::specs::Flags::mask_change))]
pub fn mask_change(sheet: &mut Sheet<'_>, number: u64) -> Result<(), Needed>
    ensures { Leaves result sheet.new (spec.mask_change number sheet.old) }
{
    named(sheet, &tables::MASK_CHANGES, number)
}
