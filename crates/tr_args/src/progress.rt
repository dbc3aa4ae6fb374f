//! How far the text of a half of a call is made. An argument and an item of a list are made once what is read for them
//! is there, and stay so.

ghost use Rattle.std.specs.Prelude.{◌≡◌, ◌≤◌, ◌<◌, ◌+◌, ◌^◌, [], None, IfOk, length, string_bytes};
ghost use Rattle.tr_args.specs.Arguments.{half, wish_of};
ghost use Rattle.tr_values.specs.Sheets.{Leaves, put};
ghost use Rattle.tr_args.specs.Progress.{Goes, Starts, Makes, IsMade, behind, is_left, is_wanted, kinds_of};
ghost use Rattle.tr_args.specs.Progress.{row_left, stage_left};

use crate::arguments::{are_both, format_of, place};
use crate::context::Context;
use crate::kinds::begin;
use crate::lists::{Listing, list_on};
use containers::Bytes;
use lx_abi::{Argument, Boxed};
use std::alloc::{AllocError, Global};
use tr_values::calls::name;
use tr_values::{Needed, Sheet};

/// What is left of the arguments of a half.
#[derive(Drop)]
pub(crate) struct Row {
    /// An argument is shown.
    pub(crate) some: bool,
    /// The number of the next.
    pub(crate) number: usize,
    pub(crate) kinds: &'static [Argument],
    /// A list under way, before the next.
    pub(crate) list: Option<Listing>,
    /// A comma follows the last.
    pub(crate) comma: bool,
}

/// What is left of a half.
#[derive(Drop)]
pub(crate) enum Stage {
    Unbegun,
    /// In a place of its own: a text for which nothing is read is never left under way.
    Under(Boxed<Row>),
    Whole,
}

/// What is made of a text, of so many reads.
#[derive(Drop)]
pub(crate) struct Made {
    pub(crate) text: String,
    pub(crate) used: usize,
    pub(crate) stage: Stage,
}

impl Made {
    /// Nothing yet.
    pub(crate) fn new(alloc: Global) -> Self
        ensures text { string_bytes result.text ≡ [] }
        ensures used { result.used ≡ 0 }
        ensures stage { result.stage ≡ Stage.Unbegun }
    {
        Made {
            text: String::new(alloc),
            used: 0,
            stage: Stage::Unbegun,
        }
    }
}

/// The next of a row, and those behind it.
fn next_kind(kinds: &'static [Argument]) -> Option<(Argument, &'static [Argument])>
    ensures { kinds_of result ≡ kinds.now }
{
    match kinds {
        [] => None,
        [kind, more @ ..] => Some((*kind, more)),
    }
}

/// The arguments that can be made of what was read.
#[tactic(auto, unfolding(crate::specs::Progress::row_left))]
fn row_on(sheet: &mut Sheet<'_>, context: &Context, row: &mut Row) -> Result<(), Needed>
    requires most { context.now.most ≤ 4096 }
    requires few { row.old.number + length row.old.kinds.now < 2 ^ 32 }
    ensures goes { Goes result (row_left context.now row.old) sheet.old (row_left context.now row.new) sheet.new }
    ensures few { row.new.number + length row.new.kinds.now ≡ row.old.number + length row.old.kinds.now }
    ensures comma { row.new.comma ≡ row.old.comma }
{
    if let Err(stop) = list_on(sheet, context.most, &mut row.list) {
        return Err(stop);
    }
    match next_kind(row.kinds) {
        None => Ok(()),
        Some((kind, more)) => {
            match begin(sheet, row.some, kind, place(context, row.number)) {
                Ok(list) => {
                    row.list = list;
                    row.some = true;
                    row.number += 1;
                    row.kinds = more;
                    row_on(sheet, context, row)
                }
                Err(stop) => Err(stop),
            }
        }
    }
}

/// What stands behind the arguments of a half.
fn end(sheet: &mut Sheet<'_>, comma: bool) -> Result<(), Needed>
    ensures { Leaves result sheet.new (put (behind comma) sheet.old) }
{
    if comma { sheet.put(", ") } else { Ok(()) }
}

/// The rest of a half, as far as it can be made of what was read.
#[tactic(auto, unfolding(crate::specs::Progress::stage_left))]
fn rest_on(sheet: &mut Sheet<'_>, context: &Context, row: &mut Row) -> Result<(), Needed>
    requires most { context.now.most ≤ 4096 }
    requires few { row.old.number + length row.old.kinds.now < 2 ^ 32 }
    ensures goes { Goes result (stage_left context.now (Stage.Under row.old)) sheet.old
        (stage_left context.now (Stage.Under row.new)) sheet.new }
    ensures few { row.new.number + length row.new.kinds.now ≡ row.old.number + length row.old.kinds.now }
{
    match row_on(sheet, context, row) {
        Ok(()) => end(sheet, row.comma),
        Err(stop) => Err(stop),
    }
}

/// What stands before the arguments of a half, and its arguments.
fn begun(sheet: &mut Sheet<'_>, context: &Context) -> Result<Row, Needed>
    ensures begins { Starts result context.now sheet.old sheet.new }
    ensures few { IfOk result (λ r. r.number + length r.kinds.now < 2 ^ 32) }
{
    let format = format_of(context.number);
    match context.result {
        None => {
            name(sheet, context.number)?;
            sheet.put("(")?;
            Ok(Row {
                some: false,
                number: 0,
                kinds: format.0,
                list: None,
                comma: are_both(format.0, format.1),
            })
        }
        Some(_) => Ok(Row {
            some: false,
            number: format.0.len(),
            kinds: format.1,
            list: None,
            comma: false,
        }),
    }
}

/// What is made with this much of a row left, and what is read next.
#[inline(always)]
fn made_with(
    alloc: Global,
    sheet: Sheet<'_>,
    context: &Context,
    row: Row,
    count: usize,
) -> Result<(Made, Option<(u64, u32)>), AllocError>
    requires most { context.now.most ≤ 4096 }
    requires few { row.number + length row.kinds.now < 2 ^ 32 }
    requires count { length sheet.left ≤ count }
    ensures { IfOk result
        (λ r. Makes context.now (stage_left context.now (Stage.Under row)) sheet.entry count r.0 r.1) }
{
    let mut sheet = sheet;
    let mut row = row;
    match rest_on(&mut sheet, context, &mut row) {
        Ok(()) => {
            let used = count - sheet.unread();
            let made = Made {
                text: sheet.into_text(),
                used,
                stage: Stage::Whole,
            };
            Ok((made, None))
        }
        Err(Needed::Wants { address, length }) => {
            let used = count - sheet.unread();
            let row = Boxed::new(alloc, row)?;
            let made = Made {
                text: sheet.into_text(),
                used,
                stage: Stage::Under(row),
            };
            Ok((made, Some((address, length))))
        }
        Err(Needed::Memory) => Err(AllocError),
    }
}

/// What is made of a text from its first byte, and what is read next.
pub(crate) fn make_first(
    alloc: Global,
    context: &Context,
    read: &[Bytes],
) -> Result<(Made, Option<(u64, u32)>), AllocError>
    requires { context.now.most ≤ 4096 }
    ensures made { IfOk result (λ r. IsMade context.now read.now r.0) }
    ensures wish { IfOk result (λ r. r.1 ≡ wish_of (half context.now read.now)) }
    ensures whole { IfOk result (λ r. is_wanted r.1 ≡ is_left r.0.stage) }
{
    let mut sheet = Sheet::new(alloc, read);
    match begun(&mut sheet, context) {
        Ok(row) => made_with(alloc, sheet, context, row, read.len()),
        Err(_) => Err(AllocError),
    }
}

/// Goes on with what was read since, and tells what is read next.
pub(crate) fn go_on(
    alloc: Global,
    context: &Context,
    read: &[Bytes],
    made: Made,
) -> Result<(Made, Option<(u64, u32)>), AllocError>
    requires most { context.now.most ≤ 4096 }
    requires made { IsMade context.now read.now made }
    ensures made { IfOk result (λ r. IsMade context.now read.now r.0) }
    ensures wish { IfOk result (λ r. r.1 ≡ wish_of (half context.now read.now)) }
    ensures whole { IfOk result (λ r. is_wanted r.1 ≡ is_left r.0.stage) }
{
    let Made { text, used, stage } = made;
    match stage {
        Stage::Whole => Ok((
            Made {
                text,
                used,
                stage: Stage::Whole,
            },
            None,
        )),
        Stage::Under(row) => {
            let sheet = Sheet::with(alloc, text, read.split_at(used).1);
            made_with(alloc, sheet, context, row.into_inner(), read.len())
        }
        Stage::Unbegun => make_first(alloc, context, read),
    }
}
