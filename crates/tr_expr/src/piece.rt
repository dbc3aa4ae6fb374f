//! The piece of an expression that is refused by itself.

ghost use Rattle.std.specs.Prelude.{◌≡◌, IfOk, Some, option_map};
ghost use Rattle.tr_expr.specs.Pieces as spec;
ghost use Rattle.tr_expr.specs.Pieces.{IsRefusedItem, IsRefusedPiece, pieces_of, piece_shown};
ghost use Rattle.tr_expr.specs.Sets.{items, pieces};
ghost use Rattle.tr_expr.specs.Exprs.{word_of, Traced, Tampered};

use crate::fault::ExprFault;
use crate::item::read_item;
use crate::rule::InjectParts;
use crate::said::part_fault;
use crate::set::negation;
use std::alloc::{AllocError, Global};

/// What of an expression is refused.
#[derive(Clone, Copy, Debug)]
pub enum RefusedPiece<'a> {
    /// An item of its set.
    Item(&'a str),
    /// A part of an expression that takes these.
    Part(InjectParts, &'a str),
}

/// An expression that is cut at its first colon.
#[derive(Clone, Copy)]
pub(crate) struct Cut<'a> {
    form: InjectParts,
    set: &'a str,
    parts: Option<&'a str>,
}

fn without_parts(set: &str) -> Cut<'_>
    ensures { spec.shown result ≡ pieces_of (Traced set.now) }
{
    Cut {
        form: InjectParts::Inject,
        set,
        parts: None,
    }
}

fn with_parts(form: InjectParts, text: &str) -> Cut<'_>
    ensures { spec.shown result ≡ pieces_of (Tampered form text.now) }
{
    match text.split_once(':') {
        Some((set, parts)) => Cut {
            form,
            set,
            parts: Some(parts),
        },
        None => Cut {
            form,
            set: text,
            parts: None,
        },
    }
}

fn cut_word(text: &str) -> Cut<'_>
    ensures { spec.shown result ≡ pieces_of (word_of text.now) }
{
    if let Some(set) = text.strip_prefix("trace=") {
        return without_parts(set);
    }
    if let Some(rule) = text.strip_prefix("inject=") {
        return with_parts(InjectParts::Inject, rule);
    }
    if let Some(rule) = text.strip_prefix("fault=") {
        return with_parts(InjectParts::Fault, rule);
    }
    without_parts(text)
}

/// What is found is this kind.
fn is_kind(kind: ExprFault, found: Option<ExprFault>) -> bool
    ensures { result ≡ spec.is_kind kind found }
{
    match found {
        Some(fault) => fault.number() == kind.number(),
        None => false,
    }
}

/// The first of the items of a list that is refused with the kind by itself.
fn refused_among<'a>(
    alloc: Global,
    kind: ExprFault,
    list: &'a str,
) -> Result<Option<&'a str>, AllocError>
    ensures { IfOk result (λ item. IsRefusedItem kind (pieces 44 list.now) (option_map (λ x. x.now) item)) }
{
    for item in list.split(',') {
        let picks = read_item(alloc, item)?;
        if is_kind(kind, picks.fault()) {
            return Ok(Some(item));
        }
    }
    Ok(None)
}

/// The first item of a set that is refused with the kind by itself.
fn refused_item<'a>(
    alloc: Global,
    kind: ExprFault,
    set: &'a str,
) -> Result<Option<&'a str>, AllocError>
    ensures { IfOk result (λ item. IsRefusedItem kind (items set.now) (option_map (λ x. x.now) item)) }
{
    let (_, list) = negation(set);
    refused_among(alloc, kind, list)
}

/// The first of these parts that is refused with the kind by itself.
fn find_part<'a>(kind: ExprFault, form: InjectParts, parts: &'a str) -> Option<&'a str>
    ensures { option_map (λ x. x.now) result ≡ spec.refused_part kind form (Some parts.now) }
{
    parts
        .split(':')
        .find(|part| is_kind(kind, part_fault(form, part)))
}

/// The first part that is refused with the kind by itself, if there are parts.
fn refused_part<'a>(kind: ExprFault, form: InjectParts, parts: Option<&'a str>) -> Option<&'a str>
    ensures { option_map (λ x. x.now) result ≡ spec.refused_part kind form (option_map (λ x. x.now) parts.entry) }
{
    match parts {
        Some(parts) => find_part(kind, form, parts),
        None => None,
    }
}

fn first_piece<'a>(
    form: InjectParts,
    item: Option<&'a str>,
    part: Option<&'a str>,
) -> Option<RefusedPiece<'a>>
    ensures { option_map piece_shown result
        ≡ spec.first_piece form (option_map (λ x. x.now) item.entry) (option_map (λ x. x.now) part.entry) }
{
    match (item, part) {
        (Some(item), _) => Some(RefusedPiece::Item(item)),
        (None, Some(part)) => Some(RefusedPiece::Part(form, part)),
        (None, None) => None,
    }
}

/// The piece of an expression that is refused with a kind by itself, where one is: the first item, else the first part.
pub fn refused_piece(
    alloc: Global,
    text: &str,
    kind: ExprFault,
) -> Result<Option<RefusedPiece<'_>>, AllocError>
    ensures { IfOk result (λ piece.
        IsRefusedPiece kind (pieces_of (word_of text.now)) (option_map piece_shown piece)) }
{
    let cut = cut_word(text);
    let item = refused_item(alloc, kind, cut.set)?;
    let part = refused_part(kind, cut.form, cut.parts);
    Ok(first_piece(cut.form, item, part))
}
