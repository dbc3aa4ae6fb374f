//! The whole listing: where its labels stand, and its bytes.

ghost use Rattle.std.specs.Prelude.{◌≡◌, ◌≢◌, ◌≤◌, ◌<◌, ◌+◌, ◌++◌, map, length, option_map, OnOk, IfOk, IfErr, Ok, Err, Some};
ghost use Rattle.std.specs.List.{list_any};
ghost use Rattle.rv_asm.specs.Codes.{place_named, size_of};
ghost use Rattle.rv_asm.specs.Lines.{labels_of, body_of, next_at};
ghost use Rattle.rv_asm.specs.Listing.{places, places_at, is_earlier, repeats, is_duplicate, checked, said_bytes, line_bytes, bytes_from, with_front};
ghost use Rattle.rv_syntax.specs.Statements.{said};
ghost use Rattle.rv_syntax.specs.Text.{is_text, texts};
ghost use Rattle.rv_asm.specs.declared.fault.AsmKind.TheVariants.{Memory};

use crate::code::{END, Expansion, instructions, put, size, words};
use crate::fault::{AsmFault, AsmKind};
use crate::labels::Labels;
use crate::line::{next_address, split_labels, statement};
use crate::symbol::Symbol;
use rv_syntax::Statement;
use std::alloc::{AllocError, Global};

/// Where the image begins.
pub const START: u64 = 0x10000;

fn add_labels<'a>(
    labels: &mut Labels<'a>,
    names: &[&'a [u8]],
    at: u64,
    line: usize,
) -> Result<(), AllocError>
    requires { at ≤ 0x20000 }
    ensures { OnOk result (labels.new ≡ labels.old ++ places_at at line (texts names.now)) }
{
    for name in names {
        labels.push(Symbol {
            name,
            address: at,
            line,
        })?;
    }
    Ok(())
}

/// Adds the labels of a line that begins at an address: where the next one begins.
fn place_line<'a>(
    alloc: Global,
    labels: &mut Labels<'a>,
    line: &'a [u8],
    number: usize,
    at: u64,
) -> Result<u64, AsmKind>
    requires { at ≤ 0x20000 }
    ensures labels { OnOk result (labels.new ≡ labels.old ++ places_at at number (labels_of line.now)) }
    ensures next { IfOk result (λ next. next ≡ next_at at (body_of line.now)) }
    ensures small { IfOk result (λ next. next ≤ 0x20000) }
    ensures err { IfErr result (λ kind. kind ≡ Memory) }
{
    let (names, body) = split_labels(alloc, line)?;
    add_labels(labels, names.as_slice(), at, number)?;
    next_address(alloc, body, at)
}

/// The labels of the lines.
pub fn place<'a>(alloc: Global, lines: &[&'a [u8]]) -> Result<Labels<'a>, AsmFault>
    ensures ok { IfOk result (λ labels. labels ≡ places 0x10000 1 (texts lines.now)) }
    ensures err { IfErr result (λ fault. fault.kind ≡ Memory) }
{
    let mut labels = Labels::new(alloc);
    let mut at = START;
    for (i, line) in lines.iter().enumerate() {
        let number = i + 1;
        match place_line(alloc, &mut labels, line, number, at) {
            Ok(next) => at = next,
            Err(kind) => return Err(AsmFault { line: number, kind }),
        }
    }
    Ok(labels)
}

fn is_earlier(labels: &Labels, name: &[u8], line: usize) -> bool
    ensures { result ≡ is_earlier (place_named labels.now name.now) line }
{
    match labels.find(name) {
        Some(symbol) => symbol.line < line,
        None => false,
    }
}

fn any_earlier(labels: &Labels, names: &[&[u8]], line: usize) -> bool
    ensures { result ≡ list_any (λ w. is_earlier (place_named labels.now w) line) (texts names.now) }
{
    for name in names {
        if is_earlier(labels, name, line) {
            return true;
        }
    }
    false
}

/// Whether a name stands twice.
fn repeats(alloc: Global, names: &[&[u8]]) -> Result<bool, AllocError>
    ensures { IfOk result (λ found. found ≡ repeats (texts names.now)) }
{
    let mut seen = Labels::new(alloc);
    let mut at = names.len();
    while at > 0 {
        at -= 1;
        let name = names[at];
        if seen.find(name).is_some() {
            return Ok(true);
        }
        seen.push(Symbol {
            name,
            address: 0,
            line: 0,
        })?;
    }
    Ok(false)
}

/// Whether a label stands on an earlier line, or twice on this one.
fn is_duplicate(
    alloc: Global,
    labels: &Labels,
    line: usize,
    names: &[&[u8]],
) -> Result<bool, AllocError>
    ensures { IfOk result (λ found. found ≡ is_duplicate labels.now line (texts names.now)) }
{
    if any_earlier(labels, names, line) {
        return Ok(true);
    }
    repeats(alloc, names)
}

/// The words of a statement that stands at an address, or its first fault.
fn checked(
    statement: &Statement,
    at: u64,
    duplicate: bool,
    labels: &Labels,
) -> Result<Expansion<u32>, AsmKind>
    ensures value { result ≡ checked labels.now at duplicate (said statement.now) }
    ensures within { OnOk result (at + size_of at (said statement.now) ≤ 0x20000) }
{
    let found = instructions(statement, at, labels)?;
    let words = words(found)?;
    if duplicate {
        return Err(AsmKind::Duplicate);
    }
    if u128::from(at).saturating_add(size(statement, at)) > END {
        return Err(AsmKind::TooLarge);
    }
    Ok(words)
}

fn put_statement(
    out: &mut Vec<u8>,
    statement: &Statement,
    at: u64,
    duplicate: bool,
    labels: &Labels,
) -> Result<(), AsmKind>
    ensures ok { OnOk result
        (with_front out.old.items (said_bytes labels.now at duplicate (Some (said statement.now)))
        ≡ Ok out.new.items) }
    ensures err { IfErr result
        (λ kind. kind ≢ Memory → said_bytes labels.now at duplicate (Some (said statement.now)) ≡ Err kind) }
{
    match checked(statement, at, duplicate, labels) {
        Err(kind) => Err(kind),
        Ok(words) => {
            put(out, statement, at, words)?;
            Ok(())
        }
    }
}

/// Appends the bytes of what a line says.
fn put_said(
    out: &mut Vec<u8>,
    found: &Option<Statement>,
    at: u64,
    duplicate: bool,
    labels: &Labels,
) -> Result<(), AsmKind>
    ensures ok { OnOk result
        (with_front out.old.items (said_bytes labels.now at duplicate (option_map said found.now))
        ≡ Ok out.new.items) }
    ensures err { IfErr result
        (λ kind. kind ≢ Memory → said_bytes labels.now at duplicate (option_map said found.now) ≡ Err kind) }
{
    match found {
        None if duplicate => Err(AsmKind::Duplicate),
        None => Ok(()),
        Some(statement) => put_statement(out, statement, at, duplicate, labels),
    }
}

/// Appends the bytes of a line.
#[tactic(auto, unfolding(crate::specs::Listing::line_bytes))]
fn put_line(
    alloc: Global,
    out: &mut Vec<u8>,
    line: &[u8],
    number: usize,
    labels: &Labels,
) -> Result<(), AsmKind>
    ensures ok { OnOk result
        (with_front out.old.items (line_bytes labels.now (0x10000 + length out.old.items) number line.now)
        ≡ Ok out.new.items) }
    ensures err { IfErr result
        (λ kind. kind ≢ Memory
        → line_bytes labels.now (0x10000 + length out.old.items) number line.now ≡ Err kind) }
{
    let at = START + out.len() as u64;
    match split_labels(alloc, line) {
        Err(_) => Err(AsmKind::Memory),
        Ok((names, body)) => match statement(alloc, body) {
            Err(kind) => Err(kind),
            Ok(found) => {
                match is_duplicate(alloc, labels, number, names.as_slice()) {
                    Err(_) => Err(AsmKind::Memory),
                    Ok(duplicate) => put_said(out, &found, at, duplicate, labels),
                }
            }
        },
    }
}

/// The bytes of the lines.
pub fn emit(alloc: Global, lines: &[&[u8]], labels: &Labels) -> Result<Vec<u8>, AsmFault>
    ensures ok { IfOk result (λ v. bytes_from labels.now 0x10000 1 (texts lines.now) ≡ Ok v.items) }
    ensures err { IfErr result
        (λ fault. fault.kind ≢ Memory → bytes_from labels.now 0x10000 1 (texts lines.now) ≡ Err fault) }
{
    let mut out = Vec::new(alloc);
    for (i, line) in lines.iter().enumerate() {
        match put_line(alloc, &mut out, line, i + 1, labels) {
            Ok(()) => {}
            Err(kind) => return Err(AsmFault { line: i + 1, kind }),
        }
    }
    Ok(out)
}
