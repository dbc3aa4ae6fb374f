//! Lines: the labels that a line begins with, and the statement behind them.

ghost use Rattle.std.specs.Prelude.{◌≡◌, ◌≢◌, ◌≤◌, option_map, IfOk, IfErr, Ok, Err};
ghost use Rattle.rv_asm.specs.Lines.{label_at, line_of, said_of, statement_of, next_at};
ghost use Rattle.rv_syntax.specs.Statements.{said};
ghost use Rattle.rv_syntax.specs.Text.{texts};
ghost use Rattle.rv_asm.specs.declared.fault.AsmKind.TheVariants.{Memory};

use crate::code::placed_size;
use crate::fault::AsmKind;
use rv_syntax::{
    Meaning, Statement, directive, done, find_meaning, instruction, mark, take_name, word,
};
use std::alloc::{AllocError, Global};

#[tactic(auto, unfolding(crate::specs::Lines::label_at))]
fn take_label(text: &[u8]) -> Option<(&[u8], &[u8])>
    ensures { option_map (λ x. (x.0.now, x.1.now)) result ≡ label_at text.now }
{
    let (name, rest) = take_name(text)?;
    let rest = mark(rest, b':')?;
    Some((name, rest))
}

/// The labels of a line, and what follows them.
#[tactic(auto, unfolding(crate::specs::Lines::line_of))]
pub fn split_labels(alloc: Global, line: &[u8]) -> Result<(Vec<&[u8]>, &[u8]), AllocError>
    ensures { IfOk result (λ r. (texts r.0.items, r.1.now) ≡ line_of line.now) }
{
    let mut labels = Vec::new(alloc);
    let mut body = line;
    for _ in 0..line.len() {
        match take_label(body) {
            None => return Ok((labels, body)),
            Some((name, rest)) => {
                labels.push(name)?;
                body = rest;
            }
        }
    }
    Ok((labels, body))
}

#[tactic(auto, unfolding(crate::specs::Lines::said_of))]
fn operands(
    alloc: Global,
    meaning: Meaning,
    text: &[u8],
) -> Result<Option<Statement<'_>>, AllocError>
    ensures { IfOk result (λ s. option_map said s ≡ said_of meaning text.now) }
{
    match meaning {
        Meaning::Instruction(form) => Ok(instruction(form, text)),
        Meaning::Directive(kind) => directive(alloc, kind, text),
    }
}

/// What a body says, if anything.
#[tactic(auto, unfolding(crate::specs::Lines::statement_of))]
pub fn statement(alloc: Global, body: &[u8]) -> Result<Option<Statement<'_>>, AsmKind>
    ensures ok { IfOk result (λ s. statement_of body.now ≡ Ok (option_map said s)) }
    ensures err { IfErr result (λ kind. kind ≢ Memory → statement_of body.now ≡ Err kind) }
{
    if done(body) {
        return Ok(None);
    }
    let (mnemonic, rest) = word(body);
    let Some(meaning) = find_meaning(mnemonic) else {
        return Err(AsmKind::Mnemonic);
    };
    match operands(alloc, meaning, rest) {
        Ok(Some(statement)) => Ok(Some(statement)),
        Ok(None) => Err(AsmKind::Operand),
        Err(_) => Err(AsmKind::Memory),
    }
}

/// Where the line behind a body begins.
#[tactic(auto, unfolding(crate::specs::Lines::next_at))]
pub fn next_address(alloc: Global, body: &[u8], at: u64) -> Result<u64, AsmKind>
    requires { at ≤ 0x20000 }
    ensures ok { IfOk result (λ a. a ≡ next_at at body.now) }
    ensures small { IfOk result (λ a. a ≤ 0x20000) }
    ensures err { IfErr result (λ kind. kind ≡ Memory) }
{
    match statement(alloc, body) {
        Ok(Some(statement)) => Ok(at + placed_size(alloc, &statement, at)),
        Err(AsmKind::Memory) => Err(AsmKind::Memory),
        Ok(None) | Err(_) => Ok(at),
    }
}
