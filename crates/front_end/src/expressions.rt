//! What the words that name calls ask for: those after `-e`, `--trace`, `--inject` and `--fault`.

ghost use Rattle.std.specs.Prelude.{◌≡◌, ◌∷◌, [], ◌++◌, ◌⊎◌, IfErr, IfOk, OnOk, map, string_bytes};
ghost use Rattle.std.specs.List.{zip};
ghost use Rattle.front_end.specs.Expressions as spec;
ghost use Rattle.front_end.specs.Expressions.{AreExpressions, AskFor, IsRefusedFirst, IsSortOf, SayTogether};
ghost use Rattle.front_end.specs.Expressions.{IsRefusal, RefusesExpressions, RefusesText, SaysText, placed_by, placed_in};
ghost use Rattle.front_end.specs.Expressions.{placed_text};
ghost use Rattle.tr_expr.specs.declared.fault.ExprFault.TheVariants.{Memory};

use crate::explanation::explain_expression;
use crate::fault::Fault;
use crate::texts::joined;
use clap::ArgMatches;
use containers::Seq;
use lx_abi::{Rule, Script, Set};
use std::alloc::{AllocError, Global};
use tr_expr::{Expr, ExprFault, parse_expr};

/// The calls that are traced, by the last expression that says so, else all; and the script.
#[derive(Drop)]
pub struct Expressions {
    pub shown: Set,
    pub script: Script,
}

/// The first expression that is refused.
#[derive(Clone, Copy, Debug)]
pub struct RefusedExpression<'a> {
    pub text: &'a str,
    pub fault: ExprFault,
}

/// An expression, and its place among the words.
#[derive(Drop)]
struct Placed {
    place: usize,
    text: String,
}

/// An expression as it is read, from what its option stands for and its value: `-e t=` is short for `-e trace=`.
fn text_of(alloc: Global, start: &str, value: &str) -> Result<String, AllocError>
    ensures { IfOk result (λ text. string_bytes text ≡ spec.text_of start.now value.now) }
{
    if !start.is_empty() {
        return joined(alloc, start, value);
    }
    match value.strip_prefix("t=") {
        Some(set) => joined(alloc, "trace=", set),
        None => String::from_str(alloc, value),
    }
}

/// Adds one.
fn add_one(
    placed: &mut Vec<Placed>,
    alloc: Global,
    start: &str,
    value: &str,
    place: usize,
) -> Result<(), AllocError>
    ensures { OnOk result (map placed_text placed.new.items
        ≡ map placed_text placed.old.items ++ spec.spelled start.now (value.now, place) ∷ []) }
{
    let text = text_of(alloc, start, value)?;
    placed.push(Placed { place, text })?;
    Ok(())
}

/// Adds those of values at places.
fn add_all(
    placed: &mut Vec<Placed>,
    alloc: Global,
    start: &str,
    values: &[&str],
    places: &[usize],
) -> Result<(), AllocError>
    ensures { OnOk result (map placed_text placed.new.items ≡ map placed_text placed.old.items
        ++ map (spec.spelled start.now) (zip (map (λ value. value.now) values.now) places.now)) }
{
    for one in values.iter().zip(places) {
        let (value, place) = one;
        add_one(placed, alloc, start, value, *place)?;
    }
    Ok(())
}

/// Adds an option's expressions: its name in the parser, and what it stands for.
fn add_placed(
    placed: &mut Vec<Placed>,
    alloc: Global,
    matches: &ArgMatches,
    option: &str,
    start: &str,
) -> Result<(), AllocError>
    ensures { OnOk result (map placed_text placed.new.items
        ≡ map placed_text placed.old.items ++ placed_by matches.now option.now start.now) }
{
    let values = matches.get_strs(option).unwrap_or(&[]);
    let places = matches.indices_of(option).unwrap_or(&[]);
    add_all(placed, alloc, start, values, places)?;
    Ok(())
}

/// The expressions, option by option.
fn placed_in(alloc: Global, matches: &ArgMatches) -> Result<Vec<Placed>, AllocError>
    ensures { IfOk result (λ placed. map placed_text placed.items ≡ placed_in matches.now) }
{
    let mut placed = Vec::new(alloc);
    add_placed(&mut placed, alloc, matches, "expression", "")?;
    add_placed(&mut placed, alloc, matches, "trace", "trace=")?;
    add_placed(&mut placed, alloc, matches, "inject", "inject=")?;
    add_placed(&mut placed, alloc, matches, "fault", "fault=")?;
    Ok(placed)
}

/// Puts them in the order of the words.
fn sort(placed: &mut Vec<Placed>) -> Result<(), AllocError>
    ensures { OnOk result (IsSortOf placed.old.items placed.new.items) }
{
    placed.sort_by_key(|one| one.place)?;
    Ok(())
}

fn add_text(texts: &mut Vec<String>, one: Placed) -> Result<(), AllocError>
    ensures { OnOk result (map string_bytes texts.new.items
        ≡ map string_bytes texts.old.items ++ string_bytes one.text ∷ []) }
{
    texts.push(one.text)?;
    Ok(())
}

fn texts_of(alloc: Global, placed: Vec<Placed>) -> Result<Vec<String>, AllocError>
    ensures { IfOk result (λ texts. map string_bytes texts.items ≡ map (λ one. string_bytes one.text) placed.items) }
{
    let mut texts = Vec::new(alloc);
    for one in placed {
        add_text(&mut texts, one)?;
    }
    Ok(texts)
}

/// The expressions, in the order of the words.
pub fn expression_words(alloc: Global, matches: &ArgMatches) -> Result<Vec<String>, AllocError>
    ensures { IfOk result (λ texts. AreExpressions matches.now (map string_bytes texts.items)) }
{
    let mut placed = placed_in(alloc, matches)?;
    sort(&mut placed)?;
    texts_of(alloc, placed)
}

/// What a list of expressions asks for so far.
#[derive(Drop)]
struct Asked {
    shown: Set,
    rules: Vec<Rule>,
}

/// Adds what one more asks for.
fn add_expression(asked: &mut Asked, expression: Expr) -> Result<(), AllocError>
    ensures { OnOk result ((asked.new.shown ≡ spec.shown_after asked.old.shown expression)
        × (asked.new.rules.items ≡ asked.old.rules.items ++ spec.rule_of expression)) }
{
    match expression {
        Expr::Trace(set) => {
            asked.shown = set;
            Ok(())
        }
        Expr::Inject(rule) => {
            asked.rules.push(rule)?;
            Ok(())
        }
    }
}

/// Parses the expressions in their order.
fn parse_expressions<'a>(
    alloc: Global,
    words: &'a [String],
) -> Result<Expressions, RefusedExpression<'a>>
    ensures said { IfOk result (λ asked. SayTogether (map string_bytes words.entry.now) asked.shown asked.script) }
    ensures refused { IfErr result (λ refused. (refused.fault ≡ Memory)
        ⊎ IsRefusedFirst (map string_bytes words.entry.now) refused.text.now refused.fault) }
{
    let mut asked = Asked {
        shown: Set::AllBut(Seq::new(alloc)),
        rules: Vec::new(alloc),
    };
    for word in words {
        let text = word.as_str();
        let expression = match parse_expr(alloc, text) {
            Ok(expression) => expression,
            Err(fault) => return Err(RefusedExpression { text, fault }),
        };
        let Ok(()) = add_expression(&mut asked, expression) else {
            return Err(RefusedExpression {
                text,
                fault: ExprFault::Memory,
            });
        };
    }
    let Asked { shown, rules } = asked;
    Ok(Expressions {
        shown,
        script: Script::new(rules),
    })
}

/// `typed`: the words that stand for it on the command line.
fn refusal(alloc: Global, refused: RefusedExpression<'_>, typed: &str) -> Fault
    ensures { IsRefusal refused.entry.fault result }
{
    if refused.fault == ExprFault::Memory {
        return Fault::Memory;
    }
    match explain_expression(alloc, refused, typed) {
        Ok(reason) => Fault::Expression {
            fault: refused.fault,
            reason,
        },
        Err(_) => Fault::Memory,
    }
}

/// One expression. A refusal names the words that were typed for it.
pub fn read_expression(alloc: Global, text: &str, typed: &str) -> Result<Expr, Fault>
    ensures said { IfOk result (SaysText text.now) }
    ensures refused { IfErr result (RefusesText text.now) }
{
    match parse_expr(alloc, text) {
        Ok(expression) => Ok(expression),
        Err(fault) => Err(refusal(alloc, RefusedExpression { text, fault }, typed)),
    }
}

/// What the words that name calls ask for.
pub fn read_expressions(alloc: Global, matches: &ArgMatches) -> Result<Expressions, Fault>
    ensures asked { IfOk result (AskFor matches.now) }
    ensures refused { IfErr result (RefusesExpressions matches.now) }
{
    let Ok(words) = expression_words(alloc, matches) else {
        return Err(Fault::Memory);
    };
    match parse_expressions(alloc, words.as_slice()) {
        Ok(expressions) => Ok(expressions),
        Err(refused) => Err(refusal(alloc, refused, refused.text)),
    }
}
