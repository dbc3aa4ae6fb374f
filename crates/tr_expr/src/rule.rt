//! Tampering expressions: a set of calls, and what is done to them.

ghost use Rattle.std.specs.Prelude.{◌≡◌, ℕ, IfOk, IfErr, None, option_map, unwrap_or, ◌++◌};
ghost use Rattle.tr_expr.specs.Rules as spec;
ghost use Rattle.tr_expr.specs.Rules.{SaysRule, RefusesRule, whole_causes};
ghost use Rattle.tr_expr.specs.Saids.{IsSaidBy};
ghost use Rattle.tr_expr.specs.Whens.{view, every};
ghost use Rattle.tr_expr.specs.Faults.{found};
ghost use Rattle.tr_expr.specs.declared.rule.InjectParts.TheVariants.{Inject, Fault};

use crate::fault::ExprFault;
use crate::occurrences;
use crate::said::{Said, said_by};
use crate::set::{read_set, set_of};
use lx_abi::{Choice, Errno, Rule, When};
use std::alloc::Global;

/// `inject=`, or `fault=`, which knows the parts error and when alone.
#[derive(Clone, Copy, Debug, PartialEq, Eq)]
pub enum InjectParts {
    Inject,
    Fault,
}

impl InjectParts {
    /// The result where no part says one.
    pub(crate) fn usual_result(self) -> Option<i64>
        ensures { result ≡ spec.usual_result self }
    {
        match self {
            InjectParts::Inject => None,
            InjectParts::Fault => Some(-i64::from(Errno::ENOSYS.number)),
        }
    }
}

/// The text of the set, and what the parts say.
fn cut(form: InjectParts, text: &str) -> (&str, Said)
    ensures set { result.0.now ≡ spec.set_text text.now }
    ensures said { IsSaidBy (spec.parts form text.now) result.1 }
{
    match text.split_once(':') {
        Some((set, parts)) => (set, said_by(form, parts)),
        None => (text, Said::NOTHING),
    }
}

fn occurrences_of(said: &Said) -> When
    ensures { view result ≡ unwrap_or (option_map view said.now.when) every }
{
    match said.when {
        Some(when) => when,
        None => occurrences::every(),
    }
}

/// The fault that is found first, in the set or the parts.
fn refusal(form: InjectParts, set: Option<ExprFault>, said: &Said) -> Option<ExprFault>
    ensures { (xs ys : _) → set ≡ found None xs → said.now.fault ≡ found None ys
        → result ≡ found None (xs ++ (ys ++ whole_causes form said.now.error said.now.retval said.now.signal)) }
{
    match (said.refusal(form), set) {
        (Some(fault), set) => Some(fault.after(set)),
        (None, set) => set,
    }
}

fn parse_rule(alloc: Global, form: InjectParts, text: &str) -> Result<Rule, ExprFault>
    ensures meaning { IfOk result (SaysRule form text.now) }
    ensures refusal { IfErr result (RefusesRule form text.now) }
{
    let (set, said) = cut(form, text);
    let (negated, picked) = read_set(alloc, set)?;
    match refusal(form, picked.fault, &said) {
        Some(fault) => Err(fault),
        None => Ok(Rule {
            calls: set_of(negated, picked.every, picked.numbers),
            choice: Choice {
                result: said.result(form),
                signal: said.signal,
            },
            when: occurrences_of(&said),
        }),
    }
}

/// The rule that a text says, as after `inject=`.
pub fn parse_inject(alloc: Global, text: &str) -> Result<Rule, ExprFault>
    ensures meaning { IfOk result (SaysRule Inject text.now) }
    ensures refusal { IfErr result (RefusesRule Inject text.now) }
{
    parse_rule(alloc, InjectParts::Inject, text)
}

/// The rule that a text says, as after `fault=`. The calls fail with `ENOSYS` where it names no other error.
pub fn parse_fault(alloc: Global, text: &str) -> Result<Rule, ExprFault>
    ensures meaning { IfOk result (SaysRule Fault text.now) }
    ensures refusal { IfErr result (RefusesRule Fault text.now) }
{
    parse_rule(alloc, InjectParts::Fault, text)
}
