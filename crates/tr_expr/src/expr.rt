//! The word after `-e`.

ghost use Rattle.std.specs.Prelude.{◌≡◌, IfOk, IfErr};
ghost use Rattle.tr_expr.specs.Exprs.{Says, Refuses, word_of};

use crate::fault::ExprFault;
use crate::rule::{parse_fault, parse_inject};
use crate::set::parse_trace;
use lx_abi::{Rule, Set};
use std::alloc::Global;

/// Which calls are traced, or what is done to some.
#[derive(Drop)]
pub enum Expr {
    Trace(Set),
    Inject(Rule),
}

/// Reads `trace=SET` or a bare `SET`, `inject=SET:PARTS`, or `fault=SET[:PARTS]`.
pub fn parse_expr(alloc: Global, text: &str) -> Result<Expr, ExprFault>
    ensures meaning { IfOk result (Says (word_of text.now)) }
    ensures refusal { IfErr result (Refuses (word_of text.now)) }
{
    if let Some(set) = text.strip_prefix("trace=") {
        return parse_trace(alloc, set).map(Expr::Trace);
    }
    if let Some(rule) = text.strip_prefix("inject=") {
        return parse_inject(alloc, rule).map(Expr::Inject);
    }
    if let Some(rule) = text.strip_prefix("fault=") {
        return parse_fault(alloc, rule).map(Expr::Inject);
    }
    parse_trace(alloc, text).map(Expr::Trace)
}
