//! One failure of a program.

ghost use Rattle.std.specs.Prelude.{◌≡◌, [], ◌∷◌, IfOk};
ghost use Rattle.sweep_rows.specs.Failures.{IsFor, FailsAlone};

use containers::Seq;
use lx_abi::{Choice, Errno, Rule, Script, Set, When};
use std::alloc::{AllocError, Global};

/// The nth occurrence of a call, counted from 1 in each tracee, fails with an error.
#[derive(Clone, Copy, Debug, PartialEq, Eq)]
pub struct Failure {
    pub call: u64,
    pub n: u64,
    pub error: Errno,
}

/// A rule for this failure and no other.
fn rule(calls: Seq<u64>, failure: Failure) -> Rule
    requires { calls ≡ failure.call ∷ [] }
    ensures { IsFor failure result }
{
    Rule {
        calls: Set::Only(calls),
        choice: Choice {
            result: Some(-i64::from(failure.error.number)),
            signal: None,
        },
        when: When {
            first: failure.n,
            last: Some(failure.n),
            step: 1,
        },
    }
}

/// The script by which this occurrence fails, and nothing else is done.
#[tactic(auto, using(crate::proofs::Alone::fails_alone))]
pub fn failing(alloc: Global, failure: Failure) -> Result<Script, AllocError>
    ensures { IfOk result (FailsAlone failure) }
{
    let mut calls = Seq::new(alloc);
    calls.push(failure.call)?;
    let mut rules = Vec::new(alloc);
    rules.push(rule(calls, failure))?;
    Ok(Script::new(rules))
}
