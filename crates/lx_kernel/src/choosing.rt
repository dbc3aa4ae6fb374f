//! A script by which one thing is done to every call.

ghost use Rattle.std.specs.Prelude.{◌≡◌, [], IfOk};
ghost use Rattle.lx_abi.specs.Scripts.{choice_of};
ghost use Rattle.lx_kernel.specs.Choices.{IsEvery, always};

use containers::Seq;
use lx_abi::{Choice, Rule, Script, Set, When};
use std::alloc::{AllocError, Global};

/// The rule that names each call, and covers each occurrence.
fn rule(calls: Seq<u64>, choice: Choice) -> Rule
    requires { calls ≡ [] }
    ensures { IsEvery choice result }
{
    Rule {
        calls: Set::AllBut(calls),
        choice,
        when: When {
            first: 0,
            last: None,
            step: 1,
        },
    }
}

/// The script that does this to each call.
pub fn always(alloc: Global, choice: Choice) -> Result<Script, AllocError>
    ensures { IfOk result (λ script. choice_of script ≡ always choice) }
{
    let mut rules = Vec::new(alloc);
    rules.push(rule(Seq::new(alloc), choice))?;
    Ok(Script::new(rules))
}
