//! Which occurrences of which calls are replaced or joined.

ghost use Rattle.std.specs.Prelude.{◌≡◌, []};

use crate::signal::Signal;
use crate::when::When;
use containers::Seq;
use std::alloc::{AllocError, Global};
use std::marker::Model;

/// Calls by number. A number needs no name.
#[derive(Drop)]
pub enum Set {
    Only(Seq<u64>),
    AllBut(Seq<u64>),
}

impl Set {
    ghost use Rattle.lx_abi.specs.Scripts.{includes};

    pub fn contains(&self, call: u64) -> bool
        ensures { result ≡ includes self.now call }
    {
        match self {
            Set::Only(numbers) => numbers.as_slice().contains(&call),
            Set::AllBut(numbers) => !numbers.as_slice().contains(&call),
        }
    }
}

/// What is done to one occurrence of a call: a result in its place, and a signal beside it.
#[derive(Clone, Copy, Debug, PartialEq, Eq)]
pub struct Choice {
    pub result: Option<i64>,
    pub signal: Option<Signal>,
}

impl Choice {
    pub const NOTHING: Choice = Choice {
        result: None,
        signal: None,
    };
}

/// What is done to which occurrences of which calls.
#[derive(Drop)]
pub struct Rule {
    pub calls: Set,
    pub choice: Choice,
    pub when: When,
}

/// Rules, of which the last that names a call decides, whether its occurrences cover it or not.
#[derive(Drop)]
pub struct Script {
    rules: Vec<Rule>,
}

impl Model for Script {
    ghost use Rattle.std.specs.Prelude.{List};
    ghost use Rattle.lx_abi.specs.declared.script.Rule.{Rule};

    ghost Value = { List Rule };

    ghost view = { λ s. s.rules.items };
}

impl Script {
    ghost use Rattle.lx_abi.specs.Scripts.{choice_of, last_naming};
    ghost use Rattle.std.specs.Option.{option_copied};

    pub fn new(rules: Vec<Rule>) -> Self
        ensures { result ≡ rules.items }
    {
        Script { rules }
    }

    /// A script that does nothing.
    pub fn empty(alloc: Global) -> Self
        ensures { result ≡ [] }
    {
        Script {
            rules: Vec::new(alloc),
        }
    }

    /// The rules, as `new` takes them: of those that name a call, the last decides.
    pub fn rules(&self) -> &[Rule]
        ensures { result.now ≡ self.now }
    {
        self.rules.as_slice()
    }

    /// The last rule that names the call.
    fn deciding(&self, call: u64) -> Option<&Rule>
        ensures { option_copied result ≡ last_naming self.now call }
    {
        self.rules
            .iter()
            .rev()
            .find(|rule| rule.calls.contains(call))
    }

    /// What is done to the nth occurrence of a call, counted from 1.
    #[tactic(auto, unfolding(crate::specs::Scripts::choice_of))]
    pub fn choose(&self, call: u64, n: u64) -> Choice
        ensures { result ≡ choice_of self.now call n }
    {
        match self.deciding(call) {
            Some(rule) if rule.when.covers(n) => rule.choice,
            _ => Choice::NOTHING,
        }
    }
}

impl Clone for Set {
    ghost is_clone = { λ a b. b ≡ a };

    fn clone(&self) -> Result<Self, AllocError> {
        match self {
            Set::Only(numbers) => Ok(Set::Only(numbers.clone()?)),
            Set::AllBut(numbers) => Ok(Set::AllBut(numbers.clone()?)),
        }
    }
}

impl Clone for Rule {
    ghost is_clone = { λ a b. b ≡ a };

    fn clone(&self) -> Result<Self, AllocError> {
        Ok(Rule {
            calls: self.calls.clone()?,
            choice: self.choice,
            when: self.when,
        })
    }
}

impl Clone for Script {
    ghost is_clone = { λ a b. b ≡ a };

    fn clone(&self) -> Result<Self, AllocError> {
        Ok(Script {
            rules: self.rules.clone()?,
        })
    }
}
