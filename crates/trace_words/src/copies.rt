//! Copies of what a plan has.

ghost use Rattle.std.specs.Prelude.{◌≡◌, IfOk};

use containers::Seq;
use lx_abi::{Rule, Script, Set, Word};
use std::alloc::{AllocError, Global};
use tr_core::Options;

pub fn copy_words(alloc: Global, words: &[Word]) -> Result<Vec<Word>, AllocError>
    ensures { IfOk result (λ copy. copy.items ≡ words.now) }
{
    let mut copy = Vec::new(alloc);
    for word in words {
        copy.push(*word)?;
    }
    Ok(copy)
}

fn copy_numbers(alloc: Global, numbers: &[u64]) -> Result<Seq<u64>, AllocError>
    ensures { IfOk result (λ copy. copy ≡ numbers.now) }
{
    let mut copy = Seq::new(alloc);
    for number in numbers {
        copy.push(*number)?;
    }
    Ok(copy)
}

fn copy_set(alloc: Global, set: &Set) -> Result<Set, AllocError>
    ensures { IfOk result (λ copy. copy ≡ set.now) }
{
    match set {
        Set::Only(numbers) => Ok(Set::Only(copy_numbers(alloc, numbers.as_slice())?)),
        Set::AllBut(numbers) => Ok(Set::AllBut(copy_numbers(alloc, numbers.as_slice())?)),
    }
}

fn copy_rule(alloc: Global, rule: &Rule) -> Result<Rule, AllocError>
    ensures { IfOk result (λ copy. copy ≡ rule.now) }
{
    let calls = copy_set(alloc, &rule.calls)?;
    Ok(Rule {
        calls,
        choice: rule.choice,
        when: rule.when,
    })
}

fn copy_rules(alloc: Global, rules: &[Rule]) -> Result<Vec<Rule>, AllocError>
    ensures { IfOk result (λ copy. copy.items ≡ rules.now) }
{
    let mut copy = Vec::new(alloc);
    for rule in rules {
        let once_more = copy_rule(alloc, rule)?;
        copy.push(once_more)?;
    }
    Ok(copy)
}

pub fn copy_script(alloc: Global, script: &Script) -> Result<Script, AllocError>
    ensures { IfOk result (λ copy. copy ≡ script.now) }
{
    Ok(Script::new(copy_rules(alloc, script.rules())?))
}

pub fn copy_options(alloc: Global, options: &Options) -> Result<Options, AllocError>
    ensures { IfOk result (λ copy. copy ≡ options.now) }
{
    let shown = copy_set(alloc, &options.shown)?;
    Ok(Options {
        follow: options.follow,
        shown,
        string_limit: options.string_limit,
        width: options.width,
    })
}
