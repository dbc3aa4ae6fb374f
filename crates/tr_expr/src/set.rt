//! Sets of calls.

ghost use Rattle.std.specs.Prelude.{◌≡◌, ℕ, OnOk, IfOk, IfErr, ◌||◌, is_some};
ghost use Rattle.lx_abi.specs.Scripts.{includes};
ghost use Rattle.tr_expr.specs.Sets as spec;
ghost use Rattle.tr_expr.specs.Sets.{SaysSet, RefusesSet, pieces};
ghost use Rattle.tr_expr.specs.Picks.{IsPicked, causes_of, has, picked};
ghost use Rattle.tr_expr.specs.Texts.{after};
ghost use Rattle.tr_expr.specs.Faults.{found};

use crate::fault::ExprFault;
use crate::item::{Picks, read_item};
use crate::text;
use containers::Seq;
use lx_abi::Set;
use std::alloc::{AllocError, Global};

/// What the items so far pick, and the fault that is found first.
#[derive(Drop)]
pub(crate) struct Picked {
    pub(crate) fault: Option<ExprFault>,
    pub(crate) every: bool,
    pub(crate) numbers: Vec<u64>,
}

impl Picked {
    fn take(&mut self, picks: Picks) -> Result<(), AllocError>
        ensures found { OnOk result (self.new.fault ≡ found self.old.fault (causes_of picks)) }
        ensures picks { OnOk result ((n : ℕ) → picked self.new.every self.new.numbers.items n
            ≡ (picked self.old.every self.old.numbers.items n || has picks n)) }
    {
        match picks {
            Picks::Every => self.every = true,
            Picks::Nothing => {}
            Picks::Call(number) => self.numbers.push(number)?,
            Picks::Calls(mut numbers) => self.numbers.append(&mut numbers)?,
            Picks::Refused(fault) => self.fault = Some(fault.after(self.fault)),
        }
        Ok(())
    }
}

/// The calls that the items pick, or all but them.
pub(crate) fn set_of(negated: bool, every: bool, mut numbers: Vec<u64>) -> Set
    ensures { (n : ℕ) → includes result n ≡ spec.turned negated (picked every numbers.items n) }
{
    if every {
        numbers.clear();
    }
    if negated == every {
        Set::Only(Seq::from_vec(numbers))
    } else {
        Set::AllBut(Seq::from_vec(numbers))
    }
}

fn picked_of(alloc: Global, list: &str) -> Result<Picked, AllocError>
    ensures { IfOk result (λ p. IsPicked (pieces 44 list.now) p.fault p.every p.numbers.items) }
{
    let mut picked = Picked {
        fault: None,
        every: false,
        numbers: Vec::new(alloc),
    };
    for item in list.split(',') {
        let picks = read_item(alloc, item)?;
        picked.take(picks)?;
    }
    Ok(picked)
}

/// Whether the text is negated, and the items without that mark.
pub(crate) fn negation(text: &str) -> (bool, &str)
    ensures negated { result.0 ≡ is_some (after 33 text.now) }
    ensures list { result.1.now ≡ spec.without_mark text.now (after 33 text.now) }
{
    match text::after(text, '!') {
        Some(list) => (true, list),
        None => (false, text),
    }
}

/// Whether the text is negated, and what its items pick.
pub(crate) fn read_set(alloc: Global, text: &str) -> Result<(bool, Picked), AllocError>
    ensures negated { IfOk result (λ p. p.0 ≡ is_some (after 33 text.now)) }
    ensures items { IfOk result (λ p. IsPicked (spec.items text.now) p.1.fault p.1.every p.1.numbers.items) }
{
    let (negated, list) = negation(text);
    let picked = picked_of(alloc, list)?;
    Ok((negated, picked))
}

/// The set of calls that a text names, as after `trace=`.
pub fn parse_trace(alloc: Global, text: &str) -> Result<Set, ExprFault>
    ensures meaning { IfOk result (SaysSet text.now) }
    ensures refusal { IfErr result (RefusesSet text.now) }
{
    let (negated, picked) = read_set(alloc, text)?;
    match picked.fault {
        Some(fault) => Err(fault),
        None => Ok(set_of(negated, picked.every, picked.numbers)),
    }
}
