//! One item of a set.

ghost use Rattle.std.specs.Prelude.{◌≡◌, ◌==◌, ◌||◌, ◌&&◌, ℕ, None, IfOk, OnOk};
ghost use Rattle.lx_abi.specs.Calls.{calls, call_number, class_named};
ghost use Rattle.lx_abi.specs.Scripts.{among};
ghost use Rattle.regex.specs.Strings.{regex_pattern};
ghost use Rattle.tr_expr.specs.Items as spec;
ghost use Rattle.tr_expr.specs.Items.{classed, is_found, named, perhaps_named, some_row};
ghost use Rattle.tr_expr.specs.Picks.{IsItem, IsSearched, Shows, causes_of};
ghost use Rattle.tr_expr.specs.Faults.{found};

use crate::fault::ExprFault;
use crate::text;
use lx_abi::calls;
use lx_abi::calls::Class;
use regex::Regex;
use std::alloc::{AllocError, Global};

/// What an item picks, or why it is refused.
#[derive(Drop)]
pub(crate) enum Picks {
    Every,
    Nothing,
    Call(u64),
    Calls(Vec<u64>),
    Refused(ExprFault),
}

impl Picks {
    pub(crate) fn fault(&self) -> Option<ExprFault>
        ensures { result ≡ found None (causes_of self.now) }
    {
        match self {
            Picks::Refused(fault) => Some(*fault),
            _ => None,
        }
    }
}

/// The call of this name.
fn call_named(name: &str) -> Picks
    ensures { Shows result (named (call_number name.now)) }
{
    match calls::call_number(name) {
        Some(number) => Picks::Call(number),
        None => Picks::Refused(ExprFault::UnknownCall),
    }
}

/// The call of this name, if there is one.
fn call_perhaps_named(name: &str) -> Picks
    ensures { Shows result (perhaps_named (call_number name.now)) }
{
    match calls::call_number(name) {
        Some(number) => Picks::Call(number),
        None => Picks::Nothing,
    }
}

fn is_among(class: Class, classes: &[Class]) -> bool
    ensures { result ≡ spec.is_among class classes.now }
{
    classes.contains(&class)
}

/// Takes a number that is to be kept.
fn keep(numbers: &mut Vec<u64>, number: u64, is_kept: bool) -> Result<(), AllocError>
    ensures { OnOk result ((n : ℕ) → among numbers.new.items n
        ≡ (among numbers.old.items n || ((number == n) && is_kept))) }
{
    if is_kept {
        numbers.push(number)?;
    }
    Ok(())
}

fn calls_in(alloc: Global, class: Class) -> Result<Vec<u64>, AllocError>
    ensures { IfOk result (λ numbers. (n : ℕ) → among numbers.items n
        ≡ some_row (λ row. spec.is_among class row.2) calls n) }
{
    let mut numbers = Vec::new(alloc);
    for row in calls::rows() {
        keep(&mut numbers, row.0, is_among(class, row.2))?;
    }
    Ok(numbers)
}

fn read_class(alloc: Global, name: &str) -> Result<Picks, AllocError>
    ensures { IfOk result (λ p. Shows p (classed (class_named name.now))) }
{
    match Class::from_name(name) {
        Some(class) => Ok(Picks::Calls(calls_in(alloc, class)?)),
        None => Ok(Picks::Refused(ExprFault::UnknownClass)),
    }
}

/// The calls in whose names the pattern is found.
fn calls_found(alloc: Global, pattern: &Regex) -> Result<Vec<u64>, AllocError>
    ensures { IfOk result (λ numbers. (n : ℕ) → among numbers.items n
        ≡ some_row (λ row. is_found (regex_pattern pattern.now) row.1) calls n) }
{
    let mut matcher = pattern.matcher(alloc)?;
    let mut numbers = Vec::new(alloc);
    for row in calls::rows() {
        keep(&mut numbers, row.0, matcher.is_match(row.1))?;
    }
    Ok(numbers)
}

fn is_out_of_memory(error: &regex::Error) -> bool
    ensures { result ≡ spec.is_out_of_memory error.now }
{
    matches!(error, regex::Error::OutOfMemory)
}

/// The pattern is compiled once, and searched for in each name.
fn read_pattern(alloc: Global, text: &str) -> Result<Picks, AllocError>
    ensures { IfOk result (IsSearched text.now) }
{
    match Regex::new(alloc, text) {
        Ok(pattern) => Ok(Picks::Calls(calls_found(alloc, &pattern)?)),
        Err(error) if is_out_of_memory(&error) => Err(AllocError),
        Err(_) => Ok(Picks::Refused(ExprFault::BadPattern)),
    }
}

/// Reads an item.
pub(crate) fn read_item(alloc: Global, item: &str) -> Result<Picks, AllocError>
    ensures { IfOk result (IsItem item.now) }
{
    if item == "all" {
        return Ok(Picks::Every);
    }
    if item == "none" {
        return Ok(Picks::Nothing);
    }
    if let Some(name) = text::after(item, '?') {
        return Ok(call_perhaps_named(name));
    }
    if let Some(name) = text::after(item, '%') {
        return read_class(alloc, name);
    }
    if let Some(pattern) = text::after(item, '/') {
        return read_pattern(alloc, pattern);
    }
    Ok(call_named(item))
}
