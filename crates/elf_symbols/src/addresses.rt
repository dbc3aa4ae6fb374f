//! The function in which an address lies.

ghost use Rattle.std.specs.Prelude.{◌≡◌};
ghost use Rattle.elf_symbols.specs.Addresses as spec;

use crate::symbols::Function;

fn lies_in(address: u64, function: Function) -> bool
    ensures { result ≡ spec.lies_in address function }
{
    function.start <= address && address - function.start < function.size
}

fn is_nearer(function: Function, other: Function) -> bool
    ensures { result ≡ spec.is_nearer function other }
{
    other.start < function.start || function.start == other.start && function.length < other.length
}

fn nearest(so_far: Option<Function>, function: Function) -> Option<Function>
    ensures { result ≡ spec.nearest so_far function }
{
    match so_far {
        Some(other) => Some(if is_nearer(function, other) {
            function
        } else {
            other
        }),
        None => Some(function),
    }
}

/// What is found, once this function is looked at too.
fn met(address: u64, so_far: Option<Function>, function: Function) -> Option<Function>
    ensures { result ≡ spec.met address so_far function }
{
    if lies_in(address, function) {
        nearest(so_far, function)
    } else {
        so_far
    }
}

/// The function in which an address lies. Of several it is the one that begins last, and of those that begin there the
/// one with the shortest name.
pub fn function_at(functions: &[Function], address: u64) -> Option<Function>
    ensures { result ≡ spec.function_at functions.now address }
{
    let mut so_far = None;
    let mut left = functions;
    while let Some((function, rest)) = left.split_first() {
        so_far = met(address, so_far, *function);
        left = rest;
    }
    so_far
}
