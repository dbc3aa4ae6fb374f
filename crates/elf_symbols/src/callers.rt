//! The function that made a call.

ghost use Rattle.std.specs.Prelude.{◌≡◌};
ghost use Rattle.elf_symbols.specs.Addresses.{function_at as function_in};
ghost use Rattle.elf_symbols.specs.Callers as spec;

use crate::addresses::function_at;
use crate::symbols::{Function, name_of};

/// A name without an underscore before it.
fn bare(name: &[u8]) -> &[u8]
    ensures { result.now ≡ spec.bare name.now }
{
    match name.split_first() {
        Some((byte, rest)) => if *byte == b'_' { rest } else { name },
        None => name,
    }
}

/// A C library's own function for the call of this name, or for any call.
#[tactic(auto, unfolding(crate::specs::Callers::is_wrapper))]
fn is_wrapper(call: &[u8], name: &[u8]) -> bool
    ensures { result ≡ spec.is_wrapper call.now name.now }
{
    bare(bare(name)) == call || name == b"syscall".as_slice() || name == b"linux_call".as_slice()
}

/// The one in which an address lies, or else this one.
fn either(functions: &[Function], address: u64, function: Function) -> Option<Function>
    ensures { result ≡ spec.either (function_in functions.now address) function }
{
    match function_at(functions, address) {
        Some(other) => Some(other),
        None => Some(function),
    }
}

/// The function that made the call of this name, of a program with these functions, where the call's instruction stands
/// at `pc`, and ra is this. A C library's own function for the call is passed over, where ra tells who called that.
pub fn caller_of(
    bytes: &[u8],
    functions: &[Function],
    call: &[u8],
    pc: u64,
    ra: u64,
) -> Option<Function>
    ensures { result ≡ spec.caller_of bytes.now functions.now call.now pc ra }
{
    let Some(function) = function_at(functions, pc) else {
        return None;
    };
    if is_wrapper(call, name_of(bytes, function)) {
        either(functions, ra.saturating_sub(1), function)
    } else {
        Some(function)
    }
}
