//! The arguments of one half of a call: of its entry, and of what follows once it has a result.

ghost use Rattle.std.specs.Prelude.{◌≡◌, ◌≤◌, ◌<◌, ◌+◌, ◌&&◌, ◌^◌, get_or, IfOk, length, string_bytes, option_map};
ghost use Rattle.tr_args.specs.Arguments as spec;
ghost use Rattle.lx_abi.specs.Calls.{call_format};

use crate::context::{ArgumentPlace, Context};
use lx_abi::calls::call_format;
use lx_abi::{Argument, Format};

fn at(arguments: &[u64; 6], i: usize) -> u64
    ensures { result ≡ get_or arguments.now i 0 }
{
    arguments.get(i).copied().unwrap_or(0)
}

/// The place of an argument by its number.
pub(crate) fn place(context: &Context, i: usize) -> ArgumentPlace
    requires { i < 2 ^ 32 }
    ensures { result ≡ spec.place context.now i }
{
    ArgumentPlace {
        before: at(&context.arguments, i.saturating_sub(1)),
        value: at(&context.arguments, i),
        next: at(&context.arguments, i + 1),
        most: context.most,
        sp: context.sp,
        result: context.result,
    }
}

const SIX_WORDS: &[Argument] = &[Argument::Hex; 6];

/// The arguments of the entry text, and of the rest.
pub(crate) fn format_of(number: u64) -> (&'static [Argument], &'static [Argument])
    ensures value { (result.0.now, result.1.now) ≡ spec.format_of number }
    ensures few { (length result.0.now ≤ 6) × (length result.1.now ≤ 6) }
{
    match call_format(number) {
        Some(format) => (format.entry, format.rest),
        None => (SIX_WORDS, &[]),
    }
}

/// The entry has arguments, and more follow.
pub(crate) fn are_both(entry: &[Argument], rest: &[Argument]) -> bool
    ensures { result ≡ (spec.is_some_list entry.now && spec.is_some_list rest.now) }
{
    matches!((entry, rest), ([_, ..], [_, ..]))
}
