//! An argument of a call, by its kind.

ghost use Rattle.std.specs.Prelude.{◌≡◌, ◌≤◌, false};
ghost use Rattle.tr_args.specs.Kinds as spec;
ghost use Rattle.tr_values.specs.Sheets.{Leaves};
ghost use Rattle.tr_args.specs.Progress.{Takes, Begins, is_list};

use crate::buffers::buffer;
use crate::context::ArgumentPlace;
use crate::environments::environment;
use crate::lists::{Listing, comma, open};
use crate::paths::path;
use lx_abi::Argument;
use lx_abi::flags::{O_CREAT, has};
use tr_values::actions::action;
use tr_values::files::stat;
use tr_values::wait_words::wait_status;
use tr_values::{Needed, Sheet, children, descriptors, flags, numbers, signals};

/// The result is an error: -4095 to -1.
fn has_failed(outcome: Option<u64>) -> bool
    ensures { result ≡ spec.has_failed outcome }
{
    match outcome {
        None => false,
        Some(word) => word >= u64::MAX - 4094,
    }
}

/// The call writes into memory there.
fn is_result(argument: Argument) -> bool
    ensures { result ≡ spec.is_result argument }
{
    match argument {
        Argument::Path
        | Argument::Bytes
        | Argument::Action
        | Argument::SignalSet
        | Argument::Stat
        | Argument::DescriptorPair
        | Argument::WaitStatus => true,
        _ => false,
    }
}

/// An argument whose call didn't fail.
#[tactic(auto, unfolding(crate::specs::Kinds::shown))]
fn shown(sheet: &mut Sheet<'_>, argument: Argument, place: ArgumentPlace) -> Result<(), Needed>
    requires most { place.most ≤ 4096 }
    requires kind { is_list argument ≡ false }
    ensures { Leaves result sheet.new (spec.shown argument place sheet.old) }
{
    match argument {
        Argument::Int => numbers::int(sheet, place.value),
        Argument::Long => numbers::long(sheet, place.value),
        Argument::Unsigned => numbers::unsigned(sheet, place.value),
        Argument::Pointer => numbers::pointer(sheet, place.value),
        Argument::Hex => numbers::hex(sheet, place.value),
        Argument::Octal | Argument::CreationMode => numbers::mode(sheet, place.value),
        Argument::Path => path(sheet, place.value),
        Argument::Bytes => {
            let count = place.result.unwrap_or(place.next);
            buffer(sheet, place.most, place.value, count)
        }
        Argument::Directory => descriptors::directory(sheet, place.value),
        Argument::SignalNumber => signals::signal_number(sheet, place.value),
        Argument::OpenFlags => flags::open_flags(sheet, place.value),
        Argument::CloseOnExec => flags::descriptor_flags(sheet, place.value),
        Argument::StatFlags => flags::stat_flags(sheet, place.value),
        Argument::Protection => flags::protection(sheet, place.value),
        Argument::MapFlags => flags::map_flags(sheet, place.value),
        Argument::WaitOptions => flags::wait_options(sheet, place.value),
        Argument::UnlinkFlags => flags::unlink_flags(sheet, place.value),
        Argument::Whence => flags::whence(sheet, place.value),
        Argument::MaskChange => flags::mask_change(sheet, place.value),
        Argument::Strings => unreachable!(),
        Argument::Environment => environment(sheet, place.value),
        Argument::Action => action(sheet, place.value),
        Argument::SignalSet => signals::signal_set(sheet, place.value),
        Argument::Stat => stat(sheet, place.value),
        Argument::DescriptorPair => descriptors::pair(sheet, place.value),
        Argument::WaitStatus => wait_status(sheet, place.value, place.result),
        Argument::FrameMask => signals::frame_mask(sheet, place.sp),
        Argument::ChildStack => children::child_stack(sheet, place.next),
        Argument::CloneFlags => children::clone_flags(sheet, place.before),
    }
}

#[tactic(auto, unfolding(crate::specs::Kinds::argument))]
fn argument(sheet: &mut Sheet<'_>, argument: Argument, place: ArgumentPlace) -> Result<(), Needed>
    requires most { place.most ≤ 4096 }
    requires kind { is_list argument ≡ false }
    ensures { Leaves result sheet.new (spec.argument argument place sheet.old) }
{
    if is_result(argument) && has_failed(place.result) {
        return numbers::pointer(sheet, place.value);
    }
    shown(sheet, argument, place)
}

/// The mode of a new file, where none is made.
fn is_left_out(argument: Argument, place: ArgumentPlace) -> bool
    ensures { result ≡ spec.is_left_out argument place }
{
    match argument {
        Argument::CreationMode => !has(place.before, O_CREAT),
        _ => false,
    }
}

/// An argument, behind a comma where one stands before it.
fn comma_argument(
    sheet: &mut Sheet<'_>,
    some: bool,
    kind: Argument,
    place: ArgumentPlace,
) -> Result<(), Needed>
    requires most { place.most ≤ 4096 }
    requires kind { is_list kind ≡ false }
    ensures { Leaves result sheet.new (spec.next_argument some kind place sheet.old) }
{
    if is_left_out(kind, place) {
        return Ok(());
    }
    comma(sheet, some)?;
    argument(sheet, kind, place)
}

/// The same, or nothing of it.
fn next_argument(
    sheet: &mut Sheet<'_>,
    some: bool,
    kind: Argument,
    place: ArgumentPlace,
) -> Result<(), Needed>
    requires most { place.most ≤ 4096 }
    requires kind { is_list kind ≡ false }
    ensures { Takes result (spec.next_argument some kind place) sheet.old sheet.new }
{
    let mut part = sheet.part()?;
    match comma_argument(&mut part, some, kind, place) {
        Ok(()) => sheet.take(part),
        Err(stop) => Err(stop),
    }
}

fn list_is(kind: Argument) -> bool
    ensures { result ≡ is_list kind }
{
    matches!(kind, Argument::Strings)
}

/// An argument, behind a comma where one stands before it, or the list that it is.
pub(crate) fn begin(
    sheet: &mut Sheet<'_>,
    some: bool,
    kind: Argument,
    place: ArgumentPlace,
) -> Result<Option<Listing>, Needed>
    requires { place.most ≤ 4096 }
    ensures { Begins result place.most (spec.next_argument some kind place) sheet.old sheet.new }
{
    if list_is(kind) {
        return open(sheet, some, place.most, place.value);
    }
    match next_argument(sheet, some, kind, place) {
        Ok(()) => Ok(None),
        Err(stop) => Err(stop),
    }
}
