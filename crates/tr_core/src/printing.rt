//! The parts of a trace that a tracee in hand shows, if its call is shown.

ghost use Rattle.std.specs.Prelude.{◌≡◌, IfOk, OnOk};
ghost use Rattle.pt_model.specs.Parts.{At_entry, At_exit, enter_part, done_part};
ghost use Rattle.tr_core.specs.Held.{IsTold, got_of};
ghost use Rattle.tr_core.specs.Pens.{wrote, pen_after};
ghost use Rattle.tr_core.specs.Settings.{options_of};

use crate::settings::Settings;
use containers::Bytes;
use lx_abi::Call;
use std::alloc::AllocError;
use tr_args::Decoder;
use tr_line::Printer;

/// The entry text.
#[tactic(auto, unfolding(crate::specs::Pens::wrote, crate::specs::Pens::pen_after, tr_args::specs::Reads::text_of))]
pub fn print_entry(
    settings: &Settings,
    printer: &mut Printer,
    pid: u32,
    call: Call,
    stack: u64,
    decoder: Option<&Decoder>,
) -> Result<Bytes, AllocError>
    requires { IsTold settings.now.options (At_entry call stack) decoder }
    ensures bytes { IfOk result
        (λ b. b ≡ wrote printer.old (enter_part (options_of settings.now) pid call stack (got_of decoder.entry))) }
    ensures after { OnOk result
        (printer.new
        ≡ pen_after printer.old (enter_part (options_of settings.now) pid call stack (got_of decoder.entry))) }
{
    let Some(decoder) = decoder else {
        return Ok(Bytes::new(settings.alloc));
    };
    let bytes = printer.enter(pid, call.number, decoder.text())?;
    Ok(bytes)
}

/// The rest of the text.
#[tactic(auto, unfolding(crate::specs::Pens::wrote, crate::specs::Pens::pen_after, tr_args::specs::Reads::text_of))]
pub fn print_exit(
    settings: &Settings,
    printer: &mut Printer,
    pid: u32,
    call: Call,
    value: u64,
    replaced: bool,
    decoder: Option<&Decoder>,
) -> Result<Bytes, AllocError>
    requires { IsTold settings.now.options (At_exit call value) decoder }
    ensures bytes { IfOk result
        (λ b. b
        ≡ wrote printer.old (done_part (options_of settings.now) pid call value replaced (got_of decoder.entry))) }
    ensures after { OnOk result
        (printer.new
        ≡ pen_after printer.old (done_part (options_of settings.now) pid call value replaced (got_of decoder.entry))) }
{
    let Some(decoder) = decoder else {
        return Ok(Bytes::new(settings.alloc));
    };
    let bytes = printer.leave(pid, call.number, decoder.text(), value, replaced)?;
    Ok(bytes)
}
