//! What is printed of an item.

ghost use Rattle.std.specs.Prelude.{◌≡◌, IfOk, OnOk};
ghost use Rattle.plain_run.specs.Notes.{noted_in};
ghost use Rattle.plain_trace.specs.Reading.{decoded, note_in};
ghost use Rattle.plain_trace.specs.Shown.{after_parts, entry_parts, parts_of, result_parts};
ghost use Rattle.pt_model.specs.Parts.{At_entry, At_exit};
ghost use Rattle.tr_line.specs.Printing.{written};

use crate::reading::{decode, stack};
use containers::Bytes;
use lx_abi::{Call, Item};
use lx_kernel::Kernel;
use pt_kernel::info_of;
use std::alloc::{AllocError, Global};
use tr_args::Half;
use tr_core::Options;
use tr_line::Printer;

/// What the printer writes of a call's entry, if the call is shown.
#[tactic(auto, unfolding(tr_line::specs::Printing::written, crate::specs::Shown::after_parts, crate::specs::Shown::entry_parts))]
fn print_entry(
    alloc: Global,
    kernel: &Kernel,
    options: &Options,
    printer: &mut Printer,
    pid: u32,
    call: Call,
) -> Result<Bytes, AllocError>
    ensures bytes { IfOk result (λ b. b
        ≡ written printer.old (entry_parts options.now pid call
        (decoded options.now.string_limit (note_in kernel.now pid) (At_entry call (note_in kernel.now pid).sp)))) }
    ensures after { OnOk result (printer.new
        ≡ after_parts printer.old (entry_parts options.now pid call
        (decoded options.now.string_limit (note_in kernel.now pid) (At_entry call (note_in kernel.now pid).sp)))) }
{
    if !options.shown.contains(call.number) {
        return Ok(Bytes::new(alloc));
    }
    let stack = stack(kernel, pid)?;
    let decoder = decode(
        alloc,
        kernel,
        pid,
        Half::Entry { call, stack },
        options.string_limit,
    )?;
    let bytes = printer.enter(pid, call.number, decoder.text())?;
    Ok(bytes)
}

/// What it writes of a call's result.
#[tactic(auto, unfolding(tr_line::specs::Printing::written, crate::specs::Shown::after_parts, crate::specs::Shown::result_parts))]
fn print_result(
    alloc: Global,
    kernel: &Kernel,
    options: &Options,
    printer: &mut Printer,
    pid: u32,
    call: Call,
    value: u64,
    replaced: bool,
) -> Result<Bytes, AllocError>
    ensures bytes { IfOk result (λ b. b
        ≡ written printer.old (result_parts options.now pid call value replaced
        (decoded options.now.string_limit (note_in kernel.now pid) (At_exit call value)))) }
    ensures after { OnOk result (printer.new
        ≡ after_parts printer.old (result_parts options.now pid call value replaced
        (decoded options.now.string_limit (note_in kernel.now pid) (At_exit call value)))) }
{
    if !options.shown.contains(call.number) {
        return Ok(Bytes::new(alloc));
    }
    let half = Half::Exit {
        call,
        result: value,
    };
    let decoder = decode(alloc, kernel, pid, half, options.string_limit)?;
    let bytes = printer.leave(pid, call.number, decoder.text(), value, replaced)?;
    Ok(bytes)
}

/// What it writes of an item.
#[tactic(auto, unfolding(tr_line::specs::Printing::written, crate::specs::Shown::after_parts, crate::specs::Shown::parts_of))]
pub fn print_item(
    alloc: Global,
    kernel: &Kernel,
    options: &Options,
    printer: &mut Printer,
    item: &Item,
) -> Result<Bytes, AllocError>
    ensures bytes { IfOk result (λ b. b
        ≡ written printer.old (parts_of options.now (noted_in kernel.now item.now).note item.now)) }
    ensures after { OnOk result (printer.new
        ≡ after_parts printer.old (parts_of options.now (noted_in kernel.now item.now).note item.now)) }
{
    match *item {
        Item::Enter { pid, call } => {
            let bytes = print_entry(alloc, kernel, options, printer, pid, call)?;
            Ok(bytes)
        }
        Item::Done {
            pid,
            call,
            result: value,
            replaced,
        } => {
            let bytes = print_result(alloc, kernel, options, printer, pid, call, value, replaced)?;
            Ok(bytes)
        }
        Item::Taken { pid, signal, cause } => {
            let bytes = printer.signal(pid, &info_of(signal, cause))?;
            Ok(bytes)
        }
        Item::Stopped { pid, signal } => {
            let bytes = printer.stopped(pid, signal)?;
            Ok(bytes)
        }
        Item::Exit { pid, word, .. } => {
            let bytes = printer.end(pid, word)?;
            Ok(bytes)
        }
    }
}
