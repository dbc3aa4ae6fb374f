//! A reply that concerns the tracee in hand.

ghost use Rattle.std.specs.Prelude.{[], ℕ, IfOk};
ghost use Rattle.lx_abi.specs.Scripts.{includes};
ghost use Rattle.pt_model.specs.Tracer as tracer;
ghost use Rattle.tr_core.specs.Hearings.{Comes, known_at};
ghost use Rattle.tr_core.specs.Held.{IsHeld};
ghost use Rattle.tr_core.specs.Known.{place_of};
ghost use Rattle.tr_core.specs.Settings.{options_of, script_of};
ghost use Rattle.tr_core.specs.declared.session.Session.{Session as SessionOf};
ghost use Rattle.tr_core.specs.declared.place.Tracee.{Tracee as TraceeOf};

use crate::crossing::{Crossing, cross, hear_bytes};
use crate::heard::{Heard, asks, nothing};
use crate::place::{Awaiting, Tracee};
use crate::registers::{set_number, set_result};
use crate::replies::{bytes_in, info_in, is_done, registers_in};
use crate::session::Session;
use lx_abi::{Info, RegisterSet, Reply};
use std::alloc::{AllocError, Global};

/// The registers at an entry stop, where they came.
fn hear_entry(
    session: &mut Session,
    pid: u32,
    tracee: &mut Tracee,
    came: Option<RegisterSet>,
) -> Result<Heard, AllocError>
    ensures { IfOk result
        (λ h. Comes
        (tracer.at_entry_regs (options_of session.old.settings) (script_of session.old.settings) pid
        (known_at session.old pid tracee.old) came) h session.old session.new pid tracee.old tracee.new) }
{
    match came {
        None => Ok(nothing(session.settings.alloc)),
        Some(registers) => {
            let shown = session.settings.options.shown.contains(registers.get()[17]);
            cross(
                session,
                pid,
                tracee,
                Crossing::Entering { registers },
                shown,
            )
        }
    }
}

/// The result is known, which may be in the place of the call's own.
fn hear_result(
    session: &mut Session,
    pid: u32,
    tracee: &mut Tracee,
    value: u64,
    replaced: bool,
) -> Result<Heard, AllocError>
    ensures { IfOk result
        (λ h. Comes
        (tracer.read_exit (options_of session.old.settings) pid value replaced []
        (known_at session.old pid tracee.old) (includes session.old.settings.options.shown tracee.old.called.number)) h
        session.old session.new pid tracee.old tracee.new) }
{
    let shown = session
        .settings
        .options
        .shown
        .contains(tracee.called.number);
    let crossing = Crossing::Exiting {
        result: value,
        replaced,
    };
    cross(session, pid, tracee, crossing, shown)
}

/// The registers at an exit stop came: a replaced call gets its number back, and the scripted result.
fn hear_exit(
    session: &mut Session,
    pid: u32,
    tracee: &mut Tracee,
    registers: RegisterSet,
) -> Result<Heard, AllocError>
    ensures { IfOk result
        (λ h. Comes
        (tracer.exit_with (options_of session.old.settings) pid registers (known_at session.old pid tracee.old)
        tracee.old.saved) h session.old session.new pid tracee.old tracee.new) }
{
    match tracee.saved {
        None => hear_result(session, pid, tracee, registers.get()[10], false),
        Some(value) => {
            let mut registers = registers;
            set_result(&mut registers, value);
            set_number(&mut registers, tracee.called.number);
            let place = Awaiting::ExitSet {
                registers,
                result: value,
            };
            Ok(asks(session.settings.alloc, place))
        }
    }
}

/// The registers at an exit stop, where they came.
fn hear_exit_regs(
    session: &mut Session,
    pid: u32,
    tracee: &mut Tracee,
    came: Option<RegisterSet>,
) -> Result<Heard, AllocError>
    ensures { IfOk result
        (λ h. Comes
        (tracer.at_exit_regs (options_of session.old.settings) pid (known_at session.old pid tracee.old) came) h
        session.old session.new pid tracee.old tracee.new) }
{
    match came {
        None => Ok(nothing(session.settings.alloc)),
        Some(registers) => hear_exit(session, pid, tracee, registers),
    }
}

/// The registers of a replaced call were put back, or not.
#[inline(never)]
fn hear_put_back(
    session: &mut Session,
    pid: u32,
    tracee: &mut Tracee,
    value: u64,
    done: bool,
) -> Result<Heard, AllocError>
    ensures { IfOk result
        (λ h. Comes
        (tracer.at_exit_set (options_of session.old.settings) pid (known_at session.old pid tracee.old) value done)
        h session.old session.new pid tracee.old tracee.new) }
{
    if done {
        hear_result(session, pid, tracee, value, true)
    } else {
        Ok(nothing(session.settings.alloc))
    }
}

/// The number of a replaced call was set to -1, or not.
fn hear_set(alloc: Global, signal: u32, done: bool) -> Heard
    ensures { (s : SessionOf) (pid : ℕ) (t : TraceeOf)
        → Comes (tracer.at_entry_set (known_at s pid t) signal done) result s s pid t t }
{
    if done {
        asks(alloc, Awaiting::Resuming { signal })
    } else {
        nothing(alloc)
    }
}

/// What is told of a signal, where it came.
#[tactic(auto, unfolding(crate::specs::Pens::wrote, crate::specs::Pens::pen_after))]
#[inline(never)]
fn hear_info(
    session: &mut Session,
    pid: u32,
    signal: u32,
    came: Option<Info>,
) -> Result<Heard, AllocError>
    ensures { IfOk result
        (λ h. (t : TraceeOf) → Comes (tracer.at_info pid (known_at session.old pid t) signal came) h session.old
        session.new pid t t) }
{
    match came {
        None => Ok(nothing(session.settings.alloc)),
        Some(info) => {
            let bytes = session.printer.signal(pid, &info)?;
            Ok(Heard {
                next: Some(Awaiting::Resuming { signal }),
                bytes,
            })
        }
    }
}

/// A reply to what is asked of the tracee in hand.
pub fn hear(
    session: &mut Session,
    pid: u32,
    tracee: &mut Tracee,
    place: Awaiting,
    reply: Reply,
) -> Result<Heard, AllocError>
    requires { IsHeld session.old.settings.options tracee.old.called place }
    ensures { IfOk result
        (λ h. Comes
        (tracer.hears (options_of session.old.settings) (script_of session.old.settings) pid
        (known_at session.old pid tracee.old) (place_of place) reply)
        h session.old session.new pid tracee.old tracee.new) }
{
    let alloc = session.settings.alloc;
    match place {
        Awaiting::Seizing => Ok(nothing(alloc)),
        Awaiting::Resuming { .. } => Ok(nothing(alloc)),
        Awaiting::Listening => Ok(nothing(alloc)),
        Awaiting::EntryRegs => hear_entry(session, pid, tracee, registers_in(reply)),
        Awaiting::EntryPeek {
            registers,
            decoder,
            ..
        } => {
            let crossing = Crossing::Entering { registers };
            hear_bytes(
                session,
                pid,
                tracee,
                crossing,
                decoder,
                bytes_in(alloc, reply),
            )
        }
        Awaiting::EntrySet { signal, .. } => Ok(hear_set(alloc, signal, is_done(&reply))),
        Awaiting::ExitRegs => hear_exit_regs(session, pid, tracee, registers_in(reply)),
        Awaiting::ExitSet { result: value, .. } => {
            hear_put_back(session, pid, tracee, value, is_done(&reply))
        }
        Awaiting::ExitPeek {
            result: value,
            replaced,
            decoder,
            ..
        } => {
            let crossing = Crossing::Exiting {
                result: value,
                replaced,
            };
            hear_bytes(
                session,
                pid,
                tracee,
                crossing,
                decoder,
                bytes_in(alloc, reply),
            )
        }
        Awaiting::SignalInfo { signal } => hear_info(session, pid, signal, info_in(&reply)),
    }
}
