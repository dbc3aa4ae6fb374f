//! A stop of a tracee, from which it is in hand.

ghost use Rattle.std.specs.Prelude.{◌≡◌, ℕ, IfOk};
ghost use Rattle.pt_model.specs.Admissible.{was_read as entry_was_read};
ghost use Rattle.pt_model.specs.Tracer as tracer;
ghost use Rattle.tr_core.specs.Hearings.{Comes, known_at, stop_heard};
ghost use Rattle.tr_core.specs.Held.{IsHeld};
ghost use Rattle.tr_core.specs.Known.{known_of, place_of};
ghost use Rattle.tr_core.specs.Settings.{options_of};
ghost use Rattle.tr_core.specs.declared.settings.Options.{Options as OptionsOf};
ghost use Rattle.lx_abi.specs.declared.log.Call.{Call as CallOf};

use crate::heard::{Heard, asks};
use crate::place::{Awaiting, Tracee};
use crate::session::Session;
use crate::settings::Settings;
use lx_abi::{EventStop, Stop};
use pt_model::Standing;
use std::alloc::AllocError;

/// The registers at its call's entry were read.
fn was_read(standing: Standing) -> bool
    ensures { result ≡ entry_was_read standing }
{
    matches!(standing, Standing::Read | Standing::AfterEvent)
}

/// Where a call begins or ends: at an exit the registers are wanted where its entry was read, and the call is
/// shown or replaced.
#[inline(always)]
fn first_place(settings: &Settings, tracee: &Tracee) -> Awaiting
    ensures place { (counts : ℕ → ℕ)
        → place_of result ≡ tracer.first_place (options_of settings.now) (known_of tracee.now counts)
        tracee.now.inside }
    ensures held { (o : OptionsOf) (called : CallOf) → IsHeld o called result }
{
    if !tracee.inside {
        Awaiting::EntryRegs
    } else if was_read(tracee.standing)
        && (settings.options.shown.contains(tracee.called.number) || tracee.saved.is_some())
    {
        Awaiting::ExitRegs
    } else {
        Awaiting::Resuming { signal: 0 }
    }
}

/// A syscall stop.
fn turn_over(tracee: &mut Tracee)
    ensures { (counts : ℕ → ℕ) → known_of tracee.new counts ≡ tracer.turned_over (known_of tracee.old counts) }
{
    tracee.standing = if tracee.inside {
        Standing::Between
    } else {
        Standing::Unread
    };
    tracee.inside = !tracee.inside;
}

fn event_standing(event: EventStop) -> Standing
    ensures { result ≡ tracer.event_standing event }
{
    match event {
        EventStop::Fork | EventStop::Exec => Standing::AfterEvent,
        EventStop::Stop => Standing::Between,
    }
}

/// A status that is admitted was taken.
#[inline(always)]
#[tactic(auto, unfolding(crate::specs::Pens::wrote, crate::specs::Pens::pen_after))]
pub fn take_stop(
    session: &mut Session,
    pid: u32,
    tracee: &mut Tracee,
    stop: Stop,
) -> Result<Heard, AllocError>
    ensures { IfOk result
        (λ h. Comes (stop_heard (options_of session.old.settings) pid (known_at session.old pid tracee.old) stop)
        h session.old session.new pid tracee.old tracee.new) }
{
    let alloc = session.settings.alloc;
    match stop {
        Stop::Syscall { .. } => {
            let place = first_place(&session.settings, tracee);
            turn_over(tracee);
            Ok(asks(alloc, place))
        }
        Stop::Signal { signal } => {
            tracee.standing = Standing::AfterSignal { signal };
            let signal = u32::from(signal.number);
            Ok(asks(alloc, Awaiting::SignalInfo { signal }))
        }
        Stop::Group { signal } => {
            tracee.standing = Standing::Halted;
            let bytes = session.printer.stopped(pid, signal)?;
            Ok(Heard {
                next: Some(Awaiting::Listening),
                bytes,
            })
        }
        Stop::Event { event } => {
            tracee.standing = event_standing(event);
            Ok(asks(alloc, Awaiting::Resuming { signal: 0 }))
        }
        Stop::Ended { word } => {
            tracee.standing = Standing::AtEnd;
            let bytes = session.printer.end(pid, word)?;
            Ok(Heard { next: None, bytes })
        }
    }
}
