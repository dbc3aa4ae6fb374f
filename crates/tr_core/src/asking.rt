//! What is asked next.

ghost use Rattle.std.specs.Prelude.{◌≡◌, IfOk};
ghost use Rattle.pt_model.specs.Tracer.{asked_options as options_asked, asks, request};
ghost use Rattle.tr_core.specs.Settings.{options_of};
ghost use Rattle.tr_core.specs.Known.{place_of};
ghost use Rattle.tr_core.specs.Tracers.{focus_of};
ghost use Rattle.tr_core.specs.States.{act_of, rests_at};
ghost use Rattle.tr_line.specs.Printing.{open_call};

use crate::place::{Awaiting, Focus};
use crate::settings::Settings;
use crate::stepping::Core;
use crate::tracing::Act;
use containers::Bytes;
use lx_abi::calls::may_wait;
use lx_abi::{Ask, RegisterSet, Request, TraceOptions};
use std::alloc::AllocError;
use tr_line::Printer;

/// The options of each tracee.
fn asked_options(follow: bool) -> TraceOptions
    ensures { result ≡ options_asked follow }
{
    TraceOptions {
        good: true,
        forks: follow,
        execs: true,
    }
}

fn ask_of(settings: &Settings, place: &Awaiting) -> Result<Ask, AllocError>
    ensures { IfOk result (λ ask. ask ≡ asks (options_of settings.now) (place_of place.now)) }
{
    let ask = match place {
        Awaiting::Seizing => Ask::Seize {
            options: asked_options(settings.options.follow).bits(),
        },
        Awaiting::EntryRegs | Awaiting::ExitRegs => Ask::GetRegs,
        Awaiting::EntryPeek { want, .. } | Awaiting::ExitPeek { want, .. } => Ask::Peek {
            address: want.0,
            length: want.1,
        },
        Awaiting::EntrySet { registers, .. } | Awaiting::ExitSet { registers, .. } => Ask::SetRegs {
            registers: RegisterSet::new(settings.alloc, registers.get())?,
        },
        Awaiting::SignalInfo { .. } => Ask::SigInfo,
        Awaiting::Resuming { signal } => Ask::Syscall { signal: *signal },
        Awaiting::Listening => Ask::Listen,
    };
    Ok(ask)
}

/// No line is open, or that of a call that may wait.
fn rests(printer: &Printer) -> bool
    ensures { result ≡ rests_at (open_call printer.now) }
{
    match printer.open_call() {
        None => true,
        Some(number) => may_wait(number),
    }
}

/// What was printed, and what is asked next.
#[inline(always)]
pub fn act(core: &Core, bytes: Bytes) -> Result<Act, AllocError>
    ensures { IfOk result
        (λ act. act
        ≡ act_of (request (options_of core.now.session.settings) (focus_of core.now.focus))
        (rests_at (open_call core.now.session.printer)) bytes) }
{
    let request = match &core.focus {
        Focus::Waiting => Request::Wait,
        Focus::Serving { pid, place } => {
            let ask = ask_of(&core.session.settings, place)?;
            Request::To { pid: *pid, ask }
        }
        Focus::AskingOutcome => Request::Outcome,
        Focus::Booting | Focus::Over(_) | Focus::TurnsOver | Focus::Faulted => {
            return Ok(Act::Finished { bytes });
        }
    };
    let rests = rests(&core.session.printer);
    Ok(Act::Ask {
        bytes,
        request,
        rests,
    })
}
