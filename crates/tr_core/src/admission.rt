//! Which replies are admitted.

ghost use Rattle.std.specs.Prelude.{◌≡◌};
ghost use Rattle.pt_model.specs.Admissible.{admits_answer as admits_answer_of, event_fits as fits_event};
ghost use Rattle.pt_model.specs.Admissible.{call_fits as fits_call, signal_fits as fits_signal};
ghost use Rattle.pt_model.specs.Admissible.{group_fits as fits_group, event_stop_fits as fits_event_stop};
ghost use Rattle.pt_model.specs.Admissible.{end_fits as fits_end, stop_fits as fits_stop};
ghost use Rattle.pt_model.specs.Parts.{Options};
ghost use Rattle.pt_model.specs.Tracer.{asks};
ghost use Rattle.tr_core.specs.Known.{place_of};

use crate::place::Awaiting;
use lx_abi::calls::has_effects;
use lx_abi::{Effects, Errno, EventStop, Reply, Signal, Stop};
use pt_model::Standing;

/// A reply to what is asked of the tracee in hand.
pub fn admits_answer(place: &Awaiting, reply: &Reply) -> bool
    ensures { (o : Options) → result ≡ admits_answer_of (asks o (place_of place.now)) reply.now }
{
    match (place, reply) {
        (_, Reply::OutOfTurns)
        | (
            Awaiting::Seizing
            | Awaiting::EntrySet { .. }
            | Awaiting::ExitSet { .. }
            | Awaiting::Resuming { .. }
            | Awaiting::Listening,
            Reply::Done,
        )
        | (Awaiting::EntryRegs | Awaiting::ExitRegs, Reply::Registers { .. })
        | (Awaiting::SignalInfo { .. }, Reply::Info { .. }) => true,
        (
            Awaiting::EntryPeek { want, .. } | Awaiting::ExitPeek { want, .. },
            Reply::Bytes { bytes },
        ) => 1 <= bytes.len() && bytes.len() as u64 <= u64::from(want.1),
        (Awaiting::Seizing, Reply::Errno { .. }) => false,
        (Awaiting::EntryPeek { .. } | Awaiting::ExitPeek { .. }, Reply::Errno { number }) => {
            Errno::ESRCH.is(*number) || Errno::EIO.is(*number)
        }
        (_, Reply::Errno { number }) => Errno::ESRCH.is(*number),
        _ => false,
    }
}

fn event_fits(follow: bool, number: u64, event: EventStop) -> bool
    ensures { result ≡ fits_event follow number event }
{
    match event {
        EventStop::Fork => follow && has_effects(number, Effects::FORKS),
        EventStop::Exec => has_effects(number, Effects::EXECS),
        EventStop::Stop => false,
    }
}

fn end_fits(number: u64, replaced: bool, standing: Standing, word: u32) -> bool
    ensures { result ≡ fits_end number replaced standing word }
{
    match standing {
        Standing::Unmet
        | Standing::Between
        | Standing::Halted
        | Standing::Unread
        | Standing::AfterEvent => word == 9,
        Standing::AfterSignal { .. } => 0 < word && word < 32,
        Standing::Read => {
            word == 9
                || (!replaced
                    && has_effects(number, Effects::EXITS)
                    && word % 256 == 0
                    && word < 65536)
        }
        Standing::AtEnd => false,
    }
}

fn call_fits(standing: Standing) -> bool
    ensures { result ≡ fits_call standing }
{
    !matches!(
        standing,
        Standing::Unmet | Standing::Halted | Standing::AtEnd
    )
}

fn signal_fits(standing: Standing) -> bool
    ensures { result ≡ fits_signal standing }
{
    matches!(standing, Standing::Between | Standing::AfterSignal { .. })
}

/// A group stop comes after the stop of its signal alone.
fn group_fits(standing: Standing, signal: Signal) -> bool
    ensures { result ≡ fits_group standing signal }
{
    match standing {
        Standing::AfterSignal { signal: passed } => passed.number == signal.number,
        _ => false,
    }
}

fn event_stop_fits(follow: bool, number: u64, standing: Standing, event: EventStop) -> bool
    ensures { result ≡ fits_event_stop follow number standing event }
{
    match standing {
        Standing::Unmet | Standing::Halted => matches!(event, EventStop::Stop),
        Standing::Read => event_fits(follow, number, event),
        _ => false,
    }
}

/// The stop may be told of a tracee that stands there.
pub fn stop_fits(follow: bool, number: u64, replaced: bool, standing: Standing, stop: Stop) -> bool
    ensures { result ≡ fits_stop follow number replaced standing stop }
{
    match stop {
        Stop::Syscall { .. } => call_fits(standing),
        Stop::Signal { .. } => signal_fits(standing),
        Stop::Group { signal } => group_fits(standing, signal),
        Stop::Event { event } => event_stop_fits(follow, number, standing, event),
        Stop::Ended { word } => end_fits(number, replaced, standing, word),
    }
}
