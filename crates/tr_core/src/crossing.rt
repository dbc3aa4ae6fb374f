//! A call's entry and its exit: each is read where the call is shown, and then told.

ghost use Rattle.std.specs.Prelude.{◌≡◌, ◌+◌, IfOk, [], true};
ghost use Rattle.lx_abi.specs.Occurrences.{count_of};
ghost use Rattle.lx_abi.specs.Scripts.{choice_of, includes};
ghost use Rattle.lx_abi.specs.declared.log.Call.{Call as CallOf};
ghost use Rattle.lx_model.specs.Turn.{result_word};
ghost use Rattle.pt_model.specs.Tracer as tracer;
ghost use Rattle.tr_args.specs.Decoders.{given as decoder_given};
ghost use Rattle.tr_args.specs.Reads.{half_of};
ghost use Rattle.tr_core.specs.Crossings.{half_at, peek_at, peeked_at, reads_at, told_at};
ghost use Rattle.tr_core.specs.Hearings.{Comes, going_on, known_at};
ghost use Rattle.tr_core.specs.Held.{IsHeld, IsOf, IsTold, call_at, got_of};
ghost use Rattle.tr_core.specs.Known.{place_of};
ghost use Rattle.tr_core.specs.Settings.{options_of, script_of};
ghost use Rattle.tr_core.specs.declared.settings.Options.{Options as OptionsOf};

use crate::heard::{Heard, asks, nothing};
use crate::place::{Awaiting, Tracee};
use crate::printing::{print_entry, print_exit};
use crate::registers::{NO_CALL, call, set_number, stack_pointer};
use crate::session::Session;
use containers::Bytes;
use lx_abi::{Call, Choice, Occurrences, RegisterSet, Script};
use pt_model::Standing;
use std::alloc::AllocError;
use tr_args::{Decoder, Half};

/// A call is entered, or left with a result, which may be in the place of its own.
#[derive(Drop)]
pub enum Crossing {
    Entering { registers: RegisterSet },
    Exiting { result: u64, replaced: bool },
}

/// The half of the call's text that is told there.
fn half(crossing: &Crossing, called: Call) -> Half
    ensures { half_of result ≡ half_at called crossing.now }
{
    match crossing {
        Crossing::Entering { registers } => Half::Entry {
            call: call(registers),
            stack: stack_pointer(registers),
        },
        Crossing::Exiting { result: value, .. } => Half::Exit {
            call: called,
            result: *value,
        },
    }
}

/// What is asked while more is read for the text.
fn peeking(crossing: Crossing, decoder: Box<Decoder>, want: (u64, u32)) -> Awaiting
    ensures place { place_of result ≡ peek_at crossing decoder.value.got want }
    ensures held { (o : OptionsOf) (called : CallOf) → IsOf o (half_at called crossing) decoder.value
        → IsHeld o called result }
{
    match crossing {
        Crossing::Entering { registers } => Awaiting::EntryPeek {
            registers,
            decoder,
            want,
        },
        Crossing::Exiting {
            result: value,
            replaced,
        } => Awaiting::ExitPeek {
            result: value,
            replaced,
            decoder,
            want,
        },
    }
}

/// How a tracee goes on from its entry stop.
fn go_on(registers: RegisterSet, signal: u32, saved: Option<u64>) -> Awaiting
    ensures place { place_of result ≡ going_on registers signal saved }
    ensures held { (o : OptionsOf) (called : CallOf) → IsHeld o called result }
{
    match saved {
        None => Awaiting::Resuming { signal },
        Some(_) => {
            let mut registers = registers;
            set_number(&mut registers, NO_CALL);
            Awaiting::EntrySet { registers, signal }
        }
    }
}

/// The signal that is joined, 0 for none.
fn joined(choice: Choice) -> u32
    ensures { result ≡ tracer.signal_word choice.signal }
{
    match choice.signal {
        None => 0,
        Some(signal) => u32::from(signal.number),
    }
}

/// The result that is given, as a word.
fn given(choice: Choice) -> Option<u64>
    ensures { result ≡ result_word choice }
{
    match choice.result {
        None => None,
        Some(value) => Some(value.cast_unsigned()),
    }
}

/// What a script does to the next entry of a process into a call. One without rules does nothing, whichever it is.
#[tactic(auto, unfolding(lx_abi::specs::Scripts::choice_of))]
fn choose(script: &Script, counts: &Occurrences, pid: u32, call: u64) -> Result<Choice, AllocError>
    ensures { IfOk result (λ choice. choice ≡ choice_of script.now call (count_of counts.now pid call + 1)) }
{
    if script.rules().is_empty() {
        return Ok(Choice::NOTHING);
    }
    let Some(occurrence) = counts.latest(pid, call).checked_add(1) else {
        return Err(AllocError);
    };
    Ok(script.choose(call, occurrence))
}

/// The entry is shown and counted, and the script's choice for its occurrence made.
fn enter(
    session: &mut Session,
    pid: u32,
    tracee: &mut Tracee,
    registers: RegisterSet,
    decoder: Option<&Decoder>,
) -> Result<Heard, AllocError>
    requires { IsTold session.old.settings.options (half_at tracee.old.called (Crossing.Entering registers))
        decoder }
    ensures { IfOk result
        (λ h. Comes
        (tracer.entry (options_of session.old.settings) (script_of session.old.settings) pid registers
        (got_of decoder.entry) (known_at session.old pid tracee.old))
        h session.old session.new pid tracee.old tracee.new) }
{
    let called = call(&registers);
    let stack = stack_pointer(&registers);
    let choice = choose(
        &session.settings.script,
        &session.counts,
        pid,
        called.number,
    )?;
    let saved = given(choice);
    let bytes = print_entry(
        &session.settings,
        &mut session.printer,
        pid,
        called,
        stack,
        decoder,
    )?;
    session.counts.count(pid, called.number)?;
    tracee.called = called;
    tracee.saved = saved;
    tracee.standing = Standing::Read;
    Ok(Heard {
        next: Some(go_on(registers, joined(choice), saved)),
        bytes,
    })
}

/// The call has returned: the rest of its text is shown.
fn leave(
    session: &mut Session,
    pid: u32,
    tracee: &mut Tracee,
    value: u64,
    replaced: bool,
    decoder: Option<&Decoder>,
) -> Result<Heard, AllocError>
    requires { IsTold session.old.settings.options (half_at tracee.old.called (Crossing.Exiting value replaced))
        decoder }
    ensures { IfOk result
        (λ h. Comes
        (tracer.exit (options_of session.old.settings) pid value replaced (got_of decoder.entry)
        (known_at session.old pid tracee.old)) h session.old session.new pid tracee.old tracee.new) }
{
    let bytes = print_exit(
        &session.settings,
        &mut session.printer,
        pid,
        tracee.called,
        value,
        replaced,
        decoder,
    )?;
    tracee.saved = None;
    Ok(Heard {
        next: Some(Awaiting::Resuming { signal: 0 }),
        bytes,
    })
}

/// All that was wanted was read.
fn tell(
    session: &mut Session,
    pid: u32,
    tracee: &mut Tracee,
    crossing: Crossing,
    decoder: Option<&Decoder>,
) -> Result<Heard, AllocError>
    requires { IsTold session.old.settings.options (half_at tracee.old.called crossing) decoder }
    ensures { IfOk result
        (λ h. Comes
        (told_at (options_of session.old.settings) (script_of session.old.settings) pid crossing
        (got_of decoder.entry) (known_at session.old pid tracee.old))
        h session.old session.new pid tracee.old tracee.new) }
{
    match crossing {
        Crossing::Entering { registers } => enter(session, pid, tracee, registers, decoder),
        Crossing::Exiting {
            result: value,
            replaced,
        } => leave(session, pid, tracee, value, replaced, decoder),
    }
}

/// What is still wanted for the text is read; then it is told.
fn read(
    session: &mut Session,
    pid: u32,
    tracee: &mut Tracee,
    crossing: Crossing,
    decoder: Box<Decoder>,
) -> Result<Heard, AllocError>
    requires { IsOf session.old.settings.options (half_at tracee.old.called crossing) decoder.value }
    ensures { IfOk result
        (λ h. Comes
        (reads_at (options_of session.old.settings) (script_of session.old.settings) pid crossing
        decoder.value.got (known_at session.old pid tracee.old) true)
        h session.old session.new pid tracee.old tracee.new) }
{
    let lent = decoder.as_ref();
    match lent.wants() {
        None => tell(session, pid, tracee, crossing, Some(lent)),
        Some(want) => Ok(asks(session.settings.alloc, peeking(crossing, decoder, want))),
    }
}

/// A call that is shown is entered or left. Its decoder takes a place of its own where something is wanted.
#[inline(never)]
fn cross_shown(
    session: &mut Session,
    pid: u32,
    tracee: &mut Tracee,
    crossing: Crossing,
) -> Result<Heard, AllocError>
    requires { includes session.old.settings.options.shown (call_at (half_at tracee.old.called crossing)).number
        ≡ true }
    ensures { IfOk result
        (λ h. Comes
        (reads_at (options_of session.old.settings) (script_of session.old.settings) pid crossing []
        (known_at session.old pid tracee.old) true) h session.old session.new pid tracee.old tracee.new) }
{
    let alloc = session.settings.alloc;
    let half = half(&crossing, tracee.called);
    let decoder = half.begin(alloc, session.settings.options.string_limit)?;
    if decoder.wants().is_none() {
        return tell(session, pid, tracee, crossing, Some(&decoder));
    }
    let boxed = Box::new(alloc, decoder)?;
    read(session, pid, tracee, crossing, boxed)
}

/// A call is entered or left, whose text is read where it is shown.
#[inline(always)]
pub fn cross(
    session: &mut Session,
    pid: u32,
    tracee: &mut Tracee,
    crossing: Crossing,
    shown: bool,
) -> Result<Heard, AllocError>
    requires { shown ≡ includes session.old.settings.options.shown
        (call_at (half_at tracee.old.called crossing)).number }
    ensures { IfOk result
        (λ h. Comes
        (reads_at (options_of session.old.settings) (script_of session.old.settings) pid crossing []
        (known_at session.old pid tracee.old) shown) h session.old session.new pid tracee.old tracee.new) }
{
    if !shown {
        return tell(session, pid, tracee, crossing, None);
    }
    cross_shown(session, pid, tracee, crossing)
}

/// The decoder once it was given what was read.
fn fed(decoder: Box<Decoder>, bytes: Bytes) -> Result<Box<Decoder>, AllocError>
    ensures { IfOk result (λ d. d.value ≡ decoder_given decoder.value bytes) }
{
    let mut decoder = decoder;
    decoder.give(bytes)?;
    Ok(decoder)
}

/// A string of a text came, or not.
#[inline(never)]
pub fn hear_bytes(
    session: &mut Session,
    pid: u32,
    tracee: &mut Tracee,
    crossing: Crossing,
    decoder: Box<Decoder>,
    came: Option<Bytes>,
) -> Result<Heard, AllocError>
    requires { IsOf session.old.settings.options (half_at tracee.old.called crossing) decoder.value }
    ensures { IfOk result
        (λ h. Comes
        (peeked_at (options_of session.old.settings) (script_of session.old.settings) pid crossing
        decoder.value.got (known_at session.old pid tracee.old) came)
        h session.old session.new pid tracee.old tracee.new) }
{
    match came {
        None => Ok(nothing(session.settings.alloc)),
        Some(bytes) => {
            let fed = fed(decoder, bytes)?;
            read(session, pid, tracee, crossing, fed)
        }
    }
}
