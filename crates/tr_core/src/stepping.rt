//! What a reply makes of what a tracer keeps.

ghost use Rattle.std.specs.Prelude.{◌≡◌, ◌&&◌, ℕ, IfOk, IsSome, OnOk, OnErr, Some, is_some, true, false};
ghost use Rattle.lx_abi.specs.declared.log.Call.{Call as CallOf};
ghost use Rattle.lx_model.specs.Finite.{at};
ghost use Rattle.std.specs.FinMap as maps;
ghost use Rattle.std.specs.Option.{option_map};
ghost use Rattle.pt_model.specs.Admissible.{stop_fits as fits_stop};
ghost use Rattle.pt_model.specs.Parts.{Options};
ghost use Rattle.pt_model.specs.Tracer.{Known, focus_on, told_tracees};
ghost use Rattle.pt_model.specs.Tracer.{took_stop, heard, hears, says_done, stays};
ghost use Rattle.tr_core.specs.Settings.{options_of, script_of};
ghost use Rattle.tr_core.specs.Hearings.{ComesIn, known_at, stop_heard};
ghost use Rattle.tr_core.specs.Held.{Holds, IsHeld, NextIsHeld, FocusHolds};
ghost use Rattle.tr_core.specs.Known.{new_tracee, place_of};
ghost use Rattle.tr_core.specs.Tracers.{admits_in, focus_of, known_in, Goes, Steps};
ghost use Rattle.tr_core.specs.Admitted.{says_childless, says_out, told_status, waits_by, serves_by};
ghost use Rattle.tr_core.specs.Admitted.{focus_after_resuming, resumed, resumes, waits};
ghost use Rattle.tr_core.specs.Admitted.{ends_by, tracees_by_status, tracees_by_reply, is_seizing as seizes};
ghost use Rattle.tr_core.specs.Admitted.{lets_go, next_by, tracees_by, told_outcome};
ghost use Rattle.tr_core.specs.declared.settings.Options.{Options as OptionsOf};

use crate::admission::{admits_answer, stop_fits};
use crate::heard::Heard;
use crate::hearing::hear;
use crate::living::Living;
use crate::place::{Awaiting, Focus, Tracee};
use crate::replies::{is_childless, is_done, is_out, outcome_in, status_in};
use crate::session::Session;
use crate::stops::take_stop;
use containers::Bytes;
use lx_abi::{Errno, Reply, Stop};
use pt_model::Standing;
use shelves::Shelf;
use std::alloc::AllocError;
use std::mem;

/// What a tracer keeps beside the flag for want of memory.
#[derive(Drop)]
pub struct Core {
    pub session: Session,
    pub known: Shelf<Tracee>,
    pub living: Living,
    pub focus: Focus,
}

/// Nothing is known of a process, and that is put in. Apart, since it comes once a process.
#[inline(never)]
fn put_in(known: &mut Shelf<Tracee>, pid: u32) -> Result<(), AllocError>
    requires { maps.get known.old pid ≡ None }
    ensures there { OnOk result (IsSome (maps.get known.new pid)) }
    ensures same { OnOk result (at new_tracee known.new ≡ at new_tracee known.old) }
{
    known.insert(pid, Tracee::UNMET)?;
    Ok(())
}

/// Where nothing is known of a process, that is put in.
fn meet(known: &mut Shelf<Tracee>, pid: u32) -> Result<(), AllocError>
    ensures there { OnOk result (IsSome (maps.get known.new pid)) }
    ensures same { OnOk result (at new_tracee known.new ≡ at new_tracee known.old) }
{
    match known.get(pid) {
        Some(_) => Ok(()),
        None => put_in(known, pid),
    }
}

/// The stop may be told of the process as far as it is known.
#[inline(always)]
fn fits(known: &Shelf<Tracee>, follow: bool, pid: u32, stop: Stop) -> bool
    ensures { result ≡ fits_stop follow (at new_tracee known.now pid).called.number
        (is_some (at new_tracee known.now pid).saved) (at new_tracee known.now pid).standing stop }
{
    match known.get(pid) {
        Some(tracee) => stop_fits(
            follow,
            tracee.called.number,
            tracee.saved.is_some(),
            tracee.standing,
            stop,
        ),
        None => stop_fits(follow, u64::MAX, false, Standing::Unmet, stop),
    }
}

/// The reply is one that a host may give.
#[inline(always)]
fn admits(core: &Core, reply: &Reply) -> bool
    ensures { result ≡ admits_in core.now reply.now }
{
    match (&core.focus, reply) {
        (Focus::Booting, reply) => is_done(reply),
        (Focus::Waiting, Reply::Status { pid, status }) => match status.stop() {
            None => false,
            Some(stop) => {
                let follow = core.session.settings.options.follow;
                (follow || *pid == 1) && fits(&core.known, follow, *pid, stop)
            }
        },
        (Focus::Waiting, Reply::Errno { number }) => Errno::ECHILD.is(*number)
            && core.living.is_empty(),
        (Focus::Serving { place, .. }, reply) => admits_answer(place, reply),
        (Focus::Waiting | Focus::AskingOutcome, Reply::OutOfTurns)
        | (Focus::AskingOutcome, Reply::Outcome { .. }) => true,
        _ => false,
    }
}

/// What is asked next of a tracee; where nothing is, the next status is waited for.
#[inline(always)]
fn focus_at(pid: u32, next: Option<Awaiting>) -> Focus
    ensures focus { focus_of result ≡ focus_on pid (option_map place_of next) }
    ensures holds { (o : OptionsOf) (called : ℕ → CallOf) → NextIsHeld o (called pid) next
        → FocusHolds o called result }
{
    match next {
        Some(place) => Focus::Serving { pid, place },
        None => Focus::Waiting,
    }
}

/// The list of tracees after a status.
#[inline(always)]
fn attend(living: &mut Living, pid: u32, stop: Stop) -> Result<(), AllocError>
    ensures { OnOk result (living.new ≡ told_tracees living.old pid (Some stop)) }
{
    match stop {
        Stop::Ended { .. } => living.remove(pid),
        _ => living.add(pid)?,
    }
    Ok(())
}

/// What the first status of a process makes of it. Apart, since it comes once a process.
#[inline(never)]
fn take_first_stop(
    session: &mut Session,
    known: &mut Shelf<Tracee>,
    pid: u32,
    stop: Stop,
) -> Result<Heard, AllocError>
    ensures { IfOk result
        (λ h. ComesIn
        (stop_heard (options_of session.old.settings) pid
        (known_at session.old pid (at new_tracee known.old pid)) stop)
        h session.old session.new pid known.old known.new) }
{
    meet(known, pid)?;
    match known.get_mut(pid) {
        Some(met) => take_stop(session, pid, met, stop),
        None => unreachable!(),
    }
}

/// What a status makes of a tracee, in the place where it is known.
#[inline(always)]
fn take_stop_in(
    session: &mut Session,
    known: &mut Shelf<Tracee>,
    pid: u32,
    stop: Stop,
) -> Result<Heard, AllocError>
    ensures { IfOk result
        (λ h. ComesIn
        (stop_heard (options_of session.old.settings) pid
        (known_at session.old pid (at new_tracee known.old pid)) stop)
        h session.old session.new pid known.old known.new) }
{
    match known.get_mut(pid) {
        Some(tracee) => take_stop(session, pid, tracee, stop),
        None => take_first_stop(session, known, pid, stop),
    }
}

/// A status that is admitted.
#[inline(always)]
fn hear_status(core: &mut Core, pid: u32, stop: Stop) -> Result<Bytes, AllocError>
    ensures { IfOk result
        (λ b. Goes (took_stop (options_of core.old.session.settings) (known_in core.old) pid stop)
        (told_tracees core.old.living pid (Some stop)) b core.old core.new) }
{
    let heard = take_stop_in(&mut core.session, &mut core.known, pid, stop)?;
    attend(&mut core.living, pid, stop)?;
    core.focus = focus_at(pid, heard.next);
    Ok(heard.bytes)
}

/// What a reply makes of a process of which nothing was known. Apart, since none is asked before its first status.
#[inline(never)]
fn hear_first(
    session: &mut Session,
    known: &mut Shelf<Tracee>,
    pid: u32,
    place: Awaiting,
    reply: Reply,
) -> Result<Heard, AllocError>
    requires { IsHeld session.old.settings.options (at new_tracee known.old pid).called place }
    ensures { IfOk result
        (λ h. ComesIn
        (hears (options_of session.old.settings) (script_of session.old.settings) pid
        (known_at session.old pid (at new_tracee known.old pid)) (place_of place) reply) h session.old
        session.new pid known.old known.new) }
{
    meet(known, pid)?;
    match known.get_mut(pid) {
        Some(met) => hear(session, pid, met, place, reply),
        None => unreachable!(),
    }
}

/// What a reply makes of a tracee, in the place where it is known.
#[inline(always)]
fn hear_in(
    session: &mut Session,
    known: &mut Shelf<Tracee>,
    pid: u32,
    place: Awaiting,
    reply: Reply,
) -> Result<Heard, AllocError>
    requires { IsHeld session.old.settings.options (at new_tracee known.old pid).called place }
    ensures { IfOk result
        (λ h. ComesIn
        (hears (options_of session.old.settings) (script_of session.old.settings) pid
        (known_at session.old pid (at new_tracee known.old pid)) (place_of place) reply) h session.old
        session.new pid known.old known.new) }
{
    match known.get_mut(pid) {
        Some(tracee) => hear(session, pid, tracee, place, reply),
        None => hear_first(session, known, pid, place, reply),
    }
}

/// A reply, which is admitted, to what was asked of the tracee in hand.
#[inline(always)]
fn hear_reply(core: &mut Core, pid: u32, place: Awaiting, reply: Reply) -> Result<Bytes, AllocError>
    requires { IsHeld core.old.session.settings.options (at new_tracee core.old.known pid).called place }
    ensures { IfOk result
        (λ b. Goes
        (heard (known_in core.old) pid
        (hears (options_of core.old.session.settings) (script_of core.old.session.settings) pid (known_in core.old pid)
        (place_of place) reply)) core.old.living b core.old core.new) }
{
    let heard = hear_in(&mut core.session, &mut core.known, pid, place, reply)?;
    core.focus = focus_at(pid, heard.next);
    Ok(heard.bytes)
}

/// Nothing is printed, and this asked.
#[inline(always)]
#[tactic(auto, unfolding(crate::specs::Pens::wrote, crate::specs::Pens::pen_after))]
fn stay(core: &mut Core, focus: Focus) -> Bytes
    requires { FocusHolds core.old.session.settings.options (λ pid. (at new_tracee core.old.known pid).called) focus }
    ensures { Goes (stays (known_in core.old) (focus_of focus)) core.old.living result core.old core.new }
{
    core.focus = focus;
    Bytes::new(core.session.settings.alloc)
}

/// The same, apart, since it comes at a run's beginning or its end.
#[inline(never)]
#[tactic(auto, unfolding(crate::specs::Pens::wrote, crate::specs::Pens::pen_after))]
fn stay_apart(core: &mut Core, focus: Focus) -> Bytes
    requires { FocusHolds core.old.session.settings.options (λ pid. (at new_tracee core.old.known pid).called) focus }
    ensures { Goes (stays (known_in core.old) (focus_of focus)) core.old.living result core.old core.new }
{
    core.focus = focus;
    Bytes::new(core.session.settings.alloc)
}

/// What is asked after a reply to Wait that tells of no tracee.
fn after_wait(childless: bool, out: bool) -> Focus
    ensures asks { (o : Options) (known : ℕ → Known)
        → stays known (focus_of result) ≡ waits_by o known None childless out }
    ensures holds { (o : OptionsOf) (called : ℕ → CallOf) → FocusHolds o called result }
{
    if childless {
        Focus::AskingOutcome
    } else if out {
        Focus::TurnsOver
    } else {
        Focus::Waiting
    }
}

/// A reply to Wait, by what it says.
#[inline(always)]
fn hear_wait(
    core: &mut Core,
    told: Option<(u32, Option<Stop>)>,
    childless: bool,
    out: bool,
) -> Result<Bytes, AllocError>
    ensures { IfOk result
        (λ b. Goes (waits_by (options_of core.old.session.settings) (known_in core.old) told childless out)
        (tracees_by_status core.old.living told) b core.old core.new) }
{
    match told {
        Some((pid, Some(stop))) => hear_status(core, pid, stop),
        Some((_, None)) => Ok(stay_apart(core, Focus::Waiting)),
        None => Ok(stay_apart(core, after_wait(childless, out))),
    }
}

/// A reply to Wait.
#[inline(always)]
fn hear_waiting(core: &mut Core, reply: &Reply) -> Result<Bytes, AllocError>
    ensures { IfOk result
        (λ b. Goes
        (waits_by (options_of core.old.session.settings) (known_in core.old) (told_status reply.now)
        (says_childless reply.now) (says_out reply.now))
        (tracees_by_status core.old.living (told_status reply.now)) b core.old core.new) }
{
    let told = status_in(reply);
    let childless = is_childless(reply);
    let out = is_out(reply);
    hear_wait(core, told, childless, out)
}

/// The tracee in hand goes on, whatever it replied.
fn is_let_go(place: &Awaiting) -> bool
    ensures { result ≡ lets_go (place_of place.now) }
{
    matches!(
        place,
        Awaiting::Seizing | Awaiting::Resuming { .. } | Awaiting::Listening
    )
}

/// A reply to what was asked of the tracee in hand, or OutOfTurns.
#[inline(always)]
fn hear_served(
    core: &mut Core,
    pid: u32,
    place: Awaiting,
    reply: Reply,
    out: bool,
) -> Result<Bytes, AllocError>
    requires { IsHeld core.old.session.settings.options (at new_tracee core.old.known pid).called place }
    ensures { IfOk result
        (λ b. Goes
        (serves_by (options_of core.old.session.settings) (script_of core.old.session.settings) (known_in core.old) pid
        (place_of place) reply out) core.old.living b core.old core.new) }
{
    if out {
        Ok(stay_apart(core, Focus::TurnsOver))
    } else if is_let_go(&place) {
        Ok(stay_apart(core, Focus::Waiting))
    } else {
        hear_reply(core, pid, place, reply)
    }
}

/// A reply to Outcome.
#[inline(never)]
fn hear_outcome(core: &mut Core, reply: Reply) -> Result<Bytes, AllocError>
    ensures { IfOk result
        (λ b. Goes (ends_by (known_in core.old) (told_outcome reply) (says_out reply)) core.old.living b core.old
        core.new) }
{
    let out = is_out(&reply);
    let focus = match outcome_in(reply) {
        Some(outcome) => Focus::Over(outcome),
        None => {
            if out {
                Focus::TurnsOver
            } else {
                Focus::AskingOutcome
            }
        }
    };
    Ok(stay_apart(core, focus))
}

/// Process 1 is known from its Seize on.
fn attend_seized(living: &mut Living, pid: u32, seized: bool) -> Result<(), AllocError>
    ensures { OnOk result (living.new ≡ tracees_by_reply living.old pid seized) }
{
    if seized {
        living.add(pid)?;
    }
    Ok(())
}

fn is_seizing(place: &Awaiting) -> bool
    ensures { result ≡ seizes (place_of place.now) }
{
    matches!(place, Awaiting::Seizing)
}

/// A reply to the tracee in hand, and the list of tracees after it.
#[inline(always)]
fn hear_serving(
    core: &mut Core,
    pid: u32,
    place: Awaiting,
    reply: Reply,
) -> Result<Bytes, AllocError>
    requires { IsHeld core.old.session.settings.options (at new_tracee core.old.known pid).called place }
    ensures { IfOk result
        (λ b. Goes
        (serves_by (options_of core.old.session.settings) (script_of core.old.session.settings) (known_in core.old) pid
        (place_of place) reply (says_out reply))
        (tracees_by_reply core.old.living pid (seizes (place_of place) && says_done reply)) b core.old core.new) }
{
    let seized = is_seizing(&place) && is_done(&reply);
    let out = is_out(&reply);
    let bytes = hear_served(core, pid, place, reply, out)?;
    attend_seized(&mut core.living, pid, seized)?;
    Ok(bytes)
}

/// A reply that is admitted to anything but Wait, with what was asked taken out.
#[inline(always)]
fn go_from(core: &mut Core, focus: Focus, reply: Reply) -> Result<Bytes, AllocError>
    requires holds { FocusHolds core.old.session.settings.options
        (λ pid. (at new_tracee core.old.known pid).called) focus }
    requires other { waits focus ≡ false }
    ensures { IfOk result
        (λ b. Goes
        (next_by (options_of core.old.session.settings) (script_of core.old.session.settings) (known_in core.old) focus
        reply)
        (tracees_by core.old.living focus reply) b core.old core.new) }
{
    match focus {
        Focus::Waiting => unreachable!(),
        Focus::Serving { pid, place } => hear_serving(core, pid, place, reply),
        Focus::AskingOutcome => hear_outcome(core, reply),
        Focus::Booting => Ok(stay_apart(
            core,
            Focus::Serving {
                pid: 1,
                place: Awaiting::Seizing,
            },
        )),
        Focus::Over(_) | Focus::TurnsOver | Focus::Faulted => Ok(stay_apart(core, Focus::Faulted)),
    }
}

fn is_waiting(focus: &Focus) -> bool
    ensures { result ≡ waits focus.now }
{
    matches!(focus, Focus::Waiting)
}

fn is_resuming(place: &Awaiting) -> bool
    ensures { result ≡ resumes (place_of place.now) }
{
    matches!(place, Awaiting::Resuming { .. })
}

/// A tracee was resumed.
fn has_resumed(focus: &Focus) -> bool
    ensures { result ≡ resumed focus.now }
{
    match focus {
        Focus::Serving { place, .. } => is_resuming(place),
        _ => false,
    }
}

/// What is asked after the reply to a resumption.
fn after_resuming(out: bool) -> Focus
    ensures asks { focus_of result ≡ focus_after_resuming out }
    ensures holds { (o : OptionsOf) (called : ℕ → CallOf) → FocusHolds o called result }
{
    if out {
        Focus::TurnsOver
    } else {
        Focus::Waiting
    }
}

/// A reply that is admitted. What was asked stays in its place where nothing is kept of it.
#[inline(always)]
fn go(core: &mut Core, reply: Reply) -> Result<Bytes, AllocError>
    requires { Holds core.old }
    ensures { IfOk result
        (λ b. Goes
        (next_by (options_of core.old.session.settings) (script_of core.old.session.settings) (known_in core.old)
        core.old.focus reply)
        (tracees_by core.old.living core.old.focus reply) b core.old core.new) }
{
    if is_waiting(&core.focus) {
        hear_waiting(core, &reply)
    } else if has_resumed(&core.focus) {
        Ok(stay(core, after_resuming(is_out(&reply))))
    } else {
        let focus = mem::replace(&mut core.focus, Focus::Faulted);
        go_from(core, focus, reply)
    }
}

/// A reply: its bytes, or none where it isn't admitted.
#[inline(always)]
pub fn step(core: &mut Core, reply: Reply) -> Result<Option<Bytes>, AllocError>
    requires { Holds core.old }
    ensures step { IfOk result (λ b. (taken : ℕ) → Steps taken core.old reply b core.new) }
    ensures admitted { OnErr result (admits_in core.old reply ≡ true) }
    ensures holds { OnOk result (Holds core.new) }
{
    if !admits(core, &reply) {
        core.focus = Focus::Faulted;
        return Ok(None);
    }
    let bytes = go(core, reply)?;
    Ok(Some(bytes))
}
