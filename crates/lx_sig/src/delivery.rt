//! Which signals are pending, and which is delivered next (signal(7)).

ghost use Rattle.std.specs.Prelude.{◌≡◌, ◌<◌, ◌&&◌, not, is_some, find};
ghost use Rattle.std.specs.List.{range_with_len};
ghost use Rattle.lx_sig.specs.Pending.{cause_of, may_come, next as next_of, may_interrupt as may_interrupt_now};
ghost use Rattle.lx_sig.specs.Pending.{action_of, is_ignored as is_ignored_by, is_ignored_by_default as is_mild};
ghost use Rattle.lx_abi.specs.Signals.{is_stop as is_stop_signal};
ghost use Rattle.lx_sig.specs.Pending.{with_pending, without_pending, added, dropped, without_stops, without_opposites};
ghost use Rattle.lx_sig.specs.Pending.{noticed, settled, continued as continued_job, job_of as job_by};
ghost use Rattle.lx_sig.specs.Pending.{is_continued as is_continued_by};

use crate::sets::has;
use crate::state::{Action, Job, Signals};
use lx_abi::{Cause, Signal};

/// SIGCONT.
const CONT: u8 = 18;

/// Why the signal with this number came first, where it is pending.
fn cause(signals: &Signals, number: u8) -> Option<Cause>
    requires { number < 32 }
    ensures { result ≡ cause_of signals.now number }
{
    signals.pending.cause(number)
}

/// The signal with this number is pending.
pub fn is_pending(signals: &Signals, number: u8) -> bool
    requires { number < 32 }
    ensures { result ≡ is_some (cause_of signals.now number) }
{
    cause(signals, number).is_some()
}

/// The action of the signal with this number.
pub fn action(signals: &Signals, number: u8) -> Action
    requires { number < 32 }
    ensures { result ≡ action_of signals.now number }
{
    signals.actions[usize::from(number)]
}

/// The signal with this number is pending and not blocked.
fn comes(signals: &Signals, number: u8) -> bool
    requires positive { 0 < number }
    requires within { number < 32 }
    ensures { result ≡ may_come signals.now number }
{
    is_pending(signals, number) && !has(signals.mask, number)
}

/// The number of the lowest pending signal that is not blocked.
fn lowest(signals: &Signals) -> Option<u8>
    ensures { result ≡ find (may_come signals.now) (range_with_len 1 31) }
{
    if signals.pending.is_empty() {
        return None;
    }
    (1..32u8).find(|n| comes(signals, *n))
}

/// The lowest pending signal that is not blocked.
#[tactic(auto, unfolding(crate::specs::Pending::next))]
pub fn next(signals: &Signals) -> Option<Signal>
    ensures { result ≡ next_of signals.now }
{
    match lowest(signals) {
        None => None,
        Some(number) => Signal::from_number(u64::from(number)),
    }
}

/// SIGCHLD, SIGCONT, SIGURG and SIGWINCH are ignored by default.
pub fn is_ignored_by_default(number: u8) -> bool
    ensures { result ≡ is_mild number }
{
    number == 17 || number == 18 || number == 23 || number == 28
}

/// The action of the signal with this number ignores it.
pub fn is_ignored(signals: &Signals, number: u8) -> bool
    requires { number < 32 }
    ensures { result ≡ is_ignored_by signals.now number }
{
    match action(signals, number).handler {
        0 => is_ignored_by_default(number),
        handler => handler == 1,
    }
}

fn interrupts(signals: &Signals, number: u8) -> bool
    requires positive { 0 < number }
    requires within { number < 32 }
    ensures { result ≡ (may_come signals.now number && not (is_ignored_by signals.now number)) }
{
    comes(signals, number) && !is_ignored(signals, number)
}

/// Some signal is pending that is neither blocked nor ignored: a call that blocks is interrupted.
#[tactic(auto, unfolding(crate::specs::Pending::may_interrupt))]
pub fn may_interrupt(signals: &Signals) -> bool
    ensures { result ≡ may_interrupt_now signals.now }
{
    (1..32u8).any(|n| interrupts(signals, n))
}

/// A stop signal of job control: STOP, TSTP, TTIN, TTOU.
pub fn is_stop(number: u8) -> bool
    ensures { result ≡ is_stop_signal number }
{
    19 <= number && number <= 22
}

fn drop_pending(signals: &mut Signals, number: u8)
    requires { number < 32 }
    ensures { signals.new ≡ dropped signals.old number }
{
    signals.pending.remove(number);
}

fn drop_stops(signals: &mut Signals)
    ensures { signals.new ≡ without_stops signals.old }
{
    drop_pending(signals, 19);
    drop_pending(signals, 20);
    drop_pending(signals, 21);
    drop_pending(signals, 22);
}

/// A stop signal takes a pending SIGCONT away, and SIGCONT each pending stop signal.
fn drop_opposites(signals: &mut Signals, number: u8)
    ensures { signals.new ≡ without_opposites signals.old number }
{
    if is_stop(number) {
        drop_pending(signals, CONT);
    } else if number == CONT {
        drop_stops(signals);
    }
}

/// Adds a pending signal, unless it is: it keeps its first sender.
fn add(signals: &mut Signals, number: u8, cause_now: Cause)
    requires { number < 32 }
    ensures { signals.new ≡ added signals.old number cause_now }
{
    if !is_pending(signals, number) {
        signals.pending.insert(number, cause_now);
    }
}

fn continued(job: Job) -> Job
    ensures { result ≡ continued_job job }
{
    match job {
        Job::Free => Job::Free,
        Job::AtStop { .. } => Job::AtStop { continued: true },
    }
}

/// SIGCONT is noted, also where it is blocked, ignored or pending already.
fn notice(signals: &mut Signals, number: u8)
    ensures { signals.new ≡ noticed signals.old number }
{
    if number == CONT {
        signals.job = continued(signals.job);
    }
}

/// A signal is sent, and is pending then.
#[tactic(auto, unfolding(crate::specs::Pending::sent))]
pub fn make_pending(signals: &mut Signals, signal: Signal, cause_now: Cause)
    ensures { signals.new ≡ with_pending signals.old signal cause_now }
{
    drop_opposites(signals, signal.number);
    add(signals, signal.number, cause_now);
    notice(signals, signal.number);
}

fn job_of(number: u8) -> Job
    ensures { result ≡ job_by number }
{
    if is_stop(number) {
        Job::AtStop { continued: false }
    } else {
        Job::Free
    }
}

/// Takes a signal, which is no longer pending, and tells why it came first.
pub fn take(signals: &mut Signals, signal: Signal) -> Option<Cause>
    ensures cause { result ≡ cause_of signals.old signal.number }
    ensures taken { signals.new ≡ without_pending signals.old signal }
{
    let first = cause(signals, signal.number);
    drop_pending(signals, signal.number);
    signals.job = job_of(signal.number);
    first
}

/// SIGCONT was sent since the process took a stop signal, or was stopped.
pub fn is_continued(signals: &Signals) -> bool
    ensures { result ≡ is_continued_by signals.now }
{
    match signals.job {
        Job::Free => false,
        Job::AtStop { continued } => continued,
    }
}

/// The process is at no stop signal any more.
pub fn settle(signals: &mut Signals)
    ensures { signals.new ≡ settled signals.old }
{
    signals.job = Job::Free;
}
