//! Which signals come to a process.

ghost use Rattle.std.specs.Prelude.{◌≡◌};
ghost use Rattle.std.specs.FinMap as maps;
ghost use Rattle.lx_turn.specs.Reactions.{next_of, cause_in, taken, is_killed as is_killed_at, joined};

use lx_abi::{Cause, Signal};
use lx_proc::{Shared, send};
use lx_sig::is_pending;

/// The signal that the process would take.
pub fn next(shared: &Shared, pid: u32) -> Option<Signal>
    ensures { result ≡ next_of (maps.get shared.now.entries pid) }
{
    match shared.entries.get(pid) {
        None => None,
        Some(entry) => lx_sig::next(&entry.signals),
    }
}

/// Takes a signal, and says why it came first.
pub fn take(shared: &mut Shared, pid: u32, signal: Signal) -> Cause
    ensures cause { result ≡ cause_in (maps.get shared.old.entries pid) signal }
    ensures taken { shared.new ≡ taken shared.old pid signal }
{
    let Some(entry) = shared.entries.get(pid) else {
        return Cause::Kernel;
    };
    let mut signals = entry.signals;
    let cause = lx_sig::take(&mut signals, signal).unwrap_or(Cause::Kernel);
    shared.entries.set_signals(pid, signals);
    cause
}

/// Makes a signal of the kernel's pending, unless it is.
pub fn join(shared: &mut Shared, pid: u32, signal: Signal)
    ensures { shared.new ≡ joined shared.old pid signal }
{
    send(&mut shared.entries, pid, signal, Cause::Kernel);
}

/// SIGKILL is pending.
pub fn is_killed(shared: &Shared, pid: u32) -> bool
    ensures { result ≡ is_killed_at (maps.get shared.now.entries pid) }
{
    match shared.entries.get(pid) {
        None => false,
        Some(entry) => is_pending(&entry.signals, 9),
    }
}
