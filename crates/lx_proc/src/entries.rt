//! What the table has of a process.

ghost use Rattle.std.specs.Prelude.{◌≡◌};
ghost use Rattle.std.specs.FinMap as maps;
ghost use Rattle.lx_proc.specs.State.{signals_in, with_signals_at, directory as directory_of};

use crate::state::Shared;
use lx_sig::Signals;

/// The signals of a process.
pub fn signals(shared: &Shared, pid: u32) -> Option<Signals>
    ensures { result ≡ signals_in (maps.get shared.now.entries pid) }
{
    match shared.entries.get(pid) {
        None => None,
        Some(entry) => Some(entry.signals),
    }
}

/// Replaces the signals of a process, where it has an entry.
pub fn set_signals(shared: &mut Shared, pid: u32, signals: Signals)
    ensures { shared.new ≡ with_signals_at shared.old pid signals }
{
    shared.entries.set_signals(pid, signals);
}

/// The path of a process's working directory.
pub fn directory(shared: &Shared, pid: u32) -> &[u8]
    ensures { result.now ≡ directory_of shared.now pid }
{
    match shared.entries.get(pid) {
        None => b"".as_slice(),
        Some(entry) => entry.directory.as_slice(),
    }
}
