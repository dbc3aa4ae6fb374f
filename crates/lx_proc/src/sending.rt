//! How a process gets a signal.

ghost use Rattle.std.specs.Prelude.{◌≡◌};
ghost use Rattle.lx_proc.specs.Sending.{sent};

use crate::table::Table;
use lx_abi::{Cause, Signal};
use lx_sig::make_pending;

/// Makes a signal pending to a process that is there, whoever sends it: kill(2), the kernel or a script.
pub fn send(entries: &mut Table, pid: u32, signal: Signal, cause: Cause)
    ensures { entries.new ≡ sent entries.old pid signal cause }
{
    let Some(entry) = entries.get(pid) else {
        return;
    };
    let mut signals = entry.signals;
    make_pending(&mut signals, signal, cause);
    entries.set_signals(pid, signals);
}
