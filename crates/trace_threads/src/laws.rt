//! Laws of runs on threads, as the contracts of functions with empty bodies: call one to cite it.

ghost use Rattle.trace_threads.specs.InTurn.{ThreadsTakeTurns};

use lx_proc::{Shared, UserState};
use pt_journal::laws::journals_tell;
use pt_model::laws::{hosts_run_alike, turns_tell};

/// In the world of its run each turn of a journal was due. The first three requests were served before any turn, and
/// the last event left nothing asked, or it was the last that was allowed, or it left nobody able.
pub fn threads_take_turns()
    ensures { ThreadsTakeTurns }
{
    journals_tell::<Shared, UserState>();
    hosts_run_alike::<Shared, UserState>();
    turns_tell::<Shared, UserState>();
}
