//! Laws of what a run leaves, as the contracts of functions with empty bodies: call one to cite it.

ghost use Rattle.trace_command.specs.Replays.{EventsComeAgain, RunsComeAgain, ThreadRunsComeAgain};

use pt_schedule::laws::{events_are_few, written_words_read_back};
use trace_threads::laws::threads_take_turns;

/// What is written of a run's events for `--turns-out` makes the run again, in one thread, read as a schedule under the
/// same limit: of a run in one thread, and of one on threads.
pub fn turns_out_replays()
    ensures events { EventsComeAgain }
    ensures runs { RunsComeAgain }
    ensures threads { ThreadRunsComeAgain }
{
    written_words_read_back();
    events_are_few();
    threads_take_turns();
}
