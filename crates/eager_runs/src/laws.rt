//! Laws of runs by words `p` and `p.`, as contracts of functions without code of their own: call them to cite them.

ghost use Rattle.eager_runs.specs.Runs.{EagerRuns, StuckRuns};
ghost use Rattle.eager_runs.specs.Replays.{ReplaysGoOn, ReplaysLeaveTheSame};
ghost use Rattle.eager_runs.specs.Rows.{RowsAreShown};
ghost use Rattle.eager_runs.specs.Traces.{EagerTraces};

use lx_kernel::laws::boots_are_first_runs;
use lx_turn::laws::linux_is_a_machine;
use plain_run::laws::ends_are_settled;
use pt_kernel::eager::eager_turns_are_plain;
use pt_kernel::laws::linux_is_told;
use pt_schedule::laws::{events_are_few, turns_give_themselves};
use tr_core::laws::texts_are_whole;
use tr_line::renderings_grow;

/// A run makes the turns that its words give to the untraced kernel. Its trace begins the rendering of that kernel's
/// log, of which nothing is left out, and is all of it where it is whole; with every process traced it leaves the same.
pub fn eager_runs_are_plain()
    ensures { EagerRuns }
{
    eager_turns_are_plain();
    texts_are_whole();
    renderings_grow();
    boots_are_first_runs();
    ends_are_settled();
}

/// A run in which nobody is able any more ends as the untraced kernel does.
pub fn stuck_runs_are_plain()
    ensures { StuckRuns }
{
    events_are_few();
    boots_are_first_runs();
    ends_are_settled();
    eager_turns_are_plain();
    texts_are_whole();
}

/// What is written to any writer is the untraced kernel's log by the turns that the words give it.
pub fn eager_traces_are_plain()
    ensures { EagerTraces }
{
    eager_turns_are_plain();
    texts_are_whole();
    renderings_grow();
}

/// By the words of any turns a run makes these turns, up to where its tracer ends.
pub fn replays_go_on()
    ensures { ReplaysGoOn }
{
    eager_runs_are_plain();
    turns_give_themselves();
}

/// A whole run by any events and one by the words of its turns leave the same, where every process is traced.
pub fn replays_leave_the_same<X>()
    ensures { ReplaysLeaveTheSame X }
{
    linux_is_a_machine();
    linux_is_told();
    replays_go_on();
    texts_are_whole();
    boots_are_first_runs();
}

/// A traced run by a sweep's words, under a script that chooses as a row's does, ends as that row's run.
pub fn rows_are_shown()
    ensures { RowsAreShown }
{
    eager_runs_are_plain();
    stuck_runs_are_plain();
}
