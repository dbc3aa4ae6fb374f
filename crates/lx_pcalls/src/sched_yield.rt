//! sched_yield (sched_yield(2)).

ghost use Rattle.std.specs.Prelude.{◌≡◌};
ghost use Rattle.lx_proc.specs.Answers.{answer_of, Kept};
ghost use Rattle.lx_pcalls.specs.SchedYield.{sched_yield as meaning};

use lx_proc::{CallReply, Shared, UserState};

/// sched_yield(). Always 0.
pub fn sched_yield(_shared: &Shared, _user: &UserState) -> CallReply
    ensures answer { answer_of result _shared.now _user.now ≡ meaning _shared.now _user.now }
    ensures kept { Kept result _shared.now _user.now _shared.now _user.now }
{
    CallReply::Returned(0)
}
