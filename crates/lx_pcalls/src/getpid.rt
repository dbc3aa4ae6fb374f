//! getpid and gettid (getpid(2), gettid(2)).

ghost use Rattle.std.specs.Prelude.{◌≡◌};
ghost use Rattle.lx_proc.specs.Answers.{answer_of, Kept};
ghost use Rattle.lx_pcalls.specs.Getpid.{getpid as meaning};

use lx_proc::{CallReply, Shared, UserState};

/// getpid(), gettid().
pub fn getpid(_shared: &Shared, pid: u32, _user: &UserState) -> CallReply
    ensures answer { answer_of result _shared.now _user.now ≡ meaning _shared.now pid _user.now }
    ensures kept { Kept result _shared.now _user.now _shared.now _user.now }
{
    CallReply::Returned(u64::from(pid))
}
