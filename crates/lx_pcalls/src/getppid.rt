//! getppid (getppid(2)).

ghost use Rattle.std.specs.Prelude.{◌≡◌};
ghost use Rattle.lx_proc.specs.Answers.{answer_of, Kept};
ghost use Rattle.lx_pcalls.specs.Getppid.{getppid as meaning};

use lx_abi::Errno;
use lx_proc::{CallReply, Shared, UserState};

/// getppid(). The parent of process 1, and of an orphan, is 0.
pub fn getppid(shared: &Shared, pid: u32, _user: &UserState) -> CallReply
    ensures answer { answer_of result shared.now _user.now ≡ meaning shared.now pid _user.now }
    ensures kept { Kept result shared.now _user.now shared.now _user.now }
{
    match shared.entries.get(pid) {
        None => CallReply::Refused(Errno::ESRCH),
        Some(entry) => CallReply::Returned(u64::from(entry.parent)),
    }
}
