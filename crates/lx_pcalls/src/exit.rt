//! exit and exit_group (_exit(2), exit_group(2)).

ghost use Rattle.std.specs.Prelude.{◌≡◌};
ghost use Rattle.lx_proc.specs.Answers.{answer_of, Kept};
ghost use Rattle.lx_pcalls.specs.Exit.{exit as meaning};

use lx_abi::Call;
use lx_proc::{CallReply, Shared, UserState};

/// exit(status), exit_group(status). The process ends with the status's low eight bits.
pub fn exit(_shared: &Shared, call: &Call, _user: &UserState) -> CallReply
    ensures answer { answer_of result _shared.now _user.now ≡ meaning call.now }
    ensures kept { Kept result _shared.now _user.now _shared.now _user.now }
{
    CallReply::Ended((call.arguments[0] & 0xff) as u32 * 256)
}
