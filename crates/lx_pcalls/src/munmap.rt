//! munmap (munmap(2)).

ghost use Rattle.std.specs.Prelude.{◌≡◌};
ghost use Rattle.lx_proc.specs.Answers.{answer_of, Kept};
ghost use Rattle.lx_pcalls.specs.Munmap.{munmap as meaning, may_unmap as may_unmap_of};

use lx_abi::{Call, Errno};
use lx_exec::pages::{ADDRESS_END, PAGE, pages_for};
use lx_proc::{CallReply, Shared, UserState};

fn may_unmap(address: u64, length: u64) -> bool
    ensures { result ≡ may_unmap_of address length }
{
    address % PAGE == 0 && length > 0 && length <= ADDRESS_END && address <= ADDRESS_END - length
}

/// munmap(addr, length). EINVAL unless the address is a page's, the length above 0 and the end no higher than that of
/// all addresses.
#[tactic(auto, unfolding(crate::specs::Munmap::munmap))]
pub fn munmap(_shared: &Shared, call: &Call, user: &mut UserState) -> CallReply
    ensures answer { answer_of result _shared.now user.new ≡ meaning _shared.now call.now user.old }
    ensures kept { Kept result _shared.now user.old _shared.now user.new }
{
    let address = call.arguments[0];
    let length = call.arguments[1];
    if !may_unmap(address, length) {
        return CallReply::Refused(Errno::EINVAL);
    }
    user.memory.unmap(address, pages_for(length));
    CallReply::Returned(0)
}
