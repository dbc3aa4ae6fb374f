//! lseek(fd, offset, whence)

ghost use Rattle.std.specs.Prelude.{◌≡◌};
ghost use Rattle.lx_proc.specs.Answers.{answer_of, Kept};
ghost use Rattle.lx_fcalls.specs.Lseek.{lseek as meaning, landing as landing_of, origin as origin_of};
ghost use Rattle.lx_fcalls.specs.Lseek.{seeks_node, seeks};

use crate::contents::content;
use lx_abi::limits::LARGEST_FILE;
use lx_abi::{Call, Errno};
use lx_open::{Description, Object, Slot};
use lx_proc::{CallReply, Shared, UserState};
use lx_sig::low_argument;

/// Where a signed distance leads from a place.
fn landing(from: u64, by: u64) -> Option<u64>
    ensures { result ≡ landing_of from by }
{
    if by < 0x8000_0000_0000_0000 {
        let to = from.saturating_add(by);
        if to <= LARGEST_FILE {
            return Some(to);
        }
        return None;
    }
    let back = u64::MAX - by;
    if from <= back {
        return None;
    }
    let to = from - back - 1;
    if to <= LARGEST_FILE {
        return Some(to);
    }
    None
}

fn origin(shared: &Shared, description: Description, node: u32, whence: u64) -> Option<u64>
    ensures { result ≡ origin_of shared.now description node whence }
{
    match whence {
        0 => Some(0),
        1 => Some(description.offset),
        2 => Some(content(&shared.tree, node).len() as u64),
        _ => None,
    }
}

fn seek_node(
    shared: &mut Shared,
    user: &mut UserState,
    slot: Slot,
    description: Description,
    by: u64,
    whence: u64,
    node: u32,
) -> CallReply
    ensures answer { answer_of result shared.new user.new
        ≡ seeks_node shared.old user.old slot description by whence node }
    ensures kept { Kept result shared.old user.old shared.new user.new }
{
    let Some(from) = origin(shared, description, node, whence) else {
        return CallReply::Refused(Errno::EINVAL);
    };
    let Some(to) = landing(from, by) else {
        return CallReply::Refused(Errno::EINVAL);
    };
    shared.fds.move_to(slot.description, to);
    CallReply::Returned(to)
}

fn seek_object(
    shared: &mut Shared,
    user: &mut UserState,
    slot: Slot,
    description: Description,
    by: u64,
    whence: u64,
) -> CallReply
    ensures answer { answer_of result shared.new user.new
        ≡ seeks shared.old user.old slot description by whence description.object }
    ensures kept { Kept result shared.old user.old shared.new user.new }
{
    match description.object {
        Object::Input | Object::Console | Object::ReadEnd(_) | Object::WriteEnd(_) =>
            CallReply::Refused(Errno::ESPIPE),
        Object::Opened(node) => seek_node(shared, user, slot, description, by, whence, node),
    }
}

/// lseek(2). Refused with EBADF, EINVAL for another whence, ESPIPE, or EINVAL outside 0 to the largest file.
#[tactic(auto, unfolding(crate::specs::Lseek::lseek))]
pub fn lseek(shared: &mut Shared, pid: u32, call: &Call, user: &mut UserState) -> CallReply
    ensures answer { answer_of result shared.new user.new ≡ meaning shared.old pid call.now user.old }
    ensures kept { Kept result shared.old user.old shared.new user.new }
{
    let Some(slot) = shared.fds.slot(pid, low_argument(call, 0)) else {
        return CallReply::Refused(Errno::EBADF);
    };
    let Some(description) = shared.fds.description(slot.description) else {
        return CallReply::Refused(Errno::EBADF);
    };
    if call.arguments[2] >= 3 {
        return CallReply::Refused(Errno::EINVAL);
    }
    seek_object(
        shared,
        user,
        slot,
        description,
        call.arguments[1],
        call.arguments[2],
    )
}
