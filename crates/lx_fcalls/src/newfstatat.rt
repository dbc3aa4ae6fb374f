//! newfstatat(dirfd, path, buf, flags)

ghost use Rattle.std.specs.Prelude.{◌≡◌, IfOk, OnErr};
ghost use Rattle.lx_proc.specs.Answers.{answer_of, Kept};
ghost use Rattle.lx_fcalls.specs.Newfstatat.{newfstatat as meaning, size_at as size_at_of, tells, tells_at};

use crate::arguments::place_at;
use crate::flags::AT_SYMLINK_NOFOLLOW;
use crate::stat::{DIRECTORY, FILE, give_stat};
use lx_abi::{Call, Errno, Node};
use lx_files::places::{Lookup, look, path};
use lx_files::{Place, Tree};
use lx_proc::{CallReply, Shared, UserState};
use lx_sig::low_argument;
use std::alloc::{AllocError, Global};

/// How many bytes stand at a path.
fn size_at(tree: &Tree, path: &[u8]) -> u64
    ensures { result ≡ size_at_of tree.now path.now }
{
    match tree.find(path) {
        Some(Node::File(bytes)) => bytes.len() as u64,
        Some(Node::Directory) | None => 0,
    }
}

fn tell(
    alloc: Global,
    shared: &mut Shared,
    user: &mut UserState,
    at: u64,
    path: &[u8],
    sight: Lookup,
) -> Result<CallReply, AllocError>
    ensures answer { IfOk result (λ r. answer_of r shared.new user.new ≡ tells shared.old user.old at path.now sight) }
    ensures kept { IfOk result (λ r. Kept r shared.old user.old shared.new user.new) }
    ensures same { OnErr result (shared.new ≡ shared.old) }
    ensures kept_own { OnErr result (user.new ≡ user.old) }
{
    match sight {
        Lookup::Absent => Ok(CallReply::Refused(Errno::ENOENT)),
        Lookup::NotDirectory => Ok(CallReply::Refused(Errno::ENOTDIR)),
        Lookup::IsDirectory => give_stat(alloc, shared, user, at, DIRECTORY, 0),
        Lookup::IsFile => {
            let size = size_at(&shared.tree, path);
            give_stat(alloc, shared, user, at, FILE, size)
        }
    }
}

fn tell_at(
    alloc: Global,
    shared: &mut Shared,
    user: &mut UserState,
    at: u64,
    place: &Place,
) -> Result<CallReply, AllocError>
    ensures answer { IfOk result (λ r. answer_of r shared.new user.new ≡ tells_at shared.old user.old at place.now) }
    ensures kept { IfOk result (λ r. Kept r shared.old user.old shared.new user.new) }
    ensures same { OnErr result (shared.new ≡ shared.old) }
    ensures kept_own { OnErr result (user.new ≡ user.old) }
{
    let path = path(alloc, place)?;
    let sight = look(&shared.tree, place.slashed, path.as_slice());
    tell(alloc, shared, user, at, path.as_slice(), sight)
}

/// newfstatat(2). Refused with EINVAL for other flags, as the path is, or with ENOENT, ENOTDIR or EFAULT.
#[tactic(auto, unfolding(crate::specs::Newfstatat::newfstatat))]
pub fn newfstatat(
    alloc: Global,
    shared: &mut Shared,
    pid: u32,
    call: &Call,
    user: &mut UserState,
) -> Result<CallReply, AllocError>
    ensures answer { IfOk result (λ r. answer_of r shared.new user.new ≡ meaning shared.old pid call.now user.old) }
    ensures kept { IfOk result (λ r. Kept r shared.old user.old shared.new user.new) }
    ensures same { OnErr result (shared.new ≡ shared.old) }
    ensures kept_own { OnErr result (user.new ≡ user.old) }
{
    let flags = call.arguments[3];
    if flags & AT_SYMLINK_NOFOLLOW != flags {
        return Ok(CallReply::Refused(Errno::EINVAL));
    }
    match place_at(
        alloc,
        shared,
        pid,
        user,
        low_argument(call, 0),
        call.arguments[1],
    )? {
        Ok(place) => tell_at(alloc, shared, user, call.arguments[2], &place),
        Err(error) => Ok(CallReply::Refused(error)),
    }
}
