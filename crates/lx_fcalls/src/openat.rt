//! openat(dirfd, path, flags, mode)

ghost use Rattle.std.specs.Prelude.{◌≡◌, IfOk, OnOk, OnErr};
ghost use Rattle.lx_proc.specs.Answers.{answer_of, Kept};
ghost use Rattle.lx_fcalls.specs.Openat.{openat as meaning, opens_new, opens_file, opens_at, opening as opening_of};
ghost use Rattle.lx_fcalls.specs.Openat.{emptied_if};

use crate::arguments::place_at;
use crate::flags::{O_APPEND, O_CLOEXEC, O_CREAT, O_EXCL, O_TRUNC, OPEN_FLAGS, has};
use containers::Content;
use lx_abi::{Call, Errno, Node};
use lx_files::places::{Lookup, look, path};
use lx_files::{Place, Tree};
use lx_open::{Description, Object};
use lx_proc::{CallReply, Shared, UserState};
use lx_sig::low_argument;
use std::alloc::{AllocError, Global};

fn opening(node: u32, flags: u64) -> Description
    ensures { result ≡ opening_of node flags }
{
    Description {
        object: Object::Opened(node),
        offset: 0,
        may_read: flags % 4 != 1,
        may_write: flags % 4 != 0,
        appends: has(flags, O_APPEND),
    }
}

/// A new file. Its descriptor comes first, since that can be taken back without memory.
fn open_new(
    alloc: Global,
    shared: &mut Shared,
    pid: u32,
    user: &mut UserState,
    flags: u64,
    slashed: bool,
    path: &[u8],
) -> Result<CallReply, AllocError>
    ensures answer { IfOk result (λ r. answer_of r shared.new user.new
        ≡ opens_new shared.old pid user.old flags slashed path.now) }
    ensures kept { IfOk result (λ r. Kept r shared.old user.old shared.new user.new) }
    ensures same { OnErr result (shared.new ≡ shared.old) }
    ensures kept_own { OnErr result (user.new ≡ user.old) }
{
    if !has(flags, O_CREAT) {
        return Ok(CallReply::Refused(Errno::ENOENT));
    }
    if slashed {
        return Ok(CallReply::Refused(Errno::EISDIR));
    }
    let Some(fd) = shared.fds.free(pid) else {
        return Ok(CallReply::Refused(Errno::EMFILE));
    };
    if !shared.tree.has_room() {
        return Ok(CallReply::Refused(Errno::ENOSPC));
    }
    let node = shared.tree.nodes.vacant()?;
    let content = Content::new(alloc)?;
    let opened = shared
        .fds
        .open(pid, fd, opening(node, flags), has(flags, O_CLOEXEC));
    if let Err(error) = opened {
        drop(content);
        return Err(error);
    }
    match shared.tree.create(alloc, path, Node::File(content)) {
        Ok(_) => Ok(CallReply::Returned(u64::from(fd))),
        Err(error) => {
            shared.fds.take_back(pid, fd);
            Err(error)
        }
    }
}

/// A file is emptied, or isn't.
fn empty_if(tree: &mut Tree, empties: bool, node: u32) -> Result<(), AllocError>
    ensures ok { OnOk result (tree.new ≡ emptied_if empties tree.old node) }
    ensures err { OnErr result (tree.new ≡ tree.old) }
{
    if empties {
        tree.nodes.clear(node)
    } else {
        Ok(())
    }
}

/// A file that is there.
fn open_file(
    shared: &mut Shared,
    pid: u32,
    user: &mut UserState,
    flags: u64,
    path: &[u8],
) -> Result<CallReply, AllocError>
    ensures answer { IfOk result (λ r. answer_of r shared.new user.new
        ≡ opens_file shared.old pid user.old flags path.now) }
    ensures kept { IfOk result (λ r. Kept r shared.old user.old shared.new user.new) }
    ensures same { OnErr result (shared.new ≡ shared.old) }
    ensures kept_own { OnErr result (user.new ≡ user.old) }
{
    if has(flags, O_CREAT) && has(flags, O_EXCL) {
        return Ok(CallReply::Refused(Errno::EEXIST));
    }
    let Some(fd) = shared.fds.free(pid) else {
        return Ok(CallReply::Refused(Errno::EMFILE));
    };
    let Some(node) = shared.tree.names.get(path) else {
        return Ok(CallReply::Refused(Errno::ENOENT));
    };
    shared
        .fds
        .open(pid, fd, opening(node, flags), has(flags, O_CLOEXEC))?;
    let Err(error) = empty_if(&mut shared.tree, has(flags, O_TRUNC), node) else {
        return Ok(CallReply::Returned(u64::from(fd)));
    };
    shared.fds.take_back(pid, fd);
    Err(error)
}

fn open_at(
    alloc: Global,
    shared: &mut Shared,
    pid: u32,
    user: &mut UserState,
    flags: u64,
    place: &Place,
) -> Result<CallReply, AllocError>
    ensures answer { IfOk result (λ r. answer_of r shared.new user.new
        ≡ opens_at shared.old pid user.old flags place.now) }
    ensures kept { IfOk result (λ r. Kept r shared.old user.old shared.new user.new) }
    ensures same { OnErr result (shared.new ≡ shared.old) }
    ensures kept_own { OnErr result (user.new ≡ user.old) }
{
    let path = path(alloc, place)?;
    match look(&shared.tree, place.slashed, path.as_slice()) {
        Lookup::Absent => open_new(
            alloc,
            shared,
            pid,
            user,
            flags,
            place.slashed,
            path.as_slice(),
        ),
        Lookup::IsFile => open_file(shared, pid, user, flags, path.as_slice()),
        Lookup::IsDirectory => Ok(CallReply::Refused(Errno::EISDIR)),
        Lookup::NotDirectory => Ok(CallReply::Refused(Errno::ENOTDIR)),
    }
}

/// openat(2): the lowest free descriptor. Refused with EINVAL for access 3 or other flags, as the path is, or with
/// ENOENT, ENOTDIR, EISDIR, EEXIST, EMFILE or ENOSPC.
#[tactic(auto, unfolding(crate::specs::Openat::openat))]
pub fn openat(
    alloc: Global,
    shared: &mut Shared,
    pid: u32,
    call: &Call,
    user: &mut UserState,
) -> Result<CallReply, AllocError>
    ensures answer { IfOk result (λ r. answer_of r shared.new user.new ≡ meaning shared.old pid call.now user.old) }
    ensures kept { IfOk result (λ r. Kept r shared.old user.old shared.new user.new) }
    ensures same { OnErr result (shared.new ≡ shared.old) }
    ensures kept_own { OnErr result (user.new ≡ user.old) }
{
    let flags = call.arguments[2];
    if flags & OPEN_FLAGS != flags || flags % 4 == 3 {
        return Ok(CallReply::Refused(Errno::EINVAL));
    }
    match place_at(
        alloc,
        shared,
        pid,
        user,
        low_argument(call, 0),
        call.arguments[1],
    )? {
        Ok(place) => open_at(alloc, shared, pid, user, flags, &place),
        Err(error) => Ok(CallReply::Refused(error)),
    }
}
