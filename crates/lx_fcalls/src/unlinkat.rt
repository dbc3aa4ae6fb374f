//! unlinkat(dirfd, path, flags)

ghost use Rattle.std.specs.Prelude.{◌≡◌, IfOk, map, OnErr};
ghost use Rattle.std.specs.Option.{option_map};
ghost use Rattle.std.specs.List.{list_any};
ghost use Rattle.std.specs.Str.{bytes_eq};
ghost use Rattle.lx_files.specs.Trees.{is_empty as is_empty_of};
ghost use Rattle.lx_proc.specs.Answers.{answer_of, Kept};
ghost use Rattle.lx_fcalls.specs.Unlinkat.{unlinkat as meaning, removes_file, removes_directory};
ghost use Rattle.lx_fcalls.specs.Unlinkat.{is_used as is_used_of};
ghost use Rattle.lx_fcalls.specs.Unlinkat.{unlinks, unlinks_file, unlinks_directory, nameless as nameless_of};

use crate::arguments::place_at;
use crate::flags::{AT_REMOVEDIR, has};
use lx_abi::{Call, Errno};
use lx_files::places::{Lookup, look, path};
use lx_files::{Place, Tree};
use lx_open::release::unlink;
use lx_proc::{CallReply, Entry, Shared, UserState};
use lx_sig::low_argument;
use std::alloc::{AllocError, Global};

/// A path to what is no directory is taken away.
fn remove_file(shared: &mut Shared, user: &mut UserState, path: &[u8], sight: Lookup) -> CallReply
    ensures answer { answer_of result shared.new user.new ≡ removes_file shared.old user.old path.now sight }
    ensures kept { Kept result shared.old user.old shared.new user.new }
{
    match sight {
        Lookup::Absent => CallReply::Refused(Errno::ENOENT),
        Lookup::IsDirectory => CallReply::Refused(Errno::EISDIR),
        Lookup::NotDirectory => CallReply::Refused(Errno::ENOTDIR),
        Lookup::IsFile => {
            unlink(&mut shared.tree, &shared.fds, path);
            CallReply::Returned(0)
        }
    }
}

/// Nothing lies in a directory.
fn is_empty(alloc: Global, tree: &Tree, path: &[u8]) -> Result<bool, AllocError>
    ensures { IfOk result (λ e. e ≡ is_empty_of tree.now path.now) }
{
    Ok(!tree.names.any_under(alloc, path)?)
}

/// One of these processes is in a directory.
fn any_in(entries: &[&Entry], path: &[u8]) -> bool
    ensures { result ≡ list_any (λ e. bytes_eq e.directory path.now) (map (λ r. r.now) entries.now) }
{
    for entry in entries {
        if entry.directory.as_slice() == path {
            return true;
        }
    }
    false
}

/// Some process is in a directory.
fn is_used(alloc: Global, shared: &Shared, path: &[u8]) -> Result<bool, AllocError>
    ensures { IfOk result (λ u. u ≡ is_used_of shared.now path.now) }
{
    let entries = shared.entries.values(alloc)?;
    Ok(any_in(entries.as_slice(), path))
}

/// A path to a directory is taken away.
fn remove_directory(
    alloc: Global,
    shared: &mut Shared,
    user: &mut UserState,
    path: &[u8],
    sight: Lookup,
) -> Result<CallReply, AllocError>
    ensures answer { IfOk result (λ r. answer_of r shared.new user.new
        ≡ removes_directory shared.old user.old path.now sight) }
    ensures kept { IfOk result (λ r. Kept r shared.old user.old shared.new user.new) }
    ensures same { OnErr result (shared.new ≡ shared.old) }
    ensures kept_own { OnErr result (user.new ≡ user.old) }
{
    match sight {
        Lookup::Absent => Ok(CallReply::Refused(Errno::ENOENT)),
        Lookup::IsFile | Lookup::NotDirectory => Ok(CallReply::Refused(Errno::ENOTDIR)),
        Lookup::IsDirectory => {
            if !is_empty(alloc, &shared.tree, path)? {
                return Ok(CallReply::Refused(Errno::ENOTEMPTY));
            }
            if is_used(alloc, shared, path)? {
                return Ok(CallReply::Refused(Errno::EBUSY));
            }
            unlink(&mut shared.tree, &shared.fds, path);
            Ok(CallReply::Returned(0))
        }
    }
}

/// What a last part that is no name is refused with.
fn nameless(last: &[u8], none: Errno, dot: Errno, dots: Errno) -> Option<Errno>
    ensures { option_map (λ e. e.number) result ≡ nameless_of last.now none.number dot.number dots.number }
{
    if last.len() == 0 {
        return Some(none);
    }
    if last == b".".as_slice() {
        return Some(dot);
    }
    if last == b"..".as_slice() {
        return Some(dots);
    }
    None
}

fn unlink_directory(
    alloc: Global,
    shared: &mut Shared,
    user: &mut UserState,
    place: &Place,
) -> Result<CallReply, AllocError>
    ensures answer { IfOk result (λ r. answer_of r shared.new user.new
        ≡ unlinks_directory shared.old user.old place.now) }
    ensures kept { IfOk result (λ r. Kept r shared.old user.old shared.new user.new) }
    ensures same { OnErr result (shared.new ≡ shared.old) }
    ensures kept_own { OnErr result (user.new ≡ user.old) }
{
    match nameless(
        place.last.as_slice(),
        Errno::EBUSY,
        Errno::EINVAL,
        Errno::ENOTEMPTY,
    ) {
        Some(error) => Ok(CallReply::Refused(error)),
        None => {
            let path = path(alloc, place)?;
            let sight = look(&shared.tree, place.slashed, path.as_slice());
            remove_directory(alloc, shared, user, path.as_slice(), sight)
        }
    }
}

fn unlink_file(
    alloc: Global,
    shared: &mut Shared,
    user: &mut UserState,
    place: &Place,
) -> Result<CallReply, AllocError>
    ensures answer { IfOk result (λ r. answer_of r shared.new user.new ≡ unlinks_file shared.old user.old place.now) }
    ensures kept { IfOk result (λ r. Kept r shared.old user.old shared.new user.new) }
    ensures same { OnErr result (shared.new ≡ shared.old) }
    ensures kept_own { OnErr result (user.new ≡ user.old) }
{
    match nameless(
        place.last.as_slice(),
        Errno::EISDIR,
        Errno::EISDIR,
        Errno::EISDIR,
    ) {
        Some(error) => Ok(CallReply::Refused(error)),
        None => {
            let path = path(alloc, place)?;
            let sight = look(&shared.tree, place.slashed, path.as_slice());
            Ok(remove_file(shared, user, path.as_slice(), sight))
        }
    }
}

fn unlink_at(
    alloc: Global,
    shared: &mut Shared,
    user: &mut UserState,
    directories: bool,
    place: &Place,
) -> Result<CallReply, AllocError>
    ensures answer { IfOk result (λ r. answer_of r shared.new user.new
        ≡ unlinks shared.old user.old directories place.now) }
    ensures kept { IfOk result (λ r. Kept r shared.old user.old shared.new user.new) }
    ensures same { OnErr result (shared.new ≡ shared.old) }
    ensures kept_own { OnErr result (user.new ≡ user.old) }
{
    if directories {
        return unlink_directory(alloc, shared, user, place);
    }
    unlink_file(alloc, shared, user, place)
}

/// unlinkat(2): a directory with AT_REMOVEDIR, else another file. Refused with EINVAL for other flags, as the path is,
/// or with ENOENT, ENOTDIR, EISDIR, EBUSY, EINVAL or ENOTEMPTY.
#[tactic(auto, unfolding(crate::specs::Unlinkat::unlinkat))]
pub fn unlinkat(
    alloc: Global,
    shared: &mut Shared,
    pid: u32,
    call: &Call,
    user: &mut UserState,
) -> Result<CallReply, AllocError>
    ensures answer { IfOk result (λ r. answer_of r shared.new user.new ≡ meaning shared.old pid call.now user.old) }
    ensures kept { IfOk result (λ r. Kept r shared.old user.old shared.new user.new) }
    ensures same { OnErr result (shared.new ≡ shared.old) }
    ensures kept_own { OnErr result (user.new ≡ user.old) }
{
    let flags = call.arguments[2];
    if flags & AT_REMOVEDIR != flags {
        return Ok(CallReply::Refused(Errno::EINVAL));
    }
    match place_at(
        alloc,
        shared,
        pid,
        user,
        low_argument(call, 0),
        call.arguments[1],
    )? {
        Ok(place) => unlink_at(alloc, shared, user, has(flags, AT_REMOVEDIR), &place),
        Err(error) => Ok(CallReply::Refused(error)),
    }
}
