//! chdir(path)

ghost use Rattle.std.specs.Prelude.{◌≡◌, IfOk, OnErr};
ghost use Rattle.lx_proc.specs.State.{changed};
ghost use Rattle.lx_proc.specs.Answers.{answer_of, Kept};
ghost use Rattle.lx_fcalls.specs.Chdir.{chdir as meaning, goes_at};

use crate::arguments::place_at;
use crate::flags::AT_FDCWD;
use containers::Bytes;
use lx_abi::{Call, Errno};
use lx_files::Place;
use lx_files::places::{Lookup, look, path};
use lx_proc::{CallReply, Shared, Table, UserState};
use std::alloc::{AllocError, Global};

/// A process is in another directory.
fn enter(entries: &mut Table, pid: u32, path: Vec<u8>)
    ensures { entries.new ≡ changed entries.old pid (λ e. record e { directory = path.items }) }
{
    entries.set_directory(pid, Bytes::from_vec(path));
}

fn go_at(
    alloc: Global,
    shared: &mut Shared,
    pid: u32,
    user: &mut UserState,
    place: &Place,
) -> Result<CallReply, AllocError>
    ensures answer { IfOk result (λ r. answer_of r shared.new user.new ≡ goes_at shared.old pid user.old place.now) }
    ensures kept { IfOk result (λ r. Kept r shared.old user.old shared.new user.new) }
    ensures same { OnErr result (shared.new ≡ shared.old) }
    ensures kept_own { OnErr result (user.new ≡ user.old) }
{
    let path = path(alloc, place)?;
    match look(&shared.tree, place.slashed, path.as_slice()) {
        Lookup::Absent => Ok(CallReply::Refused(Errno::ENOENT)),
        Lookup::IsFile | Lookup::NotDirectory => Ok(CallReply::Refused(Errno::ENOTDIR)),
        Lookup::IsDirectory => {
            shared.tree.names.enter(alloc, path.as_slice());
            enter(&mut shared.entries, pid, path);
            Ok(CallReply::Returned(0))
        }
    }
}

/// chdir(2). Refused as the path is, or with ENOENT or ENOTDIR.
#[tactic(auto, unfolding(crate::specs::Chdir::chdir))]
pub fn chdir(
    alloc: Global,
    shared: &mut Shared,
    pid: u32,
    call: &Call,
    user: &mut UserState,
) -> Result<CallReply, AllocError>
    ensures answer { IfOk result (λ r. answer_of r shared.new user.new ≡ meaning shared.old pid call.now user.old) }
    ensures kept { IfOk result (λ r. Kept r shared.old user.old shared.new user.new) }
    ensures same { OnErr result (shared.new ≡ shared.old) }
    ensures kept_own { OnErr result (user.new ≡ user.old) }
{
    match place_at(alloc, shared, pid, user, AT_FDCWD, call.arguments[0])? {
        Ok(place) => go_at(alloc, shared, pid, user, &place),
        Err(error) => Ok(CallReply::Refused(error)),
    }
}
