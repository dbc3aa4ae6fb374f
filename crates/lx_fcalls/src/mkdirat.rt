//! mkdirat(dirfd, path, mode)

ghost use Rattle.std.specs.Prelude.{◌≡◌, IfOk, OnErr};
ghost use Rattle.lx_proc.specs.Answers.{answer_of, Kept};
ghost use Rattle.lx_fcalls.specs.Mkdirat.{mkdirat as meaning, makes_at};

use crate::arguments::place_at;
use lx_abi::{Call, Errno, Node};
use lx_files::Place;
use lx_files::places::{Lookup, look, path};
use lx_proc::{CallReply, Shared, UserState};
use lx_sig::low_argument;
use std::alloc::{AllocError, Global};

fn make_at(
    alloc: Global,
    shared: &mut Shared,
    user: &mut UserState,
    place: &Place,
) -> Result<CallReply, AllocError>
    ensures answer { IfOk result (λ r. answer_of r shared.new user.new ≡ makes_at shared.old user.old place.now) }
    ensures kept { IfOk result (λ r. Kept r shared.old user.old shared.new user.new) }
    ensures same { OnErr result (shared.new ≡ shared.old) }
    ensures kept_own { OnErr result (user.new ≡ user.old) }
{
    let path = path(alloc, place)?;
    match look(&shared.tree, place.slashed, path.as_slice()) {
        Lookup::IsFile | Lookup::IsDirectory => Ok(CallReply::Refused(Errno::EEXIST)),
        Lookup::NotDirectory => Ok(CallReply::Refused(Errno::ENOTDIR)),
        Lookup::Absent => {
            if !shared.tree.has_room() {
                return Ok(CallReply::Refused(Errno::ENOSPC));
            }
            shared.tree.create(alloc, path.as_slice(), Node::Directory)?;
            Ok(CallReply::Returned(0))
        }
    }
}

/// mkdirat(2). Refused as the path is, or with EEXIST, ENOTDIR or ENOSPC.
#[tactic(auto, unfolding(crate::specs::Mkdirat::mkdirat))]
pub fn mkdirat(
    alloc: Global,
    shared: &mut Shared,
    pid: u32,
    call: &Call,
    user: &mut UserState,
) -> Result<CallReply, AllocError>
    ensures answer { IfOk result (λ r. answer_of r shared.new user.new ≡ meaning shared.old pid call.now user.old) }
    ensures kept { IfOk result (λ r. Kept r shared.old user.old shared.new user.new) }
    ensures same { OnErr result (shared.new ≡ shared.old) }
    ensures kept_own { OnErr result (user.new ≡ user.old) }
{
    match place_at(
        alloc,
        shared,
        pid,
        user,
        low_argument(call, 0),
        call.arguments[1],
    )? {
        Ok(place) => make_at(alloc, shared, user, &place),
        Err(error) => Ok(CallReply::Refused(error)),
    }
}
