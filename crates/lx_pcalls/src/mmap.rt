//! mmap of private anonymous pages (mmap(2)).

ghost use Rattle.std.specs.Prelude.{◌≡◌, IfOk, OnErr};
ghost use Rattle.lx_proc.specs.Answers.{answer_of, Kept};
ghost use Rattle.lx_pcalls.specs.Mmap.{mmap as meaning, may_map as may_map_of, maps};

use lx_abi::{Call, Errno};
use lx_exec::pages::{pages_for, rights_for};
use lx_proc::{CallReply, Shared, UserState};
use rv_mem::{MemFault, Rights};
use std::alloc::AllocError;

/// MAP_PRIVATE and MAP_ANONYMOUS.
const FLAGS: u64 = 0x22;

/// Where pages are mapped.
const LOW: u64 = 0x28_0000_0000;

const HIGH: u64 = 0x30_0000_0000;

fn may_map(call: &Call) -> bool
    ensures { result ≡ may_map_of call.now }
{
    call.arguments[1] > 0
        && call.arguments[2] <= 7
        && call.arguments[3] == FLAGS
        && call.arguments[5] == 0
}

/// Maps pages in the highest place that is free.
fn map(
    _shared: &Shared,
    user: &mut UserState,
    pages: u64,
    rights: Rights,
) -> Result<CallReply, AllocError>
    ensures answer { IfOk result (λ r. answer_of r _shared.now user.new ≡ maps _shared.now user.old pages rights) }
    ensures kept { IfOk result (λ r. Kept r _shared.now user.old _shared.now user.new) }
    ensures kept_own { OnErr result (user.new ≡ user.old) }
{
    let Some(address) = user.memory.highest_free(pages, LOW, HIGH) else {
        return Ok(CallReply::Refused(Errno::ENOMEM));
    };
    match user.memory.map(address, pages, rights) {
        Ok(()) => Ok(CallReply::Returned(address)),
        Err(MemFault::Memory) => Err(AllocError),
        Err(_) => Ok(CallReply::Refused(Errno::ENOMEM)),
    }
}

/// mmap(addr, length, prot, flags, fd, offset). EINVAL for a length of 0, other rights or flags, or an offset; ENOMEM
/// where there is no room, or there would be too many pages.
#[tactic(auto, unfolding(crate::specs::Mmap::mmap))]
pub fn mmap(_shared: &Shared, call: &Call, user: &mut UserState) -> Result<CallReply, AllocError>
    ensures answer { IfOk result (λ r. answer_of r _shared.now user.new ≡ meaning _shared.now call.now user.old) }
    ensures kept { IfOk result (λ r. Kept r _shared.now user.old _shared.now user.new) }
    ensures kept_own { OnErr result (user.new ≡ user.old) }
{
    if !may_map(call) {
        return Ok(CallReply::Refused(Errno::EINVAL));
    }
    let pages = pages_for(call.arguments[1]);
    map(_shared, user, pages, rights_for(call.arguments[2]))
}
