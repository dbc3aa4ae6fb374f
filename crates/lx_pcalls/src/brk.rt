//! brk (brk(2)).

ghost use Rattle.std.specs.Prelude.{◌≡◌, ◌≤◌, IfOk, OnErr};
ghost use Rattle.lx_proc.specs.Answers.{answer_of, Kept};
ghost use Rattle.lx_exec.specs.Pages.{address_end};
ghost use Rattle.lx_pcalls.specs.Brk.{brk as meaning, may_end as may_end_of, grows, resizes};
ghost use Rattle.lx_pcalls.specs.Brk.{with_end, with_heap, shrunk};

use lx_abi::Call;
use lx_exec::pages::{ADDRESS_END, PAGE, pages_for, rights_for};
use lx_proc::{CallReply, Heap, Shared, UserState};
use rv_mem::MemFault;
use std::alloc::AllocError;

/// The most bytes of a heap.
const HEAP_LIMIT: u64 = 0x100_0000;

fn may_end(heap: Heap, address: u64) -> bool
    ensures { result ≡ may_end_of heap address }
{
    heap.start <= address
        && address - heap.start <= HEAP_LIMIT
        && address <= ADDRESS_END
        && heap.end <= ADDRESS_END
}

/// The heap ends higher, unless there would be too many pages.
fn grow(user: &mut UserState, address: u64) -> Result<(), AllocError>
    requires low { user.old.heap.end ≤ address }
    requires high { address ≤ address_end }
    ensures ok { IfOk result (λ u. user.new ≡ grows user.old address) }
    ensures err { OnErr result (user.new ≡ user.old) }
{
    let first = pages_for(user.heap.end);
    let pages = pages_for(address) - first;
    match user.memory.map(PAGE * first, pages, rights_for(3)) {
        Ok(()) => {
            user.heap.end = address;
            Ok(())
        }
        Err(MemFault::Memory) => Err(AllocError),
        Err(_) => Ok(()),
    }
}

/// The heap ends lower.
fn shrink(user: &mut UserState, address: u64)
    requires low { address ≤ user.old.heap.end }
    requires high { user.old.heap.end ≤ address_end }
    ensures { user.new ≡ with_heap user.old (shrunk user.old.memory user.old.heap.end address) address }
{
    let first = pages_for(address);
    let pages = pages_for(user.heap.end) - first;
    user.memory.unmap(PAGE * first, pages);
    user.heap.end = address;
}

fn resize(user: &mut UserState, address: u64) -> Result<(), AllocError>
    requires new { address ≤ address_end }
    requires old { user.old.heap.end ≤ address_end }
    ensures ok { IfOk result (λ u. user.new ≡ resizes user.old address) }
    ensures err { OnErr result (user.new ≡ user.old) }
{
    if user.heap.end < address {
        return grow(user, address);
    }
    shrink(user, address);
    Ok(())
}

/// The heap ends at the address, where it may.
fn move_end(user: &mut UserState, address: u64) -> Result<(), AllocError>
    ensures ok { IfOk result (λ u. user.new ≡ with_end user.old address) }
    ensures err { OnErr result (user.new ≡ user.old) }
{
    if may_end(user.heap, address) {
        return resize(user, address);
    }
    Ok(())
}

/// brk(addr). Where the heap can't end there, or would have too many pages, nothing changes.
#[tactic(auto, unfolding(crate::specs::Brk::brk))]
pub fn brk(_shared: &Shared, call: &Call, user: &mut UserState) -> Result<CallReply, AllocError>
    ensures answer { IfOk result (λ r. answer_of r _shared.now user.new ≡ meaning _shared.now call.now user.old) }
    ensures kept { IfOk result (λ r. Kept r _shared.now user.old _shared.now user.new) }
    ensures kept_own { OnErr result (user.new ≡ user.old) }
{
    move_end(user, call.arguments[0])?;
    Ok(CallReply::Returned(user.heap.end))
}
