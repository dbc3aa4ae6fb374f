//! Bytes put at a place of the caller's.

ghost use Rattle.std.specs.Prelude.{◌≡◌, IfOk, OnErr, IsTrue, IsFalse, true, None, length, is_some};
ghost use Rattle.rv_mem.specs.Memory.{first_fault, written};
ghost use Rattle.rv_mem.specs.declared.rights.Access.TheVariants as access;

use rv_mem::{MemFault, Space};
use std::alloc::AllocError;

/// Puts bytes at a place of the caller's, all of them or none: whether they could be.
pub fn give(memory: &mut Space, at: u64, bytes: &[u8]) -> Result<bool, AllocError>
    ensures ok { IfOk result (λ g. IsTrue g → first_fault access.Write memory.old at (length bytes.now) ≡ None) }
    ensures fault { IfOk result (λ g. IsFalse g →
        is_some (first_fault access.Write memory.old at (length bytes.now)) ≡ true) }
    ensures written { IfOk result (λ g. IsTrue g → memory.new ≡ written memory.old at bytes.now) }
    ensures kept { IfOk result (λ g. IsFalse g → memory.new ≡ memory.old) }
    ensures err { OnErr result (memory.new ≡ memory.old) }
{
    match memory.write(at, bytes) {
        Ok(()) => Ok(true),
        Err(MemFault::Memory) => Err(AllocError),
        Err(_) => Ok(false),
    }
}
