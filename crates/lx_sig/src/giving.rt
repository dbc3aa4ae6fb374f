//! Results that are written to a caller's memory.

ghost use Rattle.std.specs.Prelude.{◌≡◌, IfOk, OnErr};
ghost use Rattle.lx_sig.specs.Calls.{given, given_as, Keeps};

use lx_abi::Errno;
use rv_mem::{MemFault, Space};
use std::alloc::AllocError;

/// Writes a result to its place, unless that is null. EFAULT where it can't be written.
pub(crate) fn give(
    memory: &mut Space,
    at: u64,
    bytes: &[u8],
) -> Result<Result<(), Errno>, AllocError>
    ensures answer { IfOk result (λ r. given_as r memory.new ≡ given memory.old at bytes.now) }
    ensures kept { IfOk result (λ r. Keeps r memory.old memory.new) }
    ensures err { OnErr result (memory.new ≡ memory.old) }
{
    if at == 0 {
        return Ok(Ok(()));
    }
    match memory.write(at, bytes) {
        Ok(()) => Ok(Ok(())),
        Err(MemFault::Memory) => Err(AllocError),
        Err(_) => Ok(Err(Errno::EFAULT)),
    }
}
