//! struct stat of riscv64: stat(2), inode(7).

ghost use Rattle.std.specs.Prelude.{◌≡◌, IfOk, OnErr};
ghost use Rattle.lx_proc.specs.Answers.{answer_of, Kept, gives};
ghost use Rattle.lx_fcalls.specs.Stat.{stat as stat_of};

use crate::giving::give;
use containers::Bytes;
use lx_abi::Errno;
use lx_proc::{CallReply, Shared, UserState};
use std::alloc::{AllocError, Global};

// Types and permissions.
pub const FILE: u32 = 0o100755;

pub const DIRECTORY: u32 = 0o040755;

pub const PIPE: u32 = 0o010600;

pub const DEVICE: u32 = 0o020620;

/// A struct stat.
#[tactic(auto, unfolding(crate::specs::Stat::stat))]
fn stat(alloc: Global, mode: u32, size: u64) -> Result<Bytes, AllocError>
    ensures { IfOk result (λ b. b ≡ stat_of mode size) }
{
    let mut bytes = Bytes::from_slice(alloc, &[0u8; 16])?;
    bytes.extend(&mode.to_le_bytes())?;
    bytes.extend(&[0u8; 28])?;
    bytes.extend(&size.to_le_bytes())?;
    bytes.extend(&4096u32.to_le_bytes())?;
    bytes.extend(&[0u8; 68])?;
    Ok(bytes)
}

/// Puts a struct stat at a place of the caller's.
pub fn give_stat(
    alloc: Global,
    shared: &mut Shared,
    user: &mut UserState,
    at: u64,
    mode: u32,
    size: u64,
) -> Result<CallReply, AllocError>
    ensures answer { IfOk result (λ r. answer_of r shared.new user.new
        ≡ gives shared.old user.old at (stat_of mode size) 0) }
    ensures kept { IfOk result (λ r. Kept r shared.old user.old shared.new user.new) }
    ensures same { OnErr result (shared.new ≡ shared.old) }
    ensures kept_own { OnErr result (user.new ≡ user.old) }
{
    let bytes = stat(alloc, mode, size)?;
    if !give(&mut user.memory, at, bytes.as_slice())? {
        return Ok(CallReply::Refused(Errno::EFAULT));
    }
    Ok(CallReply::Returned(0))
}
