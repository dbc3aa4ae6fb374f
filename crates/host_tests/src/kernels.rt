//! Calls of kernels under an empty script. Each helper makes one of them, without clauses; a kernel that a function
//! holds at its end is dropped by name, which is proved in a second where it takes half a minute otherwise.

use crate::boots::boot;
use lx_abi::{Boot, Cause, Mode, Outcome, Script, Signal};
use lx_boot::BootFault;
use lx_kernel::Kernel;
use std::alloc::{AllocError, Global};

fn boot_by(alloc: Global, boot: Boot) -> Result<Kernel, BootFault> {
    Kernel::boot(alloc, boot, Script::empty(alloc))
}

/// The kernel of a boot that is accepted.
pub(crate) fn booted(alloc: Global, boot: Boot) -> Result<Kernel, AllocError> {
    match boot_by(alloc, boot) {
        Ok(kernel) => Ok(kernel),
        Err(_) => Err(AllocError),
    }
}

/// A kernel without files: execve fails, and the first program exits with 127.
pub(crate) fn without_files(alloc: Global) -> Result<Kernel, AllocError> {
    booted(alloc, boot(alloc, "", "/p")?)
}

/// The number of a boot's fault, 0 where it is accepted.
pub(crate) fn fault_of(alloc: Global, boot: Boot) -> Result<u8, AllocError> {
    match boot_by(alloc, boot) {
        Ok(kernel) => {
            drop(kernel);
            Ok(0)
        }
        Err(BootFault::Memory) => Err(AllocError),
        Err(fault) => Ok(fault.number()),
    }
}

fn turn(kernel: &mut Kernel) -> bool {
    kernel.turn(1).is_ok()
}

/// Whether so many turns of process 1 were made.
pub(crate) fn make_turns(kernel: &mut Kernel, turns: u32) -> bool {
    for _ in 0..turns {
        if !turn(kernel) {
            return false;
        }
    }
    true
}

/// How many turns in a row process 1 had.
pub(crate) fn advance(kernel: &mut Kernel, limit: u64) -> Option<u64> {
    let mut item = None;
    let advanced = kernel.advance(1, limit, &mut item).ok()?;
    Some(advanced.turns)
}

pub(crate) fn mode(kernel: &Kernel, pid: u32) -> Option<Mode> {
    kernel.mode(pid)
}

pub(crate) fn is_able(kernel: &Kernel) -> bool {
    kernel.able(1)
}

pub(crate) fn next_able(kernel: &Kernel, pid: u32) -> Option<u32> {
    kernel.next_able(pid)
}

/// The pid that the next child gets.
pub(crate) fn next_pid(kernel: &Kernel) -> u32 {
    kernel.next_pid()
}

/// How many items were logged.
pub(crate) fn length(kernel: &Kernel) -> usize {
    kernel.log().len()
}

pub(crate) fn outcome(kernel: &Kernel) -> Result<Outcome, AllocError> {
    kernel.outcome()
}

/// How many files and directories there are, beside the root.
pub(crate) fn nodes(kernel: &Kernel) -> Result<usize, AllocError> {
    let outcome = outcome(kernel)?;
    let nodes = match outcome.files.as_slice() {
        Ok(files) => Ok(files.len()),
        Err(refused) => Err(refused),
    };
    drop(outcome);
    nodes
}

pub(crate) fn join(kernel: &mut Kernel, signal: Option<Signal>) -> bool {
    kernel.join(1, signal)
}

pub(crate) fn skip(kernel: &mut Kernel) -> bool {
    kernel.skip(1)
}

/// The signal that process 1 has taken, with its cause.
pub(crate) fn signal(kernel: &Kernel) -> Option<(Signal, Cause)> {
    kernel.siginfo(1)
}

pub(crate) fn is_killed(kernel: &Kernel) -> bool {
    kernel.is_killed(1)
}

/// Whether all registers of a process were set to 7.
pub(crate) fn set_registers(kernel: &mut Kernel, pid: u32) -> bool {
    kernel.set_regs(pid, &[7; 32])
}

/// pc, sp, a0, a7 and x31 of process 1.
pub(crate) fn registers(kernel: &Kernel) -> Result<Option<[u64; 5]>, AllocError> {
    match kernel.regs(1)? {
        None => Ok(None),
        Some(set) => {
            let x = set.get();
            Ok(Some([x[0], x[2], x[10], x[17], x[31]]))
        }
    }
}

/// How many bytes stand in the memory of a process up to a length, and the first of them; none where it doesn't live.
pub(crate) fn peek(
    kernel: &Kernel,
    pid: u32,
    address: u64,
    length: usize,
) -> Result<Option<(usize, [u8; 5])>, AllocError> {
    match kernel.peek(pid, address, length)? {
        None => Ok(None),
        Some(bytes) => Ok(Some((bytes.len(), first_bytes(bytes.as_slice())))),
    }
}

/// The first bytes, or zeros where there are fewer.
fn first_bytes(bytes: &[u8]) -> [u8; 5] {
    let mut first = [0; 5];
    for (place, byte) in first.iter_mut().zip(bytes) {
        *place = *byte;
    }
    first
}
