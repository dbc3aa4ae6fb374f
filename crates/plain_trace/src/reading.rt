//! What is read of a process for the text of its call.

ghost use Rattle.std.specs.Prelude.{◌≡◌, ◌≤◌, IfOk};
ghost use Rattle.lx_model.specs.Machine.{sp_of};
ghost use Rattle.plain_trace.specs.Reading.{decoded, note_in, read_from};
ghost use Rattle.tr_args.specs.Reads.{half_of};

use containers::Bytes;
use lx_abi::RegisterSet;
use lx_kernel::Kernel;
use std::alloc::{AllocError, Global};
use tr_args::{Decoder, Half};

/// No text of a call needs more reads.
const MOST_READS: u64 = 96;

fn stack_pointer(registers: &RegisterSet) -> u64
    ensures { result ≡ sp_of registers.now }
{
    registers.get()[2]
}

/// The bytes of the process's memory from an address on; none where it has ended.
#[tactic(auto, using(crate::proofs::Feeding::peeked_there, crate::proofs::Feeding::peeked_nothing))]
fn peek(
    alloc: Global,
    kernel: &Kernel,
    pid: u32,
    address: u64,
    length: u32,
) -> Result<Bytes, AllocError>
    ensures { IfOk result (λ bytes. bytes ≡ (note_in kernel.now pid).peek address length) }
{
    match kernel.peek(pid, address, length as usize)? {
        Some(bytes) => Ok(bytes),
        None => Ok(Bytes::new(alloc)),
    }
}

/// The process's stack pointer; 0 where it has ended.
pub fn stack(kernel: &Kernel, pid: u32) -> Result<u64, AllocError>
    ensures { IfOk result (λ sp. sp ≡ (note_in kernel.now pid).sp) }
{
    match kernel.regs(pid)? {
        Some(registers) => Ok(stack_pointer(&registers)),
        None => Ok(0),
    }
}

/// Reads what a decoder wants.
#[tactic(auto, using(crate::proofs::Feeding::read_more, crate::proofs::Feeding::read_none, crate::proofs::Feeding::read_all))]
fn read(alloc: Global, kernel: &Kernel, pid: u32, decoder: Decoder) -> Result<Decoder, AllocError>
    ensures { IfOk result (λ d. d ≡ read_from (note_in kernel.now pid) 96 decoder) }
{
    let mut decoder = decoder;
    for _ in 0..MOST_READS {
        let Some((address, length)) = decoder.wants() else {
            return Ok(decoder);
        };
        let bytes = peek(alloc, kernel, pid, address, length)?;
        decoder.give(bytes)?;
    }
    Ok(decoder)
}

/// The decoder of a half of a call of the process, once it was given all that it wants.
#[tactic(auto, using(crate::proofs::Feeding::all_read))]
pub fn decode(
    alloc: Global,
    kernel: &Kernel,
    pid: u32,
    half: Half,
    limit: u32,
) -> Result<Decoder, AllocError>
    requires { limit ≤ 4096 }
    ensures { IfOk result (λ d. d ≡ decoded limit (note_in kernel.now pid) (half_of half)) }
{
    let decoder = half.begin(alloc, limit)?;
    let decoder = read(alloc, kernel, pid, decoder)?;
    Ok(decoder)
}
