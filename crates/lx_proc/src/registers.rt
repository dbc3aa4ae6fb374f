//! Registers of a process at its calls.

ghost use Rattle.std.specs.Prelude.{◌≡◌, slice_set, length, IfOk};
ghost use Rattle.lx_model.specs.Machine.{call_of, a0_of};
ghost use Rattle.lx_proc.specs.Registers.{regs, with_regs, with_returned, made_again};

use crate::state::UserState;
use lx_abi::{Call, RegisterSet, Registers};
use lx_sig::Interrupted;
use std::alloc::{AllocError, Global};

/// The call that the registers ask for.
pub fn call(user: &UserState) -> Call
    ensures { result ≡ call_of (regs user.now) }
{
    let x = &user.hart.registers;
    Call {
        number: x[17],
        arguments: [x[10], x[11], x[12], x[13], x[14], x[15]],
    }
}

/// a0.
pub fn a0(user: &UserState) -> u64
    ensures { result ≡ a0_of (regs user.now) }
{
    user.hart.registers[10]
}

/// Sets a0.
fn set_a0(registers: &mut [u64; 32], value: u64)
    ensures a0 { registers.new ≡ slice_set registers.old 10 value }
    ensures length { length registers.old ≡ 32 }
{
    registers[10] = value;
}

/// The result stands in a0, and pc passes the ecall.
pub fn return_from_call(user: &mut UserState, value: u64)
    ensures { user.new ≡ with_returned user.old value }
{
    user.hart.pc = user.hart.pc.wrapping_add(4);
    set_a0(&mut user.hart.registers, value);
}

/// The interrupted call is made again.
pub fn make_again(user: &mut UserState, at: Interrupted)
    ensures { user.new ≡ made_again user.old at }
{
    user.hart.pc = at.pc;
    set_a0(&mut user.hart.registers, at.a0);
    user.interrupted = None;
}

/// pc and x1 to x31.
pub fn registers_of(alloc: Global, user: &UserState) -> Result<RegisterSet, AllocError>
    ensures { IfOk result (λ r. r ≡ regs user.now) }
{
    let mut registers = RegisterSet::new(alloc, &user.hart.registers)?;
    registers.set(0, user.hart.pc);
    Ok(registers)
}

/// Sets pc and x1 to x31.
pub fn set_registers(user: &mut UserState, registers: &Registers)
    ensures { user.new ≡ with_regs user.old registers.now }
{
    let x0 = user.hart.registers[0];
    user.hart.pc = registers[0];
    user.hart.registers = *registers;
    user.hart.registers[0] = x0;
}
