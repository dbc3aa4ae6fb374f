//! What registers say of a call, and are changed to.

ghost use Rattle.std.specs.Prelude.{◌≡◌};
ghost use Rattle.lx_model.specs.Machine.{call_of, sp_of, with_a0, with_a7};

use lx_abi::{Call, RegisterSet};

/// The number -1, which no call has.
pub const NO_CALL: u64 = u64::MAX;

/// The call that the registers ask for.
pub fn call(registers: &RegisterSet) -> Call
    ensures { result ≡ call_of registers.now }
{
    let x = registers.get();
    Call {
        number: x[17],
        arguments: [x[10], x[11], x[12], x[13], x[14], x[15]],
    }
}

pub fn stack_pointer(registers: &RegisterSet) -> u64
    ensures { result ≡ sp_of registers.now }
{
    registers.get()[2]
}

pub fn set_number(registers: &mut RegisterSet, number: u64)
    ensures { registers.new ≡ with_a7 registers.old number }
{
    registers.set(17, number);
}

pub fn set_result(registers: &mut RegisterSet, value: u64)
    ensures { registers.new ≡ with_a0 registers.old value }
{
    registers.set(10, value);
}
