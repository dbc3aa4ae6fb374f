//! Values at the end of bytes.

ghost use Rattle.std.specs.Prelude.{◌≡◌, ◌++◌, OnOk, length};
ghost use Rattle.host_values.specs.Sizes.{Spends};
ghost use Rattle.host_values.specs.Spelling as spec;

use byteorder::{BigEndian, ByteOrder, LittleEndian};
use lx_abi::Registers;
use std::alloc::AllocError;

pub fn put_byte(out: &mut Vec<u8>, value: u8) -> Result<(), AllocError>
    ensures { OnOk result (out.new.items ≡ out.old.items ++ spec.byte value) }
{
    out.extend_from_slice(&[value])
}

pub fn put_word(out: &mut Vec<u8>, value: u32) -> Result<(), AllocError>
    ensures { OnOk result (out.new.items ≡ out.old.items ++ spec.word value) }
{
    out.extend_from_slice(&value.to_be_bytes())
}

pub fn put_double(out: &mut Vec<u8>, value: u64) -> Result<(), AllocError>
    ensures { OnOk result (out.new.items ≡ out.old.items ++ spec.double value) }
{
    out.extend_from_slice(&value.to_be_bytes())
}

/// Puts the low 32 bits of a length.
pub fn put_length(out: &mut Vec<u8>, length: usize) -> Result<(), AllocError>
    ensures { OnOk result (out.new.items ≡ out.old.items ++ spec.word length) }
{
    put_word(out, (length % 0x1_0000_0000) as u32)
}

#[tactic(auto, unfolding(crate::specs::Spelling::text))]
pub fn put_text(out: &mut Vec<u8>, bytes: &[u8]) -> Result<(), AllocError>
    ensures { OnOk result (out.new.items ≡ out.old.items ++ spec.text bytes.now) }
{
    put_length(out, bytes.len())?;
    out.extend_from_slice(bytes)
}

/// What is left of a budget of bytes behind a text.
#[tactic(auto, using(crate::proofs::Sizes::text_size))]
pub fn spend_text(budget: usize, bytes: &[u8]) -> Option<usize>
    ensures { Spends result budget (length (spec.text bytes.now)) }
{
    budget.checked_sub(4)?.checked_sub(bytes.len())
}

pub fn put_registers(out: &mut Vec<u8>, registers: &Registers) -> Result<(), AllocError>
    ensures bytes { OnOk result (out.new.items ≡ out.old.items ++ spec.registers registers.now) }
    ensures numbers { spec.AreRegisters registers.now }
{
    let mut bytes = [0; 256];
    LittleEndian::write_u64_into(registers, &mut bytes);
    out.extend_from_slice(&bytes)
}

#[tactic(auto, using(crate::proofs::Sizes::sizes))]
pub fn registers_size(registers: &Registers) -> usize
    ensures { result ≡ length (spec.registers registers.now) }
{
    8 * registers.len()
}
