//! Registers in a place of their own.

ghost use Rattle.std.specs.Prelude.{◌≡◌, ◌<◌, length, slice_set, IfOk};

use crate::ptrace::Registers;
use std::alloc::{AllocError, Global};
use std::marker::Model;

/// Registers in a place of their own, so that a request or a reply that holds them is small.
#[derive(Drop)]
pub struct RegisterSet {
    registers: Box<Registers>,
}

impl Model for RegisterSet {
    ghost use Rattle.std.specs.Prelude.{ℕ, List};

    ghost Value = { List ℕ };

    ghost view = { λ r. r.registers.value };
}

impl RegisterSet {
    pub fn new(alloc: Global, registers: &Registers) -> Result<Self, AllocError>
        ensures { IfOk result (λ r. r ≡ registers.now) }
    {
        let registers = Box::new(alloc, *registers)?;
        Ok(RegisterSet { registers })
    }

    pub fn get(&self) -> &Registers
        ensures { result.now ≡ self.now }
    {
        &self.registers
    }

    /// Sets pc, at 0, or the register with this number.
    pub fn set(&mut self, number: usize, value: u64)
        requires { number < 32 }
        ensures set { self.new ≡ slice_set self.old number value }
        ensures length { length self.old ≡ 32 }
    {
        self.registers[number] = value;
    }
}
