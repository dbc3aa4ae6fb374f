//! The frames of a program that stands still.

ghost use Rattle.std.specs.Prelude.{◌≡◌, ◌<◌, IfOk, slice_index_or, true};
ghost use Rattle.elf_frames.specs.Frames as spec;

use crate::index::Index;
use crate::instructions::Rule;
use crate::rows::{Row, row_of, rule_in};
use std::alloc::{AllocError, Global};

/// The memory of a program.
pub trait Memory {
    ghost use Rattle.std.specs.Prelude.{◌≡◌, ℕ, Option};

    ghost double_at: { Self → ℕ → Option ℕ };

    /// The eight bytes at an address as a number, the lowest first; none where they can't be read.
    fn double(&self, address: u64) -> Option<u64>
        ensures { result ≡ double_at self.now address };
}

/// A call under way: where it stands, x0 to x31, and whether it called nobody.
#[derive(Clone, Copy, Debug)]
pub struct Frame {
    pub pc: u64,
    pub registers: [u64; 32],
    pub innermost: bool,
}

impl Frame {
    /// The frame of a program that stands at pc.
    pub fn innermost(pc: u64, registers: [u64; 32]) -> Frame
        ensures { result ≡ record { pc = pc; registers = registers; innermost = true } }
    {
        Frame {
            pc,
            registers,
            innermost: true,
        }
    }
}

/// The most frames that a stack has.
const MOST: usize = 64;

fn value_in(registers: &[u64; 32], register: u64) -> u64
    ensures { result ≡ spec.value_in registers.now register }
{
    if register < 32 {
        registers[register as usize]
    } else {
        0
    }
}

fn value<M: Memory>(memory: &M, registers: &[u64; 32], cfa: u64, register: u64, rule: Rule) -> u64
    ensures { result ≡ spec.value (M.double_at memory.now) registers.now cfa register rule }
{
    match rule {
        Rule::Unset => if register == 2 {
            cfa
        } else {
            value_in(registers, register)
        },
        Rule::Undefined => 0,
        Rule::SameValue => value_in(registers, register),
        Rule::Offset(offset) => memory.double(cfa.wrapping_add(offset)).unwrap_or(0),
        Rule::ValOffset(offset) => cfa.wrapping_add(offset),
        Rule::Register(other) => value_in(registers, other),
    }
}

fn value_at<M: Memory>(
    memory: &M,
    registers: &[u64; 32],
    cfa: u64,
    register: usize,
    rules: &[Rule; 32],
) -> u64
    requires { register < 32 }
    ensures { result
        ≡ spec.value (M.double_at memory.now) registers.now cfa register
        (slice_index_or rules.now register Rule.Unset) }
{
    value(memory, registers, cfa, register as u64, rules[register])
}

/// What the caller had in each register.
fn values<M: Memory>(memory: &M, registers: &[u64; 32], cfa: u64, rules: &[Rule; 32]) -> [u64; 32]
    ensures { result ≡ spec.values_from (M.double_at memory.now) registers.now cfa 0 rules.now }
{
    let mut caller = [0; 32];
    for register in 0..32 {
        caller[register] = value_at(memory, registers, cfa, register, rules);
    }
    caller
}

fn cfa_of(registers: &[u64; 32], row: Row) -> u64
    ensures { result ≡ spec.cfa_of registers.now row }
{
    value_in(registers, row.cfa_register).wrapping_add(row.cfa_offset)
}

fn rises(innermost: bool, cfa: u64, sp: u64) -> bool
    ensures { result ≡ spec.rises innermost cfa sp }
{
    if innermost { sp <= cfa } else { sp < cfa }
}

fn stays(rule: Rule) -> bool
    ensures { result ≡ spec.stays rule }
{
    match rule {
        Rule::Unset => true,
        Rule::SameValue => true,
        _ => false,
    }
}

fn return_address(innermost: bool, rules: &[Rule; 32], caller: &[u64; 32], register: u64) -> u64
    ensures { result ≡ spec.return_address innermost rules.now caller.now register }
{
    if !innermost && stays(rule_in(rules, register)) {
        0
    } else {
        value_in(caller, register)
    }
}

fn returned(pc: u64, registers: [u64; 32]) -> Option<Frame>
    ensures { result ≡ spec.returned pc registers }
{
    if pc == 0 {
        return None;
    }
    Some(Frame {
        pc,
        registers,
        innermost: false,
    })
}

#[tactic(auto, unfolding(crate::specs::Frames::by_row))]
fn by_row<M: Memory>(memory: &M, frame: Frame, register: u64, row: Row) -> Option<Frame>
    ensures { result ≡ spec.by_row (M.double_at memory.now) frame register row }
{
    let cfa = cfa_of(&frame.registers, row);
    let caller = values(memory, &frame.registers, cfa, &row.rules);
    if rises(frame.innermost, cfa, value_in(&frame.registers, 2)) {
        let pc = return_address(frame.innermost, &row.rules, &caller, register);
        returned(pc, caller)
    } else {
        None
    }
}

#[tactic(auto, unfolding(crate::specs::Frames::by_ra))]
fn by_ra(frame: Frame) -> Option<Frame>
    ensures { result ≡ spec.by_ra frame }
{
    if frame.innermost {
        returned(value_in(&frame.registers, 1), frame.registers)
    } else {
        None
    }
}

fn place(frame: Frame) -> u64
    ensures { result ≡ spec.place frame }
{
    if frame.innermost {
        frame.pc
    } else {
        frame.pc.saturating_sub(1)
    }
}

/// The frame of the caller, by the bytes of a table and its index.
#[tactic(auto, unfolding(crate::specs::Frames::caller_of))]
pub fn caller_of<M: Memory>(memory: &M, bytes: &[u8], index: &Index, frame: Frame) -> Option<Frame>
    ensures { result ≡ spec.caller_of (M.double_at memory.now) bytes.now index.now frame }
{
    let Some(fde) = index.fde_at(place(frame)) else {
        return by_ra(frame);
    };
    match row_of(bytes, fde, place(frame)) {
        Some(row) => by_row(memory, frame, fde.cie.return_address_register, row),
        None => by_ra(frame),
    }
}

/// The stack of calls of a program, innermost first, 64 frames at most: addresses of instructions, each but the first
/// behind a call.
pub fn stack_of<M: Memory>(
    alloc: Global,
    memory: &M,
    bytes: &[u8],
    index: &Index,
    innermost: Frame,
) -> Result<Vec<u64>, AllocError>
    ensures { IfOk result (λ v. v.items
        ≡ spec.stack_of (M.double_at memory.now) bytes.now index.now innermost) }
{
    let mut stack = Vec::new(alloc);
    let mut next = Some(innermost);
    for _ in 0..MOST {
        let Some(frame) = next else {
            return Ok(stack);
        };
        stack.push(frame.pc)?;
        next = caller_of(memory, bytes, index, frame);
    }
    Ok(stack)
}
