//! The rules that hold at an address (DWARF 5, 6.4.3).

ghost use Rattle.std.specs.Prelude.{◌≡◌, Some};
ghost use Rattle.elf_frames.specs.Rows as spec;

use crate::entries::{Cie, Fde};
use crate::instructions::{Instruction, Rule, decoded_at};

/// A row of the table: where the CFA is, a register and what is added to it, and how the caller had x0 to x31.
#[derive(Clone, Copy, Debug)]
pub struct Row {
    pub cfa_register: u64,
    pub cfa_offset: u64,
    pub rules: [Rule; 32],
}

/// What instructions change: the address, its row, and rows that are kept; and the rules of the CIE.
#[derive(Clone, Copy)]
pub struct State {
    pub location: u64,
    pub row: Row,
    pub initial: [Rule; 32],
    pub saved: [Row; 4],
    pub depth: usize,
}

/// Instructions under way: where the next stands, and whether the last one went past the address.
#[derive(Clone, Copy)]
pub struct Run {
    pub at: usize,
    pub over: bool,
    pub state: State,
}

fn empty_row() -> Row
    ensures { result ≡ spec.empty_row }
{
    Row {
        cfa_register: 0,
        cfa_offset: 0,
        rules: [Rule::Unset; 32],
    }
}

fn set_rule(register: u64, rule: Rule, row: &mut Row)
    ensures { row.new ≡ spec.with_rule register rule row.old }
{
    if register < 32 {
        row.rules[register as usize] = rule;
    }
}

pub fn rule_in(rules: &[Rule; 32], register: u64) -> Rule
    ensures { result ≡ spec.rule_in rules.now register }
{
    if register < 32 {
        rules[register as usize]
    } else {
        Rule::Unset
    }
}

/// Keeps the row, if there is room.
#[tactic(auto, unfolding(crate::specs::Rows::remembered))]
fn remember(state: &mut State) -> bool
    ensures { spec.remembered state.old ≡ spec.changed result state.new }
{
    if 4 <= state.depth {
        return false;
    }
    state.saved[state.depth] = state.row;
    state.depth += 1;
    true
}

/// Goes back to the row that was kept last, if there is one.
#[tactic(auto, unfolding(crate::specs::Rows::restored))]
fn restore(state: &mut State) -> bool
    ensures { spec.restored state.old ≡ spec.changed result state.new }
{
    if state.depth == 0 || 4 < state.depth {
        return false;
    }
    state.depth -= 1;
    state.row = state.saved[state.depth];
    true
}

/// Does what an instruction says; false where it can't be done.
#[tactic(auto, unfolding(crate::specs::Rows::applied))]
fn apply(instruction: Instruction, state: &mut State) -> bool
    ensures { spec.applied instruction state.old ≡ spec.changed result state.new }
{
    match instruction {
        Instruction::Nop => {}
        Instruction::AdvanceLoc(delta) => state.location = state.location.wrapping_add(delta),
        Instruction::SetRule(register, rule) => set_rule(register, rule, &mut state.row),
        Instruction::Restore(register) => {
            let rule = rule_in(&state.initial, register);
            set_rule(register, rule, &mut state.row);
        }
        Instruction::RememberState => return remember(state),
        Instruction::RestoreState => return restore(state),
        Instruction::DefCfa(register, offset) => {
            state.row.cfa_register = register;
            state.row.cfa_offset = offset;
        }
        Instruction::DefCfaRegister(register) => state.row.cfa_register = register,
        Instruction::DefCfaOffset(offset) => state.row.cfa_offset = offset,
    }
    true
}

fn delta_of(instruction: Instruction) -> Option<u64>
    ensures { result ≡ spec.delta_of instruction }
{
    match instruction {
        Instruction::AdvanceLoc(delta) => Some(delta),
        _ => None,
    }
}

fn exceeds(delta: Option<u64>, left: u64) -> bool
    ensures { result ≡ spec.exceeds delta left }
{
    match delta {
        Some(delta) => left < delta,
        None => false,
    }
}

/// Does the next instruction, up to an address; false where it can't be read or done.
#[tactic(auto, unfolding(crate::specs::Rows::stepped))]
fn step(cie: Cie, address: u64, bytes: &[u8], run: &mut Run) -> bool
    ensures { spec.stepped cie address bytes.now run.old ≡ spec.changed result run.new }
{
    let Some(decoded) = decoded_at(cie.factors, bytes, run.at) else {
        return false;
    };
    let left = address.saturating_sub(run.state.location);
    if exceeds(delta_of(decoded.instruction), left) {
        run.over = true;
        return true;
    }
    run.at = decoded.next;
    run.over = false;
    apply(decoded.instruction, &mut run.state)
}

fn ends(bytes: &[u8], run: &Run) -> bool
    ensures { result ≡ spec.ends bytes.now run.now }
{
    run.over || bytes.len() <= run.at
}

/// Does so many instructions at most; false where one can't be read or done.
fn run_from(count: usize, cie: Cie, address: u64, bytes: &[u8], run: &mut Run) -> bool
    ensures { spec.run_from count cie address bytes.now (Some run.old) ≡ spec.changed result run.new }
{
    for _ in 0..count {
        if ends(bytes, run) {
            return true;
        }
        if !step(cie, address, bytes, run) {
            return false;
        }
    }
    true
}

/// Does the instructions that end at an offset; false where one can't be read or done.
#[tactic(auto, unfolding(crate::specs::Rows::run_in))]
fn run_in(cie: Cie, address: u64, bytes: &[u8], end: usize, run: &mut Run) -> bool
    ensures { spec.run_in cie address bytes.now end run.old ≡ spec.changed result run.new }
{
    if bytes.len() < end {
        return false;
    }
    run_from(end, cie, address, &bytes[..end], run)
}

fn first_run(cie: Cie) -> Run
    ensures { result ≡ spec.first_run cie }
{
    let row = empty_row();
    let initial = row.rules;
    Run {
        at: cie.at,
        over: false,
        state: State {
            location: 0,
            row,
            initial,
            saved: [row; 4],
            depth: 0,
        },
    }
}

fn own_run(fde: Fde, row: Row) -> Run
    ensures { result ≡ spec.own_run fde row }
{
    let initial = row.rules;
    let saved = [empty_row(); 4];
    Run {
        at: fde.at,
        over: false,
        state: State {
            location: fde.start,
            row,
            initial,
            saved,
            depth: 0,
        },
    }
}

/// The row of an address of an FDE; none where an instruction can't be read.
#[tactic(auto, unfolding(crate::specs::Rows::row_of))]
pub fn row_of(bytes: &[u8], fde: Fde, address: u64) -> Option<Row>
    ensures { result ≡ spec.row_of bytes.now fde address }
{
    let mut first = first_run(fde.cie);
    if !run_in(fde.cie, u64::MAX, bytes, fde.cie.end, &mut first) {
        return None;
    }
    let mut own = own_run(fde, first.state.row);
    if !run_in(fde.cie, address, bytes, fde.end, &mut own) {
        return None;
    }
    Some(own.state.row)
}
