//! The turn in which a call fails.

ghost use Rattle.std.specs.Prelude.{◌≡◌, ◌<◌, ◌++◌, None, true, false, IfOk, OnOk, OnErr};
ghost use Rattle.std.specs.Option.{option_to_list};
ghost use Rattle.lx_kernel.specs.Choices.{after_choosing};
ghost use Rattle.lx_kernel.specs.Runs.{after_turn, mode_in};
ghost use Rattle.sweep_faults.specs.Faults.{after_asking, after_failing, after_short, error_asked, failing};
ghost use Rattle.sweep_faults.specs.Faults.{killing, last_asked, writing};
ghost use Rattle.lx_kernel.specs.Tracing.{regs_of, task_in};
ghost use Rattle.lx_model.specs.Machine.{call_of};
ghost use Rattle.sweep_rows.specs.Known.{IsKnown};

use crate::due::is_entered;
use crate::moving::Moved;
use lx_abi::{Call, Choice, Errno, Registers, Signal};
use lx_kernel::{Failed, Kernel};
use std::alloc::AllocError;
use sweep_rows::{Kind, Known, World};

/// The register a0, where a call's result stands.
const A0: usize = 10;

/// The register a2, where the count that read and write are asked for stands.
const A2: usize = 12;

const SIGKILL: u64 = 9;

/// The call has the error for its result, and isn't done.
fn failing(error: Errno) -> Choice
    ensures { result ≡ failing error }
{
    Choice {
        result: Some(-i64::from(error.number)),
        signal: None,
    }
}

/// SIGKILL is joined to the call.
fn killing() -> Choice
    ensures { result ≡ killing }
{
    Choice {
        result: None,
        signal: Signal::from_number(SIGKILL),
    }
}

/// The turn in which this is done to the call that a process has entered.
fn choose(kernel: &mut Kernel, pid: u32, choice: Choice) -> Result<Moved, Failed>
    ensures turned { OnOk result (kernel.new ≡ after_choosing kernel.old pid choice) }
    ensures one { IfOk result (λ m. m.turns ≡ 1) }
    ensures after { IfOk result (λ m. m.after ≡ mode_in kernel.new pid) }
    ensures logged { IfOk result (λ m. kernel.new.running.log ≡ kernel.old.running.log ++ option_to_list m.item) }
    ensures log { OnErr result (kernel.new.running.log ≡ kernel.old.running.log) }
{
    match kernel.turn_choosing(pid, choice) {
        Ok(moved) => Ok(Moved {
            turns: 1,
            after: moved.after,
            item: moved.item,
        }),
        Err(failed) => Err(failed),
    }
}

/// A register of a process has this value.
#[tactic(auto, using(crate::proofs::Rows::written_is, crate::proofs::Rows::unwritten_is, crate::proofs::Rows::written_log))]
fn write(kernel: &mut Kernel, pid: u32, number: usize, value: u64) -> Result<(), AllocError>
    requires { number < 32 }
    ensures written { OnOk result (kernel.new ≡ writing kernel.old pid number value) }
    ensures log { kernel.new.running.log ≡ kernel.old.running.log }
{
    let Some(mut registers) = kernel.regs(pid)? else {
        return Ok(());
    };
    registers.set(number, value);
    kernel.set_regs(pid, registers.get());
    Ok(())
}

/// A turn of a process.
pub(crate) fn turn(kernel: &mut Kernel, pid: u32) -> Result<Moved, Failed>
    ensures turned { OnOk result (kernel.new ≡ after_turn kernel.old pid) }
    ensures one { IfOk result (λ m. m.turns ≡ 1) }
    ensures after { IfOk result (λ m. m.after ≡ mode_in kernel.new pid) }
    ensures logged { IfOk result (λ m. kernel.new.running.log ≡ kernel.old.running.log ++ option_to_list m.item) }
    ensures log { OnErr result (kernel.new.running.log ≡ kernel.old.running.log) }
{
    match kernel.turn(pid) {
        Ok(moved) => Ok(Moved {
            turns: 1,
            after: moved.after,
            item: moved.item,
        }),
        Err(failed) => Err(failed),
    }
}

/// The turn of a process one of whose registers has this value.
fn go_on_with(kernel: &mut Kernel, pid: u32, number: usize, value: u64) -> Result<Moved, Failed>
    requires { number < 32 }
    ensures turned { OnOk result (kernel.new ≡ after_turn (writing kernel.old pid number value) pid) }
    ensures one { IfOk result (λ m. m.turns ≡ 1) }
    ensures after { IfOk result (λ m. m.after ≡ mode_in kernel.new pid) }
    ensures logged { IfOk result (λ m. kernel.new.running.log ≡ kernel.old.running.log ++ option_to_list m.item) }
    ensures log { OnErr result (kernel.new.running.log ≡ kernel.old.running.log) }
{
    match write(kernel, pid, number, value) {
        Ok(()) => turn(kernel, pid),
        Err(_) => Err(Failed),
    }
}

/// The turn in which a call begins with another count, or that behind it, before which the register has again what
/// was asked for.
fn shorten(kernel: &mut Kernel, pid: u32, short: u64, asked: u64) -> Result<Moved, Failed>
    requires { asked ≡ last_asked pid 0 kernel.old.running.log }
    ensures turned { OnOk result (kernel.new ≡ after_short short kernel.old pid) }
    ensures one { IfOk result (λ m. m.turns ≡ 1) }
    ensures after { IfOk result (λ m. m.after ≡ mode_in kernel.new pid) }
    ensures logged { IfOk result (λ m. kernel.new.running.log ≡ kernel.old.running.log ++ option_to_list m.item) }
    ensures log { OnErr result (kernel.new.running.log ≡ kernel.old.running.log) }
{
    if is_entered(kernel.mode(pid)) {
        go_on_with(kernel, pid, A2, short)
    } else {
        go_on_with(kernel, pid, A2, asked)
    }
}

/// The call that the registers ask for.
fn call_of(registers: &Registers) -> Call
    ensures { result ≡ call_of registers.now }
{
    let x = registers;
    Call {
        number: x[17],
        arguments: [x[10], x[11], x[12], x[13], x[14], x[15]],
    }
}

/// The error that the call has in a world for which a process asks.
#[tactic(auto, using(crate::proofs::Rows::asked_is))]
fn error_asked(
    kernel: &Kernel,
    pid: u32,
    world: World,
    known: &Known,
) -> Result<Option<Errno>, AllocError>
    requires { IsKnown kernel.now.running.log known.now }
    ensures { IfOk result (λ error. error
        ≡ error_asked world kernel.now.running.log pid (regs_of (task_in kernel.now pid))) }
{
    let Some(registers) = kernel.regs(pid)? else {
        return Ok(None);
    };
    let call = call_of(registers.get());
    Ok(world.error(&call, known.use_of(pid, &call).target))
}

/// The turn of a process that has entered a call which may have this error.
fn ask(kernel: &mut Kernel, pid: u32, error: Option<Errno>) -> Result<Moved, Failed>
    ensures turned { OnOk result (kernel.new ≡ after_asking error kernel.old pid) }
    ensures one { IfOk result (λ m. m.turns ≡ 1) }
    ensures after { IfOk result (λ m. m.after ≡ mode_in kernel.new pid) }
    ensures logged { IfOk result (λ m. kernel.new.running.log ≡ kernel.old.running.log ++ option_to_list m.item) }
    ensures log { OnErr result (kernel.new.running.log ≡ kernel.old.running.log) }
{
    match error {
        Some(error) => choose(kernel, pid, failing(error)),
        None => turn(kernel, pid),
    }
}

/// The turn of a process that has entered a call in a world.
fn visit(kernel: &mut Kernel, pid: u32, world: World, known: &Known) -> Result<Moved, Failed>
    requires { IsKnown kernel.old.running.log known.now }
    ensures turned { OnOk result (kernel.new ≡ after_asking
        (error_asked world kernel.old.running.log pid (regs_of (task_in kernel.old pid))) kernel.old pid) }
    ensures one { IfOk result (λ m. m.turns ≡ 1) }
    ensures after { IfOk result (λ m. m.after ≡ mode_in kernel.new pid) }
    ensures logged { IfOk result (λ m. kernel.new.running.log ≡ kernel.old.running.log ++ option_to_list m.item) }
    ensures log { OnErr result (kernel.new.running.log ≡ kernel.old.running.log) }
{
    match error_asked(kernel, pid, world, known) {
        Ok(error) => ask(kernel, pid, error),
        Err(_) => Err(Failed),
    }
}

/// Nothing is done any more.
fn stay(kernel: &Kernel, pid: u32) -> Moved
    ensures one { result.turns ≡ 1 }
    ensures after { result.after ≡ mode_in kernel.now pid }
    ensures item { result.item ≡ None }
{
    Moved {
        turns: 1,
        after: kernel.mode(pid),
        item: None,
    }
}

/// The turn in which a call fails, of a process whose last entry asks for this count.
#[tactic(auto, using(crate::proofs::Rows::nothing_logged))]
pub(crate) fn fail(
    kernel: &mut Kernel,
    pid: u32,
    kind: Kind,
    asked: u64,
    known: &Known,
) -> Result<Moved, Failed>
    requires asked { asked ≡ last_asked pid 0 kernel.old.running.log }
    requires known { IsKnown kernel.old.running.log known.now }
    ensures turned { OnOk result (kernel.new ≡ after_failing kind kernel.old pid) }
    ensures one { IfOk result (λ m. m.turns ≡ 1) }
    ensures after { IfOk result (λ m. m.after ≡ mode_in kernel.new pid) }
    ensures logged { IfOk result (λ m. kernel.new.running.log ≡ kernel.old.running.log ++ option_to_list m.item) }
    ensures log { OnErr result (kernel.new.running.log ≡ kernel.old.running.log) }
{
    match kind {
        Kind::Undone(error) => choose(kernel, pid, failing(error)),
        Kind::Done(error) => go_on_with(kernel, pid, A0, error.word()),
        Kind::Short(short) => shorten(kernel, pid, short, asked),
        Kind::Killed => choose(kernel, pid, killing()),
        Kind::Stop => Ok(stay(kernel, pid)),
        Kind::World(world) => visit(kernel, pid, world, known),
    }
}
