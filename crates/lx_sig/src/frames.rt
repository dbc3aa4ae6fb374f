//! Frames of handlers: 34 doublewords on the stack.

ghost use Rattle.std.specs.Prelude.{◌≡◌, None, Some, OnOk, OnErr, IfOk, IfErr};
ghost use Rattle.rv_mem.specs.Memory.{or_memory};
ghost use Rattle.lx_sig.specs.Frames.{restarts as restarts_calls, defers_nothing as defers_no_signal};
ghost use Rattle.lx_sig.specs.Frames.{frame_address as address_of_frame, frame_words, frame as frame_of};
ghost use Rattle.lx_sig.specs.Frames.{with_pc_and_a0 as with_both, resumed as resumed_by, sp_of};
ghost use Rattle.lx_sig.specs.Frames.{handling as handled_by, handler_mask as mask_of_handler, blocking};
ghost use Rattle.lx_sig.specs.Frames.{with_frame, frame_fault};
ghost use Rattle.lx_sig.specs.Frames.{popped_registers, popped_hart, popped_mask, frame_at, return_fault};

use crate::doublewords::{fill, word};
use crate::sets::{clean, with};
use crate::state::{Action, Interrupted, Signals};
use lx_abi::{Errno, Signal};
use rv_hart::Hart;
use rv_mem::{MemFault, Space};

/// Where `rt_sigreturn` is called.
const RETURN_PAGE: u64 = 0x3F_FFFF_F000;

/// The bytes of a frame.
const SIZE: u64 = 272;

const SA_RESTART: u64 = 0x1000_0000;

const SA_NODEFER: u64 = 0x4000_0000;

/// Where the frame of a handler begins.
fn frame_address(sp: u64) -> u64
    ensures { result ≡ address_of_frame sp }
{
    sp.wrapping_sub(SIZE) / 16 * 16
}

fn restarts(action: &Action) -> bool
    ensures { result ≡ restarts_calls action.now }
{
    (action.flags / SA_RESTART) % 2 == 1
}

fn defers_nothing(action: &Action) -> bool
    ensures { result ≡ defers_no_signal action.now }
{
    (action.flags / SA_NODEFER) % 2 == 1
}

fn with_pc_and_a0(hart: &Hart, pc: u64, a0: u64) -> Hart
    ensures { result ≡ with_both hart.now pc a0 }
{
    let mut registers = hart.registers;
    registers[10] = a0;
    Hart { pc, registers }
}

/// What the process goes on with after the handler.
fn resumed(hart: &Hart, interrupted: Option<Interrupted>, action: &Action) -> Hart
    ensures { result ≡ resumed_by hart.now interrupted action.now }
{
    match interrupted {
        None => *hart,
        Some(at) if restarts(action) => with_pc_and_a0(hart, at.pc, at.a0),
        Some(_) => with_pc_and_a0(hart, hart.pc, Errno::EINTR.word()),
    }
}

/// pc, x1 to x31, the mask, the signal.
fn words(hart: &Hart, mask: u64, signal: Signal) -> [u64; 34]
    ensures { result ≡ frame_words hart.now mask signal.number }
{
    let mut words = [0; 34];
    words[..32].copy_from_slice(&hart.registers);
    words[0] = hart.pc;
    words[32] = mask;
    words[33] = u64::from(signal.number);
    words
}

/// The bytes of a frame.
fn frame(hart: &Hart, mask: u64, signal: Signal) -> [u8; 272]
    ensures { result ≡ frame_of hart.now mask signal.number }
{
    let mut bytes = [0; 272];
    fill(&mut bytes, &words(hart, mask, signal));
    bytes
}

/// The hart of a handler.
fn handling(hart: &Hart, signal: Signal, action: &Action) -> Hart
    ensures { result ≡ handled_by hart.now signal action.now }
{
    let mut registers = hart.registers;
    registers[1] = RETURN_PAGE;
    registers[2] = frame_address(hart.registers[2]);
    registers[10] = u64::from(signal.number);
    registers[11] = 0;
    registers[12] = 0;
    Hart {
        pc: action.handler,
        registers,
    }
}

/// What is blocked while a handler runs.
fn handler_mask(mask: u64, signal: Signal, action: &Action) -> u64
    ensures { result ≡ mask_of_handler mask signal action.now }
{
    let mask = mask | action.mask;
    if defers_nothing(action) {
        mask
    } else {
        with(mask, signal.number)
    }
}

/// Starts a handler (signal(7), "Execution of signal handlers"): what the process goes on with stands in a frame on its
/// stack. Where the frame can't be written nothing is changed.
pub fn push_frame(
    signals: &mut Signals,
    hart: &mut Hart,
    memory: &mut Space,
    interrupted: &mut Option<Interrupted>,
    signal: Signal,
    action: Action,
) -> Result<(), MemFault>
    ensures ok { OnOk result (frame_fault memory.old hart.old ≡ None) }
    ensures memory { OnOk result
        (memory.new ≡ with_frame memory.old hart.old interrupted.old signals.old signal action) }
    ensures hart { OnOk result (hart.new ≡ handled_by hart.old signal action) }
    ensures signals { OnOk result (signals.new ≡ blocking signals.old signal action) }
    ensures interrupted { OnOk result (interrupted.new ≡ None) }
    ensures fault { IfErr result (λ e. e ≡ or_memory (frame_fault memory.old hart.old)) }
    ensures same_memory { OnErr result (memory.new ≡ memory.old) }
    ensures same_hart { OnErr result (hart.new ≡ hart.old) }
    ensures same_signals { OnErr result (signals.new ≡ signals.old) }
    ensures same_interrupted { OnErr result (interrupted.new ≡ interrupted.old) }
{
    let kept = resumed(hart, *interrupted, &action);
    let frame = frame(&kept, signals.mask, signal);
    memory.write_array::<272>(frame_address(hart.registers[2]), frame)?;
    *hart = handling(hart, signal, &action);
    signals.mask = handler_mask(signals.mask, signal, &action);
    *interrupted = None;
    Ok(())
}

/// The registers of a frame.
fn registers(bytes: &[u8; 272]) -> [u64; 32]
    ensures { result ≡ popped_registers bytes.now }
{
    let mut registers = [0; 32];
    for i in 0..31 {
        registers[i + 1] = word(bytes, i + 1);
    }
    registers
}

/// Ends a handler (sigreturn(2)): the process goes on with what stands in the frame at its stack pointer. Where the
/// frame can't be read nothing is changed.
pub fn pop_frame(signals: &mut Signals, hart: &mut Hart, memory: &mut Space) -> Result<(), MemFault>
    ensures ok { OnOk result (return_fault memory.old hart.old ≡ None) }
    ensures hart { OnOk result (hart.new ≡ popped_hart (frame_at memory.old hart.old)) }
    ensures signals { OnOk result (signals.new ≡ popped_mask signals.old (frame_at memory.old hart.old)) }
    ensures fault { IfErr result (λ e. return_fault memory.old hart.old ≡ Some e) }
    ensures same_memory { memory.new ≡ memory.old }
    ensures same_hart { OnErr result (hart.new ≡ hart.old) }
    ensures same_signals { OnErr result (signals.new ≡ signals.old) }
{
    let frame = memory.read_array::<272>(hart.registers[2])?;
    *hart = Hart {
        pc: word(&frame, 0),
        registers: registers(&frame),
    };
    signals.mask = clean(word(&frame, 32));
    Ok(())
}
