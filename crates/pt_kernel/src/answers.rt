//! How a request to one process is answered (ptrace(2)).

ghost use Rattle.std.specs.Prelude.{◌≡◌, ◌&&◌, ◌||◌, ◌==◌, true, false, cond, Some, None, IfOk, OnOk, ℕ, List, Option, is_some};
ghost use Rattle.std.specs.FinMap as maps;
ghost use Rattle.lx_abi.specs.Errnos.{einval};
ghost use Rattle.lx_abi.specs.Options.{trace_options};
ghost use Rattle.lx_abi.specs.declared.ptrace.Ask.TheVariants as Asks;
ghost use Rattle.lx_model.specs.Finite.{at};
ghost use Rattle.lx_model.specs.declared.stage.Stage.{Stage};
ghost use Rattle.lx_model.specs.declared.stage.Task.TheVariants as Tasks;
ghost use Rattle.lx_abi.specs.declared.ptrace.Request.{Request};
ghost use Rattle.lx_kernel.specs.Runs.{Run as KernelRun};
ghost use Rattle.lx_turn.specs.Linux.{linux};
ghost use Rattle.lx_proc.specs.declared.state.UserState.{UserState};
ghost use Rattle.lx_kernel.specs.Tracing.{task_in};
ghost use Rattle.pt_model.specs.Requests.{seize as seize_by, info_of, info_at, code_of, sender_of, status_of, address_of, may_peek, peeked, unseized};
ghost use Rattle.pt_model.specs.Hosting.{as_proc, untraced, hosting_to};
ghost use Rattle.pt_kernel.specs.Stops.{seize_options};
ghost use Rattle.pt_kernel.specs.Hosts.{hosting_by, made, IsSwept, IsAnswer, Answers};

use crate::stops::is_alive;
use crate::tracees::Tracees;
use containers::Bytes;
use lx_abi::limits::MOST_PEEKED;
use lx_abi::{Ask, Cause, Errno, Info, Reply, Signal, TraceOptions};
use lx_kernel::Kernel;
use pt_model::Traced;
use std::alloc::AllocError;

/// si_code of a signal that the kernel sends (sigaction(2)).
const SI_KERNEL: u32 = 0x80;

const SIGCONT: u32 = 18;

fn refusal(errno: Errno) -> Reply
    ensures { result ≡ Reply.Errno errno.number }
{
    Reply::Errno {
        number: u32::from(errno.number),
    }
}

/// The siginfo_t of a signal.
pub fn info_of(signal: Signal, cause: Cause) -> Info
    ensures { result ≡ info_of signal cause }
{
    let (code, pid, status, address) = match cause {
        Cause::Sent { pid } => (0, pid, 0, 0),
        Cause::Kernel => (SI_KERNEL, 0, 0, 0),
        Cause::Exited { pid, code } => (1, pid, u32::from(code), 0),
        Cause::Killed { pid, signal } => (2, pid, u32::from(signal), 0),
        Cause::Stopped { pid, signal } => (5, pid, u32::from(signal), 0),
        Cause::Continued { pid } => (6, pid, SIGCONT, 0),
        Cause::Fault { code, address } => (u32::from(code), 0, 0, address),
    };
    Info {
        signal: u32::from(signal.number),
        code,
        pid,
        status,
        address,
    }
}

#[inline(always)]
fn get_regs(kernel: &Kernel, pid: u32) -> Result<Reply, AllocError>
    ensures { IfOk result
        (λ r. (b : UserState) (stage : Stage) → task_in kernel.now pid ≡ Tasks.Alive b stage
        → r ≡ Reply.Registers (linux.regs b)) }
{
    match kernel.regs(pid)? {
        Some(registers) => Ok(Reply::Registers { registers }),
        None => Ok(refusal(Errno::ESRCH)),
    }
}

fn peeked(bytes: Bytes) -> Reply
    ensures { result ≡ peeked bytes }
{
    if bytes.is_empty() {
        refusal(Errno::EIO)
    } else {
        Reply::Bytes { bytes }
    }
}

#[inline(never)]
fn peek(kernel: &Kernel, pid: u32, address: u64, length: u32) -> Result<Reply, AllocError>
    ensures { IfOk result
        (λ r. (b : UserState) (stage : Stage) → task_in kernel.now pid ≡ Tasks.Alive b stage
        → r ≡ cond (may_peek length) (peeked (linux.peek b address length)) (Reply.Errno einval)) }
{
    if length < 1 || length > MOST_PEEKED {
        return Ok(refusal(Errno::EINVAL));
    }
    match kernel.peek(pid, address, length as usize)? {
        Some(bytes) => Ok(peeked(bytes)),
        None => Ok(refusal(Errno::ESRCH)),
    }
}

#[inline(never)]
fn sig_info(kernel: &Kernel, pid: u32) -> Reply
    ensures { (b : UserState) (stage : Stage) → task_in kernel.now pid ≡ Tasks.Alive b stage → result ≡ info_at stage }
{
    match kernel.siginfo(pid) {
        Some((signal, cause)) => Reply::Info {
            info: info_of(signal, cause),
        },
        None => refusal(Errno::EINVAL),
    }
}

#[inline(always)]
fn syscall(kernel: &mut Kernel, tracees: &mut Tracees, pid: u32, signal: u32) -> Reply
    ensures { (traced : Traced) → maps.get tracees.old.traced pid ≡ Some traced
        → Answers kernel.old tracees.old pid traced (Asks.Syscall signal) result kernel.new tracees.new }
{
    if !kernel.resume(pid, signal) {
        return refusal(Errno::EIO);
    }
    tracees.let_go(pid);
    Reply::Done
}

#[inline(never)]
fn set_options(
    kernel: &Kernel,
    tracees: &mut Tracees,
    pid: u32,
    traced: Traced,
    bits: u32,
) -> Result<Reply, AllocError>
    requires { maps.get tracees.old.traced pid ≡ Some traced }
    ensures { IfOk result
        (λ r. Answers kernel.now tracees.old pid traced (Asks.SetOptions bits) r kernel.now tracees.new) }
{
    match TraceOptions::from_bits(bits) {
        None => Ok(refusal(Errno::EINVAL)),
        Some(options) => {
            let changed = Traced {
                held: traced.held,
                options: Some(options),
                message: traced.message,
            };
            tracees.set(pid, changed)?;
            Ok(Reply::Done)
        }
    }
}

/// A tracee at a group stop is let go, and stays stopped.
#[inline(never)]
fn listen(kernel: &Kernel, tracees: &mut Tracees, pid: u32) -> Reply
    ensures { (traced : Traced) → maps.get tracees.old.traced pid ≡ Some traced
        → Answers kernel.now tracees.old pid traced Asks.Listen result kernel.now tracees.new }
{
    if !kernel.listens(pid) {
        return refusal(Errno::EIO);
    }
    tracees.let_go(pid);
    Reply::Done
}

/// A held tracee that lives is answered.
#[inline(always)]
fn answer_stopped(
    kernel: &mut Kernel,
    tracees: &mut Tracees,
    pid: u32,
    traced: Traced,
    ask: &Ask,
) -> Result<Reply, AllocError>
    requires { maps.get tracees.old.traced pid ≡ Some traced }
    ensures { IfOk result (λ r. Answers kernel.old tracees.old pid traced ask.now r kernel.new tracees.new) }
{
    match ask {
        Ask::Seize { .. } => Ok(refusal(Errno::ESRCH)),
        Ask::SetOptions { options } => {
            let reply = set_options(kernel, tracees, pid, traced, *options)?;
            Ok(reply)
        }
        Ask::GetRegs => {
            let reply = get_regs(kernel, pid)?;
            Ok(reply)
        }
        Ask::SetRegs { registers } => {
            kernel.set_regs(pid, registers.get());
            Ok(Reply::Done)
        }
        Ask::Peek { address, length } => {
            let reply = peek(kernel, pid, *address, *length)?;
            Ok(reply)
        }
        Ask::Syscall { signal } => Ok(syscall(kernel, tracees, pid, *signal)),
        Ask::EventMsg => Ok(Reply::Message {
            pid: u64::from(traced.message),
        }),
        Ask::SigInfo => Ok(sig_info(kernel, pid)),
        Ask::Listen => Ok(listen(kernel, tracees, pid)),
    }
}

fn seize_options(ask: &Ask) -> Option<u32>
    ensures { result ≡ seize_options ask.now }
{
    match ask {
        Ask::Seize { options } => Some(*options),
        _ => None,
    }
}

/// Process 1 becomes a tracee.
fn seize(tracees: &mut Tracees, pid: u32, traced: Traced, bits: u32) -> Result<Reply, AllocError>
    requires { maps.get tracees.old.traced pid ≡ Some traced }
    ensures { IfOk result
        (λ r. (k : KernelRun) → IsSwept k.running
        → IsAnswer k tracees.old pid traced.message
        (seize_by (as_proc (task_in k pid) traced) (trace_options bits)) r k tracees.new) }
{
    match TraceOptions::from_bits(bits) {
        None => Ok(refusal(Errno::EINVAL)),
        Some(options) => {
            tracees.seize(pid, traced, options)?;
            Ok(Reply::Done)
        }
    }
}

/// Process 1 before Seize is answered: it can be seized, and nothing else.
#[inline(never)]
fn answer_unseized(
    tracees: &mut Tracees,
    pid: u32,
    traced: Traced,
    ask: &Ask,
) -> Result<Reply, AllocError>
    requires { maps.get tracees.old.traced pid ≡ Some traced }
    ensures { IfOk result
        (λ r. (k : KernelRun) → IsSwept k.running
        → IsAnswer k tracees.old pid traced.message
        (unseized (as_proc (task_in k pid) traced) ask.now) r k tracees.new) }
{
    match seize_options(ask) {
        None => Ok(refusal(Errno::ESRCH)),
        Some(options) => {
            let reply = seize(tracees, pid, traced, options)?;
            Ok(reply)
        }
    }
}

/// A request to a process is answered. ESRCH comes before any other refusal.
#[inline(always)]
pub fn answer(
    kernel: &mut Kernel,
    tracees: &mut Tracees,
    pid: u32,
    ask: &Ask,
) -> Result<Reply, AllocError>
    requires { IsSwept kernel.old.running }
    ensures answer { IfOk result
        (λ r. (turns : List ℕ) (pending : Option Request)
        → made (hosting_by kernel.new.running tracees.new turns pending) (Some r)
        ≡ hosting_to linux (hosting_by kernel.old.running tracees.old turns pending) pid
        (at untraced tracees.old.traced pid).message
        (as_proc (task_in kernel.old pid) (at untraced tracees.old.traced pid))
        (at untraced tracees.old.traced pid).held (at untraced tracees.old.traced pid).options
        (task_in kernel.old pid) ask.now) }
    ensures script { OnOk result ((kernel.new.script ≡ kernel.old.script) × (kernel.new.follow ≡ kernel.old.follow)) }
{
    let traced = tracees.traced(pid);
    if !traced.held {
        return Ok(refusal(Errno::ESRCH));
    }
    match traced.options {
        None => {
            let reply = answer_unseized(tracees, pid, traced, ask)?;
            Ok(reply)
        }
        Some(_) => {
            if !is_alive(kernel, pid) {
                return Ok(refusal(Errno::ESRCH));
            }
            let reply = answer_stopped(kernel, tracees, pid, traced, ask)?;
            Ok(reply)
        }
    }
}
