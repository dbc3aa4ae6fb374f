//! Why a run is out of turns.

use lx_abi::Mode;
use lx_abi::calls::call_name;
use lx_kernel::Kernel;
use std::alloc::{AllocError, Global};

/// What a process waits in: the name of its call.
fn call_waited_in(kernel: &Kernel, pid: u32) -> &'static str {
    match kernel.call(pid) {
        Some(call) => call_name(call.number).unwrap_or("a call"),
        None => "a call",
    }
}

/// Where a process waits: in a call, or stopped; none if it doesn't wait.
fn explain_wait(alloc: Global, kernel: &Kernel, pid: u32) -> Result<Option<String>, AllocError> {
    match kernel.mode(pid) {
        Some(Mode::Doing) => {
            let name = call_waited_in(kernel, pid);
            Ok(Some(format!(in alloc; " {pid} in {name}")?))
        }
        Some(Mode::Stopped) => Ok(Some(format!(in alloc; " {pid} stopped")?)),
        _ => Ok(None),
    }
}

/// Which processes wait, and in which calls, or that they are stopped.
pub fn explain_waits(alloc: Global, kernel: &Kernel) -> Result<String, AllocError> {
    let mut text = format!(in alloc; "every process waits:")?;
    let mut mark = "";
    for pid in 1..kernel.next_pid() {
        if let Some(part) = explain_wait(alloc, kernel, pid)? {
            text.push_str(mark)?;
            text.push_str(part.as_str())?;
            mark = ",";
        }
    }
    Ok(text)
}

/// That the run was cut at the limit on what is counted, its events or its turns.
pub fn explain_limit(alloc: Global, limit: u64, counted: &str) -> Result<String, AllocError> {
    format!(in alloc; "the limit of {limit} {counted} was reached; --limit N sets another")
}

/// A process is able to have a turn that does something: the run was cut.
fn is_cut(kernel: &Kernel) -> bool {
    (1..kernel.next_pid()).any(|pid| kernel.able(pid))
}

/// Why a run that left this kernel is out of turns: its limit on what is counted, events or turns, or that each process
/// waits in a call or is stopped.
pub fn explain_turns(
    alloc: Global,
    kernel: &Kernel,
    limit: u64,
    counted: &str,
) -> Result<String, AllocError> {
    if is_cut(kernel) {
        return explain_limit(alloc, limit, counted);
    }
    explain_waits(alloc, kernel)
}
