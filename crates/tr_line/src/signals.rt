//! The lines of a signal and of a stop.

ghost use Rattle.std.specs.Prelude.{◌≡◌, ◌++◌, OnOk};
ghost use Rattle.tr_values.specs.Numbers.{pointer_text};
ghost use Rattle.tr_line.specs.Signals as spec;

use crate::text::Text;
use lx_abi::{Info, Signal};
use std::alloc::AllocError;

/// A name with `SIG`, or the number where it is none.
#[tactic(auto, unfolding(crate::specs::Signals::signal_shown))]
pub(crate) fn signal(out: &mut Text, n: u64) -> Result<(), AllocError>
    ensures { OnOk result (out.new ≡ out.old ++ spec.signal_shown n) }
{
    match Signal::from_number(n) {
        Some(signal) => {
            out.put("SIG")?;
            out.put(signal.name())
        }
        None => out.decimal(n),
    }
}

fn pointer(out: &mut Text, x: u64) -> Result<(), AllocError>
    ensures { OnOk result (out.new ≡ out.old ++ pointer_text x) }
{
    if x == 0 { out.put("NULL") } else { out.hex(x) }
}

fn is_fault(signal: u32) -> bool
    ensures { result ≡ spec.is_fault signal }
{
    signal == 4 || signal == 5 || signal == 7 || signal == 11
}

#[tactic(auto, unfolding(crate::specs::Signals::fault_code))]
fn fault_code(out: &mut Text, signal: u32, code: u32) -> Result<(), AllocError>
    ensures { OnOk result (out.new ≡ out.old ++ spec.fault_code signal code) }
{
    out.put(match signal {
        11 if code == 2 => "SEGV_ACCERR",
        11 => "SEGV_MAPERR",
        7 => "BUS_ADRALN",
        5 => "TRAP_BRKPT",
        _ => "ILL_ILLOPC",
    })
}

fn child_code(out: &mut Text, code: u32) -> Result<(), AllocError>
    ensures { OnOk result (out.new ≡ out.old ++ spec.child_code code) }
{
    out.put(match code {
        1 => "si_code=CLD_EXITED",
        5 => "si_code=CLD_STOPPED",
        6 => "si_code=CLD_CONTINUED",
        _ => "si_code=CLD_KILLED",
    })
}

/// The exit code of a child, or the signal that ended, stopped or continued it.
fn child_status(out: &mut Text, info: &Info) -> Result<(), AllocError>
    ensures { OnOk result (out.new ≡ out.old ++ spec.child_status info.now) }
{
    if info.code == 1 {
        out.decimal(u64::from(info.status))
    } else {
        signal(out, u64::from(info.status))
    }
}

#[tactic(auto, unfolding(crate::specs::Signals::child_who))]
fn child_who(out: &mut Text, info: &Info) -> Result<(), AllocError>
    ensures { OnOk result (out.new ≡ out.old ++ spec.child_who info.now) }
{
    child_code(out, info.code)?;
    out.put(", si_pid=")?;
    out.decimal(u64::from(info.pid))
}

#[tactic(auto, unfolding(crate::specs::Signals::child_how))]
fn child_how(out: &mut Text, info: &Info) -> Result<(), AllocError>
    ensures { OnOk result (out.new ≡ out.old ++ spec.child_how info.now) }
{
    out.put(", si_uid=0, si_status=")?;
    child_status(out, info)?;
    out.put(", si_utime=0, si_stime=0")
}

fn child(out: &mut Text, info: &Info) -> Result<(), AllocError>
    ensures { OnOk result (out.new ≡ out.old ++ spec.child_text info.now) }
{
    child_who(out, info)?;
    child_how(out, info)
}

fn sender(out: &mut Text, info: &Info) -> Result<(), AllocError>
    ensures { OnOk result (out.new ≡ out.old ++ spec.sender_text info.now) }
{
    out.put("si_code=SI_USER, si_pid=")?;
    out.decimal(u64::from(info.pid))?;
    out.put(", si_uid=0")
}

fn fault(out: &mut Text, info: &Info) -> Result<(), AllocError>
    ensures { OnOk result (out.new ≡ out.old ++ spec.fault_text info.now) }
{
    out.put("si_code=")?;
    fault_code(out, info.signal, info.code)?;
    out.put(", si_addr=")?;
    pointer(out, info.address)
}

#[tactic(auto, unfolding(crate::specs::Signals::cause_text))]
fn cause(out: &mut Text, info: &Info) -> Result<(), AllocError>
    ensures { OnOk result (out.new ≡ out.old ++ spec.cause_text info.now) }
{
    if info.code == 0 {
        sender(out, info)
    } else if info.code == 0x80 {
        out.put("si_code=SI_KERNEL")
    } else if is_fault(info.signal) {
        fault(out, info)
    } else {
        child(out, info)
    }
}

#[tactic(auto, unfolding(crate::specs::Signals::signo_text))]
fn signo(out: &mut Text, n: u64) -> Result<(), AllocError>
    ensures { OnOk result (out.new ≡ out.old ++ spec.signo_text n) }
{
    out.put(" {si_signo=")?;
    signal(out, n)
}

#[tactic(auto, unfolding(crate::specs::Signals::signal_twice))]
fn signal_twice(out: &mut Text, n: u64) -> Result<(), AllocError>
    ensures { OnOk result (out.new ≡ out.old ++ spec.signal_twice n) }
{
    signal(out, n)?;
    signo(out, n)
}

#[tactic(auto, unfolding(crate::specs::Signals::signal_head))]
fn signal_head(out: &mut Text, n: u64) -> Result<(), AllocError>
    ensures { OnOk result (out.new ≡ out.old ++ spec.signal_head n) }
{
    out.put("--- ")?;
    signal_twice(out, n)
}

#[tactic(auto, unfolding(crate::specs::Signals::signal_line))]
pub(crate) fn signal_line(out: &mut Text, info: &Info) -> Result<(), AllocError>
    ensures { OnOk result (out.new ≡ out.old ++ spec.signal_line info.now) }
{
    signal_head(out, u64::from(info.signal))?;
    out.put(", ")?;
    cause(out, info)?;
    out.put("} ---\n")
}

#[tactic(auto, unfolding(crate::specs::Signals::stop_line))]
pub(crate) fn stop_line(out: &mut Text, n: u64) -> Result<(), AllocError>
    ensures { OnOk result (out.new ≡ out.old ++ spec.stop_line n) }
{
    out.put("--- stopped by ")?;
    signal(out, n)?;
    out.put(" ---\n")
}
