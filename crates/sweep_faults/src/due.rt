//! Whether a process stands where its call fails.

ghost use Rattle.std.specs.Prelude.{◌≡◌, ◌==◌, ◌&&◌, false};
ghost use Rattle.lx_abi.specs.Log.{entries};
ghost use Rattle.lx_kernel.specs.Runs.{mode_in};
ghost use Rattle.lx_kernel.specs.Tracing.{task_in, regs_of};
ghost use Rattle.sweep_faults.specs.Faults.{asks_for, ends_at, has_begun, has_entered, is_at, is_due, is_ended};
ghost use Rattle.sweep_faults.specs.Faults.{is_entered, was_last};
ghost use Rattle.sweep_faults.specs.Heard.{Hears};

use crate::faults::Fault;
use crate::heard::Heard;
use lx_abi::Mode;
use lx_kernel::Kernel;
use sweep_rows::Kind;

/// Where a process stands that has entered a call.
pub(crate) fn is_entered(mode: Option<Mode>) -> bool
    ensures { result ≡ is_entered mode }
{
    matches!(mode, Some(Mode::Entered))
}

/// Where a process stands that has done a call.
fn is_ended(mode: Option<Mode>) -> bool
    ensures { result ≡ is_ended mode }
{
    matches!(mode, Some(Mode::Finished))
}

/// The registers of a process ask for the call.
#[inline(always)]
fn asks_for(kernel: &Kernel, pid: u32, call: u64) -> bool
    ensures { result ≡ asks_for call (regs_of (task_in kernel.now pid)) }
{
    match kernel.asked_call(pid) {
        Some(number) => number == call,
        None => false,
    }
}

/// A process that stands so has entered this call.
#[inline(always)]
fn has_entered(kernel: &Kernel, pid: u32, mode: Option<Mode>, call: u64) -> bool
    requires { mode ≡ mode_in kernel.now pid }
    ensures { result ≡ has_entered call kernel.now pid }
{
    is_entered(mode) && asks_for(kernel, pid, call)
}

/// A process that stands so has done this call.
#[inline(always)]
fn has_ended(heard: &Heard, kernel: &Kernel, pid: u32, mode: Option<Mode>, call: u64) -> bool
    requires stands { mode ≡ mode_in kernel.now pid }
    requires heard { Hears heard.now kernel.now.running.log }
    ensures { result ≡ (is_ended (mode_in kernel.now pid) && was_last pid call false kernel.now.running.log) }
{
    is_ended(mode) && heard.was_last(pid, call)
}

/// The process, which stands so, stands where a call fails in this way.
#[inline(always)]
fn is_due(
    heard: &Heard,
    kernel: &Kernel,
    pid: u32,
    mode: Option<Mode>,
    kind: Kind,
    call: u64,
) -> bool
    requires stands { mode ≡ mode_in kernel.now pid }
    requires heard { Hears heard.now kernel.now.running.log }
    ensures { result ≡ is_due kind call kernel.now pid }
{
    match kind {
        Kind::Undone(_) | Kind::Killed | Kind::Stop => has_entered(kernel, pid, mode, call),
        Kind::Done(_) => has_ended(heard, kernel, pid, mode, call),
        Kind::Short(_) => {
            has_entered(kernel, pid, mode, call) || has_ended(heard, kernel, pid, mode, call)
        }
        Kind::World(_) => is_entered(mode),
    }
}

/// The process of the failure has entered the call for the nth time, and again or not.
fn has_begun(heard: &Heard, kernel: &Kernel, fault: Fault) -> bool
    requires { Hears heard.now kernel.now.running.log }
    ensures { result ≡ has_begun fault kernel.now.running.log }
{
    fault.n <= heard.entries(fault.pid, fault.call)
}

/// It has entered it for the nth time, and not again.
fn has_come(heard: &Heard, kernel: &Kernel, fault: Fault) -> bool
    requires { Hears heard.now kernel.now.running.log }
    ensures { result ≡ (entries fault.pid fault.call kernel.now.running.log == fault.n) }
{
    heard.entries(fault.pid, fault.call) == fault.n
}

/// The process, which stands so, stands where its call fails. Entries are looked up last.
#[inline(always)]
#[tactic(auto, unfolding(crate::specs::Faults::is_at))]
pub(crate) fn is_at(
    heard: &Heard,
    kernel: &Kernel,
    pid: u32,
    mode: Option<Mode>,
    fault: Fault,
) -> bool
    requires stands { mode ≡ mode_in kernel.now pid }
    requires heard { Hears heard.now kernel.now.running.log }
    ensures { result ≡ is_at fault kernel.now pid }
{
    if fault.kind.is_world() {
        is_due(heard, kernel, pid, mode, fault.kind, fault.call) && has_begun(heard, kernel, fault)
    } else {
        pid == fault.pid
            && is_due(heard, kernel, pid, mode, fault.kind, fault.call)
            && has_come(heard, kernel, fault)
    }
}

/// Everything ends where the process stands.
#[inline(always)]
pub(crate) fn ends_at(heard: &Heard, kernel: &Kernel, pid: u32, fault: Fault) -> bool
    requires { Hears heard.now kernel.now.running.log }
    ensures { result ≡ ends_at fault kernel.now pid }
{
    fault.kind.is_stop() && is_at(heard, kernel, pid, kernel.mode(pid), fault)
}
