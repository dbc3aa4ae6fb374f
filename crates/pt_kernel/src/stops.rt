//! Where a process stands to its tracer.

ghost use Rattle.std.specs.Prelude.{◌≡◌};
ghost use Rattle.lx_turn.specs.Linux.{linux};
ghost use Rattle.lx_kernel.specs.Tracing.{task_in};
ghost use Rattle.pt_model.specs.Ptrace.{event_stop, is_effective};
ghost use Rattle.pt_model.specs.Hosting.{as_proc, item_stop, mode_stop};
ghost use Rattle.pt_kernel.specs.Stops.{stop_after, turn_stop, dies_after, is_alive};

use lx_abi::{EventStop, Item, Mode, Stop, TraceOptions};
use lx_kernel::Kernel;
use lx_model::PtraceEvent;
use pt_model::Traced;

fn event_stop(options: TraceOptions, event: PtraceEvent<u32>) -> Option<Stop>
    ensures { result ≡ event_stop options event }
{
    match event {
        PtraceEvent::Execed if options.execs => Some(Stop::Event {
            event: EventStop::Exec,
        }),
        PtraceEvent::Forked(_) if options.forks => Some(Stop::Event {
            event: EventStop::Fork,
        }),
        PtraceEvent::Plain | PtraceEvent::Execed | PtraceEvent::Forked(_) => None,
    }
}

/// A signal that was taken, a group stop or an end is that of the item.
fn item_stop(item: Option<Item>) -> Option<Stop>
    ensures { result ≡ item_stop item }
{
    match item? {
        Item::Taken { signal, .. } => Some(Stop::Signal { signal }),
        Item::Stopped { signal, .. } => Some(Stop::Group { signal }),
        Item::Exit { word, .. } => Some(Stop::Ended { word }),
        Item::Enter { .. } | Item::Done { .. } => None,
    }
}

/// The stop of a tracee that has come to a mode.
fn mode_stop(
    options: TraceOptions,
    mode: Mode,
    item: Option<Item>,
    event: PtraceEvent<u32>,
) -> Option<Stop>
    ensures { result ≡ mode_stop options mode item event }
{
    match mode {
        Mode::Entered | Mode::Finished => Some(Stop::Syscall { good: options.good }),
        Mode::Acted => event_stop(options, event),
        Mode::Taken | Mode::Stopped | Mode::Dying => item_stop(item),
        Mode::Woken => Some(Stop::Event {
            event: EventStop::Stop,
        }),
        Mode::Born | Mode::Run | Mode::Faulting | Mode::Doing | Mode::Zombie => None,
    }
}

/// The stop of a tracee whose turn told this: one that bore a child stands at its call.
fn turn_stop(
    options: TraceOptions,
    after: Option<Mode>,
    item: Option<Item>,
    event: PtraceEvent<u32>,
) -> Option<Stop>
    ensures { result ≡ turn_stop options after item event }
{
    match event {
        PtraceEvent::Forked(_) => event_stop(options, event),
        PtraceEvent::Plain | PtraceEvent::Execed => mode_stop(options, after?, item, event),
    }
}

/// The stop that a turn has come to; a process that is no tracee has none.
pub fn stop_after(
    options: Option<TraceOptions>,
    after: Option<Mode>,
    item: Option<Item>,
    event: PtraceEvent<u32>,
) -> Option<Stop>
    ensures { result ≡ stop_after options after item event }
{
    turn_stop(options?, after, item, event)
}

/// The turn has come to the process's end.
pub fn dies_after(after: Option<Mode>, event: PtraceEvent<u32>) -> bool
    ensures { result ≡ dies_after after event }
{
    match event {
        PtraceEvent::Forked(_) => false,
        PtraceEvent::Plain | PtraceEvent::Execed => matches!(after, Some(Mode::Dying)),
    }
}

/// The process has not ended: it has registers.
pub fn is_alive(kernel: &Kernel, pid: u32) -> bool
    ensures { result ≡ is_alive (task_in kernel.now pid) }
{
    kernel.asked_call(pid).is_some()
}

/// A turn of a process reaches the kernel: its tracer doesn't hold it, or SIGKILL is pending for it.
pub fn is_effective(kernel: &Kernel, pid: u32, traced: Traced) -> bool
    ensures { result ≡ is_effective linux kernel.now.running.shared pid (as_proc (task_in kernel.now pid) traced) }
{
    if !traced.held {
        return true;
    }
    match traced.options {
        None => false,
        Some(_) => is_alive(kernel, pid) && kernel.is_killed(pid),
    }
}
