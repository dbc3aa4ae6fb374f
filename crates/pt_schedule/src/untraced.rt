//! The kernel without a tracer, as a schedule sees it.

ghost use Rattle.std.specs.Prelude.{◌≡◌};
ghost use Rattle.pt_schedule.specs.Modes.{is_finished};

use crate::system::Schedulable;
use lx_abi::Mode;
use lx_kernel::Kernel;

/// At the end of a call.
fn is_finished(mode: Option<Mode>) -> bool
    ensures { result ≡ is_finished mode }
{
    matches!(mode, Some(Mode::Finished))
}

impl Schedulable for Kernel {
    ghost use Rattle.pt_schedule.specs.Untraced.{readiness_of};

    ghost readiness = { readiness_of };

    fn is_ready(&self) -> bool {
        false
    }

    fn is_able(&self, pid: u32) -> bool {
        self.able(pid)
    }

    fn next_after(&self, pid: u32) -> Option<u32> {
        match self.next_able(pid) {
            Some(next) if next > pid => Some(next),
            Some(_) | None => None,
        }
    }

    fn last_pid(&self) -> u16 {
        self.limits().last_pid
    }

    fn has_finished(&self, pid: u32) -> bool {
        is_finished(self.mode(pid))
    }
}
