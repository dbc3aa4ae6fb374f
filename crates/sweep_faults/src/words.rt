//! Whether a rule of a script gives a failure of one process.

ghost use Rattle.std.specs.Prelude.{◌≡◌, ◌↔◌, List, IsTrue};
ghost use Rattle.lx_abi.specs.declared.log.Item.{Item as LogItem};
ghost use Rattle.lx_model.specs.Kernel.{traces};
ghost use Rattle.sweep_faults.specs.Heard.{Hears};
ghost use Rattle.sweep_faults.specs.Words.{failure_of, HasWords};

use crate::faults::Fault;
use crate::heard::Heard;
use lx_abi::Errno;
use sweep_rows::Failure;

/// The failure of a rule.
pub fn failure_of(fault: Fault, error: Errno) -> Failure
    ensures { result ≡ failure_of fault error }
{
    Failure {
        call: fault.call,
        n: fault.n,
        error,
    }
}

fn is_traced(follow: bool, pid: u32) -> bool
    ensures { result ≡ traces follow pid }
{
    follow || pid == 1
}

/// By all that was heard of its run, a rule for the nth occurrence in each tracee gives this failure and no other.
#[tactic(auto, using(crate::proofs::Fewer::done_words, crate::proofs::Fewer::untraced_words, crate::proofs::Fewer::first_words))]
pub fn has_words(heard: &Heard, fault: Fault, follow: bool) -> bool
    ensures { (log : List LogItem) → Hears heard.now log → IsTrue result ↔ HasWords follow fault log }
{
    if !fault.kind.is_undone() {
        return false;
    }
    if !is_traced(follow, fault.pid) {
        return false;
    }
    if !follow {
        return true;
    }
    heard.are_fewer(fault)
}
