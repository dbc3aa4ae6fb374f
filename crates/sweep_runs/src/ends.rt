//! What a run left.

ghost use Rattle.std.specs.Prelude.{◌≡◌, IfOk};
ghost use Rattle.lx_abi.specs.Modes.{lives_in};
ghost use Rattle.sweep_runs.specs.Runs.{is_alive, ending_of};

use lx_abi::Mode;
use lx_kernel::Kernel;
use std::alloc::AllocError;
use sweep_rows::Ending;

/// The process has not ended.
fn lives(mode: Option<Mode>) -> bool
    ensures { result ≡ lives_in mode }
{
    !matches!(mode, None | Some(Mode::Dying | Mode::Zombie))
}

/// Some process has not ended.
#[tactic(auto, unfolding(crate::specs::Runs::is_alive))]
fn is_alive(kernel: &Kernel) -> bool
    ensures { result ≡ is_alive kernel.now }
{
    (1..kernel.next_pid()).any(|pid| lives(kernel.mode(pid)))
}

/// What a kernel has left, and whether a process is alive.
pub fn ending(kernel: &Kernel) -> Result<Ending, AllocError>
    ensures { IfOk result (λ e. e ≡ ending_of kernel.now) }
{
    let outcome = kernel.outcome()?;
    Ok(Ending {
        outcome,
        alive: is_alive(kernel),
    })
}
