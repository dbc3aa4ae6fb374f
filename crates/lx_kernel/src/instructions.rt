//! Instructions of one process in a row.

ghost use Rattle.std.specs.Prelude.{◌≡◌, ◌≤◌, None, IfOk, not, ◌&&◌, is_some};
ghost use Rattle.std.specs.FinMap as maps;
ghost use Rattle.rv_hart.specs.declared.outcome.Step.TheVariants as Step;
ghost use Rattle.lx_turn.specs.Reactions.{next_of, is_killed as is_killed_at};
ghost use Rattle.lx_kernel.specs.Advances.{Follows, IsAtCall};

use lx_proc::{Shared, UserState, make_again};
use lx_sig::{is_pending, next};
use rv_hart::{Progress, Step};
use std::alloc::AllocError;

/// Runs instructions, at most so many.
fn run_instructions(user: &mut UserState, limit: u64) -> Result<Progress, AllocError>
    requires { user.old.interrupted ≡ None }
    ensures follows { IfOk result (λ p. Follows p.ran user.old user.new) }
    ensures within { IfOk result (λ p. p.ran ≤ limit) }
    ensures calls { IfOk result (λ p. p.step ≡ Step.Call → IsAtCall user.new) }
{
    let progress = rv_hart::run(&mut user.hart, &mut user.memory, limit)?;
    Ok(progress)
}

/// Turns of a body in Run, at most so many: how many there were, and whether the next comes to a call.
pub fn run_user(user: &mut UserState, limit: u64) -> Result<Progress, AllocError>
    ensures follows { IfOk result (λ p. Follows p.ran user.old user.new) }
    ensures within { IfOk result (λ p. p.ran ≤ limit) }
    ensures calls { IfOk result (λ p. p.step ≡ Step.Call → IsAtCall user.new) }
{
    match user.interrupted {
        None => run_instructions(user, limit),
        Some(_) if limit == 0 => Ok(Progress {
            ran: 0,
            step: Step::Ran,
        }),
        Some(at) => {
            make_again(user, at);
            let progress = run_instructions(user, limit - 1)?;
            Ok(Progress {
                ran: progress.ran + 1,
                step: progress.step,
            })
        }
    }
}

/// No signal comes before the next instruction of the process.
pub fn is_undisturbed(shared: &Shared, pid: u32) -> bool
    ensures { result ≡ (not (is_killed_at (maps.get shared.now.entries pid)) && not (is_some (next_of
        (maps.get shared.now.entries pid)))) }
{
    match shared.entries.get(pid) {
        None => true,
        Some(entry) => !is_pending(&entry.signals, 9) && next(&entry.signals).is_none(),
    }
}
