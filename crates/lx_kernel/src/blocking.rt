//! Which calls block, and which processes can take a turn that changes something.

ghost use Rattle.std.specs.Prelude.{◌≡◌, ◌||◌};
ghost use Rattle.lx_fcalls.specs.Blocking.{would_block as file_would_block};
ghost use Rattle.lx_pcalls.specs.Calls.{would_block as process_would_block};
ghost use Rattle.lx_model.specs.declared.stage.Task.TheVariants.{Alive};
ghost use Rattle.lx_kernel.specs.Blocking.{would_block as would_block_in, can_turn as can_turn_of};

use lx_abi::Call;
use lx_model::{Stage, Task};
use lx_pcalls::{is_continued, is_interrupted};
use lx_proc::{Shared, UserState};
use lx_turn::is_killed;

/// The call would block, unless something interrupts it.
fn waits(shared: &Shared, pid: u32, call: &Call, user: &UserState) -> bool
    ensures { result
        ≡ (file_would_block shared.now pid call.now user.now || process_would_block shared.now pid call.now) }
{
    lx_fcalls::would_block(shared, pid, call, user) || lx_pcalls::would_block(shared, pid, call)
}

/// The call would block.
#[tactic(auto, unfolding(crate::specs::Blocking::would_block))]
fn would_block(shared: &Shared, pid: u32, call: &Call, user: &UserState) -> bool
    ensures { result ≡ would_block_in shared.now pid call.now user.now }
{
    waits(shared, pid, call, user) && !is_interrupted(shared, pid)
}

/// A turn of the living process does something.
#[tactic(auto, unfolding(crate::specs::Blocking::can_turn))]
fn can_go_on(shared: &Shared, pid: u32, user: &UserState, stage: Stage) -> bool
    ensures { result ≡ can_turn_of shared.now pid (Alive user.now stage) }
{
    match stage {
        Stage::Doing { call } => !would_block(shared, pid, &call, user) || is_killed(shared, pid),
        Stage::Stopped { .. } => is_continued(shared, pid) || is_killed(shared, pid),
        _ => true,
    }
}

/// A turn of the process does something.
#[tactic(auto, unfolding(crate::specs::Blocking::can_turn))]
pub fn can_turn(shared: &Shared, pid: u32, task: &Task<UserState>) -> bool
    ensures { result ≡ can_turn_of shared.now pid task.now }
{
    match task {
        Task::Alive { user, stage } => can_go_on(shared, pid, user, *stage),
        Task::Dying { .. } => true,
        Task::Gone => false,
    }
}
