//! Which processes can take a turn.

ghost use Rattle.std.specs.Prelude.{◌≡◌, ◌+◌};
ghost use Rattle.lx_kernel.specs.Scheduling.{IsFirstFrom, IsNextIn, can_turn_in};
ghost use Rattle.lx_kernel.specs.Sleeping.{AreOthersBlocked};

use crate::blocking::can_turn;
use lx_model::Task;
use lx_proc::{Shared, UserState};
use shelves::Shelf;

/// A turn of the process does something.
#[tactic(auto, unfolding(crate::specs::Blocking::can_turn))]
pub fn can_turn_at(shared: &Shared, tasks: &Shelf<Task<UserState>>, pid: u32) -> bool
    ensures { result ≡ can_turn_in shared.now tasks.now pid }
{
    match tasks.get(pid) {
        Some(task) => can_turn(shared, pid, task),
        None => false,
    }
}

/// The first process above a pid that can take a turn. Each that is blocked may be left out of the keys.
fn next_able<V>(
    shared: &Shared,
    tasks: &Shelf<Task<UserState>>,
    keys: &Shelf<V>,
    after: u32,
) -> Option<u32>
    requires { AreOthersBlocked keys.now shared.now tasks.now }
    ensures { IsFirstFrom shared.now tasks.now (after + 1) result }
{
    let mut passed = after;
    while let Some(pid) = keys.next_key(passed) {
        if can_turn_at(shared, tasks, pid) {
            return Some(pid);
        }
        passed = pid;
    }
    None
}

/// The first process that can take a turn.
fn first_able<V>(shared: &Shared, tasks: &Shelf<Task<UserState>>, keys: &Shelf<V>) -> Option<u32>
    requires { AreOthersBlocked keys.now shared.now tasks.now }
    ensures { IsFirstFrom shared.now tasks.now 0 result }
{
    // no process has pid 0, but a table may have a key 0
    if can_turn_at(shared, tasks, 0) {
        return Some(0);
    }
    next_able(shared, tasks, keys, 0)
}

/// The first process above a pid that can take a turn, or else the first of all.
pub fn next_in_cycle<V>(
    shared: &Shared,
    tasks: &Shelf<Task<UserState>>,
    keys: &Shelf<V>,
    after: u32,
) -> Option<u32>
    requires { AreOthersBlocked keys.now shared.now tasks.now }
    ensures { IsNextIn shared.now tasks.now after result }
{
    match next_able(shared, tasks, keys, after) {
        Some(pid) => Some(pid),
        None => first_able(shared, tasks, keys),
    }
}
