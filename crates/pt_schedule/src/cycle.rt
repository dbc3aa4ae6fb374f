//! The processes in the cycle of their pids.

ghost use Rattle.std.specs.Prelude.{◌≡◌, ◌-◌, ◌+◌, ◌≤◌, ◌<◌};
ghost use Rattle.pt_schedule.specs.Cycle.{first_able, next_able};

use crate::system::Schedulable;

/// The first of the pids from one up to before another that is able.
fn first_able<S: Schedulable>(system: &S, from: u32, end: u32) -> Option<u32>
    requires above { 0 < from }
    requires below { from ≤ end }
    ensures { result ≡ first_able (S.readiness system.now).able from (end - from) }
{
    let mut passed = from - 1;
    while let Some(pid) = system.next_after(passed) {
        if pid >= end {
            return None;
        }
        if system.is_able(pid) {
            return Some(pid);
        }
        passed = pid;
    }
    None
}

/// The next able pid after this one, in cyclic order.
#[tactic(auto, unfolding(crate::specs::Cycle::next_able))]
pub fn next_able<S: Schedulable>(system: &S, last: u32) -> Option<u32>
    ensures { result ≡ next_able (S.readiness system.now).able (S.readiness system.now).last_pid last }
{
    let last_pid = u32::from(system.last_pid());
    let below = last.min(last_pid);
    match first_able(system, below + 1, last_pid + 1) {
        Some(pid) => Some(pid),
        None => first_able(system, 1, below + 1),
    }
}
