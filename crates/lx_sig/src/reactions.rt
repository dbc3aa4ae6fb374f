//! What signals do (signal(7), "Signal dispositions"), and what new programs and children keep of them.

ghost use Rattle.std.specs.Prelude.{◌≡◌, map};
ghost use Rattle.lx_sig.specs.Pending.{default};
ghost use Rattle.lx_sig.specs.Reactions.{is_fault as is_faults, acts as acts_as, reaction as reaction_of};
ghost use Rattle.lx_sig.specs.Reactions.{without_handler as without_handlers, after_exec, of_child, no_signals};

use crate::delivery::{action, is_ignored, is_ignored_by_default, is_stop};
use crate::pending::Pending;
use crate::sets::has;
use crate::state::{Action, Job, Signals};
use lx_abi::{Cause, Signal};

/// What a process does with a signal that it takes.
#[derive(Clone, Copy, Debug, PartialEq, Eq)]
pub enum Reaction {
    /// Nothing.
    Passes,
    /// The process stops.
    Stops,
    /// The process ends by the signal.
    Ends,
    /// The action's handler runs.
    Handles(Action),
}

const DEFAULT: Action = Action {
    handler: 0,
    flags: 0,
    mask: 0,
};

fn is_fault(cause: Cause) -> bool
    ensures { result ≡ is_faults cause }
{
    matches!(cause, Cause::Fault { .. })
}

fn acts(action: Action, number: u8) -> Reaction
    ensures { result ≡ acts_as action number }
{
    match action.handler {
        0 if is_ignored_by_default(number) => Reaction::Passes,
        0 if is_stop(number) => Reaction::Stops,
        0 => Reaction::Ends,
        1 => Reaction::Passes,
        _ => Reaction::Handles(action),
    }
}

/// What the process does with a signal that it takes. A fault's signal that is blocked or ignored ends it.
pub fn reaction_to(signals: &Signals, signal: Signal, cause: Cause) -> Reaction
    ensures { result ≡ reaction_of signals.now signal cause }
{
    let number = signal.number;
    if is_fault(cause) && (has(signals.mask, number) || is_ignored(signals, number)) {
        return Reaction::Ends;
    }
    acts(action(signals, number), number)
}

fn without_handler(action: Action) -> Action
    ensures { result ≡ without_handlers action }
{
    if action.handler > 1 { DEFAULT } else { action }
}

fn remove_handlers(actions: &mut [Action; 32])
    ensures { actions.new ≡ map without_handlers actions.old }
{
    for i in 0..32 {
        actions[i] = without_handler(actions[i]);
    }
}

/// A new program begins: handlers are gone (execve(2)).
pub fn reset_for_exec(signals: &mut Signals)
    ensures { signals.new ≡ after_exec signals.old }
{
    remove_handlers(&mut signals.actions);
}

/// What a child begins with: its parent's mask and actions, and nothing pending (fork(2)).
pub fn for_child(signals: &Signals) -> Signals
    ensures { result ≡ of_child signals.now }
{
    Signals {
        pending: Pending::none(),
        mask: signals.mask,
        actions: signals.actions,
        job: Job::Free,
    }
}

impl Signals {
    /// Nothing is pending, blocked or set.
    pub fn new() -> Signals
        ensures { result ≡ no_signals }
    {
        Signals {
            pending: Pending::none(),
            mask: 0,
            actions: [DEFAULT; 32],
            job: Job::Free,
        }
    }
}
