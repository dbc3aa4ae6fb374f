//! What is known where a call begins: what its process's descriptors stand for, and whether signals have handlers.

ghost use Rattle.std.specs.Prelude.{◌≡◌, ◌++◌, ◌∷◌, ◌||◌, [], List, OnOk, true, false};
ghost use Rattle.lx_abi.specs.declared.log.Item.{Item as LogItem};
ghost use Rattle.sweep_rows.specs.Descriptors.{after_item, descriptor, uses_in};
ghost use Rattle.sweep_rows.specs.Known.{sets_action, occurrence_in, IsKnown};

use crate::descriptors::{Descriptors, Use, descriptor};
use lx_abi::{Call, Item, sys};
use std::alloc::{AllocError, Global};

const SIGPIPE: u64 = 13;

/// The nth entry of a process into a call, counted from 1.
#[derive(Clone, Copy, Debug, PartialEq, Eq)]
pub struct Occurrence {
    pub pid: u32,
    pub call: Call,
    pub n: u64,
    /// What the descriptor stands for that is its first argument.
    pub used: Use,
    /// Some process has set what SIGPIPE does.
    pub piped: bool,
    /// Some process has set what another signal does.
    pub handled: bool,
}

/// What a log tells.
#[derive(Drop)]
pub struct Known {
    pub(crate) descriptors: Descriptors,
    piped: bool,
    handled: bool,
}

/// A process has set what SIGPIPE does, or another signal.
#[inline(always)]
#[tactic(auto, unfolding(crate::specs::Known::sets_action))]
fn sets_action(item: &Item, pipe: bool) -> bool
    ensures { result ≡ sets_action pipe item.now }
{
    match item {
        Item::Done {
            call,
            result: word,
            replaced,
            ..
        } => {
            !*replaced
                && *word == 0
                && call.number == sys::SYS_RT_SIGACTION
                && call.arguments[1] != 0
                && (call.arguments[0] == SIGPIPE) == pipe
        }
        _ => false,
    }
}

/// A process has, or had before.
#[inline(always)]
fn note_action(has_set: &mut bool, item: &Item, pipe: bool)
    ensures { has_set.new ≡ (has_set.old || sets_action pipe item.now) }
{
    if sets_action(item, pipe) {
        *has_set = true;
    }
}

impl Known {
    /// What is known when a run begins.
    pub fn new(alloc: Global) -> Self
        ensures { IsKnown [] result }
    {
        Known {
            descriptors: Descriptors::new(alloc),
            piped: false,
            handled: false,
        }
    }

    /// What the descriptor stands for that a call of a process has as its first argument.
    pub fn use_of(&self, pid: u32, call: &Call) -> Use
        ensures { result ≡ uses_in self.now.descriptors pid (descriptor call.now) }
    {
        self.descriptors.use_of(pid, descriptor(call))
    }

    pub(crate) fn occurrence(&self, pid: u32, call: Call, n: u64) -> Occurrence
        ensures { result ≡ occurrence_in self.now pid call n }
    {
        Occurrence {
            pid,
            call,
            n,
            used: self.use_of(pid, &call),
            piped: self.piped,
            handled: self.handled,
        }
    }

    /// One item more of the log.
    #[inline(always)]
    pub fn add(&mut self, item: &Item) -> Result<(), AllocError>
        ensures { OnOk result
            ((past : List LogItem) → IsKnown past self.old → IsKnown (past ++ item.now ∷ []) self.new) }
    {
        self.descriptors.add(item)?;
        note_action(&mut self.piped, item, true);
        note_action(&mut self.handled, item, false);
        Ok(())
    }
}

impl Clone for Known {
    ghost is_clone = { λ a b. b ≡ a };

    fn clone(&self) -> Result<Self, AllocError> {
        Ok(Known {
            descriptors: self.descriptors.clone()?,
            piped: self.piped,
            handled: self.handled,
        })
    }
}
