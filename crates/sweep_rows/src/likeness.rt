//! How a process's calls go beside those of a reference.

ghost use Rattle.std.specs.Prelude.{◌≡◌, suc, cond, IfOk};
ghost use Rattle.sweep_rows.specs.Calls.{calls_in};
ghost use Rattle.sweep_rows.specs.Likeness.{is_whole, next_likeness};
ghost use Rattle.sweep_rows.specs.declared.likeness.Likeness.TheVariants.{Same, Other};

use crate::calls::Calls;
use std::alloc::AllocError;

/// How a process's calls go beside those of a reference.
#[derive(Clone, Copy, Debug, PartialEq, Eq)]
pub enum Likeness {
    /// It has made so many, each as there.
    Same(usize),
    /// It has made another.
    Other,
}

/// After a call more behind so many, which is that of the reference or isn't.
fn next_behind(made: usize, is_same: bool) -> Result<Likeness, AllocError>
    ensures { IfOk result (λ next. next ≡ cond is_same (Same (suc made)) Other) }
{
    if !is_same {
        return Ok(Likeness::Other);
    }
    // More calls than a word counts are more than any memory holds.
    let Some(more) = made.checked_add(1) else {
        return Err(AllocError);
    };
    Ok(Likeness::Same(more))
}

/// After a call more, where the reference's are these.
fn next_likeness(expected: &[u64], likeness: Likeness, call: u64) -> Result<Likeness, AllocError>
    ensures { IfOk result (λ next. next ≡ next_likeness expected.now likeness call) }
{
    let Likeness::Same(made) = likeness else {
        return Ok(Likeness::Other);
    };
    match expected.get(made) {
        Some(number) => next_behind(made, *number == call),
        None => Ok(Likeness::Other),
    }
}

impl Likeness {
    /// After a call more of a process.
    pub fn next(self, calls: &Calls, pid: u32, call: u64) -> Result<Self, AllocError>
        ensures { IfOk result (λ next. next ≡ next_likeness (calls_in calls.now pid) self call) }
    {
        next_likeness(calls.by(pid), self, call)
    }

    /// The process has made all calls of the reference's, and no other.
    pub fn is_whole(self, calls: &Calls, pid: u32) -> bool
        ensures { result ≡ is_whole (calls_in calls.now pid) self }
    {
        match self {
            Likeness::Same(made) => made == calls.by(pid).len(),
            Likeness::Other => false,
        }
    }
}
