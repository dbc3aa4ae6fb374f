//! What runs left, side by side.

ghost use Rattle.std.specs.Prelude.{◌≡◌, IfOk};
ghost use Rattle.std.specs.Bool.{Decides};
ghost use Rattle.sweep_rows.specs.Endings.{first_word, EndsAs, Leaves};

use lx_abi::Outcome;
use lx_copies::Same;
use lx_copies::same::same_list;
use std::alloc::AllocError;

/// What a run left when its turns ended.
#[derive(Drop)]
pub struct Ending {
    pub outcome: Outcome,
    /// A process had not ended.
    pub alive: bool,
}

/// The wait word of process 1, if it has ended.
pub fn first_word(outcome: &Outcome) -> Option<u32>
    ensures { result ≡ first_word outcome.now }
{
    let ended = outcome.ended.as_slice().iter().find(|e| e.pid == 1)?;
    Some(ended.word)
}

fn same_word(a: Option<u32>, b: Option<u32>) -> bool
    ensures { Decides result (a ≡ b) }
{
    match (a, b) {
        (None, None) => true,
        (Some(a), Some(b)) => a == b,
        _ => false,
    }
}

/// Process 1 ended so in both runs.
pub fn ends_as(a: &Ending, b: &Ending) -> bool
    ensures { Decides result (EndsAs a.now b.now) }
{
    same_word(first_word(&a.outcome), first_word(&b.outcome))
}

/// Console and files are the same.
pub fn leaves_the_same(a: &Outcome, b: &Outcome) -> Result<bool, AllocError>
    ensures { IfOk result (λ same. Decides same (Leaves a.now b.now)) }
{
    let files = a.files.as_slice()?;
    let others = b.files.as_slice()?;
    Ok(a.console.same(&b.console) && same_list(files, others))
}
