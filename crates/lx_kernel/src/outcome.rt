//! What is left of a run.

ghost use Rattle.std.specs.Prelude.{◌≡◌, IfOk};
ghost use Rattle.lx_kernel.specs.Outcomes.{outcome_in};

use containers::Bytes;
use lx_abi::{Outcome, OutcomeFiles};
use lx_proc::Shared;
use std::alloc::{AllocError, Global};

/// The console, what stands at each path, and the processes that have ended.
pub fn outcome(alloc: Global, shared: &Shared) -> Result<Outcome, AllocError>
    ensures { IfOk result (λ o. o ≡ outcome_in shared.now) }
{
    Ok(Outcome {
        console: Bytes::from_slice(alloc, shared.console.as_slice())?,
        files: OutcomeFiles::new(shared.tree.list(alloc)?),
        ended: shared.ended.list(alloc)?,
    })
}

/// The same, with the files left unlisted.
pub fn outcome_unlisted(alloc: Global, shared: &Shared) -> Result<Outcome, AllocError>
    ensures { IfOk result (λ o. o ≡ outcome_in shared.now) }
{
    Ok(Outcome {
        console: Bytes::from_slice(alloc, shared.console.as_slice())?,
        files: OutcomeFiles::unlisted(&shared.tree),
        ended: shared.ended.list(alloc)?,
    })
}
