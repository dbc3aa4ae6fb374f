//! The report on runs in which something else happens to a call than that it has an error.

ghost use Rattle.std.specs.Prelude.{IfOk};
ghost use Rattle.sweep_command.specs.Trials.{IsOfTrials};

use crate::nothing::{is_some, status_if};
use crate::outputs::write;
use clap::ArgMatches;
use front_end::Fault;
use std::alloc::Global;
use std::io::Write;
use sweep_rows::Reached;
use sweep_trace::traced_calls;
use sweep_trials::{check_second, status_of, text_of, tried_rows};
use sweep_words::plan::Plan;
use sweep_words::trials::Tried;
use sweep_words::words::Words;

/// Makes the trials of calls, and reports them; gives the exit status.
pub fn trials_reported<W: Write>(
    alloc: Global,
    matches: &ArgMatches,
    words: Words,
    plan: &Plan,
    tried: &Tried,
    reference: &Reached,
    writer: &mut W,
) -> Result<u8, Fault>
    ensures { IfOk result (IsOfTrials plan.now reference.now tried.now) }
{
    check_second(alloc, plan, reference)?;
    let calls = traced_calls(alloc, &plan.setup, reference.log.as_slice()?)?;
    let rows = tried_rows(alloc, plan, tried, reference)?;
    let rows = rows.as_slice();
    let text = text_of(
        alloc, matches, words, plan, tried.deed, reference, &calls, rows,
    )?;
    write(alloc, text.as_str(), writer)?;
    let status = status_of(alloc, plan.strict, rows)?;
    Ok(status_if(is_some(rows.len()), status))
}
