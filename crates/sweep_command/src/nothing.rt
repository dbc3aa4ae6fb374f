//! A sweep that tries nothing says so: it isn't one that found nothing.

ghost use Rattle.std.specs.Prelude.{◌≡◌, IfOk, cond, nat_lt, length};
ghost use Rattle.sweep_runs.specs.Cases.{cases_of};
ghost use Rattle.sweep_command.specs.Naming.{listed};

use crate::naming::listed;
use front_end::Shown;
use lx_abi::Item;
use lx_abi::calls::call_name;
use std::alloc::{AllocError, Global};
use std::io::Write;
use sweep_rows::Reached;
use sweep_runs::cases;
use sweep_words::plan::Plan;

/// The status of a sweep in which nothing was to be tried.
pub const NOTHING: u8 = 5;

/// So many are some.
pub fn is_some(count: usize) -> bool
    ensures { result ≡ nat_lt 0 count }
{
    count > 0
}

/// The status of a sweep by that of its runs.
pub fn status_if(tries: bool, status: u8) -> u8
    ensures { result ≡ cond tries status 5 }
{
    if tries { status } else { NOTHING }
}

/// There is a failure that the words ask for, before any part or number of them is taken.
pub fn tries_failures(alloc: Global, plan: &Plan, reference: &Reached) -> Result<bool, AllocError>
    ensures { IfOk result (λ tries. tries ≡ nat_lt 0 (length (listed plan.now.is_listed plan.now.named.items
        (cases_of plan.now.wanted.items plan.now.setup.boot.follow reference.now.log.items)))) }
{
    let log = reference.log.as_slice()?;
    let cases = cases(alloc, log, plan.wanted.as_slice(), plan.setup.boot.follow)?;
    let cases = listed(alloc, plan, cases)?;
    Ok(is_some(cases.len()))
}

/// The names of the calls that a run enters, each once.
fn names_of(alloc: Global, log: &[Item]) -> Result<String, AllocError> {
    let mut names: Vec<&'static str> = Vec::new(alloc);
    for item in log {
        if let Item::Enter { call, .. } = item {
            let name = call_name(call.number).unwrap_or("another call");
            if !names.contains(&name) {
                names.push(name)?;
            }
        }
    }
    let mut text = String::new(alloc);
    let mut mark = "";
    for name in &names {
        text.push_str(mark)?;
        text.push_str(name)?;
        mark = ", ";
    }
    Ok(text)
}

/// The name of a sweep's case, where it is one's, as it stands before what is said of it.
fn case_text(alloc: Global, plan: &Plan) -> Result<String, AllocError> {
    match plan.case.as_ref() {
        Some(name) => format!(in alloc; "{}: ", Shown(name.as_str())),
        None => Ok(String::new(alloc)),
    }
}

/// That a sweep of this status tried nothing, where it is so, and what its program calls, on `err`.
pub fn tell_nothing<E: Write>(
    alloc: Global,
    status: u8,
    plan: &Plan,
    reference: &Reached,
    err: &mut E,
) -> Result<(), AllocError> {
    if status == NOTHING {
        let case = case_text(alloc, plan)?;
        let names = names_of(alloc, reference.log.as_slice()?)?;
        // The status says it too, whether this can be written or not.
        let _written = writeln!(
            err,
            "strace_sweep: {case}nothing is tried; the program calls {names}"
        );
    }
    Ok(())
}
