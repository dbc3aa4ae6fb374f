//! The runs that a file names.

ghost use Rattle.std.specs.Prelude.{◌≡◌, ◌++◌, IfOk, OnOk};
ghost use Rattle.sweep_command.specs.Naming.{is_named, kept_if, only_named, listed};

use clap::ArgMatches;
use front_end::Fault;
use std::alloc::{AllocError, Global};
use sweep_deep::naming::names;
use sweep_rows::{Case, Reached};
use sweep_runs::cases;
use sweep_words::calls::name_of;
use sweep_words::named::{NamedLine, refuse_line};
use sweep_words::plan::Plan;
use sweep_words::show::NamedRun;

/// A line names this case.
fn is_named(named: &[NamedLine], case: &Case) -> bool
    ensures { result ≡ is_named named.now case.now }
{
    named.iter().any(|one| names(one.run, case))
}

/// Adds a case, if it is named.
fn add_if(kept: &mut Vec<Case>, case: Case, is_named: bool) -> Result<(), AllocError>
    ensures { OnOk result (kept.new.items ≡ kept.old.items ++ kept_if is_named case) }
{
    if is_named {
        kept.push(case)?;
    }
    Ok(())
}

/// Those cases alone that a line names.
fn only_named(alloc: Global, named: &[NamedLine], cases: &[Case]) -> Result<Vec<Case>, AllocError>
    ensures { IfOk result (λ r. r.items ≡ only_named named.now cases.now) }
{
    let mut kept = Vec::new(alloc);
    let mut left = cases;
    while let Some((case, rest)) = left.split_first() {
        add_if(&mut kept, *case, is_named(named, case))?;
        left = rest;
    }
    Ok(kept)
}

/// Those cases alone that the file of the words names, if there is one.
pub fn listed(alloc: Global, plan: &Plan, cases: Vec<Case>) -> Result<Vec<Case>, AllocError>
    ensures { IfOk result (λ r. r.items ≡ listed plan.now.is_listed plan.now.named.items cases.items) }
{
    if plan.is_listed {
        only_named(alloc, plan.named.as_slice(), cases.as_slice())
    } else {
        Ok(cases)
    }
}

/// That calls of children don't fail without `-f`, where they don't and one is named.
fn hint(plan: &Plan, run: NamedRun) -> &'static str {
    if plan.setup.boot.follow || run.pid == 1 {
        ""
    } else {
        "; without -f no call of a child fails"
    }
}

/// What is said of a run whose process doesn't make the call so often.
pub fn absence_of(alloc: Global, plan: &Plan, run: NamedRun) -> Result<String, AllocError> {
    let name = name_of(alloc, run.call)?;
    let hint = hint(plan, run);
    format!(in alloc; "process {} has no call {} of {name}{hint}", run.pid, run.n)
}

fn absent(alloc: Global, path: &str, plan: &Plan, one: NamedLine) -> Fault {
    match absence_of(alloc, plan, one.run) {
        Ok(reason) => refuse_line(alloc, path, one.line, reason.as_str()),
        Err(error) => Fault::from(error),
    }
}

/// Each line of the file names a run that there is.
pub fn check_named(
    alloc: Global,
    matches: &ArgMatches,
    plan: &Plan,
    reference: &Reached,
) -> Result<(), Fault> {
    let Some(path) = matches.get_str("runs") else {
        return Ok(());
    };
    let log = reference.log.as_slice()?;
    let cases = cases(alloc, log, plan.wanted.as_slice(), plan.setup.boot.follow)?;
    for one in plan.named.as_slice() {
        if !cases.iter().any(|case| names(one.run, case)) {
            return Err(absent(alloc, path, plan, *one));
        }
    }
    Ok(())
}
