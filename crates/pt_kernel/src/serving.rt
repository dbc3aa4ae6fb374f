//! How the pending request is served.

ghost use Rattle.std.specs.Prelude.{◌≡◌, OnOk, IfOk, ℕ, List, Option};
ghost use Rattle.lx_abi.specs.declared.ptrace.Reply.{Reply};
ghost use Rattle.lx_abi.specs.declared.ptrace.Request.{Request};
ghost use Rattle.lx_turn.specs.Linux.{linux};
ghost use Rattle.lx_kernel.specs.Outcomes.{outcome_in};
ghost use Rattle.pt_model.specs.Hosting.{hosting_serve, hosting_pending};
ghost use Rattle.pt_kernel.specs.Asking.{request_of};
ghost use Rattle.pt_kernel.specs.Hosts.{hosting_by, IsSwept, made};

use crate::answers::answer;
use crate::pending::{Asked, Pending};
use crate::tracees::Tracees;
use lx_abi::{Boxed, Outcome, Reply};
use lx_kernel::{Failed, Kernel};
use std::alloc::{AllocError, Global};

/// What is left of the run so far, its files listed or not.
pub fn outcome(kernel: &Kernel, lists_files: bool) -> Result<Outcome, AllocError>
    ensures { IfOk result (λ o. o ≡ outcome_in kernel.now.running.shared) }
{
    if lists_files {
        kernel.outcome()
    } else {
        kernel.outcome_unlisted()
    }
}

/// The answer to Outcome. Apart, since a function pays at its entry for the size of its locals.
#[inline(never)]
fn tell_outcome(alloc: Global, kernel: &Kernel, lists_files: bool) -> Result<Reply, AllocError>
    ensures { IfOk result (λ r. r ≡ Reply.Outcome (outcome_in kernel.now.running.shared)) }
{
    let outcome = Boxed::new(alloc, outcome(kernel, lists_files)?)?;
    Ok(Reply::Outcome { outcome })
}

/// A request is answered; none where Wait stays pending.
#[inline(always)]
fn answer_asked(
    alloc: Global,
    kernel: &mut Kernel,
    tracees: &mut Tracees,
    asked: &Asked,
    lists_files: bool,
) -> Result<Option<Reply>, Failed>
    requires { IsSwept kernel.old.running }
    ensures answer { IfOk result
        (λ r. (turns : List ℕ) (pending : Option Request)
        → made (hosting_by kernel.new.running tracees.new turns pending) r
        ≡ hosting_serve linux outcome_in
        (hosting_by kernel.old.running tracees.old turns pending) (request_of asked.now)) }
    ensures script { OnOk result ((kernel.new.script ≡ kernel.old.script) × (kernel.new.follow ≡ kernel.old.follow)) }
{
    match asked {
        Asked::Wait => Ok(tracees.wait()),
        Asked::To { pid, ask } => {
            let reply = answer(kernel, tracees, *pid, ask)?;
            Ok(Some(reply))
        }
        Asked::Outcome => {
            let reply = tell_outcome(alloc, kernel, lists_files)?;
            Ok(Some(reply))
        }
    }
}

/// The pending request is served whole.
#[inline(always)]
pub fn serve(
    alloc: Global,
    kernel: &mut Kernel,
    tracees: &mut Tracees,
    pending: &mut Pending,
    lists_files: bool,
) -> Result<Option<Reply>, Failed>
    requires { IsSwept kernel.old.running }
    ensures served { IfOk result
        (λ r. (turns : List ℕ)
        → made (hosting_by kernel.new.running tracees.new turns pending.new) r
        ≡ hosting_pending linux outcome_in
        (hosting_by kernel.old.running tracees.old turns pending.old) pending.old) }
    ensures script { OnOk result ((kernel.new.script ≡ kernel.old.script) × (kernel.new.follow ≡ kernel.old.follow)) }
{
    match &pending.asked {
        None => Ok(None),
        Some(asked) => {
            let reply = answer_asked(alloc, kernel, tracees, asked, lists_files)?;
            if reply.is_some() {
                pending.asked = None;
            }
            Ok(reply)
        }
    }
}
