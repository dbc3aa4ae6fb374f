//! How many bytes a message takes.

ghost use Rattle.std.specs.Prelude.{◌≡◌, ◌≤◌, ◌++◌, length, IfOk, SomeIff};
ghost use Rattle.host_values.specs.Spelling as value;
ghost use Rattle.host_values.specs.Sizes.{Spends};
ghost use Rattle.host_frame.specs.Spelling as spec;

use crate::frame::{Frame, LONGEST, Payload, SHORTEST};
use host_values::{registers_size, spend_list, spend_text};
use lx_abi::{Ask, Boot, Ended, Outcome, OutcomeFile, Reply, Request, Word};
use std::alloc::AllocError;

#[tactic(auto, using(host_values::proofs::Sizes::sizes))]
fn ask_size(ask: &Ask) -> usize
    ensures { result ≡ length (spec.ask_message ask.now).1 }
{
    match ask {
        Ask::Seize { .. } => 4,
        Ask::SetOptions { .. } => 4,
        Ask::SetRegs { registers } => registers_size(registers.get()),
        Ask::Peek { .. } => 12,
        Ask::Syscall { .. } => 4,
        Ask::GetRegs => 0,
        Ask::EventMsg => 0,
        Ask::SigInfo => 0,
        Ask::Listen => 0,
    }
}

/// What is written in a boot, and its files.
#[tactic(auto, using(host_values::proofs::Sizes::sizes), unfolding(crate::specs::Spelling::parts))]
fn spend_parts(budget: usize, boot: &Boot) -> Option<usize>
    ensures { Spends result budget (length (spec.parts boot.now)) }
{
    let budget = spend_text(budget, boot.input.as_slice())?;
    let budget = spend_list(budget, boot.argv.as_slice())?;
    let budget = spend_list(budget, boot.env.as_slice())?;
    spend_list(budget, boot.files.as_slice())
}

#[tactic(auto, using(host_values::proofs::Sizes::sizes), unfolding(crate::specs::Spelling::head))]
fn spend_boot(budget: usize, boot: &Boot, limit: u64, words: &[Word]) -> Option<usize>
    ensures { Spends result budget (length (spec.boot boot.now limit words.now)) }
{
    let budget = budget.checked_sub(18)?;
    let budget = spend_parts(budget, boot)?;
    spend_list(budget, words)
}

#[tactic(auto, using(host_values::proofs::Sizes::sizes))]
fn spend_request(budget: usize, request: &Request) -> Option<usize>
    ensures { Spends result budget (length (spec.request_message request.now).1) }
{
    match request {
        Request::Boot { boot, limit, words } => spend_boot(
            budget,
            boot.get(),
            *limit,
            words.as_slice(),
        ),
        Request::To { ask, .. } => budget.checked_sub(4)?.checked_sub(ask_size(ask)),
        Request::Wait => Some(budget),
        Request::Outcome => Some(budget),
    }
}

#[tactic(auto, using(host_values::proofs::Sizes::sizes))]
fn spend_lists(
    budget: usize,
    console: &[u8],
    files: &[OutcomeFile],
    ended: &[Ended],
) -> Option<usize>
    ensures { Spends result budget (length (value.text console.now
        ++ value.items value.outcome_file files.now ++ value.items value.ended ended.now)) }
{
    let budget = spend_text(budget, console)?;
    let budget = spend_list(budget, files)?;
    spend_list(budget, ended)
}

/// Refused where its files were left unlisted.
fn spend_outcome(budget: usize, outcome: &Outcome) -> Result<Option<usize>, AllocError>
    ensures { IfOk result (λ left. Spends left budget (length (value.text outcome.now.console
        ++ value.items value.outcome_file outcome.now.files ++ value.items value.ended outcome.now.ended))) }
{
    let files = outcome.files.as_slice()?;
    Ok(spend_lists(
        budget,
        outcome.console.as_slice(),
        files,
        outcome.ended.as_slice(),
    ))
}

#[tactic(auto, using(host_values::proofs::Sizes::sizes))]
fn spend_reply(budget: usize, reply: &Reply) -> Result<Option<usize>, AllocError>
    ensures { IfOk result (λ left. Spends left budget (length (spec.reply_message reply.now).1)) }
{
    match reply {
        Reply::Done => Ok(Some(budget)),
        Reply::Status { .. } => Ok(budget.checked_sub(8)),
        Reply::Registers { registers } => Ok(budget.checked_sub(registers_size(registers.get()))),
        Reply::Bytes { bytes } => Ok(spend_text(budget, bytes.as_slice())),
        Reply::Message { .. } => Ok(budget.checked_sub(8)),
        Reply::Info { .. } => Ok(budget.checked_sub(24)),
        Reply::Outcome { outcome } => spend_outcome(budget, outcome.get()),
        Reply::Errno { .. } => Ok(budget.checked_sub(4)),
        Reply::OutOfTurns => Ok(Some(budget)),
        Reply::Refused { .. } => Ok(budget.checked_sub(1)),
    }
}

fn spend_body(budget: usize, body: &Payload) -> Result<Option<usize>, AllocError>
    ensures { IfOk result (λ left. Spends left budget (length (spec.message body.now).1)) }
{
    match body {
        Payload::Request(request) => Ok(spend_request(budget, request)),
        Payload::Reply(reply) => spend_reply(budget, reply),
    }
}

/// How many bytes stand behind a frame's length; none where they pass the limit.
#[tactic(auto, using(host_values::proofs::Sizes::sizes))]
pub(crate) fn content_size(frame: &Frame) -> Result<Option<usize>, AllocError>
    ensures { IfOk result (λ size.
        SomeIff size (length (spec.content frame.now) ≤ 134217728) (length (spec.content frame.now))) }
{
    match spend_body(LONGEST - SHORTEST, &frame.body)? {
        Some(left) => Ok(Some(LONGEST - left)),
        None => Ok(None),
    }
}
