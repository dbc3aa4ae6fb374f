//! The bytes of a frame.

ghost use Rattle.std.specs.Prelude.{◌≡◌, ◌≤◌, ◌<◌, ◌^◌, ◌++◌, OnOk, IfOk, IfErr, length};
ghost use Rattle.std.specs.List.{AllByRecursion};
ghost use Rattle.host_values.specs.Spelling as value;
ghost use Rattle.host_frame.specs.Spelling as spec;

use crate::fault::WireFault;
use crate::frame::{Frame, Payload};
use crate::sizing::content_size;
use host_values::{put_byte, put_double, put_length, put_list, put_registers, put_text, put_word};
use lx_abi::{Ask, Boot, Info, Limits, Outcome, Reply, Request, Word};
use std::alloc::{AllocError, Global};

fn ask_kind(ask: &Ask) -> u8
    ensures { result ≡ (spec.ask_message ask.now).0 }
{
    match ask {
        Ask::Seize { .. } => 0x02,
        Ask::SetOptions { .. } => 0x03,
        Ask::GetRegs => 0x05,
        Ask::SetRegs { .. } => 0x06,
        Ask::Peek { .. } => 0x07,
        Ask::Syscall { .. } => 0x08,
        Ask::EventMsg => 0x09,
        Ask::SigInfo => 0x0a,
        Ask::Listen => 0x0d,
    }
}

fn put_peek(out: &mut Vec<u8>, address: u64, length: u32) -> Result<(), AllocError>
    ensures bytes { OnOk result (out.new.items ≡ out.old.items ++ value.double address ++ value.word length) }
    ensures numbers { (address < 256 ^ 8) × (length < 256 ^ 4) }
{
    put_double(out, address)?;
    put_word(out, length)
}

fn put_ask(out: &mut Vec<u8>, ask: &Ask) -> Result<(), AllocError>
    ensures bytes { OnOk result (out.new.items ≡ out.old.items ++ (spec.ask_message ask.now).1) }
    ensures numbers { OnOk result (spec.FitsAsk ask.now) }
{
    match ask {
        Ask::Seize { options } => put_word(out, *options),
        Ask::SetOptions { options } => put_word(out, *options),
        Ask::SetRegs { registers } => put_registers(out, registers.get()),
        Ask::Peek { address, length } => put_peek(out, *address, *length),
        Ask::Syscall { signal } => put_word(out, *signal),
        Ask::GetRegs => Ok(()),
        Ask::EventMsg => Ok(()),
        Ask::SigInfo => Ok(()),
        Ask::Listen => Ok(()),
    }
}

fn put_to(out: &mut Vec<u8>, pid: u32, ask: &Ask) -> Result<(), AllocError>
    ensures bytes { OnOk result (out.new.items ≡ out.old.items ++ value.word pid ++ (spec.ask_message ask.now).1) }
    ensures numbers { OnOk result ((pid < 256 ^ 4) × spec.FitsAsk ask.now) }
{
    put_word(out, pid)?;
    put_ask(out, ask)
}

fn put_status(out: &mut Vec<u8>, pid: u32, word: u32) -> Result<(), AllocError>
    ensures bytes { OnOk result (out.new.items ≡ out.old.items ++ value.word pid ++ value.word word) }
    ensures numbers { (pid < 256 ^ 4) × (word < 256 ^ 4) }
{
    put_word(out, pid)?;
    put_word(out, word)
}

fn put_info(out: &mut Vec<u8>, info: &Info) -> Result<(), AllocError>
    ensures bytes { OnOk result (out.new.items ≡ out.old.items ++ value.word info.now.signal
        ++ value.word info.now.code ++ value.word info.now.pid ++ value.word info.now.status
        ++ value.double info.now.address) }
    ensures numbers { OnOk result (spec.FitsInfo info.now) }
{
    put_word(out, info.signal)?;
    put_word(out, info.code)?;
    put_word(out, info.pid)?;
    put_word(out, info.status)?;
    put_double(out, info.address)
}

fn put_outcome(out: &mut Vec<u8>, outcome: &Outcome) -> Result<(), AllocError>
    ensures bytes { OnOk result (out.new.items ≡ out.old.items ++ value.text outcome.now.console
        ++ value.items value.outcome_file outcome.now.files ++ value.items value.ended outcome.now.ended) }
    ensures numbers { OnOk result (AllByRecursion value.FitsEnded outcome.now.ended) }
{
    put_text(out, outcome.console.as_slice())?;
    put_list(out, outcome.files.as_slice()?)?;
    put_list(out, outcome.ended.as_slice())
}

#[tactic(auto, unfolding(crate::specs::Spelling::parts))]
fn put_parts(out: &mut Vec<u8>, boot: &Boot) -> Result<(), AllocError>
    ensures { OnOk result (out.new.items ≡ out.old.items ++ spec.parts boot.now) }
{
    put_text(out, boot.input.as_slice())?;
    put_list(out, boot.argv.as_slice())?;
    put_list(out, boot.env.as_slice())?;
    put_list(out, boot.files.as_slice())
}

#[tactic(auto, unfolding(crate::specs::Spelling::head))]
fn put_head(out: &mut Vec<u8>, follow: bool, limit: u64) -> Result<(), AllocError>
    ensures bytes { OnOk result (out.new.items ≡ out.old.items ++ spec.head follow limit) }
    ensures numbers { limit < 256 ^ 8 }
{
    put_byte(out, 2)?;
    put_byte(out, if follow { 1 } else { 0 })?;
    put_double(out, limit)
}

fn put_limits(out: &mut Vec<u8>, limits: Limits) -> Result<(), AllocError>
    ensures bytes { OnOk result (out.new.items ≡ out.old.items ++ spec.limits limits) }
    ensures numbers { spec.FitsLimits limits }
{
    put_word(out, limits.live)?;
    put_word(out, limits.last_pid)
}

fn put_boot(out: &mut Vec<u8>, boot: &Boot, limit: u64, words: &[Word]) -> Result<(), AllocError>
    ensures bytes { OnOk result (out.new.items ≡ out.old.items ++ spec.boot boot.now limit words.now) }
    ensures numbers { OnOk result ((limit < 256 ^ 8)
        × (spec.FitsLimits boot.now.limits × AllByRecursion value.FitsWord words.now)) }
{
    put_head(out, boot.follow, limit)?;
    put_limits(out, boot.limits)?;
    put_parts(out, boot)?;
    put_list(out, words)
}

fn put_request(out: &mut Vec<u8>, request: &Request) -> Result<(), AllocError>
    ensures bytes { OnOk result (out.new.items ≡ out.old.items ++ (spec.request_message request.now).1) }
    ensures numbers { OnOk result (spec.HasRequestNumbers request.now) }
{
    match request {
        Request::Boot { boot, limit, words } => put_boot(out, boot.get(), *limit, words.as_slice()),
        Request::To { pid, ask } => put_to(out, *pid, ask),
        Request::Wait => Ok(()),
        Request::Outcome => Ok(()),
    }
}

fn request_kind(request: &Request) -> u8
    ensures { result ≡ (spec.request_message request.now).0 }
{
    match request {
        Request::Boot { .. } => 0x01,
        Request::To { ask, .. } => ask_kind(ask),
        Request::Wait => 0x04,
        Request::Outcome => 0x0b,
    }
}

fn put_reply(out: &mut Vec<u8>, reply: &Reply) -> Result<(), AllocError>
    ensures bytes { OnOk result (out.new.items ≡ out.old.items ++ (spec.reply_message reply.now).1) }
    ensures numbers { OnOk result (spec.HasReplyNumbers reply.now) }
{
    match reply {
        Reply::Done => Ok(()),
        Reply::Status { pid, status } => put_status(out, *pid, status.word),
        Reply::Registers { registers } => put_registers(out, registers.get()),
        Reply::Bytes { bytes } => put_text(out, bytes.as_slice()),
        Reply::Message { pid } => put_double(out, *pid),
        Reply::Info { info } => put_info(out, info),
        Reply::Outcome { outcome } => put_outcome(out, outcome.get()),
        Reply::Errno { number } => put_word(out, *number),
        Reply::OutOfTurns => Ok(()),
        Reply::Refused { fault } => put_byte(out, *fault),
    }
}

fn reply_kind(reply: &Reply) -> u8
    ensures { result ≡ (spec.reply_message reply.now).0 }
{
    match reply {
        Reply::Done => 0x81,
        Reply::Status { .. } => 0x82,
        Reply::Registers { .. } => 0x83,
        Reply::Bytes { .. } => 0x84,
        Reply::Message { .. } => 0x85,
        Reply::Info { .. } => 0x86,
        Reply::Outcome { .. } => 0x87,
        Reply::Errno { .. } => 0x88,
        Reply::OutOfTurns => 0x89,
        Reply::Refused { .. } => 0x8a,
    }
}

fn kind(body: &Payload) -> u8
    ensures { result ≡ (spec.message body.now).0 }
{
    match body {
        Payload::Request(request) => request_kind(request),
        Payload::Reply(reply) => reply_kind(reply),
    }
}

fn put_body(out: &mut Vec<u8>, body: &Payload) -> Result<(), AllocError>
    ensures bytes { OnOk result (out.new.items ≡ out.old.items ++ (spec.message body.now).1) }
    ensures numbers { OnOk result (spec.HasMessageNumbers body.now) }
{
    match body {
        Payload::Request(request) => put_request(out, request),
        Payload::Reply(reply) => put_reply(out, reply),
    }
}

fn put_content(out: &mut Vec<u8>, frame: &Frame) -> Result<(), AllocError>
    ensures bytes { OnOk result (out.new.items ≡ out.old.items ++ spec.content frame.now) }
    ensures numbers { OnOk result (spec.HasNumbers frame.now) }
{
    put_double(out, frame.number)?;
    put_byte(out, kind(&frame.body))?;
    put_body(out, &frame.body)
}

/// The bytes of a frame; Length where what stands behind its length would pass the limit.
#[tactic(auto, unfolding(crate::specs::Spelling::spelled))]
pub fn encode(alloc: Global, frame: &Frame) -> Result<Vec<u8>, WireFault>
    ensures bytes { IfOk result (λ v. v.items ≡ spec.spelled frame.now) }
    ensures fits { IfOk result (λ v. spec.CanBeSpelled frame.now) }
    ensures fault { IfErr result (λ fault. spec.CannotBeSpelled frame.now fault) }
{
    let Some(size) = content_size(frame)? else {
        return Err(WireFault::Length);
    };
    let mut bytes = Vec::with_capacity(alloc, 4 + size)?;
    put_length(&mut bytes, size)?;
    put_content(&mut bytes, frame)?;
    Ok(bytes)
}
