//! The message that a body spells.

ghost use Rattle.std.specs.Prelude.{◌≡◌, ◌≤◌, length};
ghost use Rattle.host_values.specs.Reading.{Gives};
ghost use Rattle.host_frame.specs.Reading as spec;
ghost use Rattle.host_frame.specs.Reading.{Decodes};

use crate::fault::WireFault;
use crate::frame::{Frame, Payload};
use byteorder::{BigEndian, ByteOrder};
use host_values::{
    Bad, byte_at, double_at, list_of, paths_rise, pids_rise, registers_of, text_of, word_at,
};
use lx_abi::{Ask, Boot, Boxed, Info, Limits, Outcome, OutcomeFiles, Reply, Request, Status};
use std::alloc::Global;

/// Those of a boot that doesn't say its limits.
const UNSAID_LIMITS: Limits = Limits {
    live: 64,
    last_pid: 255,
};

#[tactic(auto, unfolding(crate::specs::Reading::seize_at))]
fn seize(bytes: &[u8]) -> Result<(Ask, &[u8]), Bad>
    ensures { Gives (λ x. (x.0, x.1.now)) result (spec.seize_at bytes.now) }
{
    let (options, rest) = word_at(bytes)?;
    Ok((Ask::Seize { options }, rest))
}

#[tactic(auto, unfolding(crate::specs::Reading::set_options_at))]
fn set_options(bytes: &[u8]) -> Result<(Ask, &[u8]), Bad>
    ensures { Gives (λ x. (x.0, x.1.now)) result (spec.set_options_at bytes.now) }
{
    let (options, rest) = word_at(bytes)?;
    Ok((Ask::SetOptions { options }, rest))
}

#[tactic(auto, unfolding(crate::specs::Reading::set_regs_at))]
fn set_regs(alloc: Global, bytes: &[u8]) -> Result<(Ask, &[u8]), Bad>
    ensures { Gives (λ x. (x.0, x.1.now)) result (spec.set_regs_at bytes.now) }
{
    let (registers, rest) = registers_of(alloc, bytes)?;
    Ok((Ask::SetRegs { registers }, rest))
}

#[tactic(auto, unfolding(crate::specs::Reading::peek_at))]
fn peek(bytes: &[u8]) -> Result<(Ask, &[u8]), Bad>
    ensures { Gives (λ x. (x.0, x.1.now)) result (spec.peek_at bytes.now) }
{
    let (address, rest) = double_at(bytes)?;
    let (length, rest) = word_at(rest)?;
    Ok((Ask::Peek { address, length }, rest))
}

#[tactic(auto, unfolding(crate::specs::Reading::syscall_at))]
fn syscall(bytes: &[u8]) -> Result<(Ask, &[u8]), Bad>
    ensures { Gives (λ x. (x.0, x.1.now)) result (spec.syscall_at bytes.now) }
{
    let (signal, rest) = word_at(bytes)?;
    Ok((Ask::Syscall { signal }, rest))
}

/// What is asked of one process, by the kind of its message.
fn ask(alloc: Global, kind: u8, bytes: &[u8]) -> Result<(Ask, &[u8]), Bad>
    ensures { Gives (λ x. (x.0, x.1.now)) result (spec.ask_at kind bytes.now) }
{
    match kind {
        0x02 => seize(bytes),
        0x03 => set_options(bytes),
        0x05 => Ok((Ask::GetRegs, bytes)),
        0x06 => set_regs(alloc, bytes),
        0x07 => peek(bytes),
        0x08 => syscall(bytes),
        0x09 => Ok((Ask::EventMsg, bytes)),
        0x0a => Ok((Ask::SigInfo, bytes)),
        0x0d => Ok((Ask::Listen, bytes)),
        _ => Err(Bad::Payload),
    }
}

#[tactic(auto, unfolding(crate::specs::Reading::to_at))]
fn to(alloc: Global, kind: u8, bytes: &[u8]) -> Result<(Request, &[u8]), Bad>
    ensures { Gives (λ x. (x.0, x.1.now)) result (spec.to_at kind bytes.now) }
{
    let (pid, rest) = word_at(bytes)?;
    let (ask, rest) = ask(alloc, kind, rest)?;
    Ok((Request::To { pid, ask }, rest))
}

#[tactic(auto, unfolding(crate::specs::Reading::status_at))]
fn status(bytes: &[u8]) -> Result<(Reply, &[u8]), Bad>
    ensures { Gives (λ x. (x.0, x.1.now)) result (spec.status_at bytes.now) }
{
    let (pid, rest) = word_at(bytes)?;
    let (word, rest) = word_at(rest)?;
    Ok((
        Reply::Status {
            pid,
            status: Status { word },
        },
        rest,
    ))
}

#[tactic(auto, unfolding(crate::specs::Reading::regs_at))]
fn regs(alloc: Global, bytes: &[u8]) -> Result<(Reply, &[u8]), Bad>
    ensures { Gives (λ x. (x.0, x.1.now)) result (spec.regs_at bytes.now) }
{
    let (registers, rest) = registers_of(alloc, bytes)?;
    Ok((Reply::Registers { registers }, rest))
}

#[tactic(auto, unfolding(crate::specs::Reading::bytes_at))]
fn bytes_of(alloc: Global, bytes: &[u8]) -> Result<(Reply, &[u8]), Bad>
    ensures { Gives (λ x. (x.0, x.1.now)) result (spec.bytes_at bytes.now) }
{
    let (bytes, rest) = text_of(alloc, bytes)?;
    Ok((Reply::Bytes { bytes }, rest))
}

#[tactic(auto, unfolding(crate::specs::Reading::message_at))]
fn message(bytes: &[u8]) -> Result<(Reply, &[u8]), Bad>
    ensures { Gives (λ x. (x.0, x.1.now)) result (spec.message_at bytes.now) }
{
    let (pid, rest) = double_at(bytes)?;
    Ok((Reply::Message { pid }, rest))
}

#[tactic(auto, unfolding(crate::specs::Reading::info_at))]
fn info(bytes: &[u8]) -> Result<(Reply, &[u8]), Bad>
    ensures { Gives (λ x. (x.0, x.1.now)) result (spec.info_at bytes.now) }
{
    let (signal, rest) = word_at(bytes)?;
    let (code, rest) = word_at(rest)?;
    let (pid, rest) = word_at(rest)?;
    let (status, rest) = word_at(rest)?;
    let (address, rest) = double_at(rest)?;
    let info = Info {
        signal,
        code,
        pid,
        status,
        address,
    };
    Ok((Reply::Info { info }, rest))
}

#[tactic(auto, unfolding(crate::specs::Reading::errno_at))]
fn errno(bytes: &[u8]) -> Result<(Reply, &[u8]), Bad>
    ensures { Gives (λ x. (x.0, x.1.now)) result (spec.errno_at bytes.now) }
{
    let (number, rest) = word_at(bytes)?;
    Ok((Reply::Errno { number }, rest))
}

#[tactic(auto, unfolding(crate::specs::Reading::refused_at))]
fn refused(bytes: &[u8]) -> Result<(Reply, &[u8]), Bad>
    ensures { Gives (λ x. (x.0, x.1.now)) result (spec.refused_at bytes.now) }
{
    let (fault, rest) = byte_at(bytes)?;
    Ok((Reply::Refused { fault }, rest))
}

#[tactic(auto, unfolding(crate::specs::Reading::follow_at))]
fn follow(bytes: &[u8]) -> Result<(bool, &[u8]), Bad>
    ensures { Gives (λ x. (x.0, x.1.now)) result (spec.follow_at bytes.now) }
{
    let (follow, rest) = byte_at(bytes)?;
    if follow >= 2 {
        return Err(Bad::Payload);
    }
    Ok((follow == 1, rest))
}

#[tactic(auto, unfolding(crate::specs::Reading::limits_at))]
fn limits(bytes: &[u8]) -> Result<(Limits, &[u8]), Bad>
    ensures { Gives (λ x. (x.0, x.1.now)) result (spec.limits_at bytes.now) }
{
    let (live, rest) = word_at(bytes)?;
    let (last_pid, rest) = word_at(rest)?;
    Ok((Limits { live, last_pid }, rest))
}

/// The limits of a boot of this version.
fn limits_by(version: u8, bytes: &[u8]) -> Result<(Limits, &[u8]), Bad>
    ensures { Gives (λ x. (x.0, x.1.now)) result (spec.limits_by version bytes.now) }
{
    match version {
        1 => Ok((UNSAID_LIMITS, bytes)),
        2 => limits(bytes),
        _ => Err(Bad::Payload),
    }
}

#[tactic(auto, unfolding(crate::specs::Reading::parts_at))]
fn parts(alloc: Global, follow: bool, limits: Limits, bytes: &[u8]) -> Result<(Boot, &[u8]), Bad>
    ensures { Gives (λ x. (x.0, x.1.now)) result (spec.parts_at follow limits bytes.now) }
{
    let (input, rest) = text_of(alloc, bytes)?;
    let (argv, rest) = list_of(alloc, rest)?;
    let (env, rest) = list_of(alloc, rest)?;
    let (files, rest) = list_of(alloc, rest)?;
    let boot = Boot {
        limits,
        files,
        argv,
        env,
        input,
        follow,
    };
    Ok((boot, rest))
}

/// What stands behind a boot's version.
#[tactic(auto, unfolding(crate::specs::Reading::boot_by))]
fn boot_by(alloc: Global, version: u8, bytes: &[u8]) -> Result<(Request, &[u8]), Bad>
    ensures { Gives (λ x. (x.0, x.1.now)) result (spec.boot_by version bytes.now) }
{
    let (follow, rest) = follow(bytes)?;
    let (limit, rest) = double_at(rest)?;
    let (limits, rest) = limits_by(version, rest)?;
    let (boot, rest) = parts(alloc, follow, limits, rest)?;
    let (words, rest) = list_of(alloc, rest)?;
    let boot = Boxed::new(alloc, boot)?;
    Ok((Request::Boot { boot, limit, words }, rest))
}

#[tactic(auto, unfolding(crate::specs::Reading::boot_at))]
fn boot(alloc: Global, bytes: &[u8]) -> Result<(Request, &[u8]), Bad>
    ensures { Gives (λ x. (x.0, x.1.now)) result (spec.boot_at bytes.now) }
{
    let (version, rest) = byte_at(bytes)?;
    boot_by(alloc, version, rest)
}

#[tactic(auto, unfolding(crate::specs::Reading::outcome_at))]
fn outcome(alloc: Global, bytes: &[u8]) -> Result<(Reply, &[u8]), Bad>
    ensures { Gives (λ x. (x.0, x.1.now)) result (spec.outcome_at bytes.now) }
{
    let (console, rest) = text_of(alloc, bytes)?;
    let (files, rest) = list_of(alloc, rest)?;
    let (ended, rest) = list_of(alloc, rest)?;
    if !(paths_rise(files.as_slice()) && pids_rise(ended.as_slice())) {
        return Err(Bad::Payload);
    }
    let outcome = Outcome {
        console,
        files: OutcomeFiles::new(files),
        ended,
    };
    let outcome = Boxed::new(alloc, outcome)?;
    Ok((Reply::Outcome { outcome }, rest))
}

fn request(alloc: Global, kind: u8, bytes: &[u8]) -> Result<(Request, &[u8]), Bad>
    ensures { Gives (λ x. (x.0, x.1.now)) result (spec.request_at kind bytes.now) }
{
    match kind {
        0x01 => boot(alloc, bytes),
        0x04 => Ok((Request::Wait, bytes)),
        0x0b => Ok((Request::Outcome, bytes)),
        _ => to(alloc, kind, bytes),
    }
}

fn reply(alloc: Global, kind: u8, bytes: &[u8]) -> Result<(Reply, &[u8]), Bad>
    ensures { Gives (λ x. (x.0, x.1.now)) result (spec.reply_at kind bytes.now) }
{
    match kind {
        0x81 => Ok((Reply::Done, bytes)),
        0x82 => status(bytes),
        0x83 => regs(alloc, bytes),
        0x84 => bytes_of(alloc, bytes),
        0x85 => message(bytes),
        0x86 => info(bytes),
        0x87 => outcome(alloc, bytes),
        0x88 => errno(bytes),
        0x89 => Ok((Reply::OutOfTurns, bytes)),
        0x8a => refused(bytes),
        _ => Err(Bad::Payload),
    }
}

#[tactic(auto, unfolding(crate::specs::Reading::body_at))]
fn body(alloc: Global, kind: u8, bytes: &[u8]) -> Result<Payload, Bad>
    ensures { Gives (λ x. x) result (spec.body_at kind bytes.now) }
{
    let (body, rest) = if kind < 0x80 {
        let (request, rest) = request(alloc, kind, bytes)?;
        (Payload::Request(request), rest)
    } else {
        let (reply, rest) = reply(alloc, kind, bytes)?;
        (Payload::Reply(reply), rest)
    };
    if !rest.is_empty() {
        return Err(Bad::Payload);
    }
    Ok(body)
}

/// The frame that all of the bytes spell.
#[tactic(auto, unfolding(crate::specs::Reading::frame_at))]
fn frame(alloc: Global, bytes: &[u8]) -> Result<Frame, Bad>
    requires { 13 ≤ length bytes.now }
    ensures { Gives (λ x. x) result (spec.frame_at bytes.now) }
{
    let body = body(alloc, bytes[12], &bytes[13..])?;
    Ok(Frame {
        number: BigEndian::read_u64(&bytes[4..]),
        body,
    })
}

/// The frame that all of the bytes spell, behind the length that they begin with. Body where they spell none.
pub fn decode(alloc: Global, bytes: &[u8]) -> Result<Frame, WireFault>
    requires { 13 ≤ length bytes.now }
    ensures { Decodes result (spec.frame_at bytes.now) }
{
    match frame(alloc, bytes) {
        Ok(frame) => Ok(frame),
        Err(Bad::Payload) => Err(WireFault::Payload),
        Err(Bad::Memory) => Err(WireFault::Memory),
    }
}
