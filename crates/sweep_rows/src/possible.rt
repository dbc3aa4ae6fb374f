//! Which errors an occurrence of a call can have, by what it is called for.

ghost use Rattle.std.specs.Prelude.{◌≡◌, ◌++◌, IfOk, OnOk};
ghost use Rattle.sweep_rows.specs.Possible.{opened, read, written, closed, usual, by_use, may_wait, is_first_execve};
ghost use Rattle.sweep_rows.specs.Possible.{errors_numbered, interrupted, errors_of_use, possible_errors, is_of_loss};
ghost use Rattle.sweep_rows.specs.Possible.{tells_of_loss};

use crate::descriptors::{Target, Use, descriptor};
use crate::known::Occurrence;
use lx_abi::{Call, Errno, sys};
use std::alloc::{AllocError, Global};

// Numbers of errors, by their names in errno(3).

const ENOENT: u16 = 2;

const ESRCH: u16 = 3;

const EINTR: u16 = 4;

const EIO: u16 = 5;

const EAGAIN: u16 = 11;

const ENOMEM: u16 = 12;

const EACCES: u16 = 13;

const EMFILE: u16 = 24;

const ENOSPC: u16 = 28;

const EROFS: u16 = 30;

const EPIPE: u16 = 32;

/// Flags of open(2).
const O_ACCMODE: u64 = 3;

const O_CREAT: u64 = 0x40;

/// Errors of openat, by its flags.
#[tactic(auto, unfolding(crate::specs::Possible::opened))]
fn opened(flags: u64) -> &'static [u16]
    ensures { result.now ≡ opened flags }
{
    if flags / O_CREAT % 2 == 1 {
        &[EACCES, EMFILE, ENOSPC, EROFS]
    } else if flags % (O_ACCMODE + 1) != 0 {
        &[EACCES, EMFILE, EROFS]
    } else {
        &[EACCES, EMFILE]
    }
}

/// Errors of read.
#[tactic(auto, unfolding(crate::specs::Possible::read))]
fn read(target: Target) -> &'static [u16]
    ensures { result.now ≡ read target }
{
    match target {
        Target::Other => &[],
        Target::Input | Target::Output | Target::Error | Target::File(_) => &[EIO],
    }
}

/// Errors of write. Where what tells errors fails, nobody can be told; a pipe without readers kills a process that
/// hasn't done something about SIGPIPE.
#[tactic(auto, unfolding(crate::specs::Possible::written))]
fn written(target: Target, number: u32, piped: bool) -> &'static [u16]
    ensures { result.now ≡ written target number piped }
{
    match target {
        Target::Error => &[],
        Target::Other => { if piped { &[EPIPE] } else { &[] } }
        Target::Input | Target::Output | Target::File(_) => {
            if number == 2 { &[] } else { &[ENOSPC, EIO] }
        }
    }
}

/// Errors of close: those by which a write fails late.
#[tactic(auto, unfolding(crate::specs::Possible::closed))]
fn closed(used: Use) -> &'static [u16]
    ensures { result.now ≡ closed used }
{
    match used.target {
        Target::Output | Target::File(_) => { if used.wrote { &[ENOSPC, EIO] } else { &[] } }
        Target::Input | Target::Error | Target::Other => &[],
    }
}

/// Errors of a call that no descriptor tells more of.
#[tactic(auto, unfolding(crate::specs::Possible::usual))]
fn usual(call: &Call) -> &'static [u16]
    ensures { result.now ≡ usual call.now }
{
    match call.number {
        sys::SYS_BRK => {
            if call.arguments[0] == 0 {
                &[]
            } else {
                &[ENOMEM]
            }
        }
        sys::SYS_MMAP => &[ENOMEM],
        sys::SYS_CLONE => &[EAGAIN, ENOMEM],
        sys::SYS_PIPE2 | sys::SYS_DUP | sys::SYS_DUP3 => &[EMFILE],
        sys::SYS_UNLINKAT => &[EACCES, EROFS, EIO],
        sys::SYS_MKDIRAT => &[EACCES, ENOSPC, EROFS],
        sys::SYS_EXECVE => &[EACCES, ENOMEM, EIO],
        sys::SYS_NEWFSTATAT => &[EACCES, ENOMEM],
        sys::SYS_CHDIR => &[EACCES],
        sys::SYS_GETCWD => &[ENOENT],
        sys::SYS_FTRUNCATE => &[EIO],
        sys::SYS_KILL => &[ESRCH],
        _ => &[],
    }
}

/// Errors of a call by what its descriptor stands for.
#[tactic(auto, unfolding(crate::specs::Possible::by_use))]
fn by_use(call: &Call, used: Use, piped: bool) -> &'static [u16]
    ensures { result.now ≡ by_use call.now used piped }
{
    if call.number == sys::SYS_OPENAT {
        opened(call.arguments[2])
    } else if call.number == sys::SYS_READ {
        read(used.target)
    } else if call.number == sys::SYS_WRITE {
        written(used.target, descriptor(call), piped)
    } else if call.number == sys::SYS_CLOSE {
        closed(used)
    } else {
        usual(call)
    }
}

/// A signal's handler can interrupt it.
#[tactic(auto, unfolding(crate::specs::Possible::may_wait))]
fn may_wait(number: u64, target: Target) -> bool
    ensures { result ≡ may_wait number target }
{
    if number == sys::SYS_READ {
        return matches!(target, Target::Input | Target::Other);
    }
    if number == sys::SYS_WRITE {
        return matches!(target, Target::Output | Target::Other);
    }
    number == sys::SYS_WAIT4
}

/// The program's own execve, which is the tool's.
fn is_first_execve(one: &Occurrence) -> bool
    ensures { result ≡ is_first_execve one.now }
{
    one.pid == 1 && one.call.number == sys::SYS_EXECVE && one.n == 1
}

fn add(errors: &mut Vec<Errno>, number: u16) -> Result<(), AllocError>
    ensures { OnOk result (errors.new.items ≡ errors.old.items ++ errors_numbered number) }
{
    if let Some(error) = Errno::from_number(u64::from(number)) {
        errors.push(error)?;
    }
    Ok(())
}

/// Adds EINTR, where a handler can interrupt the call.
fn add_interrupt(errors: &mut Vec<Errno>, interrupts: bool) -> Result<(), AllocError>
    ensures { OnOk result (errors.new.items ≡ errors.old.items ++ interrupted interrupts) }
{
    if interrupts {
        add(errors, EINTR)?;
    }
    Ok(())
}

#[tactic(auto, unfolding(crate::specs::Possible::errors_of_use))]
fn errors_of_use(alloc: Global, one: &Occurrence) -> Result<Vec<Errno>, AllocError>
    ensures { IfOk result (λ errors. errors.items ≡ errors_of_use one.now) }
{
    let mut errors = Vec::new(alloc);
    let mut left = by_use(&one.call, one.used, one.piped);
    while let Some((number, rest)) = left.split_first() {
        add(&mut errors, *number)?;
        left = rest;
    }
    let interrupts = may_wait(one.call.number, one.used.target) && one.handled;
    add_interrupt(&mut errors, interrupts)?;
    Ok(errors)
}

/// The errors that an occurrence can have.
#[tactic(auto, unfolding(crate::specs::Possible::possible_errors))]
pub fn possible_errors(alloc: Global, one: &Occurrence) -> Result<Vec<Errno>, AllocError>
    ensures { IfOk result (λ errors. errors.items ≡ possible_errors one.now) }
{
    if is_first_execve(one) {
        return Ok(Vec::new(alloc));
    }
    let errors = errors_of_use(alloc, one)?;
    Ok(errors)
}

/// The error tells that what was written by this descriptor is lost.
fn is_of_loss(error: Errno) -> bool
    ensures { result ≡ is_of_loss error }
{
    error.is(5) || error.is(28) || error.is(122)
}

/// An occurrence that has this error tells that data was lost: it closes what was written to.
#[tactic(auto, unfolding(crate::specs::Possible::tells_of_loss))]
pub fn tells_of_loss(one: &Occurrence, error: Errno) -> bool
    ensures { result ≡ tells_of_loss one.now error }
{
    one.call.number == sys::SYS_CLOSE && is_of_loss(error) && !closed(one.used).is_empty()
}
