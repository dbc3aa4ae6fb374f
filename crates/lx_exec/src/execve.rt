//! execve (execve(2)).

ghost use Rattle.std.specs.Prelude.{◌≡◌, ℕ, List, IfOk, OnErr};
ghost use Rattle.elf_image.specs.Images.{IsLaidOut};
ghost use Rattle.lx_files.specs.Trees.{node_at};
ghost use Rattle.lx_proc.specs.declared.state.Shared.{Shared};
ghost use Rattle.lx_proc.specs.declared.state.UserState.{UserState};
ghost use Rattle.lx_proc.specs.State.{Entries, changed, with_signals, with_held};
ghost use Rattle.lx_proc.specs.Answers.{answer_of, Kept};
ghost use Rattle.lx_proc.specs.Read.{Reads};
ghost use Rattle.lx_sig.specs.Reactions.{after_exec};
ghost use Rattle.lx_open.specs.Releases.{closed_on_exec};
ghost use Rattle.lx_exec.specs.Execve.{execve as meaning, program as program_of, begins, runs, runs_file, runs_node};
ghost use Rattle.lx_exec.specs.Execve.{runs_at as place_run, runs_path as path_run, renewed, renews};

use crate::programs::{begin_program, start_fits};
use elf_image::{ElfFault, Image};
use lx_abi::limits::PATH_LIMIT;
use lx_abi::{Call, Errno, Node};
use lx_files::Place;
use lx_files::places::{locate, path};
use lx_open::release::close_on_exec;
use lx_proc::{CallReply, Shared, Table, Text, UserState, Words, directory, list_at, text_at};
use lx_sig::reset_for_exec;
use std::alloc::{AllocError, Global};

/// A program takes the place of the caller's, if its words are not too large for its start.
fn begin(
    alloc: Global,
    image: &Image,
    argv: &Words,
    env: &Words,
    user: &mut UserState,
) -> Result<CallReply, AllocError>
    requires { IsLaidOut image.now }
    ensures answer { IfOk result (λ r. (s : Shared) (a e : List (List ℕ)) → Reads argv.now (Some a)
        → Reads env.now (Some e) → answer_of r s user.new ≡ begins s image.now a e) }
    ensures kept { IfOk result (λ r. (s : Shared) → Kept r s user.old s user.new) }
    ensures kept_own { OnErr result (user.new ≡ user.old) }
{
    let Words::Whole(argv) = argv else {
        return Ok(CallReply::Refused(Errno::E2BIG));
    };
    let Words::Whole(env) = env else {
        return Ok(CallReply::Refused(Errno::E2BIG));
    };
    if !start_fits(argv, env) {
        return Ok(CallReply::Refused(Errno::E2BIG));
    }
    *user = begin_program(alloc, image, argv, env)?;
    Ok(CallReply::Execed)
}

/// A file's program takes the place of the caller's.
fn run(
    alloc: Global,
    content: &[u8],
    argv: &Words,
    env: &Words,
    user: &mut UserState,
) -> Result<CallReply, AllocError>
    ensures answer { IfOk result (λ r. (s : Shared) (a e : List (List ℕ)) → Reads argv.now (Some a)
        → Reads env.now (Some e) → answer_of r s user.new ≡ runs s content.now a e) }
    ensures kept { IfOk result (λ r. (s : Shared) → Kept r s user.old s user.new) }
    ensures kept_own { OnErr result (user.new ≡ user.old) }
{
    match elf_image::read(alloc, content) {
        Err(ElfFault::Memory) => Err(AllocError),
        Err(_) => Ok(CallReply::Refused(Errno::ENOEXEC)),
        Ok(image) => begin(alloc, &image, argv, env, user),
    }
}

fn run_file(
    alloc: Global,
    slashed: bool,
    content: &[u8],
    argv: &Words,
    env: &Words,
    user: &mut UserState,
) -> Result<CallReply, AllocError>
    ensures answer { IfOk result (λ r. (s : Shared) (a e : List (List ℕ)) → Reads argv.now (Some a)
        → Reads env.now (Some e) → answer_of r s user.new ≡ runs_file s slashed content.now a e) }
    ensures kept { IfOk result (λ r. (s : Shared) → Kept r s user.old s user.new) }
    ensures kept_own { OnErr result (user.new ≡ user.old) }
{
    if slashed {
        return Ok(CallReply::Refused(Errno::ENOTDIR));
    }
    run(alloc, content, argv, env, user)
}

/// What stands at a path is run.
fn run_node(
    alloc: Global,
    shared: &Shared,
    slashed: bool,
    path: &[u8],
    argv: &Words,
    env: &Words,
    user: &mut UserState,
) -> Result<CallReply, AllocError>
    ensures answer { IfOk result (λ r. (a e : List (List ℕ)) → Reads argv.now (Some a) → Reads env.now (Some e)
        → answer_of r shared.now user.new ≡ runs_node shared.now slashed (node_at shared.now.tree path.now) a e) }
    ensures kept { IfOk result (λ r. Kept r shared.now user.old shared.now user.new) }
    ensures kept_own { OnErr result (user.new ≡ user.old) }
{
    match shared.tree.find(path) {
        None => Ok(CallReply::Refused(Errno::ENOENT)),
        Some(Node::Directory) => Ok(CallReply::Refused(Errno::EACCES)),
        Some(Node::File(content)) => run_file(alloc, slashed, content.as_slice(), argv, env, user),
    }
}

fn run_at(
    alloc: Global,
    shared: &Shared,
    place: &Place,
    argv: &Words,
    env: &Words,
    user: &mut UserState,
) -> Result<CallReply, AllocError>
    ensures answer { IfOk result (λ r. (a e : List (List ℕ)) → Reads argv.now (Some a) → Reads env.now (Some e)
        → answer_of r shared.now user.new ≡ place_run shared.now a e place.now) }
    ensures kept { IfOk result (λ r. Kept r shared.now user.old shared.now user.new) }
    ensures kept_own { OnErr result (user.new ≡ user.old) }
{
    let path = path(alloc, place)?;
    run_node(
        alloc,
        shared,
        place.slashed,
        path.as_slice(),
        argv,
        env,
        user,
    )
}

/// What a path leads to is run.
fn run_path(
    alloc: Global,
    shared: &Shared,
    pid: u32,
    path: &[u8],
    argv: &Words,
    env: &Words,
    user: &mut UserState,
) -> Result<CallReply, AllocError>
    ensures answer { IfOk result (λ r. (a e : List (List ℕ)) → Reads argv.now (Some a) → Reads env.now (Some e)
        → answer_of r shared.now user.new ≡ path_run shared.now pid path.now a e) }
    ensures kept { IfOk result (λ r. Kept r shared.now user.old shared.now user.new) }
    ensures kept_own { OnErr result (user.new ≡ user.old) }
{
    match locate(alloc, &shared.tree, directory(shared, pid), path)? {
        Err(error) => Ok(CallReply::Refused(error)),
        Ok(place) => run_at(alloc, shared, &place, argv, env, user),
    }
}

/// The program that takes the place of the caller's, with its registers.
#[tactic(auto, unfolding(crate::specs::Execve::program))]
fn run_program(
    alloc: Global,
    shared: &Shared,
    pid: u32,
    call: &Call,
    user: &mut UserState,
) -> Result<CallReply, AllocError>
    ensures answer { IfOk result
        (λ r. answer_of r shared.now user.new ≡ program_of shared.now pid call.now user.old) }
    ensures kept { IfOk result (λ r. Kept r shared.now user.old shared.now user.new) }
    ensures kept_own { OnErr result (user.new ≡ user.old) }
{
    let path = match text_at(alloc, &mut user.memory, call.arguments[0], PATH_LIMIT)? {
        Text::Whole(path) => path,
        Text::TooLong => return Ok(CallReply::Refused(Errno::ENAMETOOLONG)),
        Text::Unreadable => return Ok(CallReply::Refused(Errno::EFAULT)),
    };
    let argv = list_at(alloc, &mut user.memory, call.arguments[1])?;
    if argv.is_unreadable() {
        return Ok(CallReply::Refused(Errno::EFAULT));
    }
    let env = list_at(alloc, &mut user.memory, call.arguments[2])?;
    if env.is_unreadable() {
        return Ok(CallReply::Refused(Errno::EFAULT));
    }
    run_path(alloc, shared, pid, path.as_slice(), &argv, &env, user)
}

/// Handlers don't outlive execve.
fn reset_handlers(entries: &mut Table, pid: u32)
    ensures { entries.new ≡ changed entries.old pid (λ e. with_signals e (after_exec e.signals)) }
{
    let Some(entry) = entries.get(pid) else {
        return;
    };
    let mut signals = entry.signals;
    reset_for_exec(&mut signals);
    entries.set_signals(pid, signals);
}

fn close_descriptors(shared: &mut Shared, pid: u32)
    ensures { shared.new ≡ with_held shared.old (closed_on_exec shared.old.tree shared.old.fds pid) }
{
    close_on_exec(&mut shared.tree, &mut shared.fds, pid);
}

fn renew(shared: &mut Shared, pid: u32)
    ensures { shared.new ≡ renewed shared.old pid }
{
    close_descriptors(shared, pid);
    reset_handlers(&mut shared.entries, pid);
}

/// Where a new program stands, its process's descriptors and signals are as it wants them.
fn renew_after(shared: &mut Shared, pid: u32, reply: CallReply) -> CallReply
    ensures answer { (b : UserState) → answer_of result shared.new b ≡ renews pid (answer_of reply shared.old b) }
    ensures kept { (b b' : UserState) → Kept reply shared.old b shared.old b' → Kept result shared.old b shared.new b' }
{
    match reply {
        CallReply::Execed => {
            renew(shared, pid);
            CallReply::Execed
        }
        other => other,
    }
}

/// execve(path, argv, envp). EFAULT, ENAMETOOLONG in reading the words; ENOENT, ENOTDIR and ENAMETOOLONG in resolving
/// the path; EACCES for a directory, ENOEXEC for no program, E2BIG for too many words.
#[tactic(auto, unfolding(crate::specs::Execve::execve))]
pub fn execve(
    alloc: Global,
    shared: &mut Shared,
    pid: u32,
    call: &Call,
    user: &mut UserState,
) -> Result<CallReply, AllocError>
    ensures answer { IfOk result (λ r. answer_of r shared.new user.new ≡ meaning shared.old pid call.now user.old) }
    ensures kept { IfOk result (λ r. Kept r shared.old user.old shared.new user.new) }
    ensures same { OnErr result (shared.new ≡ shared.old) }
    ensures kept_own { OnErr result (user.new ≡ user.old) }
{
    let reply = run_program(alloc, shared, pid, call, user)?;
    Ok(renew_after(shared, pid, reply))
}
