//! wait4 (wait4(2)).

ghost use Rattle.std.specs.Prelude.{◌≡◌, ℕ, IfOk, OnErr, Option, Some, is_some};
ghost use Rattle.std.specs.FinMap as maps;
ghost use Rattle.lx_proc.specs.Answers.{answer_of, Kept};
ghost use Rattle.lx_proc.specs.Pairs.{IsNextThat};
ghost use Rattle.lx_pcalls.specs.Wait4.{wait4 as meaning, wait4_would_block as would_block_of, may_wait as may_wait_of};
ghost use Rattle.lx_pcalls.specs.Wait4.{no_hang as no_hang_of, is_of_zombies as is_of_zombies_of};
ghost use Rattle.lx_pcalls.specs.Wait4.{is_child as is_child_of, is_meant as is_meant_of, is_asked as is_asked_of};
ghost use Rattle.lx_pcalls.specs.Wait4.{any_child, first_child as first_child_of, told_entry};
ghost use Rattle.lx_pcalls.specs.Wait4.{zombie_word as zombie_word_of, news_word as news_word_of};
ghost use Rattle.lx_pcalls.specs.Wait4.{told_word as told_word_of, word_in, reaps, waits};

use lx_abi::{Call, Errno};
use lx_proc::{CallReply, Entry, Life, News, Shared, Table, UserState};
use lx_sig::low_argument;
use rv_mem::MemFault;
use std::alloc::AllocError;

/// -1: any child.
const ANY: u32 = 0xffff_ffff;

const WNOHANG: u64 = 1;

const WUNTRACED: u64 = 2;

const WCONTINUED: u64 = 8;

/// The options that there are.
const OPTIONS: u64 = 0xb;

fn may_wait(call: &Call) -> bool
    ensures { result ≡ may_wait_of call.now }
{
    let pid = low_argument(call, 0);
    (pid == ANY || (0 < pid && pid < 1 << 31))
        && call.arguments[2] & OPTIONS == call.arguments[2]
        && call.arguments[3] == 0
}

fn no_hang(call: &Call) -> bool
    ensures { result ≡ no_hang_of call.now }
{
    call.arguments[2] / WNOHANG % 2 == 1
}

/// How a zombie ended.
fn zombie_word(life: Life) -> Option<u32>
    ensures { result ≡ zombie_word_of life }
{
    match life {
        Life::Alive | Life::Dying { .. } => None,
        Life::Zombie { word } => Some(word),
    }
}

/// What is told of a stop under WUNTRACED, and of a waking under WCONTINUED.
fn news_word(options: u64, news: Option<News>) -> Option<u32>
    ensures { result ≡ news_word_of options news }
{
    match news {
        None => None,
        Some(News::Stopped { signal }) => {
            if options / WUNTRACED % 2 == 1 {
                Some(u32::from(signal.number) * 256 + 0x7f)
            } else {
                None
            }
        }
        Some(News::Continued) => {
            if options / WCONTINUED % 2 == 1 {
                Some(0xffff)
            } else {
                None
            }
        }
    }
}

/// What these options tell of a process: its end, or what was not told of it yet.
fn told_word(options: u64, entry: &Entry) -> Option<u32>
    ensures { result ≡ told_word_of options entry.now }
{
    zombie_word(entry.life).or(news_word(options, entry.news))
}

/// Any child, or one of which these options tell.
fn is_asked(asked: Option<u64>, entry: &Entry) -> bool
    ensures { result ≡ is_asked_of asked entry.now }
{
    match asked {
        None => true,
        Some(options) => told_word(options, entry).is_some(),
    }
}

fn is_meant(entry: &Entry, parent: u32, wanted: u32, asked: Option<u64>, pid: u32) -> bool
    ensures { result ≡ is_meant_of entry.now parent wanted asked pid }
{
    entry.parent == parent && (wanted == ANY || wanted == pid) && is_asked(asked, entry)
}

/// A child that a call waits for.
#[tactic(auto, unfolding(crate::specs::Wait4::is_child))]
fn is_child(entries: &Table, parent: u32, wanted: u32, asked: Option<u64>, pid: u32) -> bool
    ensures { result ≡ is_child_of entries.now parent wanted asked pid }
{
    match entries.get(pid) {
        None => false,
        Some(entry) => is_meant(entry, parent, wanted, asked, pid),
    }
}

/// The lowest child above pid 0 of which these options tell, found by a walk through the children.
fn search(entries: &Table, parent: u32, options: u64) -> Option<u32>
    ensures { IsNextThat (is_child_of entries.now parent any_child (Some options)) 0 result }
{
    let mut passed = 0;
    while let Some(child) = entries.next_child(parent, false, passed) {
        if is_child(entries, parent, ANY, Some(options), child) {
            return Some(child);
        }
        passed = child;
    }
    None
}

/// These options tell of zombies alone.
fn is_of_zombies(options: u64) -> bool
    ensures { result ≡ is_of_zombies_of options }
{
    options / WUNTRACED % 2 != 1 && options / WCONTINUED % 2 != 1
}

/// The lowest child above pid 0, and of which these options tell where they are asked for.
fn next_of_any(entries: &Table, parent: u32, asked: Option<u64>) -> Option<u32>
    ensures { IsNextThat (is_child_of entries.now parent any_child asked) 0 result }
{
    match asked {
        None => entries.next_child(parent, false, 0),
        Some(options) => {
            if is_of_zombies(options) {
                entries.next_child(parent, true, 0)
            } else {
                search(entries, parent, options)
            }
        }
    }
}

/// The lowest child of all, and of which these options tell where they are asked for.
#[tactic(auto, unfolding(crate::specs::Wait4::first_child))]
fn first_of_any(entries: &Table, parent: u32, asked: Option<u64>) -> Option<u32>
    ensures { result ≡ first_child_of entries.now parent any_child asked }
{
    // no process has pid 0, but a table may have a key 0
    if is_child(entries, parent, ANY, asked, 0) {
        return Some(0);
    }
    next_of_any(entries, parent, asked)
}

/// The lowest of them.
#[tactic(auto, unfolding(crate::specs::Wait4::first_child))]
fn first_child(entries: &Table, parent: u32, wanted: u32, asked: Option<u64>) -> Option<u32>
    ensures { result ≡ first_child_of entries.now parent wanted asked }
{
    if wanted == ANY {
        return first_of_any(entries, parent, asked);
    }
    if is_child(entries, parent, wanted, asked, wanted) {
        return Some(wanted);
    }
    None
}

/// A zombie that was told of leaves the table; of any other child nothing is left to tell.
fn note_told(entries: &mut Table, pid: u32)
    ensures { entries.new ≡ told_entry entries.old pid (maps.get entries.old pid) }
{
    match entries.get(pid) {
        None => {}
        Some(entry) => match entry.life {
            Life::Zombie { .. } => entries.remove(pid),
            Life::Alive | Life::Dying { .. } => entries.set_news(pid, None),
        },
    }
}

/// The child's word is written, and then it was told of.
fn reap(
    shared: &mut Shared,
    call: &Call,
    user: &mut UserState,
    pid: u32,
    word: u32,
) -> Result<CallReply, AllocError>
    ensures answer { IfOk result (λ r. answer_of r shared.new user.new ≡ reaps shared.old user.old call.now pid word) }
    ensures kept { IfOk result (λ r. Kept r shared.old user.old shared.new user.new) }
    ensures same { OnErr result (shared.new ≡ shared.old) }
    ensures kept_own { OnErr result (user.new ≡ user.old) }
{
    let at = call.arguments[1];
    if at == 0 {
        note_told(&mut shared.entries, pid);
        return Ok(CallReply::Returned(u64::from(pid)));
    }
    match user.memory.write(at, &word.to_le_bytes()) {
        Ok(()) => {
            note_told(&mut shared.entries, pid);
            Ok(CallReply::Returned(u64::from(pid)))
        }
        Err(MemFault::Memory) => Err(AllocError),
        Err(_) => Ok(CallReply::Refused(Errno::EFAULT)),
    }
}

/// What these options tell of the process with this pid.
fn word_of(entries: &Table, options: u64, pid: u32) -> Option<u32>
    ensures { result ≡ word_in options (maps.get entries.now pid) }
{
    match entries.get(pid) {
        None => None,
        Some(entry) => told_word(options, entry),
    }
}

/// Apart, since a function pays at its entry for the size of its locals.
#[inline(never)]
fn wait(
    shared: &mut Shared,
    call: &Call,
    user: &mut UserState,
    child: Option<u32>,
) -> Result<CallReply, AllocError>
    ensures answer { IfOk result (λ r. answer_of r shared.new user.new ≡ waits shared.old user.old call.now child) }
    ensures kept { IfOk result (λ r. Kept r shared.old user.old shared.new user.new) }
    ensures same { OnErr result (shared.new ≡ shared.old) }
    ensures kept_own { OnErr result (user.new ≡ user.old) }
{
    let Some(pid) = child else {
        if no_hang(call) {
            return Ok(CallReply::Returned(0));
        }
        return Ok(CallReply::Blocked);
    };
    let Some(word) = word_of(&shared.entries, call.arguments[2], pid) else {
        return Ok(CallReply::Refused(Errno::ECHILD));
    };
    reap(shared, call, user, pid, word)
}

/// wait4(pid, wstatus, options, rusage). EINVAL for a pid that is neither -1 nor above 0, other options than WNOHANG,
/// WUNTRACED and WCONTINUED, or a rusage; ECHILD without such a child; EFAULT where the word can't be written, and then
/// nothing was told.
#[tactic(auto, unfolding(crate::specs::Wait4::wait4))]
pub fn wait4(
    shared: &mut Shared,
    pid: u32,
    call: &Call,
    user: &mut UserState,
) -> Result<CallReply, AllocError>
    ensures answer { IfOk result (λ r. answer_of r shared.new user.new ≡ meaning shared.old pid call.now user.old) }
    ensures kept { IfOk result (λ r. Kept r shared.old user.old shared.new user.new) }
    ensures same { OnErr result (shared.new ≡ shared.old) }
    ensures kept_own { OnErr result (user.new ≡ user.old) }
{
    if !may_wait(call) {
        return Ok(CallReply::Refused(Errno::EINVAL));
    }
    let wanted = low_argument(call, 0);
    if first_child(&shared.entries, pid, wanted, None).is_none() {
        return Ok(CallReply::Refused(Errno::ECHILD));
    }
    let child = first_child(&shared.entries, pid, wanted, Some(call.arguments[2]));
    wait(shared, call, user, child)
}

/// The call would block. Takes no memory.
#[tactic(auto, unfolding(crate::specs::Wait4::wait4_would_block))]
pub fn wait4_would_block(shared: &Shared, pid: u32, call: &Call) -> bool
    ensures { result ≡ would_block_of shared.now pid call.now }
{
    let wanted = low_argument(call, 0);
    may_wait(call)
        && !no_hang(call)
        && first_child(&shared.entries, pid, wanted, None).is_some()
        && first_child(&shared.entries, pid, wanted, Some(call.arguments[2])).is_none()
}
