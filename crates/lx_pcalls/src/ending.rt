//! The end of a process (_exit(2), wait(2)).

ghost use Rattle.std.specs.Prelude.{◌≡◌, IfOk, OnOk, OnErr, IsTrue};
ghost use Rattle.lx_proc.specs.State.{with_held};
ghost use Rattle.lx_open.specs.Releases.{all_closed, AreEndsKept};
ghost use Rattle.lx_pcalls.specs.Ends.{with_word, dies, orphaned, cause_of_end};
ghost use Rattle.lx_pcalls.specs.Ends.{released as released_entries};
ghost use Rattle.lx_pcalls.specs.Ends.{wants_no_news as wants_no_news_of, retired, buried};
ghost use Rattle.std.specs.FinMap as maps;
ghost use Rattle.lx_pcalls.specs.Stops.{heard, stopped, settled_at, settles, woken, is_continued_at};

use lx_abi::{Cause, Signal};
use lx_open::release::close_all;
use lx_proc::{Entry, Life, News, Shared, Table, send};
use lx_sig::{action, settle as settle_signals};
use std::alloc::AllocError;

/// SIG_IGN.
const IGNORE: u64 = 1;

/// The wait word is kept. Only that may want memory.
fn keep_word(shared: &mut Shared, pid: u32, word: u32) -> Result<(), AllocError>
    ensures died { OnOk result (shared.new ≡ with_word shared.old pid word) }
    ensures same { OnErr result (shared.new ≡ shared.old) }
{
    shared.ended.insert(pid, word)?;
    shared.entries.set_news(pid, None);
    shared.entries.set_life(pid, Life::Dying { word })?;
    Ok(())
}

/// The process's descriptors are closed: whether each description stays.
fn close_descriptors(shared: &mut Shared, pid: u32) -> bool
    ensures closed { shared.new ≡ with_held shared.old (all_closed shared.old.tree shared.old.fds pid) }
    ensures kept { IsTrue result → AreEndsKept shared.old.fds shared.new.fds }
{
    close_all(&mut shared.tree, &mut shared.fds, pid)
}

/// A process enters Dying: its descriptors are closed, and its wait word is kept. Whether each description stays, since
/// another process has it too.
#[inline(never)]
pub fn die(shared: &mut Shared, pid: u32, word: u32) -> Result<bool, AllocError>
    ensures died { OnOk result (shared.new ≡ dies shared.old pid word) }
    ensures kept { IfOk result (λ kept. IsTrue kept → AreEndsKept shared.old.fds shared.new.fds) }
    ensures same { OnErr result (shared.new ≡ shared.old) }
    ensures console { OnErr result (shared.new.console ≡ shared.old.console) }
{
    keep_word(shared, pid, word)?;
    Ok(close_descriptors(shared, pid))
}

/// A child gets parent 0, and leaves the table where it is a zombie.
#[tactic(auto, unfolding(crate::specs::Ends::released))]
fn release(entries: &mut Table, parent: u32, child: u32)
    ensures { entries.new ≡ released_entries parent entries.old child }
{
    match entries.get(child) {
        Some(entry) if entry.parent == parent => match entry.life {
            Life::Zombie { .. } => entries.remove(child),
            Life::Alive | Life::Dying { .. } => entries.orphan(child),
        },
        _ => {}
    }
}

/// The children of a process that ends are orphans.
fn orphan_children(entries: &mut Table, parent: u32)
    ensures { entries.new ≡ orphaned entries.old parent }
{
    let mut passed = 0;
    while let Some(child) = entries.next_child(parent, false, passed) {
        release(entries, parent, child);
        passed = child;
    }
}

/// How a parent is told of an end.
fn cause(pid: u32, word: u32) -> Cause
    ensures { result ≡ cause_of_end pid word }
{
    if word.is_multiple_of(128) {
        Cause::Exited {
            pid,
            code: (word / 256 % 256) as u8,
        }
    } else {
        Cause::Killed {
            pid,
            signal: (word % 128) as u8,
        }
    }
}

/// SIGCHLD is set to be ignored.
fn wants_no_news(entry: &Entry) -> bool
    ensures { result ≡ wants_no_news_of entry.now }
{
    action(&entry.signals, 17).handler == IGNORE
}

/// A parent is told of a child that lives on, unless SIGCHLD is set to be ignored.
fn hear(entries: &mut Table, parent: u32, cause: Cause)
    ensures { entries.new ≡ heard entries.old parent cause }
{
    match entries.get(parent) {
        Some(entry) if !wants_no_news(entry) => send(entries, parent, Signal::CHLD, cause),
        _ => {}
    }
}

/// A process waits for its parent as a zombie, or leaves the table where nobody will wait.
fn become_zombie(entries: &mut Table, pid: u32, word: u32, parent: u32) -> Result<(), AllocError>
    ensures { OnOk result (entries.new ≡ retired entries.old pid word parent) }
{
    match entries.get(parent) {
        Some(entry) if !wants_no_news(entry) => {
            send(entries, parent, Signal::CHLD, cause(pid, word));
            entries.set_life(pid, Life::Zombie { word })?;
        }
        _ => entries.remove(pid),
    }
    Ok(())
}

/// A process leaves Dying: its parent gets SIGCHLD, unless it is set to be ignored, and its children are orphans.
#[inline(never)]
#[tactic(auto, unfolding(crate::specs::Ends::buried))]
pub fn release_task(shared: &mut Shared, pid: u32, word: u32) -> Result<(), AllocError>
    ensures buried { OnOk result (shared.new ≡ buried shared.old pid word) }
    ensures console { OnErr result (shared.new.console ≡ shared.old.console) }
{
    let Some(entry) = shared.entries.get(pid) else {
        return Ok(());
    };
    let parent = entry.parent;
    orphan_children(&mut shared.entries, pid);
    become_zombie(&mut shared.entries, pid, word, parent)?;
    Ok(())
}

/// A process is stopped by a signal: wait4 is to tell of it, and its parent gets SIGCHLD.
#[inline(never)]
#[tactic(auto, unfolding(crate::specs::Stops::stopped))]
pub fn stop(shared: &mut Shared, pid: u32, signal: Signal)
    ensures { shared.new ≡ stopped shared.old pid signal }
{
    let Some(entry) = shared.entries.get(pid) else {
        return;
    };
    let parent = entry.parent;
    shared.entries.set_news(pid, Some(News::Stopped { signal }));
    let cause = Cause::Stopped {
        pid,
        signal: signal.number,
    };
    hear(&mut shared.entries, parent, cause);
}

/// A process is at no stop signal any more.
fn settle_at(entries: &mut Table, pid: u32)
    ensures { entries.new ≡ settled_at entries.old pid }
{
    let Some(entry) = entries.get(pid) else {
        return;
    };
    let mut signals = entry.signals;
    settle_signals(&mut signals);
    entries.set_signals(pid, signals);
}

/// A process leaves the signal that it took, or its group stop.
pub fn settle(shared: &mut Shared, pid: u32)
    ensures { shared.new ≡ settles shared.old pid }
{
    settle_at(&mut shared.entries, pid);
}

/// A stopped process is woken: wait4 is to tell of it, and its parent gets SIGCHLD.
#[inline(never)]
#[tactic(auto, unfolding(crate::specs::Stops::woken))]
pub fn wake(shared: &mut Shared, pid: u32)
    ensures { shared.new ≡ woken shared.old pid }
{
    let Some(entry) = shared.entries.get(pid) else {
        return;
    };
    let parent = entry.parent;
    settle_at(&mut shared.entries, pid);
    shared.entries.set_news(pid, Some(News::Continued));
    hear(&mut shared.entries, parent, Cause::Continued { pid });
}

/// SIGCONT was sent to a process since it took a stop signal, or was stopped.
pub fn is_continued(shared: &Shared, pid: u32) -> bool
    ensures { result ≡ is_continued_at (maps.get shared.now.entries pid) }
{
    match shared.entries.get(pid) {
        None => false,
        Some(entry) => lx_sig::is_continued(&entry.signals),
    }
}
