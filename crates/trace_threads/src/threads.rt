//! A whole run in one process, the host's turns on threads of their own.

ghost use Rattle.std.specs.Prelude.{◌≡◌, ◌≤◌, ◌^◌, Some, None, Err, IfOk, IfErr, OnOk};
ghost use Rattle.lx_boot.specs.Boots.{fault_of};
ghost use Rattle.lx_boot.specs.declared.boots.BootFault.{BootFault};
ghost use Rattle.transcript.specs.Books.{book_of};
ghost use Rattle.trace_threads.specs.ThreadRuns.{Faults, IsNotedRun, ThreadRun};

use crate::fault::ThreadsFault;
use crate::finish::finish;
use crate::noted::NotedRun;
use crate::onlooker::{Blind, Onlooker};
use crate::traced::trace_on_threads;
use host_shared::{Gate, Held, SharedHost};
use lx_abi::{Boot, Script};
use lx_boot::BootFault;
use lx_copies::Copied;
use lx_proc::{Shared, UserState};
use lx_turn::laws::linux_is_a_machine;
use pt_journal::laws::journals_tell;
use pt_kernel::laws::linux_is_told;
use pt_model::laws::tracing_is_transparent;
use std::alloc::Global;
use std::marker::Brand;
use std::sync::Wait;
use std::thread::Threads;
use tr_core::Options;
use tr_core::laws::texts_are_whole;
use trace_run::local::Run;
use transcript::{Naming, Opened};

/// The run, over a record of what is said.
fn run_in_record<J: Naming + Send + Sync, G: Gate, O: Onlooker, R: Threads + Wait + Sync>(
    rt: &R,
    alloc: Global,
    opened: Opened,
    boot: Boot,
    workers: u8,
    limit: u64,
    script: Script,
    options: Options,
    gate: &G,
    notes: bool,
    lists: bool,
    onlooker: &mut O,
) -> Result<NotedRun, ThreadsFault>
    requires book { book_of opened ≡ J.book }
    requires some { 1 ≤ limit }
    requires most { limit ≤ 2 ^ 39 }
    ensures run { IfOk result (IsNotedRun boot limit script options (G.shuts gate.now) notes) }
    ensures accepted { OnOk result (fault_of boot ≡ None) }
    ensures fault { IfErr result (λ fault. Faults boot fault) }
    ensures refused { (e : BootFault) → fault_of boot ≡ Some e → result ≡ Err (ThreadsFault.Boot e) }
{
    journals_tell::<Shared, UserState>();
    tracing_is_transparent::<Shared, UserState>();
    texts_are_whole();
    linux_is_a_machine();
    linux_is_told();
    let mut options = options;
    options.follow = boot.follow;
    let copy = boot.copy(alloc);
    let (book, said) = opened.named::<J>();
    let mine = said.again();
    let shared = match Held::new(alloc, boot, limit, said, notes, lists) {
        Ok(held) => SharedHost::new(held, book),
        Err(fault) => {
            drop(copy);
            drop(book);
            drop(mine);
            drop(script);
            drop(options);
            return Err(ThreadsFault::Boot(fault));
        }
    };
    let Ok(boot) = copy else {
        drop(shared);
        drop(mine);
        drop(script);
        drop(options);
        return Err(ThreadsFault::Boot(BootFault::Memory));
    };
    let traced = trace_on_threads(rt, alloc, &shared, mine, workers, script, options, gate);
    let result = finish(
        &boot,
        limit,
        gate.may_shut(),
        notes,
        shared.into_held(),
        traced,
        onlooker,
    );
    drop(boot);
    result
}

/// Boots a guest and traces it, its turns made by so many threads, one under each holding of a lock; a worker asks the
/// gate before each. The boot's follow counts, not that of the options. At most `limit` turns and requests are made.
/// Its events are noted if they are asked for, and so are the files of its outcome listed. The onlooker sees what it
/// left, also where it isn't the one that is told of.
pub fn run_threads_noting<G: Gate, O: Onlooker, R: Threads + Wait + Sync>(
    rt: &R,
    alloc: Global,
    boot: Boot,
    workers: u8,
    limit: u64,
    script: Script,
    options: Options,
    gate: &G,
    notes: bool,
    lists: bool,
    onlooker: &mut O,
) -> Result<NotedRun, ThreadsFault>
    requires some_workers { 1 ≤ workers }
    requires few_workers { workers ≤ 8 }
    requires some { 1 ≤ limit }
    requires most { limit ≤ 2 ^ 39 }
    ensures run { IfOk result (IsNotedRun boot limit script options (G.shuts gate.now) notes) }
    ensures accepted { OnOk result (fault_of boot ≡ None) }
    ensures fault { IfErr result (λ fault. Faults boot fault) }

    // A boot with a fault is refused with it, whatever the memory.
    ensures refused { (e : BootFault) → fault_of boot ≡ Some e → result ≡ Err (ThreadsFault.Boot e) }
{
    run_in_record::<Brand, G, O, R>(
        rt,
        alloc,
        Opened::new(),
        boot,
        workers,
        limit,
        script,
        options,
        gate,
        notes,
        lists,
        onlooker,
    )
}

/// The same, where nothing is noted, files are listed and nobody looks.
pub fn run_threads<G: Gate, R: Threads + Wait + Sync>(
    rt: &R,
    alloc: Global,
    boot: Boot,
    workers: u8,
    limit: u64,
    script: Script,
    options: Options,
    gate: &G,
) -> Result<Run, ThreadsFault>
    requires some_workers { 1 ≤ workers }
    requires few_workers { workers ≤ 8 }
    requires some { 1 ≤ limit }
    requires most { limit ≤ 2 ^ 39 }
    ensures run { IfOk result (λ run. ThreadRun boot limit script options (G.shuts gate.now) run) }
    ensures accepted { OnOk result (fault_of boot ≡ None) }
    ensures fault { IfErr result (λ fault. Faults boot fault) }

    // A boot with a fault is refused with it, whatever the memory.
    ensures refused { (e : BootFault) → fault_of boot ≡ Some e → result ≡ Err (ThreadsFault.Boot e) }
{
    let mut blind = Blind;
    match run_threads_noting(
        rt, alloc, boot, workers, limit, script, options, gate, false, true, &mut blind,
    ) {
        Ok(noted) => Ok(noted.run),
        Err(fault) => Err(fault),
    }
}
