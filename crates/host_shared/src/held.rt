//! A host, the journal of what was done to it, and the transcript of what it and its tracer said.

ghost use Rattle.std.specs.Prelude.{◌≡◌, ◌≤◌, ◌^◌, ◌++◌, ◌∷◌, [], true, false, None, Some, Err, IfOk, IfErr, OnOk, OnErr};
ghost use Rattle.std.specs.Prelude.{IsErr, IsTrue, is_some, ◌&&◌, not};
ghost use Rattle.lx_abi.specs.declared.ptrace.Reply.TheVariants.{OutOfTurns as Out_of_turns};
ghost use Rattle.lx_boot.specs.Boots.{fault_of, Refuses};
ghost use Rattle.lx_boot.specs.declared.boots.BootFault.{BootFault};
ghost use Rattle.pt_model.specs.Ptrace.{is_there};
ghost use Rattle.pt_kernel.specs.Hosts.{is_boot, readiness_of};
ghost use Rattle.pt_journal.specs.Told.{Told};
ghost use Rattle.pt_journal.specs.Journals.{is_outcome as is_outcome_of};
ghost use Rattle.transcript.specs.declared.said.Said.TheVariants.{Asked, Answered};
ghost use Rattle.host_shared.specs.HeldStates.{first_held, asked, refused, next_turn, Turned, serve_of, hearing};
ghost use Rattle.host_shared.specs.HeldStates.{out_of_turns, shut_of, IsKept, Stopped};
ghost use Rattle.host_shared.specs.HeldStates.{CanPut, CanRefuse, CanServe, CanEnd};

use crate::cut::Cut;
use crate::exchanges::Exchanges;
use crate::noted::NotedJournal;
use crate::roster::Roster;
use crate::{saying, steps};
use lx_abi::{Boot, Reply, Request};
use lx_boot::BootFault;
use lx_copies::Copied;
use pt_kernel::Host;
use std::alloc::Global;
use std::marker::Model;
use transcript::{Naming, Record, Transcript};

/// The most events that a journal may be given.
pub const MOST_EVENTS: u64 = 1 << 39;

/// Memory was refused.
#[derive(Clone, Copy, Debug, PartialEq, Eq)]
pub struct Memory;

/// A boot, its host, the journal that replays to it, and what it and its tracer said to each other.
#[derive(Drop)]
pub struct Held<J: Naming> {
    boot: Boot,
    host: Roster,
    journal: NotedJournal,
    said: Transcript<J>,
    /// The most events that the journal may have, and how many it has.
    limit: u64,
    events: u64,
    /// The pid of the last turn, 0 at first.
    last: u32,
    /// A request is pending.
    pending: bool,
    /// Nothing more is done.
    closed: bool,
    /// Memory was refused.
    failed: bool,
    /// Why it is out of turns, where it is.
    cut: Option<Cut>,
    /// The last reply was given: that to Outcome, or OutOfTurns.
    over: bool,
}

impl<J: Naming> Model for Held<J> {
    ghost use Rattle.std.specs.Coded.{codes};
    ghost use Rattle.std.specs.FinMap as maps;
    ghost use Rattle.host_shared.specs.HeldStates.{HeldState, held_by, Keeps};

    ghost Value = { HeldState };

    ghost coded = { Prim.hlevel (codes, maps.code) };

    ghost view = { λ h. held_by h.boot h.host h.journal h.said h.limit h.closed h.failed h.cut h.over };

    ghost invariant = { λ h. Keeps (held_by h.boot h.host h.journal h.said h.limit h.closed h.failed h.cut h.over)
        h.events h.last h.pending };
}

fn is_outcome(reply: &Reply) -> bool
    ensures { result ≡ is_outcome_of reply.now }
{
    matches!(reply, Reply::Outcome { .. })
}

impl<J: Naming> Held<J> {
    /// A host that was booted, with an empty journal, of which the events are noted if they are asked for. Its outcome's
    /// files are listed if they are.
    pub fn new(
        alloc: Global,
        boot: Boot,
        limit: u64,
        said: Transcript<J>,
        notes: bool,
        lists: bool,
    ) -> Result<Self, BootFault>
        requires some { 1 ≤ limit }
        requires most { limit ≤ 2 ^ 39 }
        requires nothing { said ≡ [] }
        ensures first { IfOk result (λ h. h ≡ first_held boot limit) }
        ensures accepted { OnOk result (fault_of boot ≡ None) }
        ensures fault { IfErr result (Refuses boot) }

        // A boot with a fault is refused with it, whatever the memory.
        ensures refused { (e : BootFault) → fault_of boot ≡ Some e → result ≡ Err e }
    {
        let kept = boot.copy(alloc);
        let mut host = match Host::boot(alloc, boot) {
            Ok(host) => host,
            Err(fault) => {
                // An implicit drop of these takes the prover many minutes.
                drop(kept);
                drop(said);
                return Err(fault);
            }
        };
        host.list_files(lists);
        match kept {
            Ok(boot) => Ok(Held {
                boot,
                host: Roster::of(host),
                journal: NotedJournal::new(alloc, notes),
                said,
                limit,
                events: 0,
                last: 0,
                pending: false,
                closed: false,
                failed: false,
                cut: None,
                over: false,
            }),
            Err(_) => {
                drop(said);
                drop(host);
                Err(BootFault::Memory)
            }
        }
    }

    /// Puts a request, which will be served: an Ask.
    pub fn put(
        &mut self,
        book: &Record<J>,
        mine: &mut Transcript<J>,
        request: Request,
    ) -> Result<(), Memory>
        requires can { CanPut self.old }
        requires no_boot { is_boot request ≡ false }
        ensures put { OnOk result (self.new ≡ asked self.old request) }
        ensures mine { OnOk result (mine.new ≡ mine.old ++ Asked request ∷ []) }
        ensures failed { OnErr result (Stopped self.new) }
        ensures failed_before { IsTrue self.old.failed → IsErr result }
    {
        if self.failed {
            return Err(Memory);
        }
        match steps::put(
            &mut self.host,
            &mut self.journal,
            book,
            &mut self.said,
            mine,
            request,
        ) {
            Ok(()) => {
                self.pending = true;
                Ok(())
            }
            Err(Memory) => {
                self.failed = true;
                self.closed = true;
                Err(Memory)
            }
        }
    }

    /// Refuses a request, where this is closed: it is out of turns.
    pub fn refuse(
        &mut self,
        book: &Record<J>,
        mine: &mut Transcript<J>,
        request: &Request,
    ) -> Result<(), Memory>
        requires can { CanRefuse self.old }
        ensures refused { OnOk result (self.new ≡ refused self.old request.now) }
        ensures mine { OnOk result (mine.new ≡ mine.old ++ Asked request.now ∷ Answered Out_of_turns ∷ []) }
        ensures failed { OnErr result (Stopped self.new) }
        ensures failed_before { IsTrue self.old.failed → IsErr result }
    {
        if self.failed {
            return Err(Memory);
        }
        match saying::refuse(book, &mut self.said, mine, request) {
            Ok(()) => {
                self.over = true;
                Ok(())
            }
            Err(Memory) => {
                self.failed = true;
                self.closed = true;
                Err(Memory)
            }
        }
    }

    /// A turn of the next able process in the cycle of pids after that of the last turn, while it is open and below its
    /// limit: true where there was one.
    pub fn turn(&mut self) -> Result<bool, Memory>
        ensures turned { IfOk result (λ moved. Turned self.old (next_turn self.old) moved self.new) }
        ensures failed { OnErr result (Stopped self.new) }
        ensures failed_before { IsTrue self.old.failed → IsErr result }
    {
        if self.failed {
            return Err(Memory);
        }
        if self.closed || self.limit <= self.events {
            return Ok(false);
        }
        let Some(pid) = self.host.next(self.last) else {
            return Ok(false);
        };
        match steps::turn(&mut self.host, &mut self.journal, self.last, pid) {
            Ok(()) => {
                self.events += 1;
                self.last = pid;
                Ok(true)
            }
            Err(Memory) => {
                self.failed = true;
                self.closed = true;
                Err(Memory)
            }
        }
    }

    /// It is out of turns, for this reason: nothing more is said.
    fn end(
        &mut self,
        book: &Record<J>,
        mine: &mut Transcript<J>,
        cut: Option<Cut>,
    ) -> Result<Option<Reply>, Memory>
        requires can { CanEnd self.old cut }
        ensures served { IfOk result (λ reply. out_of_turns self.old cut ≡ record { held = self.new; reply = reply }) }
        ensures mine { IfOk result (λ reply. mine.new ≡ hearing mine.old reply) }
        ensures failed { OnErr result (Stopped self.new) }
    {
        let reply = Reply::OutOfTurns;
        match saying::answer(book, &mut self.said, mine, &reply) {
            Ok(()) => {
                self.closed = true;
                self.cut = cut;
                self.over = true;
                Ok(Some(reply))
            }
            Err(Memory) => {
                drop(reply);
                self.failed = true;
                self.closed = true;
                Err(Memory)
            }
        }
    }

    /// Serves the pending request where it can be: its reply. It is out of turns, for good, where this is closed or at
    /// its limit, or where no process is able and the request waits; none where a turn may yet answer it.
    pub fn serve(
        &mut self,
        book: &Record<J>,
        mine: &mut Transcript<J>,
    ) -> Result<Option<Reply>, Memory>
        requires { CanServe self.old }
        ensures served { IfOk result (λ reply. serve_of self.old ≡ record { held = self.new; reply = reply }) }
        ensures mine { IfOk result (λ reply. mine.new ≡ hearing mine.old reply) }
        ensures failed { OnErr result (Stopped self.new) }
        ensures failed_before { IsTrue self.old.failed → IsErr result }
    {
        if self.failed {
            return Err(Memory);
        }
        if self.closed {
            let cut = self.cut;
            return self.end(book, mine, cut);
        }
        if self.limit <= self.events {
            return self.end(book, mine, Some(Cut::Limit));
        }
        if !self.host.ready() {
            if self.host.next(self.last).is_some() {
                return Ok(None);
            }
            return self.end(book, mine, Some(Cut::Nobody));
        }
        match steps::serve(
            &mut self.host,
            &mut self.journal,
            book,
            &mut self.said,
            mine,
        ) {
            Ok(reply) => {
                self.events += 1;
                self.pending = false;
                self.closed = is_outcome(&reply);
                self.over = self.closed;
                Ok(Some(reply))
            }
            Err(Memory) => {
                self.failed = true;
                self.closed = true;
                Err(Memory)
            }
        }
    }

    /// Nothing more is done.
    pub fn close(&mut self)
        ensures { self.new ≡ record self.old { closed = true } }
    {
        self.closed = true;
    }

    /// Nothing more is done, since a worker's gate was shut.
    pub fn shut(&mut self)
        ensures { self.new ≡ shut_of self.old }
    {
        if self.closed {
            return;
        }
        self.closed = true;
        self.cut = Some(Cut::Gate);
    }

    /// Why it is out of turns, where it is.
    pub fn cut(&self) -> Option<Cut>
        ensures { result ≡ self.now.cut }
    {
        self.cut
    }

    pub fn is_closed(&self) -> bool
        ensures { result ≡ self.now.closed }
    {
        self.closed
    }

    /// The last reply was given: that to Outcome, or OutOfTurns.
    pub fn is_over(&self) -> bool
        ensures { result ≡ self.now.over }
    {
        self.over
    }

    /// Memory was refused.
    pub fn has_failed(&self) -> bool
        ensures { result ≡ self.now.failed }
    {
        self.failed
    }

    /// A request is pending, unless memory was refused.
    pub fn is_pending(&self) -> bool
        ensures { self.now.failed ≡ false → result ≡ is_there self.now.host.hosting.pending }
    {
        self.pending
    }

    /// A request is pending, and would be answered.
    pub fn is_ready(&self) -> bool
        ensures { result ≡ (readiness_of self.now.host).ready }
    {
        self.host.ready()
    }

    /// A process may have a turn.
    pub fn is_able(&self) -> bool
        ensures { self.now.failed ≡ false → result ≡ is_some (next_turn self.now) }
    {
        if self.closed || self.limit <= self.events {
            return false;
        }
        self.host.next(self.last).is_some()
    }

    /// The pending request waits for a turn.
    pub fn waits(&self) -> bool
        ensures { self.now.failed ≡ false
            → result ≡ (is_some (next_turn self.now) && not (readiness_of self.now.host).ready) }
    {
        self.is_able() && !self.host.ready()
    }

    /// The most events that the journal may have.
    pub fn limit(&self) -> u64
        ensures { result ≡ self.now.limit }
    {
        self.limit
    }

    pub fn boot(&self) -> &Boot
        ensures { result.now ≡ self.now.boot }
    {
        &self.boot
    }

    /// The last reply was given, and the journal tells of these exchanges and of no others.
    pub fn tells(&self, known: &Exchanges<J>) -> bool
        ensures told { result ≡ true → self.now.failed ≡ false → Told self.now.journal known.now }
        ensures kept { IsKept self.now }
    {
        self.over && self.said.agrees(known.transcript())
    }

    pub fn host(&self) -> &Host
        ensures { result.now ≡ self.now.host }
    {
        self.host.host()
    }

    /// The host and the journal, where the rest is used no more.
    pub fn into_parts(self) -> (Host, NotedJournal)
        ensures host { result.0 ≡ self.host }
        ensures journal { result.1 ≡ self.journal }
    {
        (self.host.into_host(), self.journal)
    }
}
