//! The host: the ptrace machine around Linux.

ghost use Rattle.std.specs.Prelude.{◌≡◌, ◌≤◌, ◌<◌, ◌+◌, [], Some, None, true, false, Err, IfOk, IfErr, OnOk, OnErr, IsErr, IsTrue, IsSome};
ghost use Rattle.lx_boot.specs.Boots.{fault_of, Refuses};
ghost use Rattle.lx_boot.specs.declared.boots.BootFault.{BootFault};
ghost use Rattle.lx_boot.specs.First.{first_shared};
ghost use Rattle.lx_kernel.specs.Outcomes.{outcome_in};
ghost use Rattle.lx_abi.specs.declared.log.Mode.TheVariants as modes;
ghost use Rattle.lx_exec.specs.Programs.{booted};
ghost use Rattle.pt_model.specs.Hosting.{first_hosting, hosting_asked, ready_in};
ghost use Rattle.pt_kernel.specs.Hosts.{able_in, event_of, hosting_by, is_boot, readiness_of};
ghost use Rattle.pt_kernel.specs.Advances.{Leads};
ghost use Rattle.pt_kernel.specs.AfterEvents.{after, mode_at, IsRunning, RunsOn};

use crate::pending::{Asked, Pending};
use crate::serving::{outcome, serve};
use crate::stops::is_effective;
use crate::tracees::Tracees;
use lx_abi::{Boot, Event, Mode, Outcome, Reply, Request, Script};
use lx_boot::BootFault;
use lx_kernel::{Failed, Kernel};
use pt_model::Traced;
use pt_schedule::Schedulable;
use std::alloc::{AllocError, Global};
use std::marker::Model;
use turn_rows::Turns;

/// A request is pending already.
#[derive(Clone, Copy, Debug, PartialEq, Eq)]
pub struct Busy;

/// The kernel under the empty script, its tracees, the effective turns so far, and at most one pending request.
#[derive(Drop)]
pub struct Host {
    alloc: Global,
    kernel: Kernel,
    tracees: Tracees,
    turns: Turns,
    pending: Pending,
    failed: bool,
    lists_files: bool,
}

impl Model for Host {
    ghost use Rattle.std.specs.Prelude.{◌≡◌, false};
    ghost use Rattle.std.specs.Coded.{codes};
    ghost use Rattle.std.specs.FinMap as maps;
    ghost use Rattle.pt_kernel.specs.Hosts.{HostState, state_by, hosting_by, IsSound};

    ghost Value = { HostState };

    ghost coded = { Prim.hlevel (codes, maps.code) };

    ghost view = { λ h. state_by h.kernel h.tracees h.turns h.pending h.failed };

    ghost invariant = { λ h. h.failed ≡ false
        → IsSound h.kernel (hosting_by h.kernel.running h.tracees h.turns h.pending) };
}

/// A turn of the process would run an instruction or change its mode.
fn is_able(kernel: &Kernel, tracees: &Tracees, pid: u32) -> bool
    requires { kernel.now.script ≡ [] }
    ensures { result ≡ able_in (hosting_by kernel.now.running tracees.now [] None) kernel.now.follow pid }
{
    is_effective(kernel, pid, tracees.traced(pid)) && kernel.able(pid)
}

fn is_running(mode: Option<Mode>) -> bool
    ensures { IsTrue result → mode ≡ Some modes.Run }
{
    mode == Some(Mode::Run)
}

/// A request is pending, and would be answered.
fn is_ready(pending: &Pending, tracees: &Tracees) -> bool
    ensures { result ≡ ready_in pending.now tracees.now.queue tracees.now.pids }
{
    match &pending.asked {
        None => false,
        Some(Asked::Wait) => tracees.can_wait(),
        Some(Asked::To { .. } | Asked::Outcome) => true,
    }
}

impl Host {
    /// Process 1 is held until it is seized and resumed.
    pub fn boot(alloc: Global, boot: Boot) -> Result<Self, BootFault>
        ensures first { IfOk result
            (λ h. h ≡ record {
              hosting = first_hosting (first_shared boot.limits boot.files boot.input) (booted boot.argv boot.env);
              follow = boot.follow;
              failed = false;
            }) }
        ensures accepted { OnOk result (fault_of boot ≡ None) }
        ensures fault { IfErr result (Refuses boot) }

        // A boot with a fault is refused with it, whatever the memory.
        ensures refused { (e : BootFault) → fault_of boot ≡ Some e → result ≡ Err e }
    {
        let kernel = Kernel::boot_without_log(alloc, boot, Script::empty(alloc))?;
        match Tracees::new(alloc) {
            Ok(tracees) => Ok(Host {
                alloc,
                kernel,
                tracees,
                turns: Turns::new(alloc),
                pending: Pending::none(),
                failed: false,
                lists_files: true,
            }),
            Err(_) => {
                // An implicit drop of a kernel takes the prover many minutes.
                drop(kernel);
                Err(BootFault::Memory)
            }
        }
    }

    /// Whether outcomes from now on list their files, as they do from the boot on. Contracts see no difference.
    pub fn list_files(&mut self, lists: bool)
        ensures { self.new ≡ self.old }
    {
        self.lists_files = lists;
    }

    /// Puts a request, which a Serve will answer. Where one is pending nothing changes. A host is booted before it is
    /// asked anything, and not again.
    #[inline(always)]
    pub fn ask(&mut self, request: Request) -> Result<(), Busy>
        requires { is_boot request ≡ false }
        ensures put { OnOk result
            (hosting_asked self.old.hosting request self.old.hosting.pending ≡ Some self.new.hosting) }
        ensures rest { OnOk result (self.new ≡ record self.old { hosting = self.new.hosting }) }
        ensures busy { OnErr result (IsSome self.old.hosting.pending) }
        ensures unchanged { OnErr result (self.new ≡ self.old) }
    {
        if self.pending.is_some() {
            return Err(Busy);
        }
        self.pending = Pending::of(request);
        Ok(())
    }

    /// How many turns of a process may be made at once, one and so many behind it: none behind one of a process that
    /// its tracer holds, nor while a request is ready.
    fn most_turns(&self, traced: Traced, more: u64) -> u64
        ensures some { 0 < result }
        ensures within { result ≤ more + 1 }
        ensures free { 1 < result → (traced.held ≡ false) × ((readiness_of self.now).ready ≡ false) }
    {
        if traced.held || self.ready() {
            1
        } else {
            more.saturating_add(1)
        }
    }

    /// A turn of a process, if its tracer doesn't hold it, and at most so many behind it, as long as it is under way:
    /// how many there were behind it.
    pub(crate) fn advance(&mut self, pid: u32, more: u64) -> Result<u64, Failed>
        ensures leads { IfOk result (λ n. Leads self.old pid n self.new) }
        ensures within { IfOk result (λ n. n ≤ more) }
        ensures failed { OnErr result (IsTrue self.new.failed) }
        ensures failed_before { IsTrue self.old.failed → IsErr result }
    {
        if self.failed {
            return Err(Failed);
        }
        let traced = self.tracees.traced(pid);
        if !is_effective(&self.kernel, pid, traced) {
            return Ok(0);
        }
        let most = self.most_turns(traced, more);
        self.failed = true;
        let mut item = None;
        let advanced = self.kernel.advance(pid, most, &mut item)?;
        self.tracees.turn(pid, traced, advanced, item)?;
        self.turns.extend(pid, advanced.turns)?;
        self.failed = false;
        Ok(advanced.turns - 1)
    }

    /// Memory was refused elsewhere: the host does nothing any more.
    pub(crate) fn fail(&mut self)
        ensures { IsTrue self.new.failed }
    {
        self.failed = true;
    }

    /// The process stands where it runs instructions.
    fn is_in_run(&self, pid: u32) -> bool
        ensures { IsTrue result → mode_at self.now pid ≡ Some modes.Run }
    {
        is_running(self.kernel.mode(pid))
    }

    /// And its tracer doesn't hold it.
    fn runs(&self, pid: u32) -> bool
        ensures { IsTrue result → IsRunning self.now pid }
    {
        !self.failed && is_running(self.kernel.mode(pid)) && !self.tracees.traced(pid).held
    }

    /// One turn of a process, if its tracer doesn't hold it: whether it ran an instruction and nothing more.
    pub fn turn(&mut self, pid: u32) -> Result<bool, Failed>
        ensures after { OnOk result (self.new ≡ after self.old (Event.Turn pid)) }
        ensures ran { IfOk result (λ ran. IsTrue ran → RunsOn self.old pid) }
        ensures failed { OnErr result (IsTrue self.new.failed) }
        ensures failed_before { IsTrue self.old.failed → IsErr result }
    {
        let runs = self.runs(pid);
        self.advance(pid, 0)?;
        if !runs {
            return Ok(false);
        }
        Ok(self.is_in_run(pid))
    }

    /// The pending request is served whole.
    #[inline(always)]
    pub(crate) fn serve(&mut self) -> Result<Option<Reply>, Failed>
        ensures after { OnOk result (self.new ≡ after self.old Event.Serve) }
        ensures reply { IfOk result (λ r. r ≡ (event_of self.old Event.Serve).reply) }
        ensures failed { OnErr result (IsTrue self.new.failed) }
        ensures failed_before { IsTrue self.old.failed → IsErr result }
    {
        if self.failed {
            return Err(Failed);
        }
        self.failed = true;
        let reply = serve(
            self.alloc,
            &mut self.kernel,
            &mut self.tracees,
            &mut self.pending,
            self.lists_files,
        )?;
        self.failed = false;
        Ok(reply)
    }

    /// One event: a turn of a process, or the pending request served whole.
    pub fn event(&mut self, event: Event) -> Result<Option<Reply>, Failed>
        ensures after { OnOk result
            (self.new ≡ record {
              hosting = (event_of self.old event).hosting;
              follow = self.old.follow;
              failed = false;
            }) }
        ensures reply { IfOk result (λ r. r ≡ (event_of self.old event).reply) }

        // Once memory was refused, every event answers so.
        ensures failed { OnErr result (IsTrue self.new.failed) }
        ensures failed_before { IsTrue self.old.failed → IsErr result }
    {
        match event {
            Event::Turn { pid } => {
                self.turn(pid)?;
                Ok(None)
            }
            Event::Serve => {
                let reply = self.serve()?;
                Ok(reply)
            }
        }
    }

    /// A request is pending, and would be answered.
    pub fn ready(&self) -> bool
        ensures { result ≡ (readiness_of self.now).ready }
    {
        is_ready(&self.pending, &self.tracees)
    }

    /// A turn of the process would run an instruction or change its mode; none would in a host that failed.
    pub fn able(&self, pid: u32) -> bool
        ensures { result ≡ (readiness_of self.now).able pid }
    {
        !self.failed && is_able(&self.kernel, &self.tracees, pid)
    }

    /// The kernel as it stands.
    pub fn kernel(&self) -> &Kernel
        ensures { result.now.running ≡ self.now.hosting.running }
    {
        &self.kernel
    }

    /// The effective turns so far.
    pub fn turns(&self) -> &Turns
        ensures { result.now ≡ self.now.hosting.turns }
    {
        &self.turns
    }

    /// The same, where the host is used no more.
    pub fn into_turns(self) -> Turns
        ensures { result ≡ self.hosting.turns }
    {
        let Host {
            kernel,
            tracees,
            turns,
            pending,
            ..
        } = self;
        drop(kernel);
        drop(tracees);
        drop(pending);
        turns
    }

    /// What is left of the run so far.
    pub fn outcome(&self) -> Result<Outcome, AllocError>
        ensures { IfOk result (λ o. o ≡ outcome_in self.now.hosting.running.shared) }
    {
        outcome(&self.kernel, self.lists_files)
    }
}

impl Schedulable for Host {
    ghost use Rattle.pt_kernel.specs.Hosts.{readiness_of};

    ghost readiness = { readiness_of };

    fn is_ready(&self) -> bool {
        self.ready()
    }

    fn is_able(&self, pid: u32) -> bool {
        self.able(pid)
    }

    fn next_after(&self, pid: u32) -> Option<u32> {
        if self.failed {
            return None;
        }
        self.kernel.next_after(pid)
    }

    fn last_pid(&self) -> u16 {
        self.kernel.limits().last_pid
    }

    fn has_finished(&self, pid: u32) -> bool {
        self.kernel.has_finished(pid)
    }
}
