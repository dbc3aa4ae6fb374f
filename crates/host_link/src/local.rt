//! A link to a host in the tracer's own process.

ghost use Rattle.std.specs.Prelude.{◌≡◌, ◌≤◌, ◌^◌, true, false, is_none, Option, IfOk, IfErr, OnOk};
ghost use Rattle.host_link.specs.Locals.{ServesNoting, reply_or_over};
ghost use Rattle.pt_kernel.specs.Hosts.{is_boot};
ghost use Rattle.lx_abi.specs.declared.ptrace.Reply.{Reply};
ghost use Rattle.pt_model.specs.Ptrace.{is_there};

use crate::fault::LinkFault;
use crate::link::{Link, MOST_REPLIES};
use lx_abi::{Reply, Request};
use pt_kernel::{Events, Host, Schedule, attend};
use std::alloc::Global;

/// A request that would boot a host again.
fn is_boot(request: &Request) -> bool
    ensures { result ≡ is_boot request.now }
{
    matches!(request, Request::Boot { .. })
}

/// Why a host doesn't serve a request.
#[derive(Clone, Copy, Debug, PartialEq, Eq)]
enum Unserved {
    /// Another one is pending.
    Busy,
    /// Memory was refused.
    Failed,
}

/// Puts the request, and makes the events of the schedule until it is answered, which are noted; none where the
/// schedule has ended.
#[inline(always)]
fn serve(
    host: &mut Host,
    schedule: &mut Schedule,
    noted: &mut Events,
    request: Request,
) -> Result<Option<Reply>, Unserved>
    requires { is_boot request ≡ false }
    ensures served { IfOk result (λ x. ServesNoting host.old schedule.old noted.old request
        (record { host = host.new; schedule = schedule.new; reply = x }) noted.new) }
    ensures busy { result ≡ Err Unserved.Busy → is_there host.old.hosting.pending ≡ true }
    ensures untouched { result ≡ Err Unserved.Busy → (host.new ≡ host.old) × (schedule.new ≡ schedule.old) }
    ensures failed { result ≡ Err Unserved.Failed → host.new.failed ≡ true }
{
    match host.ask(request) {
        Err(_) => Err(Unserved::Busy),
        Ok(()) => match attend(host, schedule, noted) {
            Ok(reply) => Ok(reply),
            Err(_) => Err(Unserved::Failed),
        },
    }
}

/// A host that was booted, and the order of its events. It answers requests in this process.
#[derive(Drop)]
pub struct LocalLink {
    host: Host,
    schedule: Schedule,
    noted: Events,
    /// The schedule has ended.
    over: bool,
    given: u64,
    is_broken: bool,
    ghost few: { given ≤ 2 ^ 40 },
}

impl LocalLink {
    ghost use Rattle.std.specs.Prelude.{None, Some, []};
    ghost use Rattle.host_link.specs.LocalLinks.{host_of, schedule_of, noted_of, given_of, faults_of, is_over};

    fn with(host: Host, schedule: Schedule, noted: Events) -> Self
        ensures host { host_of result ≡ host }
        ensures schedule { schedule_of result ≡ schedule }
        ensures noted { noted_of result ≡ noted }
        ensures given { given_of result ≡ 0 }
        ensures whole { faults_of result ≡ 0 }
        ensures going { is_over result ≡ false }
    {
        LocalLink {
            host,
            schedule,
            noted,
            over: false,
            given: 0,
            is_broken: false,
        }
    }

    pub fn new(host: Host, schedule: Schedule) -> Self
        ensures host { host_of result ≡ host }
        ensures schedule { schedule_of result ≡ schedule }
        ensures noted { noted_of result ≡ None }
        ensures given { given_of result ≡ 0 }
        ensures whole { faults_of result ≡ 0 }
        ensures going { is_over result ≡ false }
    {
        LocalLink::with(host, schedule, Events::none())
    }

    /// The same, which notes the events of the run.
    pub fn noting(alloc: Global, host: Host, schedule: Schedule) -> Self
        ensures host { host_of result ≡ host }
        ensures schedule { schedule_of result ≡ schedule }
        ensures noted { noted_of result ≡ Some [] }
        ensures given { given_of result ≡ 0 }
        ensures whole { faults_of result ≡ 0 }
        ensures going { is_over result ≡ false }
    {
        LocalLink::with(host, schedule, Events::noted(alloc))
    }

    /// The host as the run left it.
    pub fn host(&self) -> &Host
        ensures { result.now ≡ host_of self.now }
    {
        &self.host
    }

    /// The same, where the link is used no more.
    pub fn into_host(self) -> Host
        ensures { result ≡ host_of self }
    {
        self.host
    }

    /// And the events of the run, where they were noted.
    pub fn into_parts(self) -> (Host, Events)
        ensures host { result.0 ≡ host_of self }
        ensures noted { result.1 ≡ noted_of self }
    {
        (self.host, self.noted)
    }
}

impl Link for LocalLink {
    ghost use Rattle.host_link.specs.LocalLinks.{Calls, given_of, faults_of};

    ghost answers = { λ a q r b. Calls a q r b };

    ghost given = { λ l. given_of l };

    ghost broken = { λ l. faults_of l };

    #[inline(always)]
    #[tactic(auto, unfolding(crate::specs::LocalLinks::Calls))]
    fn call(&mut self, request: Request) -> Result<Reply, LinkFault> {
        if self.is_broken {
            return Err(LinkFault::Ended);
        }
        if self.given >= MOST_REPLIES {
            self.is_broken = true;
            return Err(LinkFault::TooMany);
        }
        if is_boot(&request) {
            self.is_broken = true;
            return Err(LinkFault::Ended);
        }
        if self.over {
            self.given += 1;
            return Ok(Reply::OutOfTurns);
        }
        match serve(&mut self.host, &mut self.schedule, &mut self.noted, request) {
            Ok(Some(reply)) => {
                self.given += 1;
                Ok(reply)
            }
            Ok(None) => {
                self.over = true;
                self.given += 1;
                Ok(Reply::OutOfTurns)
            }
            Err(Unserved::Busy) => {
                self.is_broken = true;
                Err(LinkFault::Sequence)
            }
            Err(Unserved::Failed) => {
                self.is_broken = true;
                Err(LinkFault::Memory)
            }
        }
    }

    fn asked(&self) -> u64 {
        self.given
    }

    fn faults(&self) -> u64 {
        if self.is_broken { 1 } else { 0 }
    }
}
