//! A host that remembers who has the next turn.
//!
//! A turn that runs an instruction leaves able who was able, so who was found to come next after a process still does.
//! Anything else that is done to the host may change it, and then all of it is forgotten.

ghost use Rattle.std.specs.Prelude.{◌≡◌, false, None, Some, IfOk, OnOk};
ghost use Rattle.lx_abi.specs.declared.schedule.Event.TheVariants as event;
ghost use Rattle.pt_kernel.specs.AfterEvents.{after};
ghost use Rattle.pt_kernel.specs.Hosts.{event_of, is_boot, readiness_of};
ghost use Rattle.pt_model.specs.Hosting.{with_pending};
ghost use Rattle.pt_schedule.specs.Cycle.{next_able};
ghost use Rattle.host_shared.specs.Following.{Follows, Knows};

use crate::followers::Followers;
use lx_abi::{Event, Reply, Request};
use lx_kernel::Failed;
use pt_kernel::Host;
use pt_kernel::host::Busy;
use pt_kernel::laws::runs_leave_alike;
use pt_schedule::next_able;
use std::marker::Model;

/// A host, and who has the next turn after whom, as far as it is known.
#[derive(Drop)]
pub struct Roster {
    host: Host,
    followers: Followers,
}

impl Model for Roster {
    ghost use Rattle.std.specs.Coded.{codes};
    ghost use Rattle.std.specs.FinMap as maps;
    ghost use Rattle.pt_kernel.specs.Hosts.{HostState};
    ghost use Rattle.host_shared.specs.Following.{Knows};

    ghost Value = { HostState };

    ghost coded = { Prim.hlevel (codes, maps.code) };

    ghost view = { λ r. r.host };

    ghost invariant = { λ r. Knows r.host r.followers };
}

/// Nothing is known any more.
fn forget(host: &Host, followers: &mut Followers)
    ensures { Knows host.now followers.new }
{
    *followers = Followers::none();
}

/// A turn of the process that comes next after the last one.
fn turn_next(host: &mut Host, followers: &mut Followers, last: u32, pid: u32) -> Result<(), Failed>
    requires { Follows host.old last pid }
    ensures host { OnOk result (host.new ≡ after host.old (event.Turn pid)) }
    ensures known { Knows host.old followers.old → Knows host.new followers.new }
{
    runs_leave_alike();
    let ran = match host.turn(pid) {
        Ok(ran) => ran,
        Err(failed) => {
            forget(host, followers);
            return Err(failed);
        }
    };
    if !ran {
        forget(host, followers);
        return Ok(());
    }
    followers.learn(last, pid);
    Ok(())
}

impl Roster {
    /// A host of which nothing is known.
    pub fn of(host: Host) -> Self
        ensures { result ≡ host }
    {
        Roster {
            host,
            followers: Followers::none(),
        }
    }

    /// The next able process in the cycle of pids after this one.
    pub fn next(&self, last: u32) -> Option<u32>
        ensures { result ≡ next_able (readiness_of self.now).able (readiness_of self.now).last_pid last }
    {
        match self.followers.after(last) {
            Some(pid) => Some(pid),
            None => next_able(&self.host, last),
        }
    }

    /// A turn of the process that comes next after the last one.
    pub fn turn(&mut self, last: u32, pid: u32) -> Result<(), Failed>
        requires { Follows self.old last pid }
        ensures { OnOk result (self.new ≡ after self.old (event.Turn pid)) }
    {
        turn_next(&mut self.host, &mut self.followers, last, pid)
    }

    /// Puts a request, which a Serve will answer, where none is pending.
    pub fn ask(&mut self, request: Request) -> Result<(), Busy>
        requires no_boot { is_boot request ≡ false }
        requires free { self.old.hosting.pending ≡ None }
        ensures { OnOk result (self.new ≡ record self.old { hosting = with_pending self.old.hosting (Some request) }) }
    {
        self.followers = Followers::none();
        self.host.ask(request)
    }

    /// The pending request is served whole.
    pub fn serve(&mut self) -> Result<Option<Reply>, Failed>
        ensures after { OnOk result (self.new ≡ after self.old event.Serve) }
        ensures reply { IfOk result (λ r. r ≡ (event_of self.old event.Serve).reply) }
    {
        self.followers = Followers::none();
        self.host.event(Event::Serve)
    }

    /// A request is pending, and would be answered.
    pub fn ready(&self) -> bool
        ensures { result ≡ (readiness_of self.now).ready }
    {
        self.host.ready()
    }

    pub fn host(&self) -> &Host
        ensures { result.now ≡ self.now }
    {
        &self.host
    }

    /// The host, where the rest is used no more.
    pub fn into_host(self) -> Host
        ensures { result ≡ self }
    {
        self.host
    }
}
