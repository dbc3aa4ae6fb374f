//! A kernel that is led from place to place, and a copy of which goes on where a call fails.

ghost use Rattle.std.specs.Prelude.{◌≡◌, ◌↔◌, true, IsTrue, OnOk, IfOk};
ghost use Rattle.sweep_faults.specs.Heard.{Hears, HearsBeside};
ghost use Rattle.sweep_faults.specs.Words.{HasWords};
ghost use Rattle.sweep_rows.specs.Calls.{same_calls, AreCalls};
ghost use Rattle.sweep_runs.specs.Leaders.{ComparesTo, IsAtBoot, IsLed, IsOn, StandsIn};
ghost use Rattle.sweep_runs.specs.Runs.{FaultComesTo, IsReached};

use crate::ends::ending;
use crate::runs::{begin_without_log, run_on};
use lx_kernel::Kernel;
use pt_schedule::Schedule;
use std::alloc::{AllocError, Global};
use std::mem;
use sweep_faults::{Fault, Heard, Place, has_words, run_up_to};
use sweep_rows::{Calls, Reached, Setup};

/// A kernel that a boot's own turns have led to where a call is entered.
#[derive(Drop)]
pub struct Leader {
    kernel: Kernel,
    schedule: Schedule,
    /// What its turns have logged.
    heard: Heard,
    /// The calls of the reference.
    calls: Calls,
    /// Where it stands; none at its boot.
    place: Option<Place>,
}

/// What a run came to, and what is told of it beside the reference.
#[derive(Drop)]
pub struct Compared {
    pub reached: Reached,
    /// Each process that ended in the reference made the same calls.
    pub alike: bool,
    /// A rule of a script, which is for each tracee, comes to the same run.
    pub has_words: bool,
}

/// What a run of which this was heard left, logged and said.
fn reached(alloc: Global, kernel: &Kernel, heard: &Heard) -> Result<Reached, AllocError>
    requires { Hears heard.now kernel.now.running.log }
    ensures { IfOk result (IsReached kernel.now) }
{
    let ending = ending(kernel)?;
    let streams = heard.streams(alloc, ending.outcome.console.as_slice())?;
    Ok(Reached {
        ending,
        log: heard.log(),
        streams,
    })
}

/// What it came to, beside the reference, which made these calls.
pub(crate) fn compare(
    alloc: Global,
    kernel: &Kernel,
    heard: &Heard,
    calls: &Calls,
    follow: bool,
    reference: &Reached,
    fault: Fault,
) -> Result<Compared, AllocError>
    requires heard { HearsBeside calls.now heard.now kernel.now.running.log }
    requires calls { AreCalls calls.now reference.now.log.items }
    ensures reached { IfOk result (λ c. IsReached kernel.now c.reached) }
    ensures alike { IfOk result (λ c. c.alike ≡ same_calls reference.now.log.items kernel.now.running.log
        reference.now.ending.outcome.ended) }
    ensures words { IfOk result (λ c. IsTrue c.has_words ↔ HasWords follow fault kernel.now.running.log) }
{
    let reached = reached(alloc, kernel, heard)?;
    Ok(Compared {
        reached,
        alike: heard.are_alike(calls, reference.ending.outcome.ended.as_slice()),
        has_words: has_words(heard, fault, follow),
    })
}

impl Leader {
    /// One that stands at the boot, which is accepted.
    pub fn new(alloc: Global, setup: &Setup, reference: &Reached) -> Result<Self, AllocError>
        ensures { IfOk result (IsLed setup.now reference.now) }
    {
        let log = reference.log.as_slice()?;
        let calls = Calls::of(alloc, log)?;
        let (kernel, schedule) = begin_without_log(alloc, setup)?;
        Ok(Leader {
            kernel,
            schedule,
            heard: Heard::new(alloc),
            calls,
            place: None,
        })
    }

    /// It stands at the boot again.
    fn go_back(&mut self, alloc: Global, setup: &Setup) -> Result<(), AllocError>
        ensures boot { OnOk result (IsAtBoot setup.now self.new) }
        ensures calls { self.new.calls ≡ self.old.calls }
    {
        let (kernel, schedule) = begin_without_log(alloc, setup)?;
        let old = mem::replace(&mut self.kernel, kernel);
        drop(old);
        self.schedule = schedule;
        self.heard = Heard::new(alloc);
        self.place = None;
        Ok(())
    }

    /// Leads it on to a place: whether it stands there then.
    fn go_on(&mut self, setup: &Setup, place: Place) -> Result<bool, AllocError>
        requires { IsOn setup.now self.old }
        ensures stands { IfOk result (λ there. there ≡ true → StandsIn setup.now place self.new) }
        ensures calls { self.new.calls ≡ self.old.calls }
    {
        match run_up_to(
            &mut self.kernel,
            &mut self.schedule,
            place,
            &mut self.heard,
            &self.calls,
        ) {
            Ok(there) => {
                self.place = Some(place);
                Ok(there)
            }
            Err(_) => Err(AllocError),
        }
    }

    /// From the boot, which is accepted, it is led to a place, or stays at the boot if there is no such place.
    fn start_over(&mut self, alloc: Global, setup: &Setup, place: Place) -> Result<(), AllocError>
        ensures stands { OnOk result (StandsIn setup.now place self.new) }
        ensures calls { self.new.calls ≡ self.old.calls }
    {
        self.go_back(alloc, setup)?;
        let there = self.go_on(setup, place)?;
        if !there {
            self.go_back(alloc, setup)?;
        }
        Ok(())
    }

    /// Each run of a boot, which is accepted, in which the call fails at this place goes on where it stands then.
    fn stand_at(&mut self, alloc: Global, setup: &Setup, place: Place) -> Result<(), AllocError>
        requires { IsOn setup.now self.old }
        ensures stands { OnOk result (StandsIn setup.now place self.new) }
        ensures calls { self.new.calls ≡ self.old.calls }
    {
        if self.place == Some(place) {
            return Ok(());
        }
        let there = self.go_on(setup, place)?;
        if !there {
            self.start_over(alloc, setup, place)?;
        }
        Ok(())
    }

    /// The kernel at the end of the run in which this call of this process fails, of a boot that is accepted, and what
    /// was heard of it.
    fn run_failing(
        &mut self,
        alloc: Global,
        setup: &Setup,
        fault: Fault,
    ) -> Result<(Kernel, Heard), AllocError>
        requires { IsOn setup.now self.old }
        ensures run { IfOk result (λ end. FaultComesTo setup.now fault end.0) }
        ensures heard { IfOk result (λ end. HearsBeside self.new.calls end.1 end.0.running.log) }
        ensures on { OnOk result (IsOn setup.now self.new) }
        ensures calls { self.new.calls ≡ self.old.calls }
    {
        self.stand_at(alloc, setup, fault.place())?;
        let schedule = self.schedule.clone()?;
        let mut heard = self.heard.clone()?;
        let kernel = self.kernel.clone()?;
        let end = run_on(kernel, schedule, fault, &mut heard, &self.calls)?;
        Ok((end, heard))
    }

    /// What the run came to in which this call of this process fails, of a boot that is accepted, beside the
    /// reference.
    pub fn reach_failing(
        &mut self,
        alloc: Global,
        setup: &Setup,
        reference: &Reached,
        fault: Fault,
    ) -> Result<Compared, AllocError>
        requires { IsLed setup.now reference.now self.old }
        ensures compared { IfOk result (ComparesTo setup.now reference.now fault) }
        ensures led { OnOk result (IsLed setup.now reference.now self.new) }
    {
        let (kernel, heard) = self.run_failing(alloc, setup, fault)?;
        let follow = setup.boot.follow;
        let compared = compare(
            alloc,
            &kernel,
            &heard,
            &self.calls,
            follow,
            reference,
            fault,
        );
        drop(heard);
        drop(kernel);
        compared
    }
}

/// What the run came to in which this call of this process fails, of a boot that is accepted, beside the reference.
pub fn reach_failing(
    alloc: Global,
    setup: &Setup,
    reference: &Reached,
    fault: Fault,
) -> Result<Compared, AllocError>
    ensures { IfOk result (ComparesTo setup.now reference.now fault) }
{
    let mut leader = Leader::new(alloc, setup, reference)?;
    let compared = leader.reach_failing(alloc, setup, reference, fault);
    drop(leader);
    compared
}
