//! What a host keeps of the processes that a tracer has to do with.

ghost use Rattle.std.specs.Prelude.{◌≡◌, ◌++◌, ◌==◌, [], true, not, cond, Some, None, IfOk, OnOk, filter};
ghost use Rattle.std.specs.FinMap as maps;
ghost use Rattle.lx_model.specs.Finite.{at};
ghost use Rattle.pt_model.specs.Ptrace.{inherits, reports_of, without};
ghost use Rattle.pt_model.specs.Hosting.{message_after, untraced, released, wait_ready};
ghost use Rattle.pt_model.specs.Requests.{told};
ghost use Rattle.pt_kernel.specs.Stops.{stop_after, dies_after};
ghost use Rattle.pt_kernel.specs.Tracees.{stopped_at, with_newborn, with_birth, attached, after_turn, waited, tells, took, seized};

use crate::queue::ReportQueue;
use crate::stops::{dies_after, stop_after};
use lx_abi::{Errno, EventStop, Item, Reply, Stop, TraceOptions};
use lx_kernel::Advanced;
use lx_model::PtraceEvent;
use pt_model::{Report, Traced};
use shelves::Shelf;
use std::alloc::{AllocError, Global};

/// Process 1 and the tracees, and what Wait has to tell of them.
#[derive(Drop)]
pub struct Tracees {
    /// Process 1, and the tracees; those that have ended stay.
    pub traced: Shelf<Traced>,
    /// The stops that Wait hasn't told of, in the order in which they arose.
    pub queue: ReportQueue<Report>,
    /// The tracees whose end wasn't waited for, in the order in which they came.
    pub pids: ReportQueue<u32>,
}

/// The options of a child, where it is a tracee.
fn inherits(options: Option<TraceOptions>) -> Option<TraceOptions>
    ensures { result ≡ inherits options }
{
    let options = options?;
    if options.forks { Some(options) } else { None }
}

fn message_after(message: u32, pid: u32, options: TraceOptions, event: PtraceEvent<u32>) -> u32
    ensures { result ≡ message_after message pid options event }
{
    match event {
        PtraceEvent::Plain => message,
        PtraceEvent::Execed => { if options.execs { pid } else { message } }
        PtraceEvent::Forked(child) => { if options.forks { child } else { message } }
    }
}

/// What is kept of a process, in the place where something is kept already.
#[inline(always)]
fn keep(kept: &mut Shelf<Traced>, pid: u32, traced: Traced) -> Result<(), AllocError>
    ensures { OnOk result (kept.new ≡ maps.insert kept.old pid traced) }
{
    match kept.get_mut(pid) {
        Some(place) => {
            *place = traced;
            Ok(())
        }
        None => {
            kept.insert(pid, traced)?;
            Ok(())
        }
    }
}

/// What is kept of a process that is held no more.
#[inline(always)]
fn release(kept: &mut Shelf<Traced>, pid: u32)
    ensures { kept.new ≡ released kept.old pid (maps.get kept.old pid) }
{
    if let Some(traced) = kept.get_mut(pid) {
        traced.held = false;
    }
}

impl Tracees {
    /// Process 1 is held from the boot, and no tracee yet.
    pub fn new(alloc: Global) -> Result<Self, AllocError>
        ensures { IfOk result
            (λ x. x ≡ record {
              traced = maps.insert maps.empty 1 (record { held = true; options = None; message = 0 });
              queue = [];
              pids = [];
            }) }
    {
        let mut traced = Shelf::new(alloc);
        traced.insert(
            1,
            Traced {
                held: true,
                options: None,
                message: 0,
            },
        )?;
        Ok(Tracees {
            traced,
            queue: ReportQueue::new(alloc),
            pids: ReportQueue::new(alloc),
        })
    }

    /// What is kept of a process.
    #[inline(always)]
    pub fn traced(&self, pid: u32) -> Traced
        ensures { result ≡ at untraced self.now.traced pid }
    {
        match self.traced.get(pid) {
            Some(traced) => *traced,
            None => Traced {
                held: false,
                options: None,
                message: 0,
            },
        }
    }

    pub fn set(&mut self, pid: u32, traced: Traced) -> Result<(), AllocError>
        ensures { OnOk result (self.new ≡ record self.old { traced = maps.insert self.old.traced pid traced }) }
    {
        keep(&mut self.traced, pid, traced)?;
        Ok(())
    }

    /// A process is held no more.
    #[inline(always)]
    pub fn let_go(&mut self, pid: u32)
        ensures { self.new ≡ record self.old {
          traced = released self.old.traced pid (maps.get self.old.traced pid);
        } }
    {
        release(&mut self.traced, pid);
    }

    /// A tracee that has come to a stop is held.
    fn stop(
        &mut self,
        pid: u32,
        traced: Traced,
        stop: Option<Stop>,
        event: PtraceEvent<u32>,
    ) -> Result<(), AllocError>
        ensures { OnOk result
            (self.new ≡ record self.old {
              traced = stopped_at self.old.traced pid traced.message traced.options stop event;
            }) }
    {
        match traced.options {
            None => Ok(()),
            Some(options) => {
                let stopped = Traced {
                    held: stop.is_some(),
                    options: Some(options),
                    message: message_after(traced.message, pid, options, event),
                };
                keep(&mut self.traced, pid, stopped)?;
                Ok(())
            }
        }
    }

    /// The stop is reported; a process that is dying has no earlier report.
    fn report(&mut self, pid: u32, stop: Option<Stop>, dying: bool) -> Result<(), AllocError>
        ensures { OnOk result
            (self.new ≡ record self.old {
              queue = cond dying (without pid self.old.queue) self.old.queue ++ reports_of pid stop;
            }) }
    {
        if dying {
            self.queue.withdraw(pid);
        }
        match stop {
            None => Ok(()),
            Some(stop) => {
                self.queue.push(Report { pid, stop })?;
                Ok(())
            }
        }
    }

    /// A process that is held becomes a tracee.
    #[inline(always)]
    fn attach(&mut self, pid: u32, traced: Traced) -> Result<(), AllocError>
        ensures { OnOk result (self.new ≡ attached self.old pid traced) }
    {
        self.traced.insert(pid, traced)?;
        let stop = Stop::Event {
            event: EventStop::Stop,
        };
        self.queue.push(Report { pid, stop })?;
        self.pids.push(pid)?;
        Ok(())
    }

    #[inline(never)]
    fn adopt(&mut self, child: u32, options: Option<TraceOptions>) -> Result<(), AllocError>
        ensures { OnOk result (self.new ≡ with_newborn self.old child options) }
    {
        match options {
            None => Ok(()),
            Some(options) => {
                let traced = Traced {
                    held: true,
                    options: Some(options),
                    message: 0,
                };
                self.attach(child, traced)?;
                Ok(())
            }
        }
    }

    /// A child that is a tracee is held.
    fn bear(
        &mut self,
        options: Option<TraceOptions>,
        event: PtraceEvent<u32>,
    ) -> Result<(), AllocError>
        ensures { OnOk result (self.new ≡ with_birth self.old options event) }
    {
        match event {
            PtraceEvent::Plain | PtraceEvent::Execed => Ok(()),
            PtraceEvent::Forked(child) => {
                self.adopt(child, inherits(options))?;
                Ok(())
            }
        }
    }

    /// What turns of a process leave that came to this, and of which the last logged this.
    pub fn turn(
        &mut self,
        pid: u32,
        traced: Traced,
        advanced: Advanced,
        item: Option<Item>,
    ) -> Result<(), AllocError>
        ensures { OnOk result (self.new ≡ after_turn self.old pid traced
            (stop_after traced.options advanced.after item advanced.event)
            (dies_after advanced.after advanced.event) advanced.event) }
    {
        let Advanced { after, event, .. } = advanced;
        let stop = stop_after(traced.options, after, item, event);
        self.stop(pid, traced, stop, event)?;
        self.report(pid, stop, dies_after(after, event))?;
        self.bear(traced.options, event)?;
        Ok(())
    }

    pub fn seize(
        &mut self,
        pid: u32,
        traced: Traced,
        options: TraceOptions,
    ) -> Result<(), AllocError>
        ensures { OnOk result (self.new ≡ seized self.old pid traced options) }
    {
        let traced = Traced {
            held: traced.held,
            options: Some(options),
            message: traced.message,
        };
        self.attach(pid, traced)?;
        Ok(())
    }

    /// Who was waited for is held no more, and no tracee.
    #[inline(never)]
    fn leave(&mut self, pid: u32)
        ensures { self.new ≡ record self.old {
          traced = released self.old.traced pid (maps.get self.old.traced pid);
          pids = filter (λ q. not (pid == q)) self.old.pids;
        } }
    {
        self.pids.leave(pid);
        self.let_go(pid);
    }

    #[inline(always)]
    fn tell(&mut self, report: Report) -> Reply
        ensures { tells self.new (Some result)
            ≡ tells (took self.old self.old.queue report.pid report.stop) (Some (told report.pid report.stop)) }
    {
        if let Stop::Ended { .. } = report.stop {
            self.leave(report.pid);
        }
        Reply::Status {
            pid: report.pid,
            status: report.stop.status(),
        }
    }

    /// Wait is answered with the first report, or ECHILD where no tracee is left; else it stays pending.
    #[inline(always)]
    pub fn wait(&mut self) -> Option<Reply>
        ensures { tells self.new result ≡ waited self.old self.old.queue self.old.pids }
    {
        match self.queue.pop() {
            None => {
                if self.pids.is_empty() {
                    Some(Reply::Errno {
                        number: u32::from(Errno::ECHILD.number),
                    })
                } else {
                    None
                }
            }
            Some(report) => Some(self.tell(report)),
        }
    }

    /// Wait would be answered.
    pub fn can_wait(&self) -> bool
        ensures { result ≡ wait_ready self.now.queue self.now.pids }
    {
        !self.queue.is_empty() || self.pids.is_empty()
    }
}
