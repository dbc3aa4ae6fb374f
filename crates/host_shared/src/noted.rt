//! A journal, and its events where they are asked for.

ghost use Rattle.std.specs.Prelude.{◌≡◌, ◌++◌, ◌∷◌, [], None, Some, IfSome, OnOk};
ghost use Rattle.lx_abi.specs.declared.schedule.Event.TheVariants as event;
ghost use Rattle.pt_journal.specs.declared.entry.Entry.TheVariants as entry;
ghost use Rattle.host_shared.specs.Noting.{noted_of};

use lx_abi::{Event, Reply, Request};
use pt_journal::Journal;
use pt_kernel::Events;
use std::alloc::{AllocError, Global};
use std::marker::Model;

/// A journal, which contracts see as the list of its entries. Its events take memory, where they are asked for.
#[derive(Drop)]
pub struct NotedJournal {
    journal: Journal,
    events: Events,
    /// They are noted.
    notes: bool,
}

impl Model for NotedJournal {
    ghost use Rattle.std.specs.Prelude.{◌≡◌, List};
    ghost use Rattle.pt_journal.specs.declared.entry.Entry.{Entry};
    ghost use Rattle.host_shared.specs.Noting.{noted_of};

    ghost Value = { List Entry };

    ghost view = { λ j. j.journal };

    ghost invariant = { λ j. j.events ≡ noted_of j.notes j.journal };
}

/// What notes events, where they are asked for.
fn events_if(alloc: Global, notes: bool) -> Events
    ensures { result ≡ noted_of notes [] }
{
    if notes {
        Events::noted(alloc)
    } else {
        Events::none()
    }
}

impl NotedJournal {
    pub fn new(alloc: Global, notes: bool) -> Self
        ensures { result ≡ [] }
    {
        NotedJournal {
            journal: Journal::new(),
            events: events_if(alloc, notes),
            notes,
        }
    }

    /// A request was put.
    pub fn ask(&mut self, request: &Request)
        ensures { self.new ≡ self.old ++ entry.Ask request.now ∷ [] }
    {
        self.journal.ask(request);
    }

    /// A Serve was answered.
    pub fn serve(&mut self, reply: &Reply) -> Result<(), AllocError>
        ensures { OnOk result (self.new ≡ self.old ++ entry.Did event.Serve (Some reply.now) ∷ []) }
    {
        match self.events.note(Event::Serve, 1) {
            Ok(()) => {
                self.journal.serve(reply);
                Ok(())
            }
            Err(fault) => {
                self.notes = false;
                self.events = Events::none();
                Err(fault)
            }
        }
    }

    /// A process had a turn.
    pub fn turn(&mut self, pid: u32) -> Result<(), AllocError>
        ensures { OnOk result (self.new ≡ self.old ++ entry.Did (event.Turn pid) None ∷ []) }
    {
        match self.events.note(Event::Turn { pid }, 1) {
            Ok(()) => {
                self.journal.turn(pid);
                Ok(())
            }
            Err(fault) => {
                self.notes = false;
                self.events = Events::none();
                Err(fault)
            }
        }
    }

    /// Its events, if they were asked for, and nothing if they weren't; none where memory was refused.
    pub fn into_events(self, notes: bool) -> Option<Events>
        ensures { IfSome result (λ events. events ≡ noted_of notes self) }
    {
        if self.notes != notes {
            return None;
        }
        Some(self.events)
    }
}
