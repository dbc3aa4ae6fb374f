//! A journal that grows.

ghost use Rattle.std.specs.Prelude.{◌≡◌, ◌++◌, [], ◌∷◌, None, Some};
ghost use Rattle.lx_abi.specs.declared.schedule.Event.TheVariants as event;
ghost use Rattle.pt_journal.specs.declared.entry.Entry.TheVariants as entry;
ghost use Rattle.pt_journal.specs.Notes.{noted_by};

use crate::note::Note;
use history::History;
use lx_abi::{Reply, Request};
use std::marker::Model;

/// What was done to a host, which contracts see as the list of its entries. Proofs alone read it: it takes no memory.
#[derive(Drop)]
pub struct Journal {
    notes: History<Note>,
}

impl Model for Journal {
    ghost use Rattle.std.specs.Prelude.{List};
    ghost use Rattle.pt_journal.specs.declared.entry.Entry.{Entry};
    ghost use Rattle.pt_journal.specs.Notes.{entries_of};

    ghost Value = { List Entry };

    ghost view = { λ j. entries_of j.notes.items };
}

impl Journal {
    pub fn new() -> Self
        ensures { result ≡ [] }
    {
        Journal {
            notes: History::new(),
        }
    }

    fn note(&mut self, note: Note)
        ensures { self.new ≡ self.old ++ noted_by note }
    {
        self.notes = self.notes.and(&note);
    }

    /// A request was put.
    pub fn ask(&mut self, request: &Request)
        ensures { self.new ≡ self.old ++ entry.Ask request.now ∷ [] }
    {
        let none: History<Request> = History::new();
        self.note(Note::Asked(none.and(request)));
    }

    /// A Serve was answered.
    pub fn serve(&mut self, reply: &Reply)
        ensures { self.new ≡ self.old ++ entry.Did event.Serve (Some reply.now) ∷ [] }
    {
        let none: History<Reply> = History::new();
        self.note(Note::Served(none.and(reply)));
    }

    /// A process had a turn.
    pub fn turn(&mut self, pid: u32)
        ensures { self.new ≡ self.old ++ entry.Did (event.Turn pid) None ∷ [] }
    {
        self.note(Note::Turned(pid));
    }
}
