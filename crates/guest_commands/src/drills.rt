//! A host that fails on purpose, to try tracers by: replies cut short, numbered otherwise, or replaced.

ghost use Rattle.std.specs.Prelude.{◌≡◌, IfOk, OnOk, take};
ghost use Rattle.std.specs.Option.{option_copied};
ghost use Rattle.std.specs.Io.KnownBytes.{Appends};
ghost use Rattle.guest_commands.specs.Drills as spec;

use history::History;
use host_serve::Outlet;
use host_wire::{Broken, Sink};
use std::alloc::{AllocError, Global};

/// What is done to the reply of a number, the first being 1.
#[derive(Debug, Drop)]
pub enum Drill {
    /// Of the reply's frame so many bytes are written, fewer than it has, and the host ends.
    Cut { reply: u64, length: usize },
    /// The frame bears another number.
    Renumber { reply: u64, number: u64 },
    /// These bytes are written in the frame's place.
    Replace { reply: u64, frame: Vec<u8> },
}

impl Drill {
    fn reply(&self) -> u64
        ensures { result ≡ spec.reply_of self.now }
    {
        match self {
            Drill::Cut { reply, .. } => *reply,
            Drill::Renumber { reply, .. } => *reply,
            Drill::Replace { reply, .. } => *reply,
        }
    }

    /// It cuts a reply of so many bytes behind its end.
    fn is_unfit(&self, size: usize) -> bool
        ensures { result ≡ spec.is_unfit self.now size }
    {
        match self {
            Drill::Cut { length, .. } => *length >= size,
            Drill::Renumber { .. } | Drill::Replace { .. } => false,
        }
    }

    /// The host ends after the reply.
    fn is_last(&self) -> bool
        ensures { result ≡ spec.is_last self.now }
    {
        matches!(self, Drill::Cut { .. })
    }
}

/// The first bytes of a frame.
fn cut(alloc: Global, frame: &[u8], length: usize) -> Result<Vec<u8>, AllocError>
    ensures { IfOk result (λ bytes. bytes.items ≡ take length frame.now) }
{
    let mut bytes = Vec::new(alloc);
    bytes.extend_from_slice(&frame[..length.min(frame.len())])?;
    Ok(bytes)
}

/// A frame by another number.
fn renumber(alloc: Global, frame: &[u8], number: u64) -> Result<Vec<u8>, AllocError>
    ensures { IfOk result (λ bytes. bytes.items ≡ spec.renumbered frame.now number) }
{
    let mut bytes = cut(alloc, frame, 4)?;
    bytes.extend_from_slice(&number.to_be_bytes())?;
    bytes.extend_from_slice(&frame[12.min(frame.len())..])?;
    Ok(bytes)
}

/// What is written for a reply in the place of its frame: nothing where that is to be cut behind its end.
fn spoil(alloc: Global, drill: &Drill, frame: &[u8]) -> Result<Vec<u8>, AllocError>
    ensures { IfOk result (λ bytes. bytes.items ≡ spec.spoiled drill.now frame.now) }
{
    match drill {
        Drill::Cut { length, .. } if *length < frame.len() => cut(alloc, frame, *length),
        Drill::Cut { .. } => Ok(Vec::new(alloc)),
        Drill::Renumber { number, .. } => renumber(alloc, frame, *number),
        Drill::Replace { frame, .. } => {
            let frame = frame.as_slice();
            cut(alloc, frame, frame.len())
        }
    }
}

/// Writes what a drill makes of a reply.
fn put_spoiled<S: Sink>(
    alloc: Global,
    sink: &mut S,
    drill: &Drill,
    frame: &[u8],
) -> Result<(), Broken>
    ensures { OnOk result (Appends (S.contents sink.old) (S.contents sink.new) (spec.spoiled drill.now frame.now)) }
{
    match spoil(alloc, drill, frame) {
        Ok(bytes) => sink.put(bytes.as_slice()),
        Err(_) => Err(Broken),
    }
}

/// The drill about a reply.
fn drill_of(drills: &[Drill], reply: u64) -> Option<&Drill>
    ensures { option_copied result ≡ spec.drill_of drills.now reply }
{
    drills.iter().find(|drill| drill.reply() == reply)
}

/// A writer of replies, each of which is one put. Drills spoil them; the first about a reply counts.
#[derive(Drop)]
pub struct Drilled<S> {
    alloc: Global,
    sink: S,
    drills: Vec<Drill>,
    replies: u64,
    is_stopped: bool,
    /// The reply that was to be cut behind its end, and how many bytes it has.
    unfit: Option<(u64, usize)>,
    /// How many bytes each put was of.
    puts: History<usize>,
}

impl<S> Drilled<S> {
    pub fn new(alloc: Global, sink: S, drills: Vec<Drill>) -> Self {
        Drilled {
            alloc,
            sink,
            drills,
            replies: 0,
            is_stopped: false,
            unfit: None,
            puts: History::new(),
        }
    }

    /// The reply that was to be cut behind its end, and how many bytes it has.
    pub fn unfit(&self) -> Option<(u64, usize)> {
        self.unfit
    }
}

impl<S: Sink> Sink for Drilled<S> {
    ghost use Rattle.std.specs.Prelude.{None};
    ghost use Rattle.guest_commands.specs.Drills.{faults_of, puts_of};

    ghost contents = { λ d. None };

    ghost puts = { λ d. puts_of d };

    ghost broken = { λ d. faults_of d };

    fn put(&mut self, bytes: &[u8]) -> Result<(), Broken> {
        self.puts = self.puts.and(&bytes.len());
        if self.is_stopped {
            return Err(Broken);
        }
        self.replies = self.replies.saturating_add(1);
        let sent = match drill_of(self.drills.as_slice(), self.replies) {
            None => self.sink.put(bytes),
            Some(drill) => {
                if drill.is_unfit(bytes.len()) {
                    self.unfit = Some((self.replies, bytes.len()));
                }
                match put_spoiled(self.alloc, &mut self.sink, drill, bytes) {
                    Ok(()) if !drill.is_last() => Ok(()),
                    Ok(()) | Err(Broken) => Err(Broken),
                }
            }
        };
        if sent.is_err() {
            self.is_stopped = true;
        }
        sent
    }

    fn faults(&self) -> u64 {
        if self.is_stopped { 1 } else { 0 }
    }
}

impl<S: Sink> Outlet for Drilled<S> {
    ghost use Rattle.std.specs.Prelude.{[]};

    ghost kept = { λ d. [] };

    /// Nothing is kept back.
    fn hand_on(&mut self) -> Result<(), Broken> {
        Ok(())
    }
}
