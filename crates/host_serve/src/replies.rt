//! Replies to a writer of std, kept back while it may be.

ghost use Rattle.std.specs.Prelude.{◌≡◌, [], IfOk, OnOk};
ghost use Rattle.std.specs.Io.Buffered.{writer_buffer, writer_contents};
ghost use Rattle.std.specs.Io.KnownBytes.{Keeps};

use crate::ends::Outlet;
use history::History;
use host_wire::{Broken, Sink, write_whole};
use std::alloc::Global;
use std::io::{self, BufWriter, ErrorKind, Write};

/// A writer of replies that is given back.
#[derive(Drop)]
pub struct Closed<W> {
    pub out: W,
    /// All that was put has gone out.
    pub is_out: bool,
}

/// Replies that are kept back until they are handed on, or there are too many.
#[derive(Drop)]
pub struct Replies<W: Write + Drop> {
    out: BufWriter<W>,
    broken: bool,
    /// How many bytes each put was of.
    puts: History<usize>,
}

impl<W: Write + Drop> Replies<W> {
    ghost use Rattle.host_serve.specs.Together.{GoesOut, contents_of, kept_of, puts_of};

    pub fn new(alloc: Global, out: W) -> io::Result<Self>
        ensures empty { IfOk result (λ r. kept_of r ≡ []) }
        ensures contents { IfOk result (λ r. contents_of W.contents r ≡ W.contents out) }
        ensures puts { IfOk result (λ r. puts_of r ≡ []) }
    {
        let out = BufWriter::new(alloc, out)?;
        Ok(Replies {
            out,
            broken: false,
            puts: History::new(),
        })
    }

    /// What was kept back goes out, and the writer is given back.
    pub fn close(self) -> Closed<W>
        ensures { GoesOut (contents_of W.contents self) (W.contents result.out) result.is_out }
    {
        match self.out.into_inner() {
            Ok(out) => Closed { out, is_out: true },
            Err(fault) => {
                let (out, _rest) = fault.into_inner().into_parts();
                Closed { out, is_out: false }
            }
        }
    }
}

/// What was kept back goes out. A flush that a signal interrupts is made again.
fn flush_again<W: Write + Drop>(writer: &mut BufWriter<W>) -> Result<(), Broken>
    ensures out { OnOk result (writer_buffer writer.new ≡ []) }
    ensures bytes { Keeps (writer_contents W.contents writer.old) (writer_contents W.contents writer.new) }
{
    for _ in 0..u64::MAX {
        match writer.flush() {
            Ok(()) => return Ok(()),
            Err(fault) => {
                if fault.kind() != ErrorKind::Interrupted {
                    return Err(Broken);
                }
            }
        }
    }
    Err(Broken)
}

impl<W: Write + Drop> Sink for Replies<W> {
    ghost use Rattle.host_serve.specs.Together.{contents_of, faults_of, puts_of};

    ghost contents = { λ r. contents_of W.contents r };

    ghost puts = { λ r. puts_of r };

    ghost broken = { λ r. faults_of r };

    fn put(&mut self, bytes: &[u8]) -> Result<(), Broken> {
        self.puts = self.puts.and(&bytes.len());
        if self.broken {
            return Err(Broken);
        }
        match write_whole(&mut self.out, bytes) {
            Ok(()) => Ok(()),
            Err(Broken) => {
                self.broken = true;
                Err(Broken)
            }
        }
    }

    fn faults(&self) -> u64 {
        if self.broken { 1 } else { 0 }
    }
}

impl<W: Write + Drop> Outlet for Replies<W> {
    ghost use Rattle.host_serve.specs.Together.{kept_of};

    ghost kept = { λ r. kept_of r };

    fn hand_on(&mut self) -> Result<(), Broken> {
        match flush_again(&mut self.out) {
            Ok(()) => Ok(()),
            Err(Broken) => {
                self.broken = true;
                Err(Broken)
            }
        }
    }
}
