//! A trace that is kept in memory.

ghost use Rattle.std.specs.Prelude.{◌≡◌, []};
ghost use Rattle.trace_run.specs.Writings.{writing};

use containers::Bytes;
use history::History;
use host_wire::{Broken, Sink};
use std::alloc::Global;
use std::marker::Model;

/// Keeps what is written. It fails where memory runs out.
#[derive(Drop)]
pub struct Written {
    bytes: Bytes,
    broken: bool,
    /// How many bytes each put was of.
    puts: History<usize>,
}

impl Model for Written {
    ghost use Rattle.trace_run.specs.Writings.{Writing};

    ghost Value = { Writing };

    ghost view = { λ w. record { bytes = w.bytes; is_broken = w.broken; puts = w.puts.items } };
}

impl Written {
    pub fn new(alloc: Global) -> Self
        ensures { result ≡ writing [] }
    {
        Written {
            bytes: Bytes::new(alloc),
            broken: false,
            puts: History::new(),
        }
    }

    pub fn into_bytes(self) -> Bytes
        ensures { result ≡ self.bytes }
    {
        self.bytes
    }
}

impl Sink for Written {
    ghost use Rattle.std.specs.Prelude.{Some};
    ghost use Rattle.trace_run.specs.Writings.{faults_of};

    ghost contents = { λ w. Some w.bytes };

    ghost puts = { λ w. w.puts };

    ghost broken = { λ w. faults_of w.is_broken };

    fn put(&mut self, bytes: &[u8]) -> Result<(), Broken> {
        self.puts = self.puts.and(&bytes.len());
        if self.broken {
            return Err(Broken);
        }
        match self.bytes.extend(bytes) {
            Ok(()) => Ok(()),
            Err(_) => {
                self.broken = true;
                Err(Broken)
            }
        }
    }

    fn faults(&self) -> u64 {
        u64::from(self.broken)
    }
}
