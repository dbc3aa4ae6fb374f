//! Where a trace is written.

ghost use Rattle.std.specs.Prelude.{◌≡◌, OnOk, OnErr, IsErr, is_ok, if◌then◌else◌};
ghost use Rattle.std.specs.Io.KnownBytes.{Appends};
ghost use Rattle.host_wire.specs.Ends.{AppendsPart, IsPut};

use crate::written::Written;
use host_wire::{Broken, Counted, Sink};
use std::io::Write;

/// A writer of a trace, which is told where more of a line comes at once.
pub trait TraceSink: Sink {
    ghost Beside: { Type 0 } = { Unit {0} };

    /// What stands beside the trace: no put changes it.
    ghost beside: { Self → Self.Beside };

    /// As `put`, of bytes of the trace. Unless it may rest behind them, more of their line comes at once: they may be
    /// kept back until then.
    fn put_trace(&mut self, bytes: &[u8], rests: bool) -> Result<(), Broken>
        ensures whole { OnOk result (Appends (Self.contents self.old) (Self.contents self.new) bytes.now) }
        ensures part { OnErr result (AppendsPart (Self.contents self.old) (Self.contents self.new) bytes.now) }
        ensures counted { IsPut (Self.puts self.old) (Self.puts self.new) bytes.now }
        ensures faults { Self.broken self.new ≡ (if is_ok result then Self.broken self.old else 1) }
        ensures for_good { Self.broken self.old ≡ 1 → IsErr result }
        ensures beside { Self.beside self.new ≡ Self.beside self.old };
}

impl TraceSink for Written {
    ghost beside = { λ _. tt };

    fn put_trace(&mut self, bytes: &[u8], _rests: bool) -> Result<(), Broken> {
        self.put(bytes)
    }
}

impl<W: Write> TraceSink for Counted<W> {
    ghost beside = { λ _. tt };

    fn put_trace(&mut self, bytes: &[u8], _rests: bool) -> Result<(), Broken> {
        self.put(bytes)
    }
}
