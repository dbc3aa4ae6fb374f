//! Outputs of lines.

ghost use Rattle.std.specs.Prelude.{◌≡◌};

use host_wire::{Broken, Counted, Sink};
use std::io::Write;

/// A writer that knows whether the line that it wrote last is open.
pub trait LineSink: Sink {
    /// The last line isn't ended.
    fn is_open(&self) -> bool;
}

/// A writer of std as one.
#[derive(Drop)]
pub struct Lines<W> {
    sink: Counted<W>,
    open: bool,
}

impl<W: Write> Lines<W> {
    ghost use Rattle.trace_run.specs.Writers.{writer_of};
    ghost use Rattle.trace_command.specs.Tracing.{unused};
    ghost use Rattle.trace_command.specs.Writers.{broken_of, contents_of, puts_of};

    pub fn new(writer: W) -> Self
        ensures { writer_of (contents_of W.contents) puts_of broken_of result ≡ unused (W.contents writer) }
    {
        Lines {
            sink: Counted::new(writer),
            open: false,
        }
    }

    pub fn into_inner(self) -> W
        ensures { W.contents result ≡ contents_of W.contents self }
    {
        self.sink.into_inner()
    }
}

impl<W: Write> Sink for Lines<W> {
    ghost use Rattle.trace_command.specs.Writers.{broken_of, contents_of, puts_of};

    ghost contents = { λ l. contents_of W.contents l };

    ghost puts = { λ l. puts_of l };

    ghost broken = { λ l. broken_of l };

    fn put(&mut self, bytes: &[u8]) -> Result<(), Broken> {
        if let Some(last) = bytes.last() {
            self.open = *last != b'\n';
        }
        self.sink.put(bytes)
    }

    fn faults(&self) -> u64 {
        self.sink.faults()
    }
}

impl<W: Write> LineSink for Lines<W> {
    fn is_open(&self) -> bool {
        self.open
    }
}
