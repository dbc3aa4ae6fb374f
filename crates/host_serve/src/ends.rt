//! A reader that knows what has come, and a writer that knows what it keeps back.

ghost use Rattle.std.specs.Prelude.{◌≡◌, ◌<◌, [], length, IfOk, IsSome, OnErr, OnOk};
ghost use Rattle.std.specs.Io.KnownBytes.{Keeps};
ghost use Rattle.host_wire.specs.Receiving.{Received};
ghost use Rattle.host_wire.specs.Streams.{nothing_fed};
ghost use Rattle.host_serve.specs.Keeping.{IsOut, begins_whole};

use host_wire::{Broken, Counted, Feed, Frame, ReceiveFault, Sink, receive};
use std::io::{Read, Write};

/// A reader that knows whether the next frame has come whole, and is read where no reply is waited for.
pub trait Ahead {
    ghost use Rattle.std.specs.Prelude.{ℕ, List};
    ghost use Rattle.host_wire.specs.Ends.{Input};

    ghost input: { Self → Input };

    /// The bytes that have come and weren't read.
    ghost ahead: { Self → List ℕ };

    fn has_frame(&self) -> bool
        ensures { result ≡ begins_whole (ahead self.now) };

    /// Reads until a frame is whole, `most` times at most and no byte past it; none at the end of input. Nothing is
    /// kept back by the writer then, or the frame has come whole.
    fn receive<W: Outlet>(
        &mut self,
        writer: &W,
        feed: &mut Feed,
        room: &mut [u8],
        most: u64,
    ) -> Result<Option<Frame>, ReceiveFault>
        requires out { IsOut (W.kept writer.now) (ahead self.old) }
        requires room { 0 < length room.old }
        ensures received { Received most (input self.old) feed.old result (input self.new) feed.new }
        ensures no_further { feed.old.ready ≡ [] → IfOk result (λ frame. IsSome frame → feed.new ≡ nothing_fed) };
}

/// A writer that may keep back what was put.
pub trait Outlet: Sink {
    ghost use Rattle.std.specs.Prelude.{ℕ, List};

    /// What was put and hasn't gone out.
    ghost kept: { Self → List ℕ };

    /// What was kept back goes out.
    fn hand_on(&mut self) -> Result<(), Broken>
        ensures out { OnOk result (kept self.new ≡ []) }
        ensures bytes { Keeps (Self.contents self.old) (Self.contents self.new) }
        ensures counted { Self.puts self.new ≡ Self.puts self.old }
        ensures faults { OnErr result (Self.broken self.new ≡ 1) };
}

impl<R: Read> Ahead for Counted<R> {
    ghost use Rattle.std.specs.Prelude.{[]};
    ghost use Rattle.host_wire.specs.Counting.{input_of};

    ghost input = { λ c. input_of R.remaining c };

    ghost ahead = { λ c. [] };

    #[tactic(auto, unfolding(crate::specs::Keeping::begins_whole))]
    fn has_frame(&self) -> bool {
        false
    }

    fn receive<W: Outlet>(
        &mut self,
        _writer: &W,
        feed: &mut Feed,
        room: &mut [u8],
        most: u64,
    ) -> Result<Option<Frame>, ReceiveFault> {
        receive(self, feed, room, most)
    }
}

impl<W: Write> Outlet for Counted<W> {
    ghost use Rattle.std.specs.Prelude.{[]};

    ghost kept = { λ c. [] };

    fn hand_on(&mut self) -> Result<(), Broken> {
        Ok(())
    }
}
