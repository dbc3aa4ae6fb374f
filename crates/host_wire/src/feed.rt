//! A stream of frames, however it is cut into pieces.

ghost use Rattle.std.specs.Prelude.{◌≡◌, ◌<◌, ◌≤◌, OnOk, OnErr, IfErr, IfNone, [], ◌++◌, length, drop};
ghost use Rattle.std.specs.Option.{option_to_list};
ghost use Rattle.host_wire.specs.Streams as spec;
ghost use Rattle.host_wire.specs.Streams.{Feeding, Going, Failed, FailsAs, HasOne};

use crate::front;
use byteorder::{BigEndian, ByteOrder};
use host_frame::{Frame, WireFault};
use std::alloc::Global;
use std::collections::VecDeque;
use std::marker::Model;

/// Takes the bytes at the front away. Nothing moves where none are.
fn drop_front(bytes: &mut Vec<u8>, count: usize)
    requires { count ≤ length bytes.old.items }
    ensures { bytes.new.items ≡ drop count bytes.old.items }
{
    if count == 0 {
        return;
    }
    let left = bytes.len() - count;
    bytes.copy_within(count.., 0);
    bytes.truncate(left);
}

/// Puts frames behind those that weren't taken, mostly none.
fn join(ready: &mut VecDeque<Frame>, mut found: VecDeque<Frame>) -> Result<(), WireFault>
    ensures joined { OnOk result (ready.new.items ≡ ready.old.items ++ found.items) }
    ensures kept { OnErr result (ready.new.items ≡ ready.old.items) }
    ensures fault { IfErr result (λ fault. fault ≡ WireFault.Memory) }
{
    if found.is_empty() {
        return Ok(());
    }
    if ready.is_empty() {
        *ready = found;
        return Ok(());
    }
    match ready.append(&mut found) {
        Ok(()) => Ok(()),
        Err(_) => Err(WireFault::Memory),
    }
}

/// Takes pieces of a stream and gives its frames.
#[derive(Drop)]
pub struct Feed {
    alloc: Global,
    /// Whole frames that weren't taken.
    ready: VecDeque<Frame>,
    /// The frame under way.
    under_way: Vec<u8>,
}

impl Model for Feed {
    ghost use Rattle.host_wire.specs.Streams.{Feeding, IsUnfinished};

    ghost Value = { Feeding };

    ghost view = { λ f. record { ready = f.ready.items; under_way = f.under_way.items } };

    ghost invariant = { λ f. IsUnfinished f.under_way.items };
}

impl Feed {
    pub fn new(alloc: Global) -> Self
        ensures { result ≡ spec.nothing_fed }
    {
        Feed {
            alloc,
            ready: VecDeque::new(alloc),
            under_way: Vec::new(alloc),
        }
    }

    /// Takes the next piece of the stream; an error leaves all as if it had not come.
    pub fn feed(&mut self, piece: &[u8]) -> Result<(), WireFault>
        ensures ok { OnOk result (spec.fed self.old piece.now ≡ spec.as_stream self.new) }
        ensures fault { IfErr result (λ fault. FailsAs Failed fault (spec.fed self.old piece.now)) }
        ensures err { OnErr result (self.new ≡ self.old) }
        ensures few { OnOk result (self.old.ready ≡ [] → length piece.now ≤ spec.missing_of self.old.under_way
            → HasOne self.new) }
    {
        let before = self.under_way.len();
        self.under_way.extend_from_slice(piece)?;
        match front::frames(self.alloc, self.under_way.as_slice()) {
            Ok((found, used)) => {
                if let Err(fault) = join(&mut self.ready, found) {
                    self.under_way.truncate(before);
                    return Err(fault);
                }
                drop_front(&mut self.under_way, used);
                Ok(())
            }
            Err(fault) => {
                self.under_way.truncate(before);
                Err(fault)
            }
        }
    }

    /// The next whole frame, if there is one.
    pub fn take(&mut self) -> Option<Frame>
        ensures frames { self.old.ready ≡ option_to_list result ++ self.new.ready }
        ensures none { IfNone result (self.old.ready ≡ []) }
        ensures kept { self.new.under_way ≡ self.old.under_way }
    {
        self.ready.pop_front()
    }

    /// How many bytes the frame under way is known to lack.
    #[tactic(auto, unfolding(crate::specs::Streams::missing_of))]
    pub fn missing(&self) -> usize
        ensures lacked { result ≡ spec.missing_of self.now.under_way }
        ensures some { 0 < result }
    {
        let bytes = self.under_way.as_slice();
        if bytes.len() < 4 {
            return 4 - bytes.len();
        }
        let size = 4 + BigEndian::read_u32(bytes) as usize;
        size - bytes.len()
    }
}
