//! Requests of a reader of std, read ahead as they come.

ghost use Rattle.std.specs.Prelude.{◌≡◌, [], IfOk};
ghost use Rattle.host_serve.specs.Keeping as spec;

use crate::ends::{Ahead, Outlet};
use byteorder::{BigEndian, ByteOrder};
use host_wire::{Counted, Feed, Frame, ReceiveFault, receive};
use std::alloc::Global;
use std::io::{self, BufReader, Read};

/// The bytes begin with a whole frame: the length of what follows it, and so many bytes.
#[tactic(auto, unfolding(crate::specs::Keeping::begins_whole))]
fn begins_whole(bytes: &[u8]) -> bool
    ensures { result ≡ spec.begins_whole bytes.now }
{
    if bytes.len() < 4 {
        return false;
    }
    BigEndian::read_u32(bytes) as usize <= bytes.len() - 4
}

/// Requests as they come, many by one read.
#[derive(Drop)]
pub struct Requests<R> {
    input: Counted<BufReader<R>>,
}

impl<R: Read + Drop> Requests<R> {
    ghost use Rattle.host_serve.specs.Together.{ahead_of, input_of, unread};

    pub fn new(alloc: Global, input: R) -> io::Result<Self>
        ensures ahead { IfOk result (λ r. ahead_of r ≡ []) }
        ensures input { IfOk result (λ r. input_of R.remaining r ≡ unread (R.remaining input)) }
    {
        let input = BufReader::new(alloc, input)?;
        Ok(Requests {
            input: Counted::new(input),
        })
    }
}

impl<R: Read> Ahead for Requests<R> {
    ghost use Rattle.host_serve.specs.Together.{ahead_of, input_of};

    ghost input = { λ r. input_of R.remaining r };

    ghost ahead = { λ r. ahead_of r };

    fn has_frame(&self) -> bool {
        begins_whole(self.input.get_ref().buffer())
    }

    fn receive<W: Outlet>(
        &mut self,
        _writer: &W,
        feed: &mut Feed,
        room: &mut [u8],
        most: u64,
    ) -> Result<Option<Frame>, ReceiveFault> {
        receive(&mut self.input, feed, room, most)
    }
}
