//! What a run has written to the console, parted by where it was said.

ghost use Rattle.std.specs.Prelude.{◌≡◌, IfOk, OnOk};
ghost use Rattle.sweep_rows.specs.Descriptors.{uses_in};
ghost use Rattle.sweep_rows.specs.Streams.{no_piece, piece_to, piece_of, silent, with_piece, streams_of};

use crate::descriptors::{Descriptors, Target, descriptor, is_failure};
use containers::Bytes;
use lx_abi::{Item, sys};
use std::alloc::{AllocError, Global};

/// How many bytes a call wrote to the console, and whether as an error.
#[derive(Clone, Copy, Debug, PartialEq, Eq)]
pub struct Piece {
    pub length: u64,
    pub error: bool,
}

/// What was written to the console: as output, and as errors.
#[derive(Drop)]
pub struct Streams {
    pub out: Bytes,
    pub err: Bytes,
}

const NO_PIECE: Piece = Piece {
    length: 0,
    error: false,
};

/// So many bytes written by this descriptor.
fn piece_to(target: Target, number: u32, length: u64) -> Piece
    ensures { result ≡ piece_to target number length }
{
    match target {
        Target::Output => Piece {
            length,
            error: number == 2,
        },
        Target::Error => Piece {
            length,
            error: true,
        },
        Target::Input | Target::File(_) | Target::Other => NO_PIECE,
    }
}

/// What an item has written, where descriptors stand for this.
#[inline(always)]
#[tactic(auto, unfolding(crate::specs::Streams::piece_of))]
pub(crate) fn piece_of(descriptors: &Descriptors, item: &Item) -> Piece
    ensures { result ≡ piece_of (uses_in descriptors.now) item.now }
{
    let Item::Done {
        pid,
        call,
        result: length,
        replaced,
    } = item
    else {
        return NO_PIECE;
    };
    if *replaced || is_failure(*length) || call.number != sys::SYS_WRITE {
        return NO_PIECE;
    }
    let number = descriptor(call);
    piece_to(descriptors.use_of(*pid, number).target, number, *length)
}

impl Streams {
    /// Nothing was written.
    pub(crate) fn new(alloc: Global) -> Self
        ensures { result ≡ silent }
    {
        Streams {
            out: Bytes::new(alloc),
            err: Bytes::new(alloc),
        }
    }

    /// Adds what a piece has of a text.
    pub(crate) fn add(&mut self, error: bool, text: &[u8]) -> Result<(), AllocError>
        ensures { OnOk result (self.new ≡ with_piece error text.now self.old) }
    {
        if error {
            self.err.extend(text)?;
        } else {
            self.out.extend(text)?;
        }
        Ok(())
    }
}

/// The console of a run that has this log, parted: errors are what was written by descriptor 2, or by a copy of it.
#[tactic(auto, unfolding(crate::specs::Streams::streams_of))]
pub fn streams_of(alloc: Global, log: &[Item], console: &[u8]) -> Result<Streams, AllocError>
    ensures { IfOk result (λ s. s ≡ streams_of log.now console.now) }
{
    let mut streams = Streams::new(alloc);
    let mut descriptors = Descriptors::new(alloc);
    let mut text = console;
    let mut left = log;
    while let Some((item, rest)) = left.split_first() {
        let piece = piece_of(&descriptors, item);
        let length = piece.length.min(text.len() as u64) as usize;
        let (said, more) = text.split_at(length);
        streams.add(piece.error, said)?;
        descriptors.add(item)?;
        text = more;
        left = rest;
    }
    Ok(streams)
}
