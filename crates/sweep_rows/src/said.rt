//! What a run has said, piece by piece.

ghost use Rattle.std.specs.Prelude.{◌≡◌, ◌++◌, ◌∷◌, [], List, IfOk, IfSome, OnOk};
ghost use Rattle.lx_abi.specs.declared.log.Item.{Item as LogItem};
ghost use Rattle.sweep_rows.specs.Known.{IsKnown};
ghost use Rattle.sweep_rows.specs.Said.{by_pieces, unsaid, with_said, IsBoth, Parting, Says};
ghost use Rattle.sweep_rows.specs.Streams.{streams_of};

use crate::known::Known;
use crate::streams::{Piece, Streams, piece_of};
use lx_abi::Item;
use std::alloc::{AllocError, Global};

/// How many bytes were said in a row as output or as errors.
#[derive(Drop)]
pub struct Said {
    pieces: Vec<Piece>,
}

/// Two pieces in a row as one, where they are of one kind.
fn both(one: Piece, other: Piece) -> Option<Piece>
    ensures { IfSome result (IsBoth one other) }
{
    if one.error != other.error {
        return None;
    }
    let Some(length) = one.length.checked_add(other.length) else {
        return None;
    };
    Some(Piece { length, ..one })
}

impl Said {
    /// Nothing so far.
    pub fn new(alloc: Global) -> Self
        ensures { Says result.pieces.items [] }
    {
        Said {
            pieces: Vec::new(alloc),
        }
    }

    /// Adds a piece behind the last, which was taken out.
    fn add_behind(&mut self, last: Piece, piece: Piece) -> Result<(), AllocError>
        ensures { OnOk result ((p : Parting) → by_pieces self.new.pieces.items p
            ≡ with_said piece (with_said last (by_pieces self.old.pieces.items p))) }
    {
        match both(last, piece) {
            Some(both) => self.pieces.push(both)?,
            None => {
                self.pieces.push(last)?;
                self.pieces.push(piece)?;
            }
        }
        Ok(())
    }

    /// A piece that has bytes. Apart, since few items have any.
    #[inline(never)]
    fn push(&mut self, piece: Piece) -> Result<(), AllocError>
        ensures { OnOk result ((p : Parting) → by_pieces self.new.pieces.items p
            ≡ with_said piece (by_pieces self.old.pieces.items p)) }
    {
        match self.pieces.pop() {
            Some(last) => self.add_behind(last, piece)?,
            None => self.pieces.push(piece)?,
        }
        Ok(())
    }

    #[inline(always)]
    fn say(&mut self, piece: Piece) -> Result<(), AllocError>
        ensures { OnOk result ((p : Parting) → by_pieces self.new.pieces.items p
            ≡ with_said piece (by_pieces self.old.pieces.items p)) }
    {
        if piece.length == 0 {
            return Ok(());
        }
        self.push(piece)?;
        Ok(())
    }

    /// One item more of a log that tells this.
    #[inline(always)]
    pub fn add(&mut self, known: &Known, item: &Item) -> Result<(), AllocError>
        ensures { OnOk result ((past : List LogItem) → IsKnown past known.now
            → Says self.old.pieces.items past → Says self.new.pieces.items (past ++ item.now ∷ [])) }
    {
        self.say(piece_of(&known.descriptors, item))?;
        Ok(())
    }

    fn part(&self, alloc: Global, console: &[u8]) -> Result<Streams, AllocError>
        ensures { IfOk result (λ s. s ≡ (by_pieces self.now.pieces.items (unsaid console.now)).streams) }
    {
        let mut streams = Streams::new(alloc);
        let mut text = console;
        let mut left = self.pieces.as_slice();
        while let Some((piece, rest)) = left.split_first() {
            let length = piece.length.min(text.len() as u64) as usize;
            let (said, more) = text.split_at(length);
            streams.add(piece.error, said)?;
            text = more;
            left = rest;
        }
        Ok(streams)
    }

    /// The console of a run that has said this, parted.
    pub fn streams(&self, alloc: Global, console: &[u8]) -> Result<Streams, AllocError>
        ensures { IfOk result (λ s. (log : List LogItem)
            → Says self.now.pieces.items log → s ≡ streams_of log console.now) }
    {
        let streams = self.part(alloc, console)?;
        Ok(streams)
    }
}

impl Clone for Said {
    ghost is_clone = { λ a b. b.pieces.items ≡ a.pieces.items };

    fn clone(&self) -> Result<Self, AllocError> {
        Ok(Said {
            pieces: self.pieces.clone()?,
        })
    }
}
