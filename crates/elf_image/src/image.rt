//! What a file holds of a program.

ghost use Rattle.std.specs.Prelude.{◌≡◌, length};

use containers::Bytes;
use std::marker::Model;

/// What a program may do with a run of its memory.
#[derive(Clone, Copy, Debug, PartialEq, Eq)]
pub struct Rights {
    pub read: bool,
    pub write: bool,
    pub execute: bool,
}

/// A run of memory. Its first bytes are given, the rest are zeros.
#[derive(Debug, Drop)]
pub struct Segment {
    pub address: u64,
    pub size: u64,
    pub rights: Rights,
    pub bytes: Bytes,
}

/// The segments of a program, in the order of its file.
#[derive(Debug, Drop)]
pub struct Segments {
    items: Vec<Segment>,
}

impl Model for Segments {
    ghost use Rattle.std.specs.Prelude.{List};
    ghost use Rattle.elf_image.specs.declared.image.Segment.{Segment};

    ghost Value = { List Segment };

    ghost view = { λ s. s.items.items };
}

impl Segments {
    pub fn from_vec(items: Vec<Segment>) -> Self
        ensures { result ≡ items.items }
    {
        Segments { items }
    }

    pub fn as_slice(&self) -> &[Segment]
        ensures { result.now ≡ self.now }
    {
        self.items.as_slice()
    }
}

/// A program: the address at which it begins, and its memory.
#[derive(Debug, Drop)]
pub struct Image {
    pub entry: u64,
    pub segments: Segments,
}
