//! Text under way.

ghost use Rattle.std.specs.Prelude.{◌≡◌, ℕ, List, ◌++◌, [], OnOk, OnErr, IfErr, IfOk, decimal, codes, string_bytes, false, length};
ghost use Rattle.std.specs.Fmt.{digits};
ghost use Rattle.tr_values.specs.Escapes.{quoted};
ghost use Rattle.tr_values.specs.Sheets as spec;
ghost use Rattle.tr_values.specs.declared.sheet.Needed.TheVariants.{Memory};

use crate::escapes::push_quoted;
use containers::Bytes;
use std::alloc::{AllocError, Global};
use std::marker::Model;

/// Why a text isn't whole yet.
#[derive(Clone, Copy, Debug, PartialEq, Eq)]
pub enum Needed {
    /// So many bytes at this address are read first.
    Wants { address: u64, length: u32 },
    Memory,
}

impl From<AllocError> for Needed {
    ghost from_gives = { λ _ e. e ≡ Memory };

    fn from(_error: AllocError) -> Needed {
        Needed::Memory
    }
}

/// Room for most parts of a text.
const PART: usize = 64;

/// Text under way, and the byte strings that were read for it, those not looked at yet.
#[derive(Drop)]
pub struct Sheet<'a> {
    alloc: Global,
    text: String,
    unread: &'a [Bytes],
}

impl<'a> Model for Sheet<'a> {
    ghost Value = { spec.Sheet };

    ghost view = { λ s. record { out = string_bytes s.text; left = s.unread.now } };
}

impl<'a> Sheet<'a> {
    pub fn new(alloc: Global, unread: &'a [Bytes]) -> Self
        ensures { result ≡ record { out = []; left = unread.now } }
    {
        Sheet {
            alloc,
            text: String::new(alloc),
            unread,
        }
    }

    /// With a text, to which more is put.
    pub fn with(alloc: Global, text: String, unread: &'a [Bytes]) -> Self
        ensures { result ≡ record { out = string_bytes text; left = unread.now } }
    {
        Sheet {
            alloc,
            text,
            unread,
        }
    }

    /// An empty one, of the same reads.
    pub fn part(&self) -> Result<Sheet<'a>, AllocError>
        ensures { IfOk result (λ p. p ≡ record { out = []; left = self.now.left }) }
    {
        let text = String::with_capacity(self.alloc, PART)?;
        Ok(Sheet {
            alloc: self.alloc,
            text,
            unread: self.unread,
        })
    }

    /// What was put to a part.
    pub fn take(&mut self, part: Sheet<'a>) -> Result<(), Needed>
        ensures { spec.Leaves result self.new
            (spec.put part.entry.out (record { out = self.old.out; left = part.entry.left })) }
    {
        self.text.push_str(part.text.as_str())?;
        self.unread = part.unread;
        Ok(())
    }

    /// So many reads were not looked at.
    pub fn unread(&self) -> usize
        ensures { result ≡ length self.now.left }
    {
        self.unread.len()
    }

    pub fn alloc(&self) -> Global {
        self.alloc
    }

    pub fn into_text(self) -> String
        ensures { string_bytes result ≡ self.entry.out }
    {
        self.text
    }

    pub fn put(&mut self, text: &str) -> Result<(), Needed>
        ensures { spec.Leaves result self.new (spec.put text.now self.old) }
    {
        self.text.push_str(text)?;
        Ok(())
    }

    #[tactic(auto, unfolding(crate::specs::Escapes::quoted))]
    pub(crate) fn quoted(&mut self, bytes: &[u8]) -> Result<(), Needed>
        ensures { spec.Leaves result self.new (quoted bytes.now self.old) }
    {
        push_quoted(&mut self.text, bytes)?;
        Ok(())
    }

    pub fn decimal(&mut self, n: u64) -> Result<(), Needed>
        ensures { spec.Leaves result self.new (spec.put (decimal n) self.old) }
    {
        write!(self.text, "{n}")?;
        Ok(())
    }

    pub(crate) fn hex(&mut self, n: u64) -> Result<(), Needed>
        ensures { spec.Leaves result self.new (spec.put (codes "0x" ++ digits 16 false n) self.old) }
    {
        write!(self.text, "0x{n:x}")?;
        Ok(())
    }

    pub(crate) fn octal(&mut self, n: u64) -> Result<(), Needed>
        ensures { spec.Leaves result self.new (spec.put (digits 8 false n) self.old) }
    {
        write!(self.text, "{n:o}")?;
        Ok(())
    }

    /// The bytes that were read, or the wish to read them.
    pub fn read(&mut self, address: u64, length: u32) -> Result<&'a [u8], Needed>
        ensures { spec.HasRead result address length self.old self.new }
    {
        match self.unread.split_first() {
            Some((bytes, rest)) => {
                self.unread = rest;
                Ok(bytes.as_slice())
            }
            None => Err(Needed::Wants { address, length }),
        }
    }
}
