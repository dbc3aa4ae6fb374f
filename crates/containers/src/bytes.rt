//! Bytes, as clauses see them.

ghost use Rattle.std.specs.Prelude.{◌≡◌, ◌++◌, [], length, ◌↔◌, IsTrue, OnOk, OnErr, IfOk, ◌+◌, ◌-◌, ◌≤◌, take, drop, replicate};

use std::alloc::{AllocError, Global};
use std::marker::Model;

/// A growable run of bytes, which contracts see as the list of them.
#[derive(Debug, Drop)]
pub struct Bytes {
    items: Vec<u8>,
}

impl Model for Bytes {
    ghost use Rattle.std.specs.Prelude.{ℕ, List};

    ghost Value = { List ℕ };

    ghost view = { λ b. b.items.items };
}

impl Bytes {
    pub fn new(alloc: Global) -> Self
        ensures { result ≡ [] }
    {
        Bytes {
            items: Vec::new(alloc),
        }
    }

    pub fn from_vec(items: Vec<u8>) -> Self
        ensures { result ≡ items.items }
    {
        Bytes { items }
    }

    pub fn into_vec(self) -> Vec<u8>
        ensures { result.items ≡ self }
    {
        self.items
    }

    /// Copies the bytes of a slice.
    pub fn from_slice(alloc: Global, bytes: &[u8]) -> Result<Self, AllocError>
        ensures { IfOk result (λ b. b ≡ bytes.now) }
    {
        let mut copy = Bytes::new(alloc);
        copy.extend(bytes)?;
        Ok(copy)
    }

    pub fn as_slice(&self) -> &[u8]
        ensures { result.now ≡ self.now }
    {
        self.items.as_slice()
    }

    pub fn len(&self) -> usize
        ensures { result ≡ length self.now }
    {
        self.items.len()
    }

    pub fn is_empty(&self) -> bool
        ensures { IsTrue result ↔ (self.now ≡ []) }
    {
        self.items.is_empty()
    }

    /// Gives all bytes up.
    pub fn clear(&mut self)
        ensures { self.new ≡ [] }
    {
        self.items.clear();
    }

    /// Cuts bytes off the end, or adds zeros.
    pub fn resize(&mut self, len: usize) -> Result<(), AllocError>
        ensures ok { OnOk result (self.new ≡ take len self.old ++ replicate (len - length self.old) 0) }
        ensures err { OnErr result (self.new ≡ self.old) }
    {
        self.items.resize(len, 0)?;
        Ok(())
    }

    /// Puts bytes over those that stand at an offset.
    pub fn put(&mut self, at: usize, bytes: &[u8])
        requires { at + length bytes.now ≤ length self.old }
        ensures { self.new ≡ take at self.old ++ bytes.now ++ drop (at + length bytes.now) self.old }
    {
        self.items[at..at + bytes.len()].copy_from_slice(bytes);
    }

    /// Appends the bytes, all of them or none.
    pub fn extend(&mut self, more: &[u8]) -> Result<(), AllocError>
        ensures ok { OnOk result (self.new ≡ self.old ++ more.now) }
        ensures err { OnErr result (self.new ≡ self.old) }
    {
        self.items.extend_from_slice(more)?;
        Ok(())
    }
}

impl Clone for Bytes {
    ghost is_clone = { λ a b. b ≡ a };

    fn clone(&self) -> Result<Self, AllocError> {
        Ok(Bytes {
            items: self.items.clone()?,
        })
    }
}
