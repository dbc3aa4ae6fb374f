//! Bytes that several may have, as clauses see them.

ghost use Rattle.std.specs.Prelude.{◌≡◌, ◌+◌, ◌^◌, ◌<◌, ◌++◌, ◌-◌, [], length, take, replicate, IfOk, OnOk, OnErr, IsTrue, IsFalse, ◌↔◌};
ghost use Rattle.std.specs.Arc.{arc_value};
ghost use Rattle.containers.specs.Contents.{reaching, written as written_of};

use crate::bytes::Bytes;
use std::alloc::{AllocError, Global};
use std::marker::Model;
use std::sync::Arc;

/// A run of bytes that those who have it share. Who changes it has a copy of its own from then on, where others have
/// it too. Contracts see the list of its bytes.
#[derive(Drop)]
pub struct Content {
    bytes: Arc<Bytes>,
}

impl Model for Content {
    ghost use Rattle.std.specs.Prelude.{ℕ, List};
    ghost use Rattle.std.specs.Arc.{arc_value};

    ghost Value = { List ℕ };

    ghost view = { λ c. arc_value c.bytes };
}

/// The bytes reach to an end at least, with zeros.
fn reach(bytes: &mut Bytes, end: usize) -> Result<(), AllocError>
    ensures ok { OnOk result (bytes.new ≡ reaching end bytes.old) }
    ensures err { OnErr result (bytes.new ≡ bytes.old) }
{
    if bytes.len() < end {
        bytes.resize(end)?;
        return Ok(());
    }
    Ok(())
}

/// Puts bytes over those from an offset on, all of them or none.
fn write(bytes: &mut Bytes, at: usize, more: &[u8]) -> Result<(), AllocError>
    requires { at + length more.now < 2 ^ 64 }
    ensures ok { OnOk result (bytes.new ≡ written_of bytes.old at more.now) }
    ensures err { OnErr result (bytes.new ≡ bytes.old) }
{
    reach(bytes, at + more.len())?;
    bytes.put(at, more);
    Ok(())
}

/// The same where nobody else has them; else they stay.
fn write_alone(bytes: &mut Arc<Bytes>, at: usize, more: &[u8]) -> Result<bool, AllocError>
    requires { at + length more.now < 2 ^ 64 }
    ensures alone { IfOk result (λ done. IsTrue done
        → arc_value bytes.new ≡ written_of (arc_value bytes.old) at more.now) }
    ensures shared { IfOk result (λ done. IsFalse done → arc_value bytes.new ≡ arc_value bytes.old) }
    ensures err { OnErr result (arc_value bytes.new ≡ arc_value bytes.old) }
{
    match Arc::get_mut(bytes) {
        None => Ok(false),
        Some(own) => match write(own, at, more) {
            Ok(()) => Ok(true),
            Err(error) => Err(error),
        },
    }
}

/// A copy with bytes put over those from an offset on.
fn written(alloc: Global, bytes: &[u8], at: usize, more: &[u8]) -> Result<Arc<Bytes>, AllocError>
    requires { at + length more.now < 2 ^ 64 }
    ensures { IfOk result (λ copy. arc_value copy ≡ written_of bytes.now at more.now) }
{
    let mut copy = Bytes::from_slice(alloc, bytes)?;
    write(&mut copy, at, more)?;
    Ok(Arc::new(alloc, copy)?)
}

/// Cuts bytes off the end, or adds zeros, where nobody else has them; else they stay.
fn resize_alone(bytes: &mut Arc<Bytes>, len: usize) -> Result<bool, AllocError>
    ensures alone { IfOk result (λ done. IsTrue done → arc_value bytes.new
        ≡ take len (arc_value bytes.old) ++ replicate (len - length (arc_value bytes.old)) 0) }
    ensures shared { IfOk result (λ done. IsFalse done → arc_value bytes.new ≡ arc_value bytes.old) }
    ensures err { OnErr result (arc_value bytes.new ≡ arc_value bytes.old) }
{
    match Arc::get_mut(bytes) {
        None => Ok(false),
        Some(own) => match own.resize(len) {
            Ok(()) => Ok(true),
            Err(error) => Err(error),
        },
    }
}

/// A copy of so many bytes, zeros among them where some are missing.
fn resized(alloc: Global, bytes: &[u8], len: usize) -> Result<Arc<Bytes>, AllocError>
    ensures { IfOk result (λ copy. arc_value copy ≡ take len bytes.now ++ replicate (len - length bytes.now) 0) }
{
    let mut copy = Bytes::from_slice(alloc, bytes)?;
    copy.resize(len)?;
    Ok(Arc::new(alloc, copy)?)
}

/// Gives all bytes up, where nobody else has them; else they stay.
fn clear_alone(bytes: &mut Arc<Bytes>) -> bool
    ensures alone { IsTrue result → arc_value bytes.new ≡ [] }
    ensures shared { IsFalse result → arc_value bytes.new ≡ arc_value bytes.old }
{
    match Arc::get_mut(bytes) {
        None => false,
        Some(own) => {
            own.clear();
            true
        }
    }
}

impl Content {
    /// No bytes.
    pub fn new(alloc: Global) -> Result<Self, AllocError>
        ensures { IfOk result (λ c. c ≡ []) }
    {
        Content::from_bytes(alloc, Bytes::new(alloc))
    }

    pub fn from_bytes(alloc: Global, bytes: Bytes) -> Result<Self, AllocError>
        ensures { IfOk result (λ c. c ≡ bytes) }
    {
        Ok(Content {
            bytes: Arc::new(alloc, bytes)?,
        })
    }

    /// The same bytes once more, which both have.
    pub fn share(&self) -> Result<Self, AllocError>
        ensures { IfOk result (λ c. c ≡ self.now) }
    {
        Ok(Content {
            bytes: Arc::try_clone(&self.bytes)?,
        })
    }

    pub fn as_slice(&self) -> &[u8]
        ensures { result.now ≡ self.now }
    {
        self.bytes.as_slice()
    }

    pub fn len(&self) -> usize
        ensures { result ≡ length self.now }
    {
        self.as_slice().len()
    }

    pub fn is_empty(&self) -> bool
        ensures { IsTrue result ↔ (self.now ≡ []) }
    {
        self.bytes.is_empty()
    }

    /// Gives all bytes up.
    pub fn clear(&mut self, alloc: Global) -> Result<(), AllocError>
        ensures ok { OnOk result (self.new ≡ []) }
        ensures err { OnErr result (self.new ≡ self.old) }
    {
        if clear_alone(&mut self.bytes) {
            return Ok(());
        }
        let Ok(none) = Arc::new(alloc, Bytes::new(alloc)) else {
            return Err(AllocError);
        };
        self.bytes = none;
        Ok(())
    }

    /// Cuts bytes off the end, or adds zeros.
    pub fn resize(&mut self, alloc: Global, len: usize) -> Result<(), AllocError>
        ensures ok { OnOk result (self.new ≡ take len self.old ++ replicate (len - length self.old) 0) }
        ensures err { OnErr result (self.new ≡ self.old) }
    {
        let Ok(done) = resize_alone(&mut self.bytes, len) else {
            return Err(AllocError);
        };
        if done {
            return Ok(());
        }
        let Ok(copy) = resized(alloc, self.as_slice(), len) else {
            return Err(AllocError);
        };
        self.bytes = copy;
        Ok(())
    }

    /// Puts bytes over those from an offset on, zeros before them where some were missing.
    pub fn write(&mut self, alloc: Global, at: usize, more: &[u8]) -> Result<(), AllocError>
        requires { at + length more.now < 2 ^ 64 }
        ensures ok { OnOk result (self.new ≡ written_of self.old at more.now) }
        ensures err { OnErr result (self.new ≡ self.old) }
    {
        let Ok(done) = write_alone(&mut self.bytes, at, more) else {
            return Err(AllocError);
        };
        if done {
            return Ok(());
        }
        let Ok(copy) = written(alloc, self.as_slice(), at, more) else {
            return Err(AllocError);
        };
        self.bytes = copy;
        Ok(())
    }
}

impl Clone for Content {
    ghost is_clone = { λ a b. b ≡ a };

    fn clone(&self) -> Result<Self, AllocError> {
        self.share()
    }
}
