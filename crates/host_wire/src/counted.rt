//! Readers and writers of std as ends of a stream.

ghost use Rattle.std.specs.Prelude.{◌≡◌, ◌≤◌, [], length, IfOk, OnOk, OnErr};
ghost use Rattle.std.specs.Io.KnownBytes.{Appends, Keeps, ReadConsumes};
ghost use Rattle.host_wire.specs.Ends.{AppendsPart};

use crate::ends::{Broken, Sink, Source};
use history::History;
use std::io::{self, ErrorKind, Read, Write};

/// A reader or writer of std that counts its failure, and fails for good once it has. What a signal interrupts is no
/// failure. Behind each put what the writer kept back goes out.
#[derive(Drop)]
pub struct Counted<T> {
    inner: T,
    broken: bool,
    /// How many bytes each read gave, or each put was of.
    calls: History<usize>,
}

impl<T> Counted<T> {
    ghost use Rattle.host_wire.specs.Counting.{calls_of, faults_of, inner_of};

    pub fn new(inner: T) -> Self
        ensures inner { inner_of result ≡ inner }
        ensures whole { faults_of result ≡ 0 }
        ensures unread { calls_of result ≡ [] }
    {
        Counted {
            inner,
            broken: false,
            calls: History::new(),
        }
    }

    pub fn get_ref(&self) -> &T
        ensures { result.now ≡ inner_of self.now }
    {
        &self.inner
    }

    pub fn into_inner(self) -> T
        ensures { result ≡ inner_of self }
    {
        self.inner
    }
}

/// Reads some bytes. A read that a signal interrupts is made again.
fn read_again<R: Read>(reader: &mut R, into: &mut [u8]) -> Result<usize, Broken>
    ensures within { IfOk result (λ n. n ≤ length into.old) }
    ensures bytes { ReadConsumes (R.remaining reader.old) (R.remaining reader.new) result into.new }
{
    for _ in 0..u64::MAX {
        match reader.read(into) {
            Ok(count) => return Ok(count),
            Err(fault) => {
                if fault.kind() != ErrorKind::Interrupted {
                    return Err(Broken);
                }
            }
        }
    }
    Err(Broken)
}

impl<R: Read> Source for Counted<R> {
    ghost use Rattle.host_wire.specs.Counting.{input_of};

    ghost input = { λ c. input_of R.remaining c };

    fn read(&mut self, into: &mut [u8]) -> Result<usize, Broken> {
        if self.broken {
            self.calls = self.calls.and(&0);
            return Err(Broken);
        }
        match read_again(&mut self.inner, into) {
            Ok(count) => {
                self.calls = self.calls.and(&count);
                Ok(count)
            }
            Err(Broken) => {
                self.broken = true;
                self.calls = self.calls.and(&0);
                Err(Broken)
            }
        }
    }

    fn faults(&self) -> u64 {
        if self.broken { 1 } else { 0 }
    }
}

/// Writes all of the bytes, which the writer may keep back. A write that a signal interrupts is made again.
#[inline(always)]
pub fn write_whole<W: Write>(writer: &mut W, bytes: &[u8]) -> Result<(), Broken>
    ensures whole { OnOk result (Appends (W.contents writer.old) (W.contents writer.new) bytes.now) }
    ensures part { OnErr result (AppendsPart (W.contents writer.old) (W.contents writer.new) bytes.now) }
{
    let mut rest = bytes;
    for _ in 0..u64::MAX {
        if rest.is_empty() {
            return Ok(());
        }
        match writer.write(rest) {
            Ok(0) => return Err(Broken),
            Ok(count) => rest = &rest[count..],
            Err(fault) => {
                if fault.kind() != ErrorKind::Interrupted {
                    return Err(Broken);
                }
            }
        }
    }
    Err(Broken)
}

/// Hands on what was kept back, where a flush has failed so. One that a signal interrupts is made again.
#[cold]
#[inline(never)]
fn flush_after<W: Write>(writer: &mut W, fault: io::Error) -> Result<(), Broken>
    ensures { Keeps (W.contents writer.old) (W.contents writer.new) }
{
    let mut last = fault;
    for _ in 0..u64::MAX {
        if last.kind() != ErrorKind::Interrupted {
            return Err(Broken);
        }
        match writer.flush() {
            Ok(()) => return Ok(()),
            Err(fault) => last = fault,
        }
    }
    Err(Broken)
}

/// Hands on what was kept back.
#[inline(always)]
fn flush<W: Write>(writer: &mut W) -> Result<(), Broken>
    ensures { Keeps (W.contents writer.old) (W.contents writer.new) }
{
    match writer.flush() {
        Ok(()) => Ok(()),
        Err(fault) => flush_after(writer, fault),
    }
}

/// Writes all of the bytes, and hands on what was kept back.
#[inline(always)]
fn write_out<W: Write>(writer: &mut W, bytes: &[u8]) -> Result<(), Broken>
    ensures whole { OnOk result (Appends (W.contents writer.old) (W.contents writer.new) bytes.now) }
    ensures part { OnErr result (AppendsPart (W.contents writer.old) (W.contents writer.new) bytes.now) }
{
    if bytes.is_empty() {
        return flush(writer);
    }
    match write_whole(writer, bytes) {
        Ok(()) => flush(writer),
        Err(Broken) => Err(Broken),
    }
}

impl<W: Write> Sink for Counted<W> {
    ghost use Rattle.host_wire.specs.Counting.{calls_of, faults_of, inner_of};

    ghost contents = { λ c. W.contents (inner_of c) };

    ghost puts = { λ c. calls_of c };

    ghost broken = { λ c. faults_of c };

    #[inline(always)]
    fn put(&mut self, bytes: &[u8]) -> Result<(), Broken> {
        self.calls = self.calls.and(&bytes.len());
        if self.broken {
            return Err(Broken);
        }
        match write_out(&mut self.inner, bytes) {
            Ok(()) => Ok(()),
            Err(Broken) => {
                self.broken = true;
                Err(Broken)
            }
        }
    }

    fn faults(&self) -> u64 {
        if self.broken { 1 } else { 0 }
    }
}
