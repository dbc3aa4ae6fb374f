//! A link over a reader and a writer.

ghost use Rattle.std.specs.Prelude.{◌≡◌, ◌+◌, ◌-◌, ◌<◌, ◌≤◌, ◌^◌, ◌&&◌, true, false, not, length, vec_len, is_ok};
ghost use Rattle.std.specs.Prelude.{if◌then◌else◌, Err, IfErr, IfOk, OnOk};
ghost use Rattle.host_frame.specs.Spelling.{CanBeSpelled, CannotBeSpelled};
ghost use Rattle.host_wire.specs.Streams.{nothing_fed};
ghost use Rattle.host_link.specs.Pipes as spec;
ghost use Rattle.host_link.specs.Pipes.{Came, Exchanged, SentAs};

use crate::fault::LinkFault;
use crate::fits::answers;
use crate::link::{Link, MOST_REPLIES};
use host_wire::{
    Broken, Feed, Frame, MOST_READS, Payload, ReceiveFault, Sink, Source, WireFault, encode,
    receive,
};
use lx_abi::{Reply, Request};
use std::alloc::{AllocError, Global};

fn fault_of(fault: ReceiveFault) -> LinkFault
    ensures { result ≡ spec.fault_of fault }
{
    match fault {
        ReceiveFault::Read => LinkFault::Read,
        ReceiveFault::Wire(WireFault::Memory) => LinkFault::Memory,
        ReceiveFault::Wire(WireFault::Length | WireFault::Kind | WireFault::Payload) =>
            LinkFault::Malformed,
    }
}

/// The bytes of a request's frame, and of Wait's behind it where that goes ahead.
fn bytes_of(alloc: Global, frame: &Frame, ahead: bool) -> Result<Vec<u8>, WireFault>
    requires { frame.now.number < 2 ^ 64 - 1 }
    ensures bytes { IfOk result (λ bytes. bytes.items ≡ spec.bytes_of frame.now ahead) }
    ensures fits { IfOk result (λ _. CanBeSpelled frame.now) }
    ensures fault { IfErr result (λ fault. CannotBeSpelled frame.now fault) }
{
    let mut bytes = match encode(alloc, frame) {
        Ok(bytes) => bytes,
        Err(fault) => return Err(fault),
    };
    if !ahead {
        return Ok(bytes);
    }
    let wait = Frame {
        number: frame.number + 1,
        body: Payload::Request(Request::Wait),
    };
    // Its frame is a short one.
    let Ok(more) = encode(alloc, &wait) else {
        return Err(WireFault::Memory);
    };
    match bytes.extend_from_slice(more.as_slice()) {
        Ok(()) => Ok(bytes),
        Err(_) => Err(WireFault::Memory),
    }
}

fn send<W: Sink>(alloc: Global, writer: &mut W, frame: &Frame, ahead: bool) -> Result<(), LinkFault>
    requires { frame.now.number < 2 ^ 64 - 1 }
    ensures { SentAs result frame.now ahead (W.contents writer.old) (W.contents writer.new) (W.puts writer.old)
        (W.puts writer.new) (W.broken writer.new) }
{
    let bytes = match bytes_of(alloc, frame, ahead) {
        Ok(bytes) => bytes,
        Err(WireFault::Memory) => return Err(LinkFault::Memory),
        Err(WireFault::Length | WireFault::Kind | WireFault::Payload) => return Err(
            LinkFault::Malformed,
        ),
    };
    match writer.put(bytes.as_slice()) {
        Ok(()) => Ok(()),
        Err(Broken) => Err(LinkFault::Write),
    }
}

/// The reply in the body of a frame, if it answers the body that was sent.
fn reply_of(sent: &Payload, body: Payload) -> Result<Reply, LinkFault>
    ensures { result ≡ spec.reply_of sent.now body }
{
    match (sent, body) {
        (Payload::Request(request), Payload::Reply(reply)) => {
            if answers(request, &reply) {
                Ok(reply)
            } else {
                Err(LinkFault::Inadmissible)
            }
        }
        (Payload::Request(_), Payload::Request(_)) => Err(LinkFault::Inadmissible),
        (Payload::Reply(_), _) => Err(LinkFault::Inadmissible),
    }
}

fn reply_in(sent: &Frame, frame: Frame) -> Result<Reply, LinkFault>
    ensures { result ≡ spec.reply_in sent.now frame }
{
    if frame.number != sent.number {
        return Err(LinkFault::Sequence);
    }
    reply_of(&sent.body, frame.body)
}

/// Reads the next frame, by so many reads at most and no byte behind it, for the reply to what was sent.
fn receive_reply<R: Source>(
    reader: &mut R,
    feed: &mut Feed,
    room: &mut [u8],
    most: u64,
    sent: &Frame,
) -> Result<Reply, LinkFault>
    requires room { 0 < length room.old }
    requires fresh { feed.old ≡ nothing_fed }
    ensures came { Came most (R.input reader.old) result sent.now (R.input reader.new) }
    ensures no_further { OnOk result (feed.new ≡ nothing_fed) }
{
    let frame = match receive(reader, feed, room, most) {
        Ok(Some(frame)) => frame,
        Ok(None) => return Err(LinkFault::Ended),
        Err(fault) => return Err(fault_of(fault)),
    };
    reply_in(sent, frame)
}

/// Sends a request's frame, and Wait's behind it where that goes ahead, and reads its reply.
pub(crate) fn exchange<R: Source, W: Sink>(
    alloc: Global,
    reader: &mut R,
    writer: &mut W,
    feed: &mut Feed,
    room: &mut [u8],
    most: u64,
    sent: &Frame,
    ahead: bool,
) -> Result<Reply, LinkFault>
    requires room { 0 < length room.old }
    requires fresh { feed.old ≡ nothing_fed }
    requires number { sent.now.number < 2 ^ 64 - 1 }
    ensures exchanged { Exchanged most sent.now ahead (R.input reader.old) (R.input reader.new) (W.contents writer.old)
        (W.contents writer.new) (W.puts writer.old) (W.puts writer.new) result (W.broken writer.new) }
    ensures no_further { OnOk result (feed.new ≡ nothing_fed) }
{
    match send(alloc, writer, sent, ahead) {
        Ok(()) => receive_reply(reader, feed, room, most, sent),
        Err(fault) => Err(fault),
    }
}

/// How many bytes are read at a time, at most.
const ROOM: usize = 65_536;

/// A link over a reader and a writer, whose other ends a host has.
#[derive(Drop)]
pub struct PipeLink<R, W> {
    alloc: Global,
    reader: R,
    writer: W,
    feed: Feed,
    room: Vec<u8>,
    /// How many reads a frame may take.
    most: u64,
    given: u64,
    is_broken: bool,
    /// Wait was sent behind the last request.
    waits: bool,
    ghost fresh: { is_broken ≡ false → feed ≡ nothing_fed },
    ghost roomy: { 0 < vec_len room },
    ghost few: { given ≤ 2 ^ 40 },
}

impl<R: Source, W: Sink> PipeLink<R, W> {
    ghost use Rattle.host_link.specs.PipeLinks.{reader_of, writer_of, most_of, given_of, is_broken_of, waits_of};

    /// A link that gives its reader up after 2^32 reads without a whole frame.
    pub fn new(alloc: Global, reader: R, writer: W) -> Result<Self, AllocError>
    where
        R: Drop,
        W: Drop,
        ensures reader { IfOk result (λ link. reader_of link ≡ reader) }
        ensures writer { IfOk result (λ link. writer_of link ≡ writer) }
        ensures most { IfOk result (λ link. most_of link ≡ 2 ^ 32) }
        ensures given { IfOk result (λ link. given_of link ≡ 0) }
        ensures whole { IfOk result (λ link. is_broken_of link ≡ false) }
        ensures idle { IfOk result (λ link. waits_of link ≡ false) }
    {
        Self::bounded(alloc, reader, writer, MOST_READS)
    }

    /// A link that gives its reader up after so many reads, from 1 to 2^32, without a whole frame.
    pub fn bounded(alloc: Global, reader: R, writer: W, most: u64) -> Result<Self, AllocError>
    where
        R: Drop,
        W: Drop,
        requires some { 1 ≤ most }
        requires few { most ≤ 2 ^ 32 }
        ensures reader { IfOk result (λ link. reader_of link ≡ reader) }
        ensures writer { IfOk result (λ link. writer_of link ≡ writer) }
        ensures most { IfOk result (λ link. most_of link ≡ most) }
        ensures given { IfOk result (λ link. given_of link ≡ 0) }
        ensures whole { IfOk result (λ link. is_broken_of link ≡ false) }
        ensures idle { IfOk result (λ link. waits_of link ≡ false) }
    {
        let room = Vec::from_elem(alloc, 0u8, ROOM)?;
        Ok(PipeLink {
            alloc,
            reader,
            writer,
            feed: Feed::new(alloc),
            room,
            most,
            given: 0,
            is_broken: false,
            waits: false,
        })
    }
}

fn is_wait(request: &Request) -> bool
    ensures { result ≡ spec.is_wait request.now }
{
    match request {
        Request::Wait => true,
        Request::Boot { .. } | Request::To { .. } | Request::Outcome => false,
    }
}

impl<R: Source, W: Sink> PipeLink<R, W> {
    ghost use Rattle.host_link.specs.PipeLinks.{Asks, KeepsCounts, RepliedTo, given_of, faults_of, waits_of};
    ghost use Rattle.host_link.specs.declared.fault.LinkFault.TheVariants.{Ended, TooMany};

    /// The reply to a Wait that was sent ahead is still to come.
    pub(crate) fn waits(&self) -> bool
        ensures { result ≡ waits_of self.now }
    {
        self.waits
    }

    /// The reader and the writer.
    pub(crate) fn into_parts(self) -> (R, W) {
        (self.reader, self.writer)
    }

    /// The reply to a frame that is sent now, with Wait's behind it where that goes ahead; or was sent before.
    fn reply_to(&mut self, sent: &Frame, ahead: bool) -> Result<Reply, LinkFault>
        requires broken { faults_of self.old ≡ 1 }
        requires fresh { self.old.feed ≡ nothing_fed }
        requires number { sent.now.number ≤ 2 ^ 40 }
        ensures replied { RepliedTo R.input W.contents W.puts W.broken self.old sent.now ahead result self.new }
        ensures kept { KeepsCounts self.old self.new }
        ensures no_further { OnOk result (self.new.feed ≡ nothing_fed) }
    {
        if self.waits {
            return receive_reply(
                &mut self.reader,
                &mut self.feed,
                self.room.as_mut_slice(),
                self.most,
                sent,
            );
        }
        exchange(
            self.alloc,
            &mut self.reader,
            &mut self.writer,
            &mut self.feed,
            self.room.as_mut_slice(),
            self.most,
            sent,
            ahead,
        )
    }

    /// Asks a request, with Wait sent behind it where that goes ahead.
    fn ask(&mut self, request: Request, ahead: bool) -> Result<Reply, LinkFault>
        ensures asks { Asks R.input W.contents W.puts W.broken self.old request result self.new }
        ensures counted { given_of self.new ≡ given_of self.old + (if is_ok result then 1 else 0) }
        ensures within { OnOk result (given_of self.new ≤ 2 ^ 40) }
        ensures too_many { result ≡ Err TooMany → given_of self.old ≡ 2 ^ 40 }
        ensures full { given_of self.old ≡ 2 ^ 40 → faults_of self.old ≡ 0 → result ≡ Err TooMany }
        ensures faults { faults_of self.new ≡ (if is_ok result then faults_of self.old else 1) }
        ensures for_good { faults_of self.old ≡ 1 → result ≡ Err Ended }
        ensures alone { OnOk result (waits_of self.new ≡ (ahead && not (waits_of self.old))) }
    {
        if self.is_broken {
            return Err(LinkFault::Ended);
        }
        // Broken until the reply is there, since a fault may leave a part of a frame in the feed.
        self.is_broken = true;
        if self.given >= MOST_REPLIES {
            return Err(LinkFault::TooMany);
        }
        if self.waits && !is_wait(&request) {
            return Err(LinkFault::Ended);
        }
        let sent = Frame {
            number: self.given + 1,
            body: Payload::Request(request),
        };
        let reply = self.reply_to(&sent, ahead)?;
        self.given += 1;
        self.is_broken = false;
        self.waits = ahead && !self.waits;
        Ok(reply)
    }
}

impl<R: Source, W: Sink> Link for PipeLink<R, W> {
    ghost use Rattle.host_link.specs.PipeLinks.{Asks, given_of, faults_of, waits_of};
    ghost use Rattle.host_link.specs.declared.fault.LinkFault.TheVariants.{Ended, TooMany};

    ghost answers = { λ a q r b. Asks R.input W.contents W.puts W.broken a q r b };

    ghost given = { λ l. given_of l };

    ghost broken = { λ l. faults_of l };

    ghost waits = { λ l. waits_of l };

    fn call(&mut self, request: Request) -> Result<Reply, LinkFault> {
        self.ask(request, false)
    }

    fn call_before_wait(&mut self, request: Request) -> Result<Reply, LinkFault>
        ensures answered { Asks R.input W.contents W.puts W.broken self.old request result self.new }
        ensures counted { given_of self.new ≡ given_of self.old + (if is_ok result then 1 else 0) }
        ensures within { OnOk result (given_of self.new ≤ 2 ^ 40) }
        ensures too_many { result ≡ Err TooMany → given_of self.old ≡ 2 ^ 40 }
        ensures full { given_of self.old ≡ 2 ^ 40 → faults_of self.old ≡ 0 → result ≡ Err TooMany }
        ensures faults { faults_of self.new ≡ (if is_ok result then faults_of self.old else 1) }
        ensures for_good { faults_of self.old ≡ 1 → result ≡ Err Ended }
        ensures ahead { OnOk result
            (waits_of self.old ≡ false → given_of self.new < 2 ^ 40 → waits_of self.new ≡ true) }
    {
        self.ask(request, self.given < MOST_REPLIES - 1)
    }

    fn asked(&self) -> u64 {
        self.given
    }

    fn faults(&self) -> u64 {
        u64::from(self.is_broken)
    }
}
