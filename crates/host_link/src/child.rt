//! A link to a host that runs as a process of its own.

ghost use Rattle.std.specs.Prelude.{◌≡◌, ◌⊎◌, ◌^◌, false, Err, IfOk, IfErr};
ghost use Rattle.host_link.specs.PipeLinks.{faults_of, given_of, most_of, waits_of};

use crate::fault::LinkFault;
use crate::link::Link;
use crate::pipe::PipeLink;
use crate::streams::{Replies, Requests, Streams};
use host_wire::Counted;
use lx_abi::{Reply, Request};
use std::alloc::Global;
use std::io;
use std::io::{BufReader, ErrorKind, Read, Write};
use std::process::{Child, Command, OpenProcess, Processes, Stdio};

/// The word by which a host is told to serve.
const SERVE: &str = "serve";

/// Starts the host, with its standard input and output as pipes, and its standard error where that is heard.
fn spawn<R: Processes + AllocGlobal>(
    rt: &R,
    path: &str,
    words: &[&str],
    is_heard: bool,
) -> io::Result<Child<R::Started>> {
    let mut command = Command::new(rt.alloc(), path)?;
    command.arg(SERVE)?;
    for word in words.iter().copied() {
        command.arg(word)?;
    }
    command.stdin(Stdio::piped());
    command.stdout(Stdio::piped());
    if is_heard {
        command.stderr(Stdio::piped());
    }
    command.spawn(rt)
}

fn fault_of(error: io::Error) -> LinkFault
    ensures { (result ≡ LinkFault.Ended) ⊎ (result ≡ LinkFault.Memory) }
{
    match error.kind() {
        ErrorKind::OutOfMemory => LinkFault::Memory,
        _ => LinkFault::Ended,
    }
}

/// A link over the streams of a host. One read of the replies takes what is there, so that a short one needs no second.
fn link_over<O: Read + Drop, E: Read + Drop, I: Write + Drop>(
    alloc: Global,
    replies: Replies<O, E>,
    requests: Requests<I>,
) -> Result<PipeLink<Counted<BufReader<Replies<O, E>>>, Counted<Requests<I>>>, LinkFault>
    ensures given { IfOk result (λ link. given_of link ≡ 0) }
    ensures whole { IfOk result (λ link. faults_of link ≡ 0) }
    ensures most { IfOk result (λ link. most_of link ≡ 2 ^ 32) }
    ensures idle { IfOk result (λ link. waits_of link ≡ false) }
    ensures fault { IfErr result (λ fault. fault ≡ LinkFault.Memory) }
{
    let Ok(replies) = BufReader::new(alloc, replies) else {
        return Err(LinkFault::Memory);
    };
    match PipeLink::new(alloc, Counted::new(replies), Counted::new(requests)) {
        Ok(pipe) => Ok(pipe),
        Err(_) => Err(LinkFault::Memory),
    }
}

/// Waits for the end of a process, which may be killed.
fn end<P: OpenProcess + Drop>(mut child: Child<P>, kills: bool) {
    if kills {
        let _ = child.kill();
    }
    let _ = child.wait();
}

/// What a host leaves.
#[derive(Drop)]
pub struct Left {
    /// It gave no reply, or took no request, for as long as it was waited for.
    pub is_late: bool,
    /// The first bytes of what it has said on its standard error, where that was heard.
    pub said: Vec<u8>,
}

/// Closes the streams of a process, and waits for its end. It is killed before where that is asked for, and where it
/// stays for longer than it is waited for.
fn leave<P: OpenProcess + Drop>(
    alloc: Global,
    mut replies: Replies<P::Stdout, P::Stderr>,
    requests: Requests<P::Stdin>,
    child: Child<P>,
    kills: bool,
) -> Left {
    let is_late = replies.is_late() || requests.is_late();
    drop(requests);
    replies.hear();
    let kills = kills || replies.stay();
    let said = replies.into_said(alloc);
    end(child, kills);
    Left { is_late, said }
}

/// A link to a host that runs as a process of its own.
///
/// Where it is dropped its streams are closed and the process's end is waited for. A process that gave cause for a
/// fault, or whose reply nobody will read, or that stays for longer than it is waited for, is killed before.
pub struct ChildLink<P: OpenProcess + Drop> {
    alloc: Global,
    pipe: PipeLink<Counted<BufReader<Replies<P::Stdout, P::Stderr>>>, Counted<Requests<P::Stdin>>>,
    child: Child<P>,
}

impl<P: OpenProcess + Drop> ChildLink<P> {
    ghost use Rattle.host_link.specs.Children.{pipe_of};
    ghost use Rattle.host_link.specs.declared.fault.LinkFault.TheVariants.{Ended, Memory};

    /// A link to a process over these streams.
    fn over(
        alloc: Global,
        child: Child<P>,
        replies: Replies<P::Stdout, P::Stderr>,
        requests: Requests<P::Stdin>,
    ) -> Result<Self, LinkFault>
        ensures given { IfOk result (λ link. given_of (pipe_of link) ≡ 0) }
        ensures whole { IfOk result (λ link. faults_of (pipe_of link) ≡ 0) }
        ensures most { IfOk result (λ link. most_of (pipe_of link) ≡ 2 ^ 32) }
        ensures idle { IfOk result (λ link. waits_of (pipe_of link) ≡ false) }
        ensures fault { IfErr result (λ fault. fault ≡ Memory) }
    {
        match link_over(alloc, replies, requests) {
            Ok(pipe) => Ok(ChildLink { alloc, pipe, child }),
            Err(fault) => {
                end(child, true);
                Err(fault)
            }
        }
    }

    /// Starts a host: the program at this path, with the word `serve` and then these. Ended where it can't be started.
    /// Its standard error is that of this process.
    pub fn start<R: Processes<Started = P> + AllocGlobal>(
        rt: &R,
        path: &str,
        words: &[&str],
    ) -> Result<Self, LinkFault>
        ensures given { IfOk result (λ link. given_of (pipe_of link) ≡ 0) }
        ensures whole { IfOk result (λ link. faults_of (pipe_of link) ≡ 0) }
        ensures most { IfOk result (λ link. most_of (pipe_of link) ≡ 2 ^ 32) }
        ensures idle { IfOk result (λ link. waits_of (pipe_of link) ≡ false) }
        ensures fault { IfErr result (λ fault. (fault ≡ Ended) ⊎ (fault ≡ Memory)) }
    {
        let mut child = match spawn(rt, path, words, false) {
            Ok(child) => child,
            Err(error) => return Err(fault_of(error)),
        };
        let (Some(replies), Some(requests)) = (child.stdout.take(), child.stdin.take()) else {
            end(child, true);
            return Err(LinkFault::Ended);
        };
        let replies = Replies::new(replies);
        Self::over(rt.alloc(), child, replies, Requests::new(requests))
    }

    /// Starts a host whose standard error is heard, and which is waited for so many milliseconds, or without a limit:
    /// one that says nothing for longer is taken for one that has ended.
    pub fn start_heard<R: Processes<Started = P> + AllocGlobal>(
        rt: &R,
        path: &str,
        words: &[&str],
        limit: Option<u32>,
    ) -> Result<Self, LinkFault>
    where
        P: Streams,
        ensures given { IfOk result (λ link. given_of (pipe_of link) ≡ 0) }
        ensures whole { IfOk result (λ link. faults_of (pipe_of link) ≡ 0) }
        ensures most { IfOk result (λ link. most_of (pipe_of link) ≡ 2 ^ 32) }
        ensures idle { IfOk result (λ link. waits_of (pipe_of link) ≡ false) }
        ensures fault { IfErr result (λ fault. (fault ≡ Ended) ⊎ (fault ≡ Memory)) }
    {
        let mut child = match spawn(rt, path, words, true) {
            Ok(child) => child,
            Err(error) => return Err(fault_of(error)),
        };
        let (Some(replies), Some(requests), Some(said)) = (
            child.stdout.take(),
            child.stdin.take(),
            child.stderr.take(),
        ) else {
            end(child, true);
            return Err(LinkFault::Ended);
        };
        let numbers = (P::replies(&replies), P::said(&said));
        let number = P::requests(&requests);
        let replies = Replies::heard(rt.alloc(), replies, said, numbers, limit);
        Self::over(
            rt.alloc(),
            child,
            replies,
            Requests::within(requests, number, limit),
        )
    }

    /// Ends the link as a drop does, and tells what the host leaves.
    pub fn leave(self) -> Left {
        let ChildLink { alloc, pipe, child } = self;
        let kills = pipe.faults() != 0 || pipe.waits();
        let (replies, requests) = pipe.into_parts();
        let replies = replies.into_inner().into_inner();
        leave(alloc, replies, requests.into_inner(), child, kills)
    }
}

impl<P: OpenProcess + Drop> Drop for ChildLink<P> {
    fn drop(self) {
        let ChildLink { alloc, pipe, child } = self;
        let kills = pipe.faults() != 0 || pipe.waits();
        let (replies, requests) = pipe.into_parts();
        let replies = replies.into_inner().into_inner();
        let _left = leave(alloc, replies, requests.into_inner(), child, kills);
    }
}

impl<P: OpenProcess + Drop> Link for ChildLink<P> {
    ghost use Rattle.std.specs.Io.Buffered.{reader_remaining};
    ghost use Rattle.host_wire.specs.Counting.{calls_of, faults_of as faults_of_end, input_of, inner_of};
    ghost use Rattle.host_link.specs.Children.{pipe_of};
    ghost use Rattle.host_link.specs.PipeLinks.{Asks, waits_of};
    ghost use Rattle.host_link.specs.Streams.{left_in, taken_by};

    ghost answers = { λ a q r b.
        Asks (λ e. input_of (λ out. reader_remaining (λ r. left_in P.Stdout.remaining r) out) e)
        (λ e. taken_by P.Stdin.contents (inner_of e)) (λ e. calls_of e) (λ e. faults_of_end e) (pipe_of a) q r
        (pipe_of b) };

    ghost given = { λ l. given_of (pipe_of l) };

    ghost broken = { λ l. faults_of (pipe_of l) };

    ghost waits = { λ l. waits_of (pipe_of l) };

    fn call(&mut self, request: Request) -> Result<Reply, LinkFault> {
        self.pipe.call(request)
    }

    fn call_before_wait(&mut self, request: Request) -> Result<Reply, LinkFault> {
        self.pipe.call_before_wait(request)
    }

    fn asked(&self) -> u64 {
        self.pipe.asked()
    }

    fn faults(&self) -> u64 {
        self.pipe.faults()
    }
}
