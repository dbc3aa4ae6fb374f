//! Input that is looked at while a request is served, so that its end is noticed.

use libc::net::{POLLIN, poll};
use libc::types::pollfd;
use std::alloc::Global;
use std::io::{self, BufRead, BufReader, ErrorKind, Read};
use std::os::fd::RawFd;
use std::os::unix::process::parent_id;
use std::rt::Process;
use std::sync::{Arc, Condvar, Mutex, Wait};
use std::thread;
use std::time::{Clock, Duration};

/// How long a request is served before the input is looked at, and how long the host then has to end by itself.
const PAUSE: u64 = 250;

/// The input, and how often it was read.
#[derive(Drop)]
struct Watched<I> {
    input: BufReader<I>,
    reads: u64,
}

impl<I: Read> Read for Watched<I> {
    fn read(&mut self, buf: &mut [u8]) -> io::Result<usize> {
        self.reads = self.reads.wrapping_add(1);
        self.input.read(buf)
    }
}

impl<I: Read> Watched<I> {
    /// Waits until there is input. It has ended, or can't be read.
    fn has_ended(&mut self) -> bool {
        match self.input.fill_buf() {
            Ok(bytes) => bytes.is_empty(),
            Err(error) => error.kind() != ErrorKind::Interrupted,
        }
    }
}

/// What the threads of a host share: the input, and the status with which the host ends.
#[derive(Drop)]
pub struct Shared<I> {
    input: Mutex<Watched<I>>,
    status: Mutex<Option<u8>>,
    has_ended: Condvar,
}

impl<I: Read + Drop> Shared<I> {
    pub fn new(alloc: Global, input: I) -> io::Result<Arc<Self, Global>> {
        let input = BufReader::new(alloc, input)?;
        let shared = Arc::new(
            alloc,
            Shared {
                input: Mutex::new(Watched { input, reads: 0 }),
                status: Mutex::new(None),
                has_ended: Condvar::new(),
            },
        )?;
        Ok(shared)
    }
}

impl<I> Shared<I> {
    /// The host ends with this status.
    pub fn end<R: Wait>(&self, rt: &R, status: u8) {
        let mut ended = self.status.lock(rt);
        *ended = Some(status);
        drop(ended);
        self.has_ended.notify_all();
    }

    /// Waits until the host ends, and gives its status.
    pub fn wait<R: Wait>(&self, rt: &R) -> u8 {
        let ended = self
            .has_ended
            .wait_while(rt, self.status.lock(rt), |status| status.is_none());
        ended.unwrap_or(0)
    }
}

/// The input as the thread reads it that serves.
#[derive(Drop)]
pub struct Requested<I, R> {
    rt: R,
    shared: Arc<Shared<I>, Global>,
}

impl<I, R> Requested<I, R> {
    pub fn new(rt: R, shared: Arc<Shared<I>, Global>) -> Self {
        Requested { rt, shared }
    }
}

impl<I: Read, R: Wait> Read for Requested<I, R> {
    fn read(&mut self, buf: &mut [u8]) -> io::Result<usize> {
        let mut watched = self.shared.input.lock(&self.rt);
        watched.read(buf)
    }
}

/// What a look at the input tells.
#[derive(Clone, Copy, Debug, PartialEq, Eq)]
enum Look {
    /// The tracer is there, or nothing is known of it.
    There,
    /// The input had ended already.
    Ended,
    /// The input was waited for, and ended.
    Gone,
}

/// The input of this number has bytes, or has ended: it isn't waited for.
fn is_ready(input: RawFd) -> bool {
    let mut looked = [pollfd {
        fd: input,
        events: POLLIN,
        revents: 0,
    }];
    poll(&mut looked, 0) != 0
}

/// Looks at the input of this number where it wasn't read since the last look, when it had been read so often.
fn look_at<I: Read>(input: RawFd, shared: &Shared<I>, seen: &mut u64) -> Look {
    let Some(mut watched) = shared.input.try_lock() else {
        return Look::There;
    };
    let watched = &mut *watched;
    if watched.reads != *seen {
        *seen = watched.reads;
        return Look::There;
    }
    let is_ready = is_ready(input);
    if !watched.has_ended() {
        return Look::There;
    }
    if is_ready { Look::Ended } else { Look::Gone }
}

/// Looks at the input of this number again and again, and ends the host with this status where the tracer is gone in
/// the middle of a request: the input is waited for, and ends; or it has ended, and the process that started this one
/// has, too. What ends before that with all its requests has an answer to each.
pub fn watch<I: Read, R: Wait + Clock>(
    rt: &R,
    process: Process,
    input: RawFd,
    shared: &Shared<I>,
    status: u8,
) {
    let parent = parent_id(process);
    let mut seen = 0;
    for _ in rt.forever() {
        thread::sleep(rt, Duration::from_millis(PAUSE));
        let is_gone = match look_at(input, shared, &mut seen) {
            Look::There => false,
            Look::Ended => parent_id(process) != parent,
            Look::Gone => true,
        };
        if is_gone {
            thread::sleep(rt, Duration::from_millis(PAUSE));
            shared.end(rt, status);
            return;
        }
    }
}
