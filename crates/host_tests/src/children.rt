//! A link to a process of its own, over processes that stand in for a host.

use crate::ends::Pieces;
use crate::frames::{part, stream};
use crate::local::called;
use host_link::{ChildLink, Link};
use std::alloc::{Allocator, Global};
use std::cell::Cell;
use std::io;
use std::io::ErrorKind;
use std::process::{Child, Command, ExitStatus, OpenProcess, Processes, Stdio};
use std::test::Fail;

/// A process that replies what was kept, and tells how often it was killed and waited for.
#[derive(Drop)]
struct Host<'a> {
    kills: &'a Cell<u32>,
    waits: &'a Cell<u32>,
}

impl<'a> OpenProcess for Host<'a> {
    type Stdin = Vec<u8>;

    type Stdout = Pieces<'a>;

    type Stderr = Pieces<'a>;

    fn id(&self) -> u32 {
        7
    }

    fn wait(&mut self) -> io::Result<ExitStatus> {
        self.waits.set(self.waits.get().saturating_add(1));
        Ok(ExitStatus::default())
    }

    fn kill(&mut self) -> io::Result<()> {
        self.kills.set(self.kills.get().saturating_add(1));
        Ok(())
    }
}

/// Starts hosts at `/host`, with the words `serve` and `quiet`.
#[derive(Drop)]
struct Hosts<'a> {
    alloc: Global,
    replies: &'a [u8],
    kills: &'a Cell<u32>,
    waits: &'a Cell<u32>,
}

impl<'a> Alloc for Hosts<'a> {
    type A = Global;

    fn alloc(&self) -> Global {
        self.alloc
    }
}

impl<'a> Processes for Hosts<'a> {
    type Started = Host<'a>;

    fn spawn<B: Allocator + Clone>(
        &self,
        command: &Command<B>,
        stdin: &Stdio,
        stdout: &Stdio,
        stderr: &Stdio,
    ) -> io::Result<Child<Host<'a>>> {
        let mut words = command.get_args();
        let called = command.get_program() == "/host"
            && words.next() == Some("serve")
            && words.next() == Some("quiet")
            && words.next().is_none();
        if !called || !stdin.makes_pipe() || !stdout.makes_pipe() || stderr.makes_pipe() {
            return Err(io::Error::from(ErrorKind::NotFound));
        }
        let host = Host {
            kills: self.kills,
            waits: self.waits,
        };
        let replies = Pieces::new(self.replies, usize::MAX);
        Ok(Child::from_parts(host, Some(Vec::new(self.alloc)), Some(replies), None))
    }
}

/// The number of the fault that a link was not started by, or 0; those of its calls; how many replies came; and how
/// often the process was killed, and waited for.
fn seen(alloc: Global, path: &str, letters: &str, replies: &[u8]) -> (u8, [u8; 3], u64, u32, u32) {
    let (kills, waits) = (Cell::new(0), Cell::new(0));
    let hosts = Hosts {
        alloc,
        replies,
        kills: &kills,
        waits: &waits,
    };
    let (start, calls, asked) = match ChildLink::start(&hosts, path, &["quiet"]) {
        Err(fault) => (fault.number(), [0; 3], 0),
        Ok(mut link) => {
            let calls = called(&mut link, letters);
            let asked = link.asked();
            drop(link);
            (0, calls, asked)
        }
    };
    (start, calls, asked, kills.get(), waits.get())
}

/// The process's end is waited for once. It is killed only after a fault, and where a reply is left unread.
#[test]
fn processes_that_reply_and_end(rt: HostRuntime) -> Result<(), Fail> {
    let alloc = rt.alloc();
    let replies = stream(alloc, &["89", "89", "89"])?;
    let rows = [
        ("/host", "www", 39, (0, [0, 0, 0], 3, 0, 1)),
        ("/host", "www", 38, (0, [0, 0, 1], 2, 1, 1)),
        ("/host", "www", 13, (0, [0, 1, 1], 1, 1, 1)),
        ("/host", "www", 0, (0, [1, 1, 1], 0, 1, 1)),
        ("/host", "Sws", 39, (0, [0, 0, 0], 3, 0, 1)),
        ("/host", "SwS", 39, (0, [0, 0, 0], 3, 1, 1)),
        ("/host", "Ss", 39, (0, [0, 1, 0], 1, 1, 1)),
        ("/other", "www", 39, (1, [0, 0, 0], 0, 0, 0)),
    ];
    for (path, letters, count, wanted) in rows {
        let replies = part(replies.as_slice(), 0, count);
        assert_eq!(rt;
            seen(alloc, path, letters, replies),
            wanted,
            "{path} {letters} {count}"
        );
    }
    Ok(())
}
