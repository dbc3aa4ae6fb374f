//! A Wait that is sent ahead, with the request before it.

use crate::ends::Pieces;
use crate::frames::{are_same, part, stream};
use host_link::{Link, PipeLink};
use host_wire::Counted;
use lx_abi::{Ask, Request};
use std::alloc::Global;
use std::cell::Cell;
use std::io::{self, Write};
use std::test::Fail;

/// Keeps what is written, and counts the writes.
#[derive(Drop)]
struct Written<'a> {
    bytes: Vec<u8>,
    writes: &'a Cell<u32>,
}

impl<'a> Write for Written<'a> {
    fn write(&mut self, buf: &[u8]) -> io::Result<usize> {
        self.bytes.extend_from_slice(buf)?;
        self.writes.set(self.writes.get().saturating_add(1));
        Ok(buf.len())
    }

    fn flush(&mut self) -> io::Result<()> {
        Ok(())
    }
}

fn resumption() -> Request {
    Request::To {
        pid: 1,
        ask: Ask::Syscall { signal: 0 },
    }
}

/// Asks for Syscall with Wait behind it (S), for Syscall alone (s), or for Wait (w): the fault's number, 0 for a reply.
pub fn ask<L: Link>(link: &mut L, letter: char) -> u8 {
    let reply = match letter {
        'S' => link.call_before_wait(resumption()),
        's' => link.call(resumption()),
        _ => link.call(Request::Wait),
    };
    match reply {
        Ok(_) => 0,
        Err(fault) => fault.number(),
    }
}

/// The faults of some calls, and how many writes there were by then.
fn asked<L: Link>(link: &mut L, letters: &str, writes: &Cell<u32>) -> [(u8, u32); 3] {
    let mut calls = [(0, 0); 3];
    for (call, letter) in calls.iter_mut().zip(letters.chars()) {
        *call = (ask(link, letter), writes.get());
    }
    calls
}

/// The same over these replies; how many replies and faults the link counts, and whether these messages were sent.
fn seen(
    alloc: Global,
    letters: &str,
    replies: &[u8],
    messages: &[&str],
) -> Result<([(u8, u32); 3], (u64, u64), bool), Fail> {
    let writes = Cell::new(0);
    let mut written = Written {
        bytes: Vec::new(alloc),
        writes: &writes,
    };
    let reader = Counted::new(Pieces::new(replies, usize::MAX));
    let mut link = PipeLink::new(alloc, reader, Counted::new(&mut written))?;
    let calls = asked(&mut link, letters, &writes);
    let counts = (link.asked(), link.faults());
    drop(link);
    let are_sent = are_same(written.bytes, stream(alloc, messages)?);
    Ok((calls, counts, are_sent))
}

const SYSCALL: &str = "080000000100000000";

/// Both go out by one write, and the reply to Wait is read when it is asked for. Any other request fails in its place,
/// and isn't sent. A host that ends between the two replies is a fault at the second.
#[test]
fn waits_that_go_ahead(rt: HostRuntime) -> Result<(), Fail> {
    let alloc = rt.alloc();
    let replies = stream(alloc, &["81", "89", "81"])?;
    let both = [SYSCALL, "04", SYSCALL];
    let rows = [
        ("Sws", 39, [(0, 1), (0, 1), (0, 2)], (3, 0), 3),
        ("SwS", 39, [(0, 1), (0, 1), (0, 2)], (3, 0), 4),
        ("Sss", 39, [(0, 1), (1, 1), (1, 1)], (1, 1), 2),
        ("SSw", 39, [(0, 1), (1, 1), (1, 1)], (1, 1), 2),
        ("Sww", 13, [(0, 1), (1, 1), (1, 1)], (1, 1), 2),
        ("Sww", 12, [(1, 1), (1, 1), (1, 1)], (0, 1), 2),
        ("sws", 39, [(0, 1), (0, 2), (0, 3)], (3, 0), 3),
    ];
    let sent = [both[0], both[1], both[2], "04"];
    for (letters, count, calls, counts, messages) in rows {
        let replies = part(replies.as_slice(), 0, count);
        let messages = sent.get(..messages).unwrap_or(&[]);
        assert_eq!(rt;
            seen(alloc, letters, replies, messages)?,
            (calls, counts, true),
            "{letters} {count}"
        );
    }
    Ok(())
}
