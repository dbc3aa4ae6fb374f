//! Copies of boots, requests and replies of every kind: each is the same as what it is a copy of, and no other, and of a
//! reply each is made, with its files.

use containers::{Bytes, Content, Seq};
use lx_abi::{
    Ask, Boot, Boxed, Ended, GuestFile, Info, Limits, Node, Outcome, OutcomeFile, OutcomeFiles,
    RegisterSet, Reply, Request, Status, Word,
};
use lx_copies::{Copied, Same};
use std::alloc::{AllocError, Global};
use std::test::Fail;

fn bytes(alloc: Global, text: &str) -> Result<Bytes, AllocError> {
    Bytes::from_slice(alloc, text.as_bytes())
}

/// A list of one.
fn alone<T: Drop>(alloc: Global, value: T) -> Result<Seq<T>, AllocError> {
    let mut list = Seq::new(alloc);
    list.push(value)?;
    Ok(list)
}

fn file(alloc: Global, content: &str) -> Result<GuestFile, AllocError> {
    let path = bytes(alloc, "/p")?;
    let content = Content::from_bytes(alloc, bytes(alloc, content)?)?;
    Ok(GuestFile { path, content })
}

/// A boot with one file of this content.
fn boot(alloc: Global, content: &str) -> Result<Boot, AllocError> {
    let files = alone(alloc, file(alloc, content)?)?;
    Ok(Boot {
        limits: Limits::WIDEST,
        files,
        argv: Seq::new(alloc),
        env: Seq::new(alloc),
        input: Bytes::new(alloc),
        follow: true,
    })
}

/// Boots of which each differs from the first in one thing.
fn changed_boot(alloc: Global, number: usize) -> Result<Boot, AllocError> {
    let mut boot = boot(alloc, if number == 6 { "y" } else { "x" })?;
    match number {
        1 => boot.limits.last_pid = 255,
        2 => boot.limits.live = 64,
        3 => boot.argv = alone(alloc, bytes(alloc, "/p")?)?,
        4 => boot.env = alone(alloc, bytes(alloc, "A=1")?)?,
        5 => boot.input = bytes(alloc, "in")?,
        7 => boot.follow = false,
        _ => {}
    }
    Ok(boot)
}

/// A request to boot, with one word of a schedule.
fn boots(alloc: Global, content: &str, word: Word) -> Result<Request, AllocError> {
    let boot = boot(alloc, content)?;
    let words = alone(alloc, word)?;
    Ok(Request::Boot {
        boot: Boxed::new(alloc, boot)?,
        limit: 7,
        words,
    })
}

fn ask(alloc: Global, number: usize) -> Result<Ask, AllocError> {
    Ok(match number {
        0 => Ask::Seize { options: 1 },
        1 => Ask::SetOptions { options: 1 },
        2 => Ask::SetOptions { options: 2 },
        3 => Ask::GetRegs,
        4 => Ask::SetRegs {
            registers: RegisterSet::new(alloc, &[5; 32])?,
        },
        5 => Ask::SetRegs {
            registers: RegisterSet::new(alloc, &[6; 32])?,
        },
        6 => Ask::Peek {
            address: 1,
            length: 2,
        },
        7 => Ask::Peek {
            address: 1,
            length: 3,
        },
        8 => Ask::Syscall { signal: 0 },
        9 => Ask::EventMsg,
        10 => Ask::SigInfo,
        _ => Ask::Listen,
    })
}

/// Requests 0 to 18, of which no two are the same.
fn request(alloc: Global, number: usize) -> Result<Request, AllocError> {
    match number {
        0 => boots(alloc, "", Word::Serve),
        1 => boots(alloc, "x", Word::Serve),
        2 => boots(alloc, "x", Word::Turn { pid: 1 }),
        3 => boots(alloc, "x", Word::TurnAlone { pid: 1 }),
        4 => boots(alloc, "x", Word::UntilReturn { pid: 1 }),
        5 => Ok(Request::Wait),
        6 => Ok(Request::Outcome),
        _ => Ok(Request::To {
            pid: 1,
            ask: ask(alloc, number - 7)?,
        }),
    }
}

/// A file of this content, or a directory.
fn left(alloc: Global, content: Option<&str>) -> Result<OutcomeFile, AllocError> {
    let path = bytes(alloc, "/f")?;
    let node = match content {
        Some(content) => Node::File(Content::from_bytes(alloc, bytes(alloc, content)?)?),
        None => Node::Directory,
    };
    Ok(OutcomeFile { path, node })
}

fn outcome(alloc: Global, content: Option<&str>) -> Result<Reply, AllocError> {
    let console = bytes(alloc, "hi")?;
    let files = alone(alloc, left(alloc, content)?)?;
    let ended = alone(alloc, Ended { pid: 1, word: 256 })?;
    let outcome = Outcome {
        console,
        files: OutcomeFiles::new(files),
        ended,
    };
    Ok(Reply::Outcome {
        outcome: Boxed::new(alloc, outcome)?,
    })
}

const INFO: Info = Info {
    signal: 17,
    code: 1,
    pid: 2,
    status: 3,
    address: 0,
};

const STATUS: Status = Status { word: 0x857f };

/// Replies 0 to 13, of which no two are the same.
fn reply(alloc: Global, number: usize) -> Result<Reply, AllocError> {
    Ok(match number {
        0 => Reply::Done,
        1 => Reply::Status {
            pid: 1,
            status: STATUS,
        },
        2 => Reply::Status {
            pid: 2,
            status: STATUS,
        },
        3 => Reply::Registers {
            registers: RegisterSet::new(alloc, &[7; 32])?,
        },
        4 => Reply::Bytes {
            bytes: bytes(alloc, "hi")?,
        },
        5 => Reply::Bytes {
            bytes: bytes(alloc, "ho")?,
        },
        6 => Reply::Message { pid: 2 },
        7 => Reply::Info { info: INFO },
        8 => outcome(alloc, None)?,
        9 => outcome(alloc, Some(""))?,
        10 => outcome(alloc, Some("x"))?,
        11 => Reply::Errno { number: 3 },
        12 => Reply::OutOfTurns,
        _ => Reply::Refused { fault: 2 },
    })
}

/// The value's copy is the same as the other.
fn is_copy<T: Copied + Same + Drop>(
    alloc: Global,
    value: &T,
    other: &T,
) -> Result<bool, AllocError> {
    let copy = value.copy(alloc)?;
    Ok(copy.same(other))
}

// Whether the copy of one value is the same as another, by their numbers.

fn are_same_requests(alloc: Global, one: usize, other: usize) -> Result<bool, AllocError> {
    let value = request(alloc, one)?;
    let other = request(alloc, other)?;
    is_copy(alloc, &value, &other)
}

fn are_same_boots(alloc: Global, one: usize, other: usize) -> Result<bool, AllocError> {
    let value = changed_boot(alloc, one)?;
    let other = changed_boot(alloc, other)?;
    is_copy(alloc, &value, &other)
}

/// How many files a copy of a reply has.
fn copied_files(alloc: Global, number: usize) -> Result<usize, AllocError> {
    let reply = reply(alloc, number)?;
    match reply.copy(alloc)? {
        Reply::Outcome { outcome } => Ok(outcome.get().files.as_slice()?.len()),
        _ => Ok(0),
    }
}

#[test]
fn requests_are_copied(rt: HostRuntime) -> Result<(), Fail> {
    for one in 0..19 {
        for other in 0..19 {
            assert_eq!(rt; are_same_requests(rt.alloc(), one, other)?, one == other);
        }
    }
    Ok(())
}

#[test]
fn replies_are_copied(rt: HostRuntime) -> Result<(), Fail> {
    for number in 0..14 {
        let files = usize::from(matches!(number, 8..=10));
        assert_eq!(rt; copied_files(rt.alloc(), number)?, files);
    }
    Ok(())
}

#[test]
fn boots_are_copied(rt: HostRuntime) -> Result<(), Fail> {
    for one in 0..8 {
        for other in 0..8 {
            assert_eq!(rt; are_same_boots(rt.alloc(), one, other)?, one == other);
        }
    }
    Ok(())
}
