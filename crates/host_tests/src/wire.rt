//! Frames: each kind as its bytes, faults at their bytes, and streams cut anywhere.

use crate::frames::{are_same, frame, part, spelled, stream};
use host_wire::{Feed, Frame, Payload, WireFault};
use lx_abi::{Ask, Reply, Request, Status};
use std::alloc::{AllocError, Global};
use std::test::Fail;

/// A boot of `/p`, a program that writes `hi` and a line feed and exits with 0, by at most 10,000,000 events.
const BOOT: &str = "\
    010200000000000098968000000400\
    00007fff00000000\
    00000001000000022f70\
    00000000\
    00000001000000022f700000009f\
    7f454c460201010000000000000000000200f300010000007800010000000000\
    4000000000000000000000000000000000000000000038000100000000000000\
    0100000005000000000000000000000000000100000000000000000000000000\
    9f000000000000009f00000000000000000000000000000013051000b7050100\
    9385c509130630009308000473000000130500009308e0057300000068690a\
    00000000";

/// The registers 1 to 32, the lowest byte of each first.
const REGISTERS: &str = "\
    0100000000000000020000000000000003000000000000000400000000000000\
    0500000000000000060000000000000007000000000000000800000000000000\
    09000000000000000a000000000000000b000000000000000c00000000000000\
    0d000000000000000e000000000000000f000000000000001000000000000000\
    1100000000000000120000000000000013000000000000001400000000000000\
    1500000000000000160000000000000017000000000000001800000000000000\
    19000000000000001a000000000000001b000000000000001c00000000000000\
    1d000000000000001e000000000000001f000000000000002000000000000000";

/// These digits, and then the registers.
fn with_registers(alloc: Global, prefix: &str) -> Result<String, AllocError> {
    let mut digits = String::from_str(alloc, prefix)?;
    digits.push_str(REGISTERS)?;
    Ok(digits)
}

/// The frame of these bytes, where nothing is left of them.
fn whole(alloc: Global, bytes: &[u8]) -> Option<Frame> {
    let mut feed = Feed::new(alloc);
    let fits = feed_at_once(&mut feed, bytes);
    let frame = take(&mut feed);
    let left = missing(&feed);
    drop(feed);
    if fits && left == 4 {
        return frame;
    }
    drop(frame);
    None
}

fn take(feed: &mut Feed) -> Option<Frame> {
    feed.take()
}

/// How many bytes the frame under way lacks.
fn missing(feed: &Feed) -> usize {
    feed.missing()
}

/// The frame with the number 5 that is written again.
fn spelled_again(alloc: Global, frame: Frame) -> Result<Vec<u8>, Fail> {
    let is_that = frame.number == 5;
    let bytes = spelled(alloc, &frame);
    drop(frame);
    let bytes = bytes?;
    if is_that {
        Ok(bytes)
    } else {
        Err(Fail::from("the frame of that number"))
    }
}

/// What is read of a frame with this message, and is written again.
fn again(alloc: Global, message: &str) -> Result<Vec<u8>, Fail> {
    let bytes = frame(alloc, 5, message)?;
    match whole(alloc, bytes.as_slice()) {
        Some(frame) => spelled_again(alloc, frame),
        None => Err(Fail::from("a frame")),
    }
}

/// Each kind of request, and of reply, has one spelling.
#[test]
fn each_kind(rt: HostRuntime) -> Result<(), Fail> {
    let alloc = rt.alloc();
    let set_registers = with_registers(alloc, "0600000001")?;
    let registers = with_registers(alloc, "83")?;
    let rows = [
        BOOT,
        // follow, a limit, limits of processes, input, two words, an environment, a file, and each word of a schedule
        "0102010123456789abcdef0000000500000007000000017800000002000000022f7000000000\
         00000001000000034b3d7600000001000000022f660000000163000000040100000001\
         02000000020300000000040000000f",
        "020000000100000013",
        "03ffffffff00000000",
        "04",
        "0500000001",
        set_registers.as_str(),
        "07000000010000003fffffeffd00001000",
        "08000000010000000b",
        "0900000001",
        "0a00000001",
        "0b",
        "0d00000001",
        "81",
        "820000000100000b7f",
        registers.as_str(),
        "84000000032f7000",
        "850000000000000002",
        "860000000b0000000100000000000000000000000000000010",
        // a console, a file with a content and a directory in the order of their paths, and two that ended
        "870000000368690a00000002000000022f61010000000163000000022f62\
         02000000000000000200000001000000000000000200000009",
        "8800000016",
        "89",
        "8a05",
    ];
    for message in rows {
        let read = again(alloc, message)?;
        assert!(rt; are_same(read, frame(alloc, 5, message)?), "{message}");
    }
    Ok(())
}

/// A boot without limits of processes means 64 and the last pid 255, and is written with them.
#[test]
fn limits_that_are_not_said(rt: HostRuntime) -> Result<(), Fail> {
    let alloc = rt.alloc();
    let read = again(
        alloc,
        "01010100000000000000640000000000000000000000000000000000000000",
    )?;
    let said = "0102010000000000000064\
        00000040000000ff0000000000000000000000000000000000000000";
    assert!(rt; are_same(read, frame(alloc, 5, said)?));
    Ok(())
}

/// The frame with the number 3 is spelled so.
fn is_spelled(alloc: Global, body: Payload, digits: &str) -> Result<bool, Fail> {
    let frame = Frame { number: 3, body };
    let bytes = spelled(alloc, &frame);
    drop(frame);
    Ok(are_same(bytes?, hex::decode(alloc, digits)?))
}

/// Two frames, byte for byte: Wait 3, and its reply, EVENT_STOP of process 1.
#[test]
fn two_frames(rt: HostRuntime) -> Result<(), Fail> {
    let wait = Payload::Request(Request::Wait);
    assert!(rt; is_spelled(rt.alloc(), wait, "00000009000000000000000304")?);
    let stop = Payload::Reply(Reply::Status {
        pid: 1,
        status: Status { word: 0x80057f },
    });
    assert!(rt;
        is_spelled(
            rt.alloc(),
            stop,
            "00000011000000000000000382000000010080057f"
        )?
    );
    Ok(())
}

/// What a stream of these bytes is refused for, and how many frames it gave.
fn fault_of(alloc: Global, bytes: &[u8]) -> (Option<WireFault>, bool) {
    let mut feed = Feed::new(alloc);
    let (fault, _) = refused(&mut feed, bytes);
    let given = gives(&mut feed);
    drop(feed);
    (fault, given)
}

#[test]
fn faults(rt: HostRuntime) -> Result<(), Fail> {
    let alloc = rt.alloc();
    let (length, kind, body) = (
        Some(WireFault::Length),
        Some(WireFault::Kind),
        Some(WireFault::Payload),
    );
    let rows = [
        // the length is told by four bytes, and is 9 to 134,217,728
        ("000000", None),
        ("00000000", length),
        ("00000008", length),
        ("00000009", None),
        ("08000000", None),
        ("08000001", length),
        ("ffffffff", length),
        // the kind is the thirteenth
        ("00000009000000000000000100", kind),
        ("0000000900000000000000010c", kind),
        ("0000000900000000000000010e", kind),
        ("0000000900000000000000017f", kind),
        ("00000009000000000000000180", kind),
        ("0000000900000000000000018b", kind),
        ("000000ff00000000000000017f", kind),
        ("000000ff0000000000000001", None),
        // the body is read once its last byte is there
        ("0000000a0000000000000001", None),
        ("0000000a000000000000000104", None),
        ("0000000a00000000000000010400", body),
        ("0000000b00000000000000018a0505", body),
        ("0000000c000000000000000105000000", body),
        ("0000000900000000000000018a", body),
        // a list of 2^31 items in a frame of 30 bytes takes no memory for them
        (
            "0000001a0000000000000001870000000080000000000000000000000000",
            body,
        ),
    ];
    for (digits, fault) in rows {
        let bytes = hex::decode(alloc, digits)?;
        assert_eq!(rt;
            fault_of(alloc, bytes.as_slice()),
            (fault, false),
            "{digits}"
        );
    }
    Ok(())
}

/// Bodies that are none, each one change away from one that is read.
#[test]
fn bodies(rt: HostRuntime) -> Result<(), Fail> {
    let alloc = rt.alloc();
    let rows = [
        (
            "010200000000000000006400000000ffffffff0000000000000000000000000000000000000000",
            true,
        ),
        (
            "01010000000000000000640000000000000000000000000000000000000000",
            true,
        ),
        (
            "01020000000000000000640000000000000000000000000000000000000000",
            false,
        ),
        (
            "010100000000000000006400000000ffffffff0000000000000000000000000000000000000000",
            false,
        ),
        (
            "01000000000000000000640000000000000000000000000000000000000000",
            false,
        ),
        (
            "010300000000000000006400000000ffffffff0000000000000000000000000000000000000000",
            false,
        ),
        (
            "010202000000000000006400000000ffffffff0000000000000000000000000000000000000000",
            false,
        ),
        (
            "01010200000000000000640000000000000000000000000000000000000000",
            false,
        ),
        (
            "01020100000000000000640000000100000001\
             00000000000000000000000000000000000000010300000000",
            true,
        ),
        (
            "01020100000000000000640000000100000001\
             00000000000000000000000000000000000000010300000001",
            false,
        ),
        (
            "01020100000000000000640000000100000001\
             00000000000000000000000000000000000000010400000001",
            true,
        ),
        (
            "01020100000000000000640000000100000001\
             00000000000000000000000000000000000000010500000001",
            false,
        ),
        // a directory has no content, paths and pids rise, and the root is no path
        ("870000000000000001000000022f61020000000000000000", true),
        ("870000000000000001000000022f6102000000017800000000", false),
        ("870000000000000001000000022f61030000000000000000", false),
        ("870000000000000001000000012f020000000000000000", false),
        (
            "870000000000000002000000022f610200000000000000022f62020000000000000000",
            true,
        ),
        (
            "870000000000000002000000022f620200000000000000022f61020000000000000000",
            false,
        ),
        (
            "870000000000000002000000022f610200000000000000022f61020000000000000000",
            false,
        ),
        (
            "8700000000000000000000000200000001000000000000000200000000",
            true,
        ),
        (
            "8700000000000000000000000200000002000000000000000100000000",
            false,
        ),
        (
            "8700000000000000000000000200000001000000000000000100000000",
            false,
        ),
    ];
    for (message, is_read) in rows {
        let (fault, given) = fault_of(alloc, frame(alloc, 1, message)?.as_slice());
        assert_eq!(rt; given, is_read, "{message}");
        assert_eq!(rt;
            fault,
            (!is_read).then_some(WireFault::Payload),
            "{message}"
        );
    }
    Ok(())
}

/// Peek of three bytes.
fn is_peek(ask: &Ask) -> bool {
    match ask {
        Ask::Peek { address, length } => *address == 0x3f_ffff_effd && *length == 3,
        _ => false,
    }
}

/// The frame is Peek of three bytes of process 1, with the number 2.
fn peeks(frame: &Frame) -> bool {
    match &frame.body {
        Payload::Request(Request::To { pid: 1, ask }) => frame.number == 2 && is_peek(ask),
        _ => false,
    }
}

/// A letter for the frame that is given: none (-), Peek (p) or another (?).
fn given(feed: &mut Feed) -> char {
    match take(feed) {
        None => '-',
        Some(frame) => {
            let letter = if peeks(&frame) { 'p' } else { '?' };
            drop(frame);
            letter
        }
    }
}

/// A piece of a stream, what is given then, and how many bytes the frame under way lacks.
type Piece<'a> = (&'a [u8], char, usize);

/// How many pieces are taken and followed so, up to the first that isn't.
fn followed(feed: &mut Feed, pieces: &[Piece<'_>]) -> usize {
    let mut count = 0usize;
    for (piece, letter, lacks) in pieces {
        if !feed_at_once(feed, piece) || given(feed) != *letter || missing(feed) != *lacks {
            break;
        }
        count = count.saturating_add(1);
    }
    count
}

fn followed_anew(alloc: Global, pieces: &[Piece<'_>]) -> usize {
    let mut feed = Feed::new(alloc);
    let count = followed(&mut feed, pieces);
    drop(feed);
    count
}

/// Half a frame gives nothing, and its other half the frame.
#[test]
fn half_a_frame(rt: HostRuntime) -> Result<(), Fail> {
    let bytes = frame(rt.alloc(), 2, "07000000010000003fffffeffd00000003")?;
    let bytes = bytes.as_slice();
    let pieces = [
        (part(bytes, 0, 0), '-', 4),
        (part(bytes, 0, 2), '-', 2),
        (part(bytes, 2, 15), '-', 14),
        (part(bytes, 15, 28), '-', 1),
        (part(bytes, 28, 29), 'p', 4),
    ];
    assert_eq!(rt; followed_anew(rt.alloc(), &pieces), 5);
    Ok(())
}

/// What a piece is refused for, and how many bytes the frame under way lacks then.
fn refused(feed: &mut Feed, piece: &[u8]) -> (Option<WireFault>, usize) {
    let fault = feed.feed(piece).err();
    (fault, feed.missing())
}

/// A piece that is refused, by a fault, behind all but the last byte of a frame.
type Refusal = (&'static [u8], WireFault);

const REFUSALS: [Refusal; 3] = [
    (&[9, 0, 0, 0, 0, 0, 0, 0, 2, 0x7f], WireFault::Kind),
    (&[8], WireFault::Length),
    (&[10, 0, 0, 0, 0, 0, 0, 0, 2, 4, 0], WireFault::Payload),
];

/// How many pieces are refused so.
fn refuses(feed: &mut Feed) -> usize {
    let mut count = 0usize;
    for (piece, fault) in REFUSALS {
        if refused(feed, piece) != (Some(fault), 1) {
            break;
        }
        count = count.saturating_add(1);
    }
    count
}

/// How many frames are given.
fn count_given(feed: &mut Feed) -> usize {
    let mut count = 0usize;
    for _ in 0..8 {
        if !gives(feed) {
            break;
        }
        count = count.saturating_add(1);
    }
    count
}

/// Whether the parts of a stream fit, how many pieces are refused between them, and how many frames are given then.
fn after_refusals(alloc: Global, bytes: &[u8]) -> (bool, usize, bool, usize) {
    let mut feed = Feed::new(alloc);
    let begins = feed_at_once(&mut feed, part(bytes, 0, 16));
    let refused = refuses(&mut feed);
    let ends = feed_at_once(&mut feed, part(bytes, 16, 26));
    let given = count_given(&mut feed);
    drop(feed);
    (begins, refused, ends, given)
}

/// A fault leaves all as if its piece had not come.
#[test]
fn after_a_fault(rt: HostRuntime) -> Result<(), Fail> {
    let bytes = stream(rt.alloc(), &["04", "04"])?;
    assert_eq!(rt;
        after_refusals(rt.alloc(), bytes.as_slice()),
        (true, 3, true, 2)
    );
    Ok(())
}

/// The frame of a reply of so many bytes.
fn long_frame(alloc: Global, length: usize) -> Result<Vec<u8>, Fail> {
    let body = Payload::Reply(Reply::Bytes {
        bytes: containers::Bytes::from_vec(Vec::from_elem(alloc, 7u8, length)?),
    });
    let frame = Frame { number: 1, body };
    let bytes = spelled(alloc, &frame);
    drop(frame);
    bytes
}

/// The feed takes these bytes one by one.
fn feed_by_bytes(feed: &mut Feed, bytes: &[u8]) -> bool {
    for byte in bytes {
        if feed.feed(&[*byte]).is_err() {
            return false;
        }
    }
    true
}

/// The feed takes these bytes at once.
fn feed_at_once(feed: &mut Feed, bytes: &[u8]) -> bool {
    feed.feed(bytes).is_ok()
}

fn gives(feed: &mut Feed) -> bool {
    match take(feed) {
        Some(frame) => {
            drop(frame);
            true
        }
        None => false,
    }
}

/// Whether a frame fits by bytes, and at once, and how many are given of both.
fn twice(alloc: Global, frame: &[u8]) -> (bool, bool, usize) {
    let mut feed = Feed::new(alloc);
    let by_bytes = feed_by_bytes(&mut feed, frame);
    let at_once = feed_at_once(&mut feed, frame);
    let given = count_given(&mut feed);
    drop(feed);
    (by_bytes, at_once, given)
}

/// 64 KiB byte by byte: no more is done for a byte late in a frame than for an early one.
#[test]
fn byte_by_byte(rt: HostRuntime) -> Result<(), Fail> {
    let frame = long_frame(rt.alloc(), 65_536)?;
    assert_eq!(rt; twice(rt.alloc(), frame.as_slice()), (true, true, 2));
    Ok(())
}
