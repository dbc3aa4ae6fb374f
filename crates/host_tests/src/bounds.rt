//! Readers that give byte by byte, and are given up before a frame of 13 bytes is whole, or aren't.

ghost use Rattle.std.specs.Prelude.{◌≤◌, ◌^◌};

use crate::ends::Pieces;
use crate::frames::frame;
use host_link::{Link, LinkFault, PipeLink};
use host_serve::{ServeFault, serve_bounded};
use host_wire::Counted;
use lx_abi::{Ask, Reply, Request};
use std::alloc::Global;
use std::test::Fail;

/// What a link is replied that asks PTRACE_SYSCALL, by so many reads at most: none for Done.
fn fault_of_link(alloc: Global, most: u64) -> Result<Option<LinkFault>, Fail>
    requires some { 1 ≤ most }
    requires few { most ≤ 2 ^ 32 }
{
    let done = frame(alloc, 1, "81")?;
    let reader = Counted::new(Pieces::new(done.as_slice(), 1));
    let mut link = PipeLink::bounded(alloc, reader, Counted::new(Vec::new(alloc)), most)?;
    let reply = link.call(Request::To {
        pid: 1,
        ask: Ask::Syscall { signal: 0 },
    });
    drop(link);
    match reply {
        Ok(Reply::Done) => Ok(None),
        Ok(_) => Err(Fail::from("another reply")),
        Err(fault) => Ok(Some(fault)),
    }
}

#[test]
fn links_give_up(rt: HostRuntime) -> Result<(), Fail> {
    let alloc = rt.alloc();
    assert_eq!(rt; fault_of_link(alloc, 8)?, Some(LinkFault::Read));
    assert_eq!(rt; fault_of_link(alloc, 12)?, Some(LinkFault::Read));
    assert_eq!(rt; fault_of_link(alloc, 13)?, None);
    Ok(())
}

/// How a host ends that is sent Wait first, by so many reads at most.
fn fault_of_host(alloc: Global, most: u64) -> Result<Option<ServeFault>, Fail>
    requires some { 1 ≤ most }
    requires few { most ≤ 2 ^ 32 }
{
    let wait = frame(alloc, 1, "04")?;
    let mut reader = Counted::new(Pieces::new(wait.as_slice(), 1));
    let mut writer = Counted::new(Vec::new(alloc));
    let served = serve_bounded(alloc, &mut reader, &mut writer, most);
    drop(reader);
    drop(writer);
    Ok(served.err())
}

/// A whole Wait is out of order, and no fault of the reader.
#[test]
fn hosts_give_up(rt: HostRuntime) -> Result<(), Fail> {
    let alloc = rt.alloc();
    assert_eq!(rt; fault_of_host(alloc, 8)?, Some(ServeFault::Read));
    assert_eq!(rt; fault_of_host(alloc, 12)?, Some(ServeFault::Read));
    assert_eq!(rt; fault_of_host(alloc, 13)?, Some(ServeFault::Order));
    Ok(())
}
