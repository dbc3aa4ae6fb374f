//! A link to a host in this process: what it counts. Conversations with hosts stand in guests/served and
//! guests/conversations, and whole runs over both kinds of link in guests/rows.

use crate::ahead::ask;
use crate::boots::boot;
use host_link::{Link, LocalLink};
use lx_abi::Boot;
use lx_boot::BootFault;
use pt_kernel::{Host, Schedule};
use std::alloc::{AllocError, Global};
use std::test::Fail;

fn boot_by(alloc: Global, boot: Boot) -> Result<Host, BootFault> {
    Host::boot(alloc, boot)
}

/// A host whose process 1 hasn't begun.
pub(crate) fn booted(alloc: Global) -> Result<Host, AllocError> {
    match boot_by(alloc, boot(alloc, "/p", "/p")?) {
        Ok(host) => Ok(host),
        Err(_) => Err(AllocError),
    }
}

/// The numbers of the faults of three calls at most, 0 for a reply.
pub(crate) fn called<L: Link>(link: &mut L, letters: &str) -> [u8; 3] {
    let mut calls = [0; 3];
    for (call, letter) in calls.iter_mut().zip(letters.chars()) {
        *call = ask(link, letter);
    }
    calls
}

/// The same of a link in this process, and how many replies and faults it counts.
fn seen(alloc: Global, letters: &str) -> Result<([u8; 3], u64, u64), AllocError> {
    let host = booted(alloc)?;
    let mut link = LocalLink::new(host, Schedule::words(Vec::new(alloc), 10));
    let calls = called(&mut link, letters);
    let seen = (calls, link.asked(), link.faults());
    drop(link);
    Ok(seen)
}

/// Nobody is traced: each reply is an error of its own. A Wait that would go ahead is asked for in its turn.
#[test]
fn replies_in_this_process(rt: HostRuntime) -> Result<(), Fail> {
    for letters in ["wsw", "sws", "Sws"] {
        assert_eq!(rt; seen(rt.alloc(), letters)?, ([0; 3], 3, 0), "{letters}");
    }
    Ok(())
}
