//! A boot with as many files and directories as there may be.

use crate::kernels;
use crate::kernels::booted;
use containers::{Bytes, Content, Seq};
use lx_abi::{Boot, GuestFile, Limits};
use std::alloc::{AllocError, Global};
use std::test::Fail;

/// A path of 65 names of one byte, by which the first differ.
fn path(alloc: Global, number: usize) -> Result<Bytes, AllocError> {
    let mut bytes = Vec::new(alloc);
    bytes.push(b'/')?;
    bytes.push(b'0'.wrapping_add((number % 100) as u8))?;
    for _ in 0..64 {
        bytes.extend_from_slice(b"/a")?;
    }
    Ok(Bytes::from_vec(bytes))
}

/// A boot with 63 empty files at such paths.
fn boot(alloc: Global) -> Result<Boot, AllocError> {
    let mut files = Seq::new(alloc);
    for number in 0..63 {
        files.push(GuestFile {
            path: path(alloc, number)?,
            content: Content::new(alloc)?,
        })?;
    }
    let mut argv = Seq::new(alloc);
    argv.push(Bytes::from_slice(alloc, b"/p")?)?;
    Ok(Boot {
        limits: Limits::WIDEST,
        files,
        argv,
        env: Seq::new(alloc),
        input: Bytes::new(alloc),
        follow: true,
    })
}

/// How many files and directories the boot makes, beside the root.
fn nodes(alloc: Global) -> Result<usize, AllocError> {
    let kernel = booted(alloc, boot(alloc)?)?;
    let nodes = kernels::nodes(&kernel);
    drop(kernel);
    nodes
}

/// As many nodes are counted as there are: 63 files of 65 nodes each, beside the root.
#[test]
fn the_most_nodes_are_there(rt: HostRuntime) -> Result<(), Fail> {
    assert_eq!(rt; nodes(rt.alloc())?, 4095);
    Ok(())
}
