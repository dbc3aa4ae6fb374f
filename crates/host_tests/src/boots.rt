//! Boots of files by their paths, and what they are refused for.

use crate::kernels::fault_of;
use containers::{Bytes, Content, Seq};
use lx_abi::{Boot, GuestFile, Limits};
use lx_boot::{Culprit, boot_fault, find_culprit};
use std::alloc::{AllocError, Global};
use std::test::Fail;

/// The words of a text, between spaces.
fn words(alloc: Global, text: &str) -> Result<Seq<Bytes>, AllocError> {
    let mut all = Seq::new(alloc);
    for word in text.split(' ') {
        if !word.is_empty() {
            all.push(Bytes::from_slice(alloc, word.as_bytes())?)?;
        }
    }
    Ok(all)
}

/// An empty file.
fn file(alloc: Global, path: &str) -> Result<GuestFile, AllocError> {
    Ok(GuestFile {
        path: Bytes::from_slice(alloc, path.as_bytes())?,
        content: Content::new(alloc)?,
    })
}

/// Empty files at the paths of a text, between spaces.
fn files(alloc: Global, text: &str) -> Result<Seq<GuestFile>, AllocError> {
    let mut files = Seq::new(alloc);
    for path in text.split(' ') {
        if !path.is_empty() {
            files.push(file(alloc, path)?)?;
        }
    }
    Ok(files)
}

/// A boot with empty files at these paths.
pub(crate) fn boot(alloc: Global, paths: &str, argv: &str) -> Result<Boot, AllocError> {
    Ok(Boot {
        limits: Limits::WIDEST,
        files: files(alloc, paths)?,
        argv: words(alloc, argv)?,
        env: Seq::new(alloc),
        input: Bytes::new(alloc),
        follow: true,
    })
}

/// The number of a boot's fault, 0 where it is accepted.
fn fault(alloc: Global, paths: &str, argv: &str) -> Result<u8, AllocError> {
    fault_of(alloc, boot(alloc, paths, argv)?)
}

/// Each kind of refusal that is no limit of files or words. The order of refusals, and limits, stand in guests/served.
#[test]
fn boots_are_refused(rt: HostRuntime) -> Result<(), Fail> {
    let rows = [
        ("/p", "/p", 0),
        ("/a//b", "/p", 1),
        ("/p /p", "/p", 2),
        ("/p", "", 3),
    ];
    for (paths, argv, number) in rows {
        assert_eq!(rt; fault(rt.alloc(), paths, argv)?, number);
    }
    Ok(())
}

/// What the fault of a boot is found in, if it has one.
fn culprit(alloc: Global, boot: Boot) -> Option<Culprit> {
    let culprit = match boot_fault(alloc, &boot) {
        Some(fault) => find_culprit(&boot, fault),
        None => None,
    };
    drop(boot);
    culprit
}

fn culprit_among(alloc: Global, paths: &str) -> Result<Option<Culprit>, AllocError> {
    Ok(culprit(alloc, boot(alloc, paths, "/p")?))
}

fn culprit_within(alloc: Global, live: u32, last_pid: u32) -> Result<Option<Culprit>, AllocError> {
    let mut boot = boot(alloc, "/p", "/p")?;
    boot.limits = Limits { live, last_pid };
    Ok(culprit(alloc, boot))
}

/// The first file that is at fault, in the boot's order.
#[test]
fn culprits(rt: HostRuntime) -> Result<(), Fail> {
    let rows = [
        ("/p", None),
        ("/p q /a//b", Some(Culprit::Path(1))),
        ("/p /a//b q", Some(Culprit::Path(1))),
        ("/p/q /p", Some(Culprit::Under(0, 1))),
        ("/a /p/q/r /p /p/q", Some(Culprit::Under(1, 2))),
        ("/p/q /r/ /p", Some(Culprit::Under(0, 2))),
        ("/p /q /q /p", Some(Culprit::Repeated(2))),
    ];
    for (paths, wanted) in rows {
        assert_eq!(rt; culprit_among(rt.alloc(), paths)?, wanted, "{paths}");
    }
    Ok(())
}

/// Limits are the culprits of boots within none.
#[test]
fn culprits_among_limits(rt: HostRuntime) -> Result<(), Fail> {
    let rows = [
        (0, 255, Some(Culprit::Live)),
        (1025, 0, Some(Culprit::Live)),
        (64, 0, Some(Culprit::LastPid)),
        (64, 32_768, Some(Culprit::LastPid)),
        (64, 255, None),
    ];
    for (live, last_pid, wanted) in rows {
        assert_eq!(rt;
            culprit_within(rt.alloc(), live, last_pid)?,
            wanted,
            "{live} {last_pid}"
        );
    }
    Ok(())
}

/// The number of the fault of a boot with these limits.
fn fault_within(alloc: Global, paths: &str, live: u32, last_pid: u32) -> Result<u8, AllocError> {
    let mut boot = boot(alloc, paths, "/p")?;
    boot.limits = Limits { live, last_pid };
    fault_of(alloc, boot)
}

/// Limits are looked at before all else.
#[test]
fn limits_have_ranges(rt: HostRuntime) -> Result<(), Fail> {
    let rows = [
        ("/p", 1, 1, 0),
        ("/p", 1024, 32_767, 0),
        ("/p", 0, 255, 6),
        ("/p", 1025, 255, 6),
        ("/p", u32::MAX, 255, 6),
        ("/p", 64, 0, 6),
        ("/p", 64, 32_768, 6),
        ("/p /p", 0, 0, 6),
        ("/p /p", 1, 1, 2),
    ];
    for (paths, live, last_pid, number) in rows {
        assert_eq!(rt; fault_within(rt.alloc(), paths, live, last_pid)?, number);
    }
    Ok(())
}
