//! What is heard of a host in a process of its own, beside its replies.

use front_end::{Fault, Shown};
use host_link::ChildLink;
use std::alloc::{AllocError, Global};
use std::process::OpenProcess;

/// The reason of a fault of a host that was waited for too long.
const LATE: &str = "the host said nothing for as long as --host-timeout allows";

/// What a host was heard to do.
#[derive(Drop)]
pub struct Heard {
    /// It said nothing for longer than it was waited for.
    pub is_late: bool,
    /// What it has said on its standard error, as a message shows it.
    pub said: Option<String>,
}

/// What a host has said, in one line.
fn shown(alloc: Global, said: &[u8]) -> Result<String, AllocError> {
    let text = String::from_utf8_lossy(alloc, said)?;
    let line = format!(in alloc; "{}", Shown(text.as_str().trim_end()));
    drop(text);
    line
}

/// Waits for the end of a host, where there was one.
pub fn hear<P: OpenProcess + Drop>(alloc: Global, link: Option<ChildLink<P>>) -> Heard {
    let Some(link) = link else {
        return Heard {
            is_late: false,
            said: None,
        };
    };
    let left = link.leave();
    let said = if left.said.is_empty() {
        None
    } else {
        // Without memory it isn't told.
        shown(alloc, left.said.as_slice()).ok()
    };
    Heard {
        is_late: left.is_late,
        said,
    }
}

/// A fault, which for a host that was waited for too long says so.
pub fn explain_host(fault: Fault, is_late: bool) -> Fault {
    match fault {
        Fault::Host { number, reason: _ } if is_late => Fault::Host {
            number,
            reason: LATE,
        },
        fault => fault,
    }
}
