//! Faults of a host.

ghost use Rattle.std.specs.Prelude.{◌⊎◌};
ghost use Rattle.trace_command.specs.Faults.{IsHostFault, IsUnhosted, IsUnopened};

use front_boot::refuse_boot;
use front_end::Fault;
use host_link::LinkFault;
use std::alloc::{AllocError, Global};
use std::io;
use trace_threads::ThreadsFault;

/// A host's fault in words.
fn reason(fault: LinkFault) -> &'static str {
    match fault {
        LinkFault::Ended =>
            "the host did not start, or has ended; --host takes a program as guest_host",
        LinkFault::Read => "the host's replies could not be read",
        LinkFault::Write => "a request could not be written to the host",
        LinkFault::Malformed => "the host's reply is malformed, or a request is too long for it",
        LinkFault::Sequence => "the host's reply answers another request",
        LinkFault::Inadmissible => "the host's reply is of a kind that doesn't fit the request",
        LinkFault::Memory => "memory ran out",
        LinkFault::TooMany => "there were 2^40 requests",
    }
}

/// The fault of a run whose link has this one.
pub fn host_fault(fault: LinkFault) -> Fault
    ensures number { IsHostFault fault result }
    ensures kind { IsUnhosted result }
{
    match fault {
        LinkFault::Memory => Fault::Memory,
        fault => Fault::Host {
            number: fault.number(),
            reason: reason(fault),
        },
    }
}

/// The fault of a file that can't be made, if there is memory to say which.
pub fn unopened(alloc: Global, what: Result<String, AllocError>, error: io::Error) -> Fault
    ensures { IsUnopened result }
{
    match what {
        Ok(what) => Fault::file(alloc, what, error),
        Err(_) => Fault::Memory,
    }
}

/// The fault of a run on threads that gives none.
pub fn threads_fault(alloc: Global, fault: ThreadsFault) -> Fault
    ensures { IsUnhosted result ⊎ IsUnopened result }
{
    match fault {
        ThreadsFault::Boot(fault) => refuse_boot(alloc, fault),
        ThreadsFault::Start => Fault::Host {
            number: 9,
            reason: "a thread did not start",
        },
        ThreadsFault::Unlike => Fault::Host {
            number: 10,
            reason: "the run is not the one that the journal of its threads tells",
        },
    }
}
