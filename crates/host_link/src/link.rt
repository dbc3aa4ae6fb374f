//! Links to a host.

ghost use Rattle.std.specs.Prelude.{◌≡◌, false, ℕ, ◌+◌, ◌≤◌, ◌^◌, Ok, Err, OnOk, is_ok, if◌then◌else◌};

use crate::fault::LinkFault;
use lx_abi::{Reply, Request};

/// The most replies that a link gives.
pub const MOST_REPLIES: u64 = 1 << 40;

/// A link carries requests to a host, one at a time, and its replies back.
pub trait Link {
    ghost use Rattle.std.specs.Prelude.{Bool, Result};
    ghost use Rattle.lx_abi.specs.declared.ptrace.Request.{Request};
    ghost use Rattle.lx_abi.specs.declared.ptrace.Reply.{Reply};
    ghost use Rattle.host_link.specs.declared.fault.LinkFault.{LinkFault};
    ghost use Rattle.host_link.specs.declared.fault.LinkFault.TheVariants.{Ended, TooMany};

    /// What a call may do: the link before, the request, the answer, and the link after. A link in memory knows its
    /// host; a pipe knows the bytes that came.
    ghost answers: { Self → Request → Result Reply LinkFault → Self → Type 0 };

    /// How many replies it has given.
    ghost given: { Self → ℕ };

    /// 0, and 1 from the first fault on.
    ghost broken: { Self → ℕ };

    /// Wait was asked ahead of the next call.
    ghost waits: { Self → Bool } = { λ _. false };

    /// Asks the host, and gives its reply.
    fn call(&mut self, request: Request) -> Result<Reply, LinkFault>
        ensures answered { answers self.old request result self.new }
        ensures counted { given self.new ≡ given self.old + (if is_ok result then 1 else 0) }
        ensures within { OnOk result (given self.new ≤ 2 ^ 40) }
        ensures too_many { result ≡ Err TooMany → given self.old ≡ 2 ^ 40 }
        ensures full { given self.old ≡ 2 ^ 40 → broken self.old ≡ 0 → result ≡ Err TooMany }
        ensures faults { broken self.new ≡ (if is_ok result then broken self.old else 1) }
        ensures for_good { broken self.old ≡ 1 → result ≡ Err Ended }
        ensures alone { OnOk result (waits self.new ≡ false) };

    /// Asks a request that Wait is asked behind, whatever it is replied: a link may send both at once. The next call is
    /// to ask Wait, else it fails.
    fn call_before_wait(&mut self, request: Request) -> Result<Reply, LinkFault>
        ensures answered { answers self.old request result self.new }
        ensures counted { given self.new ≡ given self.old + (if is_ok result then 1 else 0) }
        ensures within { OnOk result (given self.new ≤ 2 ^ 40) }
        ensures too_many { result ≡ Err TooMany → given self.old ≡ 2 ^ 40 }
        ensures full { given self.old ≡ 2 ^ 40 → broken self.old ≡ 0 → result ≡ Err TooMany }
        ensures faults { broken self.new ≡ (if is_ok result then broken self.old else 1) }
        ensures for_good { broken self.old ≡ 1 → result ≡ Err Ended }
    {
        self.call(request)
    }

    /// How many replies it has given, at most 2^40.
    fn asked(&self) -> u64
        ensures { result ≡ given self.now };

    /// 0, and 1 from the first fault on.
    fn faults(&self) -> u64
        ensures { result ≡ broken self.now };
}
