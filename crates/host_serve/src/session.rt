//! Who answers the requests.

ghost use Rattle.std.specs.Prelude.{◌≡◌, ◌+◌, ◌<◌, ◌^◌, false, IfOk, OnOk, OnErr};
ghost use Rattle.pt_kernel.specs.Hosts.{is_boot};

use containers::Seq;
use lx_abi::{Boot, Outcome, Reply, Request, Word};
use lx_kernel::Failed;
use std::alloc::{AllocError, Global};

/// A host that has booted, and the schedule that it follows between a request and its reply.
pub trait Session: Sized {
    ghost use Rattle.std.specs.Prelude.{ℕ, List, Result};
    ghost use Rattle.lx_abi.specs.declared.boot.Boot.{Boot};
    ghost use Rattle.lx_abi.specs.declared.schedule.Word.{Word};
    ghost use Rattle.lx_abi.specs.declared.ptrace.Request.{Request};
    ghost use Rattle.lx_abi.specs.declared.ptrace.Reply.{Reply};
    ghost use Rattle.lx_abi.specs.declared.outcome.Outcome.{Outcome};

    /// What a boot, with so many events and these words of a schedule, leads to: a session, or the number of
    /// the fault that refuses it.
    ghost boots: { Boot → ℕ → List Word → Result Self ℕ → Type 0 };

    /// The session before, the request, the reply, and the session after.
    ghost answers: { Self → Request → Reply → Self → Type 0 };

    /// The session before, the request that no memory was left for, and the session after.
    ghost fails: { Self → Request → Self → Type 0 };

    /// What is left of the run.
    ghost left: { Self → Outcome };

    /// It can answer a request.
    ghost ready: { Self → Type 0 };

    /// How many requests it has answered.
    ghost given: { Self → ℕ };

    fn boot(alloc: Global, boot: Boot, limit: u64, words: Seq<Word>) -> Result<Self, u8>
        ensures booted { boots boot limit words result }
        ensures able { IfOk result ready }
        ensures first { IfOk result (λ session. given session ≡ 0) };

    /// Answers one of at most 2^40 requests; none after a failure.
    fn answer(&mut self, request: Request) -> Result<Reply, Failed>
        requires no_boot { is_boot request ≡ false }
        requires able { ready self.old }
        requires few { given self.old < 2 ^ 40 }
        ensures answered { IfOk result (λ reply. answers self.old request reply self.new) }
        ensures still_able { OnOk result (ready self.new) }
        ensures counted { OnOk result (given self.new ≡ given self.old + 1) }
        ensures failed { OnErr result (fails self.old request self.new) };

    fn outcome(&self) -> Result<Outcome, AllocError>
        ensures { IfOk result (λ outcome. outcome ≡ left self.now) };
}

/// Where a conversation stands.
#[derive(Drop)]
pub enum Phase<S> {
    /// No Boot has come.
    Waiting,
    /// A Boot was refused.
    Refused,
    Serving(S),
}
