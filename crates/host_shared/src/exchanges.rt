//! What a tracer and its host have said to each other, as exchanges.

ghost use Rattle.std.specs.Prelude.{◌≡◌, ◌<◌, ◌^◌, ◌++◌, ◌∷◌, [], length};
ghost use Rattle.lx_abi.specs.declared.ptrace.Reply.{Reply};
ghost use Rattle.lx_abi.specs.declared.ptrace.Request.{Request};
ghost use Rattle.transcript.specs.declared.said.Said.TheVariants.{Asked, Answered};
ghost use Rattle.host_shared.specs.Hearing.{pairs, spoken};

use std::marker::Model;
use transcript::{Naming, Transcript};

/// Requests with their replies, which proofs alone read, and how many there are.
#[derive(Drop)]
pub struct Exchanges<J: Naming> {
    transcript: Transcript<J>,
    count: u64,
}

impl<J: Naming> Model for Exchanges<J> {
    ghost use Rattle.std.specs.Prelude.{◌≡◌, List, length};
    ghost use Rattle.lx_abi.specs.declared.ptrace.Reply.{Reply};
    ghost use Rattle.lx_abi.specs.declared.ptrace.Request.{Request};
    ghost use Rattle.host_shared.specs.Hearing.{pairs, spoken};

    ghost Value = { List (Request × Reply) };

    ghost view = { λ e. pairs e.transcript };

    ghost invariant = { λ e. (e.transcript ≡ spoken (pairs e.transcript)) × (e.count ≡ length (pairs e.transcript)) };
}

impl<J: Naming> Exchanges<J> {
    /// None, by a transcript of nothing.
    pub fn none(transcript: Transcript<J>) -> Self
        requires { transcript ≡ [] }
        ensures { result ≡ [] }
    {
        Exchanges {
            transcript,
            count: 0,
        }
    }

    /// How many there are.
    pub fn len(&self) -> u64
        ensures { result ≡ length self.now }
    {
        self.count
    }

    /// What was said.
    pub fn transcript(&self) -> &Transcript<J>
        ensures { result.now ≡ spoken self.now }
    {
        &self.transcript
    }

    /// One more, by a transcript that goes on with it.
    pub fn add(&mut self, transcript: Transcript<J>)
        requires room { length self.old < 2 ^ 40 }
        requires more { (q : Request) × (r : Reply) × (transcript ≡ spoken self.old ++ Asked q ∷ Answered r ∷ []) }
        ensures { (q : Request) (r : Reply) → transcript ≡ spoken self.old ++ Asked q ∷ Answered r ∷ []
            → self.new ≡ self.old ++ (q, r) ∷ [] }
    {
        self.transcript = transcript;
        self.count += 1;
    }
}
