//! The texts of the halves of calls.

ghost use Rattle.std.specs.Prelude.{◌≡◌, ◌≤◌, IfOk};
ghost use Rattle.tr_args.specs.Decoders.{started};
ghost use Rattle.tr_args.specs.Reads.{half_of};
ghost use Rattle.tr_args.specs.Texts.{context_of};

use crate::context::Context;
use crate::decoder::Decoder;
use lx_abi::Call;
use std::alloc::{AllocError, Global};

/// One half of a call's text: the entry, with the stack pointer, and the rest, with the result.
#[derive(Clone, Copy, Debug, PartialEq, Eq)]
pub enum Half {
    Entry { call: Call, stack: u64 },
    Exit { call: Call, result: u64 },
}

impl Half {
    /// What its text is made from, of which at most so many bytes of a string are shown.
    fn context(self, limit: u32) -> Context
        ensures context { result ≡ context_of limit (half_of self) }
        ensures most { result.most ≡ limit }
    {
        match self {
            Half::Entry { call, stack } => {
                Context::entering(call.number, call.arguments, stack, limit)
            }
            Half::Exit {
                call,
                result: value,
            } => Context::leaving(call.number, call.arguments, value, limit),
        }
    }

    /// Begins its text, of which at most so many bytes of a string are shown.
    pub fn begin(self, alloc: Global, limit: u32) -> Result<Decoder, AllocError>
        requires { limit ≤ 4096 }
        ensures { IfOk result (λ d. d ≡ started (context_of limit (half_of self))) }
    {
        Decoder::begin(alloc, self.context(limit))
    }
}
