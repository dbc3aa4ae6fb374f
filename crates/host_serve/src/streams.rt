//! The host over a reader and a writer of std.

ghost use Rattle.std.specs.Prelude.{◌≡◌, IfErr, IfOk};
ghost use Rattle.host_serve.specs.Streams.{Converses, ended_by};

use crate::fault::ServeFault;
use crate::hosted::serve;
use crate::replies::{Closed, Replies};
use crate::requested::Requests;
use lx_abi::Outcome;
use std::alloc::Global;
use std::io::{Read, Write};

/// A conversation that has ended, and the writer that got its replies.
#[derive(Drop)]
pub struct Conversed<O> {
    pub out: O,
    pub served: Result<Outcome, ServeFault>,
    /// All replies have gone out.
    pub is_out: bool,
}

impl<O> Conversed<O> {
    /// How it ended.
    pub fn ended(&self) -> Result<(), ServeFault>
        ensures { result ≡ ended_by self.now.served self.now.is_out }
    {
        if !self.is_out {
            return Err(ServeFault::Write);
        }
        match &self.served {
            Ok(_) => Ok(()),
            Err(fault) => Err(*fault),
        }
    }
}

/// Serves the traced kernel between a reader and a writer of std until the end of input. Requests that came together
/// are answered by one write; nothing is kept back where the next request hasn't come whole, or at the end.
pub fn serve_streams<I: Read + Drop, O: Write + Drop>(
    alloc: Global,
    input: I,
    out: O,
) -> Result<Conversed<O>, ServeFault>
    ensures conversed { IfOk result
        (λ c. Converses (I.remaining input) (O.contents out) c.served (O.contents c.out) c.is_out) }
    ensures fault { IfErr result (λ fault. fault ≡ ServeFault.Failed) }
{
    let Ok(mut requests) = Requests::new(alloc, input) else {
        return Err(ServeFault::Failed);
    };
    let Ok(mut replies) = Replies::new(alloc, out) else {
        return Err(ServeFault::Failed);
    };
    let served = serve(alloc, &mut requests, &mut replies);
    let Closed { out, is_out } = replies.close();
    Ok(Conversed {
        out,
        served,
        is_out,
    })
}
