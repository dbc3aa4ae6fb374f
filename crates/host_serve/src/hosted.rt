//! The traced kernel, served.

ghost use Rattle.std.specs.Prelude.{◌≡◌, ◌≤◌, ◌^◌, IfOk};
ghost use Rattle.host_serve.specs.Hosted.{BootsAs, Served_host};
ghost use Rattle.host_serve.specs.Keeping.{IsOut};

use crate::ends::{Ahead, Outlet};
use crate::fault::ServeFault;
use crate::serving::serve_session;
use crate::session::Session;
use containers::Seq;
use host_link::laws::{idle_links_fail_for_memory, replies_leave_links_idle};
use host_link::{Link, LocalLink};
use host_wire::MOST_READS;
use lx_abi::{Boot, Outcome, Reply, Request, Word};
use lx_boot::BootFault;
use lx_kernel::Failed;
use pt_kernel::{Host, Schedule};
use std::alloc::{AllocError, Global};

fn copied(alloc: Global, words: &Seq<Word>) -> Result<Vec<Word>, AllocError>
    ensures { IfOk result (λ copy. copy.items ≡ words.now) }
{
    let mut copy = Vec::new(alloc);
    copy.extend_from_slice(words.as_slice())?;
    Ok(copy)
}

/// The host of a boot, as a link that nothing was asked yet.
fn booted(alloc: Global, boot: Boot, limit: u64, words: Seq<Word>) -> Result<LocalLink, BootFault>
    ensures { BootsAs boot limit words result }
{
    let host = match Host::boot(alloc, boot) {
        Ok(host) => host,
        Err(fault) => return Err(fault),
    };
    match copied(alloc, &words) {
        Ok(words) => Ok(LocalLink::new(host, Schedule::words(words, limit))),
        Err(_) => {
            // An implicit drop of a host takes the prover many minutes.
            drop(host);
            Err(BootFault::Memory)
        }
    }
}

impl Session for LocalLink {
    ghost use Rattle.host_link.specs.LocalLinks.{given_of};
    ghost use Rattle.host_serve.specs.Hosted.{Answers_by, Boots_by, Fails_by, IsReady, left_by};

    ghost boots = { λ boot limit words result. Boots_by boot limit words result };

    ghost answers = { λ a q r b. Answers_by a q r b };

    ghost fails = { λ a q b. Fails_by a q b };

    ghost left = { left_by };

    ghost ready = { λ l. IsReady l };

    ghost given = { λ l. given_of l };

    fn boot(alloc: Global, boot: Boot, limit: u64, words: Seq<Word>) -> Result<Self, u8> {
        match booted(alloc, boot, limit, words) {
            Ok(link) => Ok(link),
            Err(fault) => Err(fault.number()),
        }
    }

    fn answer(&mut self, request: Request) -> Result<Reply, Failed> {
        replies_leave_links_idle();
        idle_links_fail_for_memory();
        match self.call(request) {
            Ok(reply) => Ok(reply),
            Err(_) => Err(Failed),
        }
    }

    fn outcome(&self) -> Result<Outcome, AllocError> {
        self.host().outcome()
    }
}

/// Serves the traced kernel until the end of input, within a frame too, and gives the outcome of the run so far, the
/// empty one before a boot was accepted.
///
/// However the input is cut, what is written is the frames of the replies that a [`LocalLink`] of that boot gives to
/// the requests after it.
pub fn serve<R: Ahead, W: Outlet>(
    alloc: Global,
    reader: &mut R,
    writer: &mut W,
) -> Result<Outcome, ServeFault>
    requires out { IsOut (W.kept writer.old) (R.ahead reader.old) }
    ensures { Served_host (2 ^ 32) (R.input reader.old) (R.input reader.new) (W.contents writer.old)
        (W.contents writer.new) (W.puts writer.old) (W.puts writer.new) result (W.broken writer.new) }
{
    serve_bounded(alloc, reader, writer, MOST_READS)
}

/// The same, where a reader is given up after so many reads, from 1 to 2^32, without a whole frame.
#[tactic(auto, unfolding(crate::specs::Hosted::Served_host))]
pub fn serve_bounded<R: Ahead, W: Outlet>(
    alloc: Global,
    reader: &mut R,
    writer: &mut W,
    most: u64,
) -> Result<Outcome, ServeFault>
    requires some { 1 ≤ most }
    requires few { most ≤ 2 ^ 32 }
    requires out { IsOut (W.kept writer.old) (R.ahead reader.old) }
    ensures { Served_host most (R.input reader.old) (R.input reader.new) (W.contents writer.old)
        (W.contents writer.new) (W.puts writer.old) (W.puts writer.new) result (W.broken writer.new) }
{
    serve_session::<LocalLink, R, W>(alloc, reader, writer, most)
}
