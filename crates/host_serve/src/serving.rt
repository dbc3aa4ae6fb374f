//! The conversation of a host with its tracer.

ghost use Rattle.std.specs.Prelude.{◌≡◌, ◌+◌, ℕ, OnOk};
ghost use Rattle.host_serve.specs.Serving.{CanAnswer, Finishes, IsDue, Responds, Served, outcome_at};
ghost use Rattle.host_serve.specs.Keeping.{IsOut};

use crate::answering::send;
use crate::ends::{Ahead, Outlet};
use crate::fault::ServeFault;
use crate::requests::{is_boot, next_request};
use crate::session::{Phase, Session};
use containers::{Bytes, Seq};
use host_wire::Feed;
use lx_abi::{Outcome, OutcomeFiles, Reply, Request};
use lx_kernel::Failed;
use std::alloc::Global;

/// The most frames that a host serves.
const MOST_FRAMES: u64 = 1 << 40;

/// How many bytes are read at a time, at most.
const ROOM: usize = 65_536;

/// The reply to the first request, which is to be Boot.
fn boot<S: Session + Drop>(
    alloc: Global,
    phase: &mut Phase<S>,
    request: Request,
) -> Result<Reply, ServeFault>
    requires { phase.old ≡ Phase.Waiting }
    ensures responds { Responds S.boots S.answers S.fails phase.old request result phase.new }
    ensures due { OnOk result (IsDue S.ready S.given phase.new 2) }
{
    match request {
        Request::Boot { boot, limit, words } => match S::boot(
            alloc,
            boot.into_inner(),
            limit,
            words,
        ) {
            Ok(session) => {
                *phase = Phase::Serving(session);
                Ok(Reply::Done)
            }
            Err(fault) => {
                *phase = Phase::Refused;
                Ok(Reply::Refused { fault })
            }
        },
        Request::Wait => Err(ServeFault::Order),
        Request::To { .. } => Err(ServeFault::Order),
        Request::Outcome => Err(ServeFault::Order),
    }
}

/// What a session replies, which is where it stands.
fn answer<S: Session>(session: &mut S, request: Request) -> Result<Reply, ServeFault>
    requires { CanAnswer S.ready S.given (Phase.Serving session.old) }
    ensures responds { Responds S.boots S.answers S.fails (Phase.Serving session.old) request result
        (Phase.Serving session.new) }
    ensures due { (number : ℕ) → OnOk result (IsDue S.ready S.given (Phase.Serving session.old) number
        → IsDue S.ready S.given (Phase.Serving session.new) (number + 1)) }
{
    if is_boot(&request) {
        return Err(ServeFault::Order);
    }
    match session.answer(request) {
        Ok(reply) => Ok(reply),
        Err(Failed) => Err(ServeFault::Failed),
    }
}

fn respond<S: Session + Drop>(
    alloc: Global,
    phase: &mut Phase<S>,
    request: Request,
) -> Result<Reply, ServeFault>
    requires { CanAnswer S.ready S.given phase.old }
    ensures responds { Responds S.boots S.answers S.fails phase.old request result phase.new }
    ensures due { (number : ℕ) → OnOk result (IsDue S.ready S.given phase.old number
        → IsDue S.ready S.given phase.new (number + 1)) }
{
    match phase {
        Phase::Waiting => boot(alloc, phase, request),
        Phase::Refused => Err(ServeFault::Order),
        Phase::Serving(session) => answer(session, request),
    }
}

/// What is left of the run, and nothing before a boot was accepted.
fn outcome_of<S: Session + Drop>(alloc: Global, phase: &Phase<S>) -> Result<Outcome, ServeFault>
    ensures { Finishes result (outcome_at S.left phase.now) }
{
    match phase {
        Phase::Waiting | Phase::Refused => Ok(Outcome {
            console: Bytes::new(alloc),
            files: OutcomeFiles::new(Seq::new(alloc)),
            ended: Seq::new(alloc),
        }),
        Phase::Serving(session) => match session.outcome() {
            Ok(outcome) => Ok(outcome),
            Err(_) => Err(ServeFault::Failed),
        },
    }
}

/// Serves until the end of input, within a frame too, and gives what is left of the run then. The reader is given up
/// after `most` reads without a whole frame. Each time that a request is read, all replies have gone out, or that
/// request has come whole.
pub fn serve_session<S: Session + Drop, R: Ahead, W: Outlet>(
    alloc: Global,
    reader: &mut R,
    writer: &mut W,
    most: u64,
) -> Result<Outcome, ServeFault>
    requires out { IsOut (W.kept writer.old) (R.ahead reader.old) }
    ensures { Served most S.boots S.answers S.left (R.input reader.old) (R.input reader.new) (W.contents writer.old)
        (W.contents writer.new) (W.puts writer.old) (W.puts writer.new) result (W.broken writer.new) }
{
    let Ok(mut room) = Vec::from_elem(alloc, 0u8, ROOM) else {
        return Err(ServeFault::Failed);
    };
    let mut feed = Feed::new(alloc);
    let mut phase: Phase<S> = Phase::Waiting;
    for number in 1..MOST_FRAMES + 1 {
        let next = next_request(
            reader,
            &*writer,
            &mut feed,
            room.as_mut_slice(),
            most,
            number,
        );
        let request = match next {
            Ok(Some(request)) => request,
            Ok(None) => return outcome_of(alloc, &phase),
            Err(fault) => return Err(fault),
        };
        let reply = match respond(alloc, &mut phase, request) {
            Ok(reply) => reply,
            Err(fault) => return Err(fault),
        };
        match send(alloc, &*reader, writer, number, reply) {
            Ok(()) => {}
            Err(fault) => return Err(fault),
        }
    }
    Err(ServeFault::Read)
}
