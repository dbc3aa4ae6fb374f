//! Which kinds of replies answer a request.

ghost use Rattle.std.specs.Prelude.{◌≡◌};
ghost use Rattle.pt_model.specs.Admissible.{answers as answers_model};
ghost use Rattle.host_link.specs.Kinds as spec;

use lx_abi::{Ask, Reply, Request};

/// What a reply tells, whatever its values.
#[derive(Clone, Copy, Debug, PartialEq, Eq)]
pub enum Kind {
    Done,
    Status,
    Registers,
    Bytes,
    Message,
    Info,
    Outcome,
    Errno,
    OutOfTurns,
    Refused,
}

fn kind_of(reply: &Reply) -> Kind
    ensures { result ≡ spec.kind_of reply.now }
{
    match reply {
        Reply::Done => Kind::Done,
        Reply::Status { .. } => Kind::Status,
        Reply::Registers { .. } => Kind::Registers,
        Reply::Bytes { .. } => Kind::Bytes,
        Reply::Message { .. } => Kind::Message,
        Reply::Info { .. } => Kind::Info,
        Reply::Outcome { .. } => Kind::Outcome,
        Reply::Errno { .. } => Kind::Errno,
        Reply::OutOfTurns => Kind::OutOfTurns,
        Reply::Refused { .. } => Kind::Refused,
    }
}

/// The kind of the reply to a ptrace(2) request that succeeds.
fn kind_wanted(ask: &Ask) -> Kind
    ensures { result ≡ spec.kind_wanted ask.now }
{
    match ask {
        Ask::Seize { .. } => Kind::Done,
        Ask::SetOptions { .. } => Kind::Done,
        Ask::GetRegs => Kind::Registers,
        Ask::SetRegs { .. } => Kind::Done,
        Ask::Peek { .. } => Kind::Bytes,
        Ask::Syscall { .. } => Kind::Done,
        Ask::EventMsg => Kind::Message,
        Ask::SigInfo => Kind::Info,
        Ask::Listen => Kind::Done,
    }
}

fn is_answer(request: &Request, kind: Kind) -> bool
    ensures { result ≡ spec.is_answer request.now kind }
{
    match request {
        Request::Boot { .. } => kind == Kind::Done || kind == Kind::Refused,
        Request::Wait => kind == Kind::Status || kind == Kind::Errno || kind == Kind::OutOfTurns,
        Request::To { ask, .. } => {
            kind == kind_wanted(ask) || kind == Kind::Errno || kind == Kind::OutOfTurns
        }
        Request::Outcome => kind == Kind::Outcome || kind == Kind::OutOfTurns,
    }
}

/// Whether the reply is of a kind that answers the request.
pub(crate) fn answers(request: &Request, reply: &Reply) -> bool
    ensures { result ≡ answers_model request.now reply.now }
{
    is_answer(request, kind_of(reply))
}
