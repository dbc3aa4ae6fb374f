//! What is said under the lock, in the transcripts of both.

ghost use Rattle.std.specs.Prelude.{◌≡◌, ◌++◌, ◌∷◌, [], OnOk};
ghost use Rattle.lx_abi.specs.declared.ptrace.Reply.TheVariants.{OutOfTurns as Out_of_turns};
ghost use Rattle.transcript.specs.declared.said.Said.TheVariants.{Asked, Answered};

use crate::held::Memory;
use lx_abi::{Reply, Request};
use transcript::{Naming, Record, Transcript};

/// A request is said, where both know the same.
pub fn ask<J: Naming>(
    book: &Record<J>,
    said: &mut Transcript<J>,
    mine: &mut Transcript<J>,
    request: &Request,
) -> Result<(), Memory>
    ensures said { OnOk result (said.new ≡ said.old ++ Asked request.now ∷ []) }
    ensures mine { OnOk result (mine.new ≡ mine.old ++ Asked request.now ∷ []) }
{
    if !mine.agrees(said) || !mine.ask(book, request) {
        return Err(Memory);
    }
    *said = mine.again();
    Ok(())
}

/// A reply is said, where both know the same.
pub fn answer<J: Naming>(
    book: &Record<J>,
    said: &mut Transcript<J>,
    mine: &mut Transcript<J>,
    reply: &Reply,
) -> Result<(), Memory>
    ensures said { OnOk result (said.new ≡ said.old ++ Answered reply.now ∷ []) }
    ensures mine { OnOk result (mine.new ≡ mine.old ++ Answered reply.now ∷ []) }
{
    if !mine.agrees(said) || !mine.answer(book, reply) {
        return Err(Memory);
    }
    *said = mine.again();
    Ok(())
}

/// A request is said, and that it is out of turns.
pub fn refuse<J: Naming>(
    book: &Record<J>,
    said: &mut Transcript<J>,
    mine: &mut Transcript<J>,
    request: &Request,
) -> Result<(), Memory>
    ensures said { OnOk result (said.new ≡ said.old ++ Asked request.now ∷ Answered Out_of_turns ∷ []) }
    ensures mine { OnOk result (mine.new ≡ mine.old ++ Asked request.now ∷ Answered Out_of_turns ∷ []) }
{
    let reply = Reply::OutOfTurns;
    if ask(book, said, mine, request).is_err() {
        drop(reply);
        return Err(Memory);
    }
    let answered = answer(book, said, mine, &reply);
    drop(reply);
    answered
}
