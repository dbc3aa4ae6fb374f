//! Requests that are put one at a time, and turns while none is pending.

ghost use Rattle.std.specs.Prelude.{◌≡◌, false};
ghost use Rattle.pt_kernel.specs.Hosts.{is_boot};

use crate::local::booted;
use lx_abi::{Ask, Event, Reply, Request};
use lx_kernel::Failed;
use pt_kernel::Host;
use std::alloc::Global;
use std::test::Fail;
use turn_rows::TurnRow;

/// The request that a letter stands for: Seize, GetRegs, Syscall, Listen or Wait.
fn request(letter: char) -> Request
    ensures { is_boot result ≡ false }
{
    let ask = match letter {
        'z' => Ask::Seize { options: 0x11 },
        'r' => Ask::GetRegs,
        'g' => Ask::Syscall { signal: 0 },
        'l' => Ask::Listen,
        _ => return Request::Wait,
    };
    Request::To { pid: 1, ask }
}

/// A letter for a reply.
fn shown(reply: &Reply) -> char {
    match reply {
        Reply::Done => 'd',
        Reply::Status { .. } => 's',
        Reply::Registers { .. } => 'r',
        Reply::Errno { .. } => 'e',
        _ => '?',
    }
}

fn answer(host: &mut Host, event: Event) -> Result<Option<Reply>, Failed> {
    host.event(event)
}

fn event(host: &mut Host, event: Event) -> char {
    let answer = answer(host, event);
    let letter = match &answer {
        Ok(Some(reply)) => shown(reply),
        Ok(None) => '-',
        Err(_) => 'f',
    };
    drop(answer);
    letter
}

fn ask(host: &mut Host, letter: char) -> char {
    match host.ask(request(letter)) {
        Ok(()) => '.',
        Err(_) => 'b',
    }
}

/// A turn of process 1 (t), a Serve (S), or a request that is put: a letter for what it gives.
fn step(host: &mut Host, letter: char) -> char {
    match letter {
        't' => event(host, Event::Turn { pid: 1 }),
        'S' => event(host, Event::Serve),
        _ => ask(host, letter),
    }
}

/// The steps give these letters.
fn give(host: &mut Host, steps: &str, letters: &str) -> bool {
    for (letter, gives) in steps.chars().zip(letters.chars()) {
        if step(host, letter) != gives {
            return false;
        }
    }
    true
}

/// The effective turns are so many of process 1.
fn has_turned(host: &Host, turns: u64) -> bool {
    let rows = host.turns().rows();
    rows.len() == 1 && matches!(&rows[0], TurnRow::Run { pid: 1, turns: made } if *made == turns)
}

/// Steps, and what they give.
const ROWS: [(&str, &str); 9] = [
    // Nobody is traced: Wait is answered ECHILD, and no Seize was done.
    ("SwzgtS", "-.bb-e"),
    ("rS", ".e"),
    ("zS", ".d"),
    ("wzS", ".bs"),
    // Process 1 leaves Born, enters execve and is held there.
    ("gSttt", ".d---"),
    ("SrS", "-.r"),
    // Listen is EIO but at a group stop.
    ("lS", ".e"),
    ("wS", ".s"),
    // No status is left: Wait stays pending.
    ("wSzS", ".-b-"),
];

/// The steps of the first row that gives something else.
fn differing_in(host: &mut Host) -> Option<&'static str> {
    for (steps, letters) in ROWS {
        if !give(host, steps, letters) {
            return Some(steps);
        }
    }
    None
}

/// The same, and whether process 1 had two turns.
fn differing(alloc: Global) -> Result<(Option<&'static str>, bool), Fail> {
    let mut host = booted(alloc)?;
    let steps = differing_in(&mut host);
    let has_turned = has_turned(&host, 2);
    drop(host);
    Ok((steps, has_turned))
}

/// A second request is refused, and it is the first that a Serve answers. Turns come without a Wait too, up to the next
/// stop; a turn of a held process is none.
#[test]
fn one_request_at_a_time(rt: HostRuntime) -> Result<(), Fail> {
    assert_eq!(rt; differing(rt.alloc())?, (None, true));
    Ok(())
}
