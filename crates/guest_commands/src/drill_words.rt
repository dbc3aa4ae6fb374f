//! Drills by words.

use crate::drills::Drill;
use front_end::{Fault, Shown};
use std::alloc::{AllocError, Global};

/// The parts of a word between its colons.
fn parts(word: &str) -> Option<(&str, &str, &str)> {
    let (kind, rest) = word.split_once(':')?;
    let (reply, with) = rest.split_once(':')?;
    Some((kind, reply, with))
}

/// The drill that a word asks for, if it is one.
fn read_drill(alloc: Global, word: &str) -> Result<Option<Drill>, AllocError> {
    let Some((kind, reply, with)) = parts(word) else {
        return Ok(None);
    };
    let Ok(reply) = reply.parse::<u64>() else {
        return Ok(None);
    };
    match kind {
        "cut" => Ok(
            with.parse::<usize>()
                .ok()
                .map(|length| Drill::Cut { reply, length }),
        ),
        "renumber" => Ok(
            with.parse::<u64>()
                .ok()
                .map(|number| Drill::Renumber { reply, number }),
        ),
        "replace" => match hex::decode(alloc, with) {
            Ok(frame) => Ok(Some(Drill::Replace { reply, frame })),
            Err(hex::FromHexError::OutOfMemory) => Err(AllocError),
            Err(_) => Ok(None),
        },
        _ => Ok(None),
    }
}

/// The drills that words ask for.
pub fn read_drills(alloc: Global, words: &[&str]) -> Result<Vec<Drill>, Fault> {
    let mut drills = Vec::new(alloc);
    for word in words.iter().copied() {
        match read_drill(alloc, word)? {
            Some(drill) => drills.push(drill)?,
            None => {
                return Err(Fault::usage(format!(in alloc;
                    "{}: no drill: there are cut:N:BYTES, renumber:N:NUMBER and replace:N:HEX",
                    Shown(word)
                )));
            }
        }
    }
    Ok(drills)
}
