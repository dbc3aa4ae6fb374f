//! Orders of turns as files.

use front_end::{Fault, Shown, check_file, replace_file};
use lx_abi::Word;
use std::alloc::{AllocError, Global};
use std::io;
use std::rt::Files;

/// The file of the result with this number, the first being 1.
pub fn path_of(alloc: Global, folder: &str, number: usize) -> Result<String, AllocError> {
    format!(in alloc; "{folder}/{number}.turns")
}

/// A word as a schedule has it.
fn push_word(text: &mut String, alloc: Global, word: Word) -> Result<(), AllocError> {
    let word = match word {
        Word::Turn { pid } => format!(in alloc; "{pid}")?,
        Word::TurnAlone { pid } => format!(in alloc; "-{pid}")?,
        Word::Serve => format!(in alloc; "s")?,
        Word::UntilReturn { pid } => format!(in alloc; "{pid}.")?,
    };
    text.push_str(word.as_str())
}

/// The words of a schedule, with this between them.
pub fn text_of(alloc: Global, words: &[Word], between: char) -> Result<String, AllocError> {
    let mut text = String::new(alloc);
    for (place, word) in words.iter().enumerate() {
        if place > 0 {
            text.push(between)?;
        }
        push_word(&mut text, alloc, *word)?;
    }
    Ok(text)
}

fn unkept(alloc: Global, path: &str, error: io::Error) -> Fault {
    match format!(in alloc; "--keep {}", Shown(path)) {
        Ok(what) => Fault::file(alloc, what, error),
        Err(error) => Fault::from(error),
    }
}

/// The file of the first result can be written. Nothing is changed.
pub fn check_kept<R: Files + AllocGlobal>(rt: &R, folder: &str) -> Result<(), Fault> {
    let path = path_of(rt.alloc(), folder, 1)?;
    match check_file(rt, path.as_str()) {
        Ok(()) => Ok(()),
        Err(error) => Err(unkept(rt.alloc(), path.as_str(), error)),
    }
}

/// Writes the words of a schedule to the file of a result, a word a line, in the place of an older one.
pub fn keep<R: Files + AllocGlobal>(
    rt: &R,
    folder: &str,
    number: usize,
    words: &[Word],
) -> Result<(), Fault> {
    let alloc = rt.alloc();
    let path = path_of(alloc, folder, number)?;
    let mut text = text_of(alloc, words, '\n')?;
    text.push('\n')?;
    match replace_file(rt, path.as_str(), text.as_bytes()) {
        Ok(()) => Ok(()),
        Err(error) => Err(unkept(alloc, path.as_str(), error)),
    }
}
