//! The words of a schedule, read from a text.

ghost use Rattle.std.specs.Prelude.{◌≡◌, [], IfErr, MatchResult, OnOk};
ghost use Rattle.lx_abi.specs.Words as spec;

use crate::schedule::Word;
use std::alloc::Global;
use std::error::Error;
use std::fmt;

/// Why no schedule was made of a text.
#[derive(Clone, Copy, Debug, PartialEq, Eq)]
pub enum ScheduleFault {
    /// A piece of the text is no word.
    BadWord = 1,
    /// Memory was refused.
    Memory,
}

impl ScheduleFault {
    /// 1 or 2, in the order of the variants.
    pub fn number(self) -> u8
        ensures { result ≡ spec.fault_number self }
    {
        self as u8
    }
}

impl fmt::Display for ScheduleFault {
    fn fmt<W: fmt::Write>(&self, f: &mut fmt::Formatter<W>) -> fmt::Result {
        match self {
            ScheduleFault::BadWord => f.write_str("a word of the schedule is malformed"),
            ScheduleFault::Memory => f.write_str("out of memory"),
        }
    }
}

impl Error for ScheduleFault {}

/// The most digits of a process's number.
const MOST_DIGITS: usize = 10;

/// The number of a process, of 1 to 10 digits.
fn process(digits: &[char]) -> Option<u32>
    ensures { result ≡ spec.process digits.now }
{
    if digits.is_empty() || digits.len() > MOST_DIGITS {
        return None;
    }
    let mut number: u64 = 0;
    for digit in digits {
        let Some(value) = digit.to_digit(10) else {
            return None;
        };
        number = number * 10 + u64::from(value);
    }
    u32::try_from(number).ok()
}

fn read_word(piece: &[char]) -> Option<Word>
    ensures { result ≡ spec.word_of piece.now }
{
    match piece {
        ['s'] => Some(Word::Serve),
        ['-', digits @ ..] => process(digits).map(|pid| Word::TurnAlone { pid }),
        [digits @ .., '.'] => process(digits).map(|pid| Word::UntilReturn { pid }),
        digits => process(digits).map(|pid| Word::Turn { pid }),
    }
}

/// A piece ends: it is read as a word, unless it is empty.
fn end_piece(words: &mut Vec<Word>, piece: &mut Vec<char>) -> Result<(), ScheduleFault>
    ensures ok { OnOk result (spec.PieceRead words.old.items piece.old.items words.new.items) }
    ensures empty { OnOk result (piece.new.items ≡ []) }
    ensures err { IfErr result (λ e. spec.PieceRefused e piece.old.items) }
{
    if piece.is_empty() {
        return Ok(());
    }
    let Some(word) = read_word(piece.as_slice()) else {
        return Err(ScheduleFault::BadWord);
    };
    if words.push(word).is_err() {
        return Err(ScheduleFault::Memory);
    }
    piece.clear();
    Ok(())
}

/// One more character of the text.
fn read_char(
    words: &mut Vec<Word>,
    piece: &mut Vec<char>,
    character: char,
) -> Result<(), ScheduleFault>
    ensures ok { OnOk result (spec.CharRead words.old.items piece.old.items character words.new.items piece.new.items) }
    ensures err { IfErr result (λ e. spec.CharRefused e words.old.items piece.old.items character) }
{
    if character.is_whitespace() {
        return end_piece(words, piece);
    }
    if piece.push(character).is_err() {
        return Err(ScheduleFault::Memory);
    }
    Ok(())
}

/// The words of a schedule, split at white space (Unicode's `White_Space`): `p`, `-p`, `s` and `p.`, where p is
/// 1 to 10 digits, 4294967295 at most. `BadWord` where one is none of these; `Memory` only where memory was refused.
pub fn parse_words(alloc: Global, text: &str) -> Result<Vec<Word>, ScheduleFault>
    ensures { MatchResult result
        (λ words. spec.words_of text.now ≡ Some words.items) (λ e. spec.IsRefusal e (spec.words_of text.now)) }
{
    let mut words = Vec::new(alloc);
    let mut piece = Vec::new(alloc);
    for character in text.chars() {
        read_char(&mut words, &mut piece, character)?;
    }
    end_piece(&mut words, &mut piece)?;
    Ok(words)
}
