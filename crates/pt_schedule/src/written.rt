//! The words of a schedule, written as `parse_words` reads them.

ghost use Rattle.std.specs.Prelude.{◌≡◌, ◌++◌, ◌∷◌, [], OnOk, IfOk, Some, string_bytes};
ghost use Rattle.std.specs.Io.KnownBytes.{Appends};
ghost use Rattle.lx_abi.specs.Words.{words_of};
ghost use Rattle.pt_schedule.specs.Written.{event_word, words_text, IsNumbered};

use lx_abi::{Event, Word};
use std::alloc::{AllocError, Global};
use std::fmt;
use std::io::{self, Write};

/// The text of a word: `s`, `-p`, `p.` or `p`.
#[derive(Clone, Copy, Debug, PartialEq, Eq)]
pub struct WordText(pub Word);

impl fmt::Display for WordText {
    ghost use Rattle.std.specs.Prelude.{Some};
    ghost use Rattle.pt_schedule.specs.Written.{word_text};

    ghost output = { λ text. Some (word_text text.0) };

    fn fmt<W: fmt::Write>(&self, f: &mut fmt::Formatter<W>) -> fmt::Result {
        match self.0 {
            Word::Turn { pid } => write!(f, "{pid}"),
            Word::TurnAlone { pid } => write!(f, "-{pid}"),
            Word::Serve => f.write_str("s"),
            Word::UntilReturn { pid } => write!(f, "{pid}."),
        }
    }
}

/// The word that gives this event alone.
pub fn event_word(event: Event) -> Word
    ensures { result ≡ event_word event }
{
    match event {
        Event::Turn { pid } => Word::TurnAlone { pid },
        Event::Serve => Word::Serve,
    }
}

/// Writes a word on a line of its own.
pub fn write_word<W: Write>(writer: &mut W, word: Word) -> io::Result<()>
    ensures { OnOk result (Appends (W.contents writer.old) (W.contents writer.new) (words_text (word ∷ []))) }
{
    writeln!(writer, "{}", WordText(word))
}

/// A word more, on a line of its own.
fn push_word(text: &mut String, word: Word) -> Result<(), AllocError>
    ensures text { OnOk result (string_bytes text.new ≡ string_bytes text.old ++ words_text (word ∷ [])) }
    ensures number { IsNumbered word }
{
    writeln!(text, "{}", WordText(word))
}

/// Words a line each; `parse_words` reads them back.
pub fn written_words(alloc: Global, words: &[Word]) -> Result<String, AllocError>
    ensures text { IfOk result (λ text. string_bytes text ≡ words_text words.now) }
    ensures read { IfOk result (λ text. words_of (string_bytes text) ≡ Some words.now) }
{
    let mut text = String::new(alloc);
    for word in words {
        push_word(&mut text, *word)?;
    }
    Ok(text)
}
