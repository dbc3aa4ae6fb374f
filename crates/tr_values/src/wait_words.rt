//! The word that wait4 writes.

ghost use Rattle.std.specs.Prelude.{◌≡◌, ◌≤◌, length};
ghost use Rattle.tr_values.specs.WaitWords as spec;
ghost use Rattle.tr_values.specs.Sheets.{Leaves};

use crate::numbers;
use crate::sheet::{Needed, Sheet};
use crate::signals::bare_signal;
use crate::structs::{half_at, struct_at};

fn exited(sheet: &mut Sheet<'_>, word: u64) -> Result<(), Needed>
    ensures { Leaves result sheet.new (spec.exited word sheet.old) }
{
    sheet.put("[{WIFEXITED(s) && WEXITSTATUS(s) == ")?;
    sheet.decimal(word / 256)?;
    sheet.put("}]")
}

fn signalled(sheet: &mut Sheet<'_>, word: u64) -> Result<(), Needed>
    ensures { Leaves result sheet.new (spec.signalled word sheet.old) }
{
    sheet.put("[{WIFSIGNALED(s) && WTERMSIG(s) == SIG")?;
    bare_signal(sheet, word)?;
    sheet.put("}]")
}

fn stopped(sheet: &mut Sheet<'_>, word: u64) -> Result<(), Needed>
    ensures { Leaves result sheet.new (spec.stopped word sheet.old) }
{
    sheet.put("[{WIFSTOPPED(s) && WSTOPSIG(s) == SIG")?;
    bare_signal(sheet, word / 256)?;
    sheet.put("}]")
}

fn unnamed(sheet: &mut Sheet<'_>, word: u64) -> Result<(), Needed>
    ensures { Leaves result sheet.new (spec.unnamed word sheet.old) }
{
    sheet.put("[")?;
    numbers::hex(sheet, word)?;
    sheet.put("]")
}

fn is_stop_word(word: u64) -> bool
    ensures { result ≡ spec.is_stop_word word }
{
    word % 256 == 0x7f && 0 < word / 256 && word / 256 < 32
}

/// An exit code, the signal that ended the child or stopped it, that it was continued, or none of these.
#[tactic(auto, unfolding(crate::specs::WaitWords::wait_word))]
fn wait_word(sheet: &mut Sheet<'_>, word: u64) -> Result<(), Needed>
    ensures { Leaves result sheet.new (spec.wait_word word sheet.old) }
{
    if word % 256 == 0 && word < 65536 {
        exited(sheet, word)
    } else if 0 < word && word < 32 {
        signalled(sheet, word)
    } else if is_stop_word(word) {
        stopped(sheet, word)
    } else if word == 0xffff {
        sheet.put("[{WIFCONTINUED(s)}]")
    } else {
        unnamed(sheet, word)
    }
}

fn word_read(sheet: &mut Sheet<'_>, bytes: &[u8]) -> Result<(), Needed>
    requires { 4 ≤ length bytes.now }
    ensures { Leaves result sheet.new (spec.word_read bytes.now sheet.old) }
{
    wait_word(sheet, half_at(bytes, 0))
}

#[tactic(auto, unfolding(crate::specs::WaitWords::wait_word_at))]
fn wait_word_at(sheet: &mut Sheet<'_>, address: u64) -> Result<(), Needed>
    ensures { Leaves result sheet.new (spec.wait_word_at address sheet.old) }
{
    struct_at!(sheet, address, 4, word_read)
}

/// The word in memory, or its place where no child was found.
pub fn wait_status(sheet: &mut Sheet<'_>, address: u64, found: Option<u64>) -> Result<(), Needed>
    ensures { Leaves result sheet.new (spec.wait_status address found sheet.old) }
{
    match found {
        Some(0) => numbers::pointer(sheet, address),
        _ => wait_word_at(sheet, address),
    }
}
