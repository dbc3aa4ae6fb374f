//! Schedules by words.

ghost use Rattle.std.specs.Prelude.{IfErr, IfOk, option_map};
ghost use Rattle.front_end.specs.Refusals.{RefusesSchedule};
ghost use Rattle.front_end.specs.Schedules.{IsSchedule};

use crate::fault::Fault;
use crate::reading::read_text;
use crate::shown::Shown;
use lx_abi::{ScheduleFault, Word, parse_words};
use std::rt::Files;

/// The most bytes of a schedule.
const MOST_WORDS: u64 = 67_108_864;

/// The words in the file after `--turns`; none where no file is named.
pub fn read_turns<R: Files + AllocGlobal>(rt: &R, path: Option<&str>) -> Result<Vec<Word>, Fault>
    ensures words { IfOk result
        (λ turns. IsSchedule R.File.remaining (option_map (λ path. path.now) path.entry) turns.items) }
    ensures refused { IfErr result (RefusesSchedule (option_map (λ path. path.now) path.entry)) }
{
    let alloc = rt.alloc();
    let Some(path) = path else {
        return Ok(Vec::new(alloc));
    };
    let text = read_text(rt, "--turns ", path, MOST_WORDS)?;
    match parse_words(alloc, text.as_str()) {
        Ok(words) => Ok(words),
        Err(ScheduleFault::Memory) => Err(Fault::Memory),
        Err(fault) => Err(Fault::about(
            alloc,
            "--turns ",
            format!(in alloc; "{}: {fault}", Shown(path)),
        )),
    }
}
