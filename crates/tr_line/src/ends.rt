//! The line of a process's end.

ghost use Rattle.std.specs.Prelude.{◌≡◌, ◌++◌, OnOk};
ghost use Rattle.tr_line.specs.Ends as spec;

use crate::signals::signal;
use crate::text::Text;
use std::alloc::AllocError;

/// Of a wait word: a signal's number, or an exit code times 256.
#[tactic(auto, unfolding(crate::specs::Ends::exit_line))]
pub(crate) fn exit_line(out: &mut Text, word: u32) -> Result<(), AllocError>
    ensures { OnOk result (out.new ≡ out.old ++ spec.exit_line word) }
{
    if word < 256 && 0 < word {
        out.put("+++ killed by ")?;
        signal(out, u64::from(word))?;
    } else {
        out.put("+++ exited with ")?;
        out.decimal(u64::from(word / 256))?;
    }
    out.put(" +++\n")
}
