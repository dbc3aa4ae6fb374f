//! A law of traces, as the contract of a function with an empty body: call it to cite it.

ghost use Rattle.plain_trace.specs.Laws.{NotesAreLogs};

use lx_kernel::laws::boots_are_first_runs;

/// What the turns of a booted kernel note is the log of the untraced kernel of the definitions by these turns, of which
/// a traced run's trace is the rendering.
pub fn notes_are_logs()
    ensures { NotesAreLogs }
{
    boots_are_first_runs();
}
