//! A law of the rows of a sweep.

ghost use Rattle.sweep_runs.specs.Rows.{WordsReach};

/// Where a case has words, the run under a script of these came to what its row tells.
pub fn words_reach()
    ensures { WordsReach }
{}
