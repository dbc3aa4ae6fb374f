//! What the definitions give on a machine small enough to compute with, against what was worked out by hand.

ghost use Rattle.pt_model.specs.Headline.{HeadlineAt};
ghost use Rattle.pt_model.specs.JobRows.{JobRows};
ghost use Rattle.pt_model.specs.ModeRows.{ModeRows};
ghost use Rattle.pt_model.specs.RequestRows.{RequestRows};
ghost use Rattle.pt_model.specs.Tiny.{tiny};
ghost use Rattle.pt_model.specs.TinyRuns.{PremisesOfTiny, RunsOfTiny};

/// Each row of the mode table.
pub fn mode_rows()
    ensures { ModeRows }
{}

/// Each request, with each of its refusals.
pub fn request_rows()
    ensures { RequestRows }
{}

/// Job control: its modes, its requests, and whole runs.
pub fn job_rows()
    ensures { JobRows }
{}

/// Whole traced runs, transparency of all of them, and its premises, which can be met.
pub fn traced_rows()
    ensures premises { PremisesOfTiny }
    ensures runs { RunsOfTiny }
    ensures transparent { HeadlineAt tiny }
{}
