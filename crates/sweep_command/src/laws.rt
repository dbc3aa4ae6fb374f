//! Laws of which failures are tried.

ghost use Rattle.sweep_command.specs.Choosing.{LosesNone};

/// By novelty no case is lost, and none comes twice.
pub fn loses_none()
    ensures { LosesNone }
{}
