//! Laws of runs.

ghost use Rattle.plain_run.specs.Runs.{EndsAreSettled, RunsAreTurns, RunsKeepLogs, RunsGoAlike};

/// Where a run ends is settled by where it begins and by its schedule, and is where the turns of some processes lead;
/// a log that is kept at its beginning is kept at its end, and whether it is kept changes nothing else.
pub fn ends_are_settled()
    ensures settled { EndsAreSettled }
    ensures turns { RunsAreTurns }
    ensures kept { RunsKeepLogs }
    ensures alike { RunsGoAlike }
{}
