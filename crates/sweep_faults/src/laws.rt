//! Laws of runs with a failure.

ghost use Rattle.sweep_faults.specs.Runs.{EndsAreSettled, RunsKeepLogs, StopsAreTurns, WordsGiveRuns};

/// Where a run ends is settled by where it begins, by its schedule and by the failure, and a log that is kept at its
/// beginning is kept at its end; where everything ends at an entry, each turn before it is the kernel's own; where the
/// failure has words, a script of these comes to the same.
pub fn faults_are_settled()
    ensures settled { EndsAreSettled }
    ensures kept { RunsKeepLogs }
    ensures stops { StopsAreTurns }
    ensures words { WordsGiveRuns }
{}
