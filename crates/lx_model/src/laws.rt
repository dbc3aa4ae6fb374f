//! Laws of the definitions, each as the contract of a function with an empty body: call it to cite it.

ghost use Rattle.lx_model.specs.KernelLaws.{NobodyTakesNoTurn, FirstIsFresh, RunsStayFresh, PidsAreGivenOnce, PidsRise};
ghost use Rattle.lx_model.specs.KernelLaws.{OthersCountNothing, ChoicesAreByOccurrence};
ghost use Rattle.lx_model.specs.Laws.{KernelsBeginAlike, KernelsRunAlike, TheStoppedStay, ContinuedInTime};

/// The kernel over finite maps runs as the kernel over functions does.
pub fn kernels_run_alike<S, B>()
    ensures begin { KernelsBeginAlike S B }
    ensures run { KernelsRunAlike S B }
{}

/// A turn of a pid under which no process is changes nothing.
pub fn nobody_takes_no_turn<S, B>()
    ensures { NobodyTakesNoTurn S B }
{}

/// A child gets the next pid, under which nobody is; pids rise, so none is given again.
pub fn pids_are_given_once<S, B>()
    ensures first { FirstIsFresh S B }
    ensures fresh { RunsStayFresh S B }
    ensures given { PidsAreGivenOnce S B }
    ensures rise { PidsRise S B }
{}

/// Occurrences are counted by process and call.
pub fn occurrences_are_counted<S, B>()
    ensures others { OthersCountNothing S B }
    ensures choice { ChoicesAreByOccurrence S B }
{}

/// A stopped process stays so until SIGCONT or SIGKILL, and SIGCONT that comes before the stop lets it go on.
pub fn the_stopped_stay<S, B>()
    ensures stays { TheStoppedStay S B }
    ensures in_time { ContinuedInTime S B }
{}
