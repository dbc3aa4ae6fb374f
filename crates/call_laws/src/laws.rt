//! Laws of all calls at once, each as the contract of a function with an empty body: call it to cite it.

ghost use Rattle.call_laws.specs.Errors.{SweepsTryTheRest};
ghost use Rattle.call_laws.specs.Manual.{AppendsAtTheEnd, AsksOnly, CopiesShareTheOffset, EndsWithItsWriters, MaskComesBack};
ghost use Rattle.call_laws.specs.Manual.{OpenFilesLiveOn, ReadsTakeTheFront, ToldOnce, WritesGoBehind};
ghost use Rattle.call_laws.specs.OnFiles.{FilesDoNoMore};
ghost use Rattle.call_laws.specs.OnProcesses.{ProcessesDoNoMore};

/// A call on files changes files, pipes, its caller's memory and its caller's entry, and nothing of another process.
pub fn calls_on_files_leave_others()
    ensures { FilesDoNoMore }
{}

/// Of the other calls kill alone changes the process that it aims at, wait4 a child, and clone makes one.
pub fn calls_on_processes_leave_others()
    ensures { ProcessesDoNoMore }
{}

/// A sweep tries each error that a call here answers, but for those of a call's own arguments.
pub fn sweeps_try_the_rest()
    ensures { SweepsTryTheRest }
{}

/// A pipe gives each byte once and in order, and its end after the last writer's.
pub fn pipes_are_queues()
    ensures writes { WritesGoBehind }
    ensures reads { ReadsTakeTheFront }
    ensures ends { EndsWithItsWriters }
{}

/// A copied descriptor shares the offset, O_APPEND writes at the end, and a file that is open lives on without a name.
pub fn files_are_as_told()
    ensures copies { CopiesShareTheOffset }
    ensures appends { AppendsAtTheEnd }
    ensures lives { OpenFilesLiveOn }
{}

/// What a child has to tell is told once; signal 0 sends nothing; a mask that is set back is as before.
pub fn processes_are_as_told()
    ensures told { ToldOnce }
    ensures asks { AsksOnly }
    ensures mask { MaskComesBack }
{}
