//! Laws of the definitions.

ghost use Rattle.lx_model.specs.Machine.{IsMachine};
ghost use Rattle.lx_turn.specs.Fitting.{CallsFit, TakesFit};
ghost use Rattle.lx_turn.specs.Linux.{linux};

/// Linux is a machine: its registers can be read and replaced, and the number -1 names no call.
pub fn linux_is_a_machine()
    ensures { IsMachine linux }
{}

/// What is said of every call's answer: a program begins by execve alone, a child is born by clone alone, and a process
/// ends by exit alone, with its status. No call and no signal changes the words of processes that have ended, and a
/// signal that is taken stops its process by a stop signal alone, and ends it by a signal.
pub fn calls_fit()
    ensures calls { CallsFit }
    ensures signals { TakesFit }
{}
