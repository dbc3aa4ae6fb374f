//! Laws of the definitions.

ghost use Rattle.lx_kernel.specs.Laws.{BootsAreFirst, TurnsAreSteps, BootsRunAlike, LogsAreApart};
ghost use Rattle.lx_kernel.specs.Laws.{TurnsLogWords, BootsLogWords, KernelsLogWords};
ghost use Rattle.lx_kernel.specs.Choices.{TurnsChoose};
ghost use Rattle.lx_kernel.specs.Waking.{CalmTurnsWakeNobody, FewTurnsWakeFew, TurnsLeaveStopped};

use lx_model::laws::kernels_run_alike;
use lx_proc::{Shared, UserState};

/// A boot gives the untraced kernel of the definitions in its first state, and turns are that kernel's, whether its log
/// is kept or not.
pub fn boots_are_first_runs()
    ensures first { BootsAreFirst }
    ensures steps { TurnsAreSteps }
    ensures runs { BootsRunAlike }
    ensures unkept { LogsAreApart }
{
    kernels_run_alike::<Shared, UserState>();
}

/// The wait words that an outcome shows are those of the ends in the log: a turn keeps this, and a boot begins with it.
pub fn words_are_logged()
    ensures turn { TurnsLogWords }
    ensures boots { BootsLogWords }
    ensures kernels { KernelsLogWords }
{
    kernels_run_alike::<Shared, UserState>();
}

/// A turn that is calm leaves each other process blocked that was, in a call or by a stop, but for the one that is told
/// and a child that is born.
pub fn calm_turns_wake_nobody()
    ensures { CalmTurnsWakeNobody }
{}

/// A turn that is calm, or in which a call leaves every pipe but one, leaves each other process blocked that was, but
/// for the one that is told, a child that is born, and those that read or write that pipe.
pub fn few_turns_wake_few()
    ensures { FewTurnsWakeFew }
{}

/// Every turn, calm or not, leaves each other process blocked that was by a stop, but for the one that is told and a
/// child that is born.
pub fn turns_leave_stopped()
    ensures { TurnsLeaveStopped }
{}

/// A turn is the one in which that is done to the call that the process has entered what the script does to it.
pub fn turns_choose()
    ensures { TurnsChoose }
{}
