//! What holds in every state that a boot reaches.

ghost use Rattle.lx_sound.specs.Counts.{EntriesAreFew};
ghost use Rattle.lx_sound.specs.Jobs.{ContinueWakes, ContinuesStay, KernelsHaveJobs, TurnsKeepJobs};
ghost use Rattle.lx_sound.specs.Limits.{LimitsStay, KernelsKeepLimits};
ghost use Rattle.lx_sound.specs.Sound.{TurnsStaySound, KernelsAreSound, BootsAreSound};

use lx_kernel::laws::boots_are_first_runs;

/// Tree, descriptors, processes and pids are sound: a turn keeps this, and a boot begins so.
pub fn states_stay_sound()
    ensures turn { TurnsStaySound }
    ensures kernels { KernelsAreSound }
    ensures boots { BootsAreSound }
{
    boots_are_first_runs();
}

/// No process enters a call more often than there are turns.
pub fn entries_are_few()
    ensures { EntriesAreFew }
{
    boots_are_first_runs();
}

/// How many processes there may be stays as the boot asked.
pub fn limits_stay()
    ensures turn { LimitsStay }
    ensures kernels { KernelsKeepLimits }
{}

/// Who is at a stop signal or stopped has that in its signals, and nobody else: a turn keeps this, and a boot begins
/// so.
pub fn jobs_fit()
    ensures turn { TurnsKeepJobs }
    ensures kernels { KernelsHaveJobs }
{}

/// A stopped process to which SIGCONT is sent goes on, and no turn of another takes that back.
pub fn no_continue_is_lost()
    ensures wakes { ContinueWakes }
    ensures stays { ContinuesStay }
{}
