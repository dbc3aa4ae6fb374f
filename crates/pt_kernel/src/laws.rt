//! Laws of the definitions.

ghost use Rattle.pt_kernel.specs.AfterEvents.{RunsLeaveAlike};
ghost use Rattle.pt_kernel.specs.Left.{BootsLeaveAsPlain};
ghost use Rattle.pt_kernel.specs.Seen.{HostsAreCalled};
ghost use Rattle.pt_model.specs.Headline.{IsTold, HeadlineAt};
ghost use Rattle.lx_turn.specs.Linux.{linux};

use lx_kernel::laws::words_are_logged;
use lx_proc::{Shared, UserState};
use lx_turn::laws::{calls_fit, linux_is_a_machine};
use pt_model::laws::{hosts_run_alike, tracing_is_transparent, turns_tell};

/// A turn that runs an instruction leaves able who was able.
pub fn runs_leave_alike()
    ensures { RunsLeaveAlike }
{}

/// What wait(2) tells of Linux's calls fits their numbers, and no read of a memory gives more bytes than were asked
/// for.
pub fn linux_is_told()
    ensures { IsTold linux }
{
    calls_fit();
}

/// What a traced boot leaves at any moment is what the untraced kernel leaves by the effective turns: its console, its
/// files, and the statuses (wait(2)) of the ends in its log.
pub fn boots_leave_as_plain()
    ensures { BootsLeaveAsPlain }
{
    linux_is_transparent();
    words_are_logged();
}

/// A traced run at Linux has the outcome of the untraced kernel under the script, turn by turn, and its trace is that
/// kernel's.
pub fn linux_is_transparent()
    ensures { HeadlineAt linux }
{
    linux_is_a_machine();
    linux_is_told();
    tracing_is_transparent::<Shared, UserState>();
}

/// A request that a host attends to is a call of the ptrace machine over functions, by the events that the schedule
/// gives as it sees that machine.
pub fn hosts_are_called()
    ensures { HostsAreCalled }
{
    hosts_run_alike::<Shared, UserState>();
    turns_tell::<Shared, UserState>();
}
