//! What holds in every state of the ptrace machine.

ghost use Rattle.pt_sound.specs.Families.{TurnsKeepFamilies, RequestsKeepFamilies, WorldsHaveFamilies};
ghost use Rattle.pt_sound.specs.Limits.{EventsKeepLimits, WorldsKeepLimits};
ghost use Rattle.pt_sound.specs.Traced.{TurnsStaySound, RequestsStaySound, WorldsAreSound, HostsAreSound};

use lx_proc::{Shared, UserState};
use pt_model::laws::hosts_run_alike;

/// Traced states are sound as untraced ones are: turns and requests keep this, whatever is asked, and a boot begins so.
pub fn traced_states_stay_sound()
    ensures turn { TurnsStaySound }
    ensures request { RequestsStaySound }
    ensures worlds { WorldsAreSound }
    ensures hosts { HostsAreSound }
{
    hosts_run_alike::<Shared, UserState>();
}

/// Traced processes have families as untraced ones do: turns and requests keep this, and a boot begins so.
pub fn traced_families_hold()
    ensures turn { TurnsKeepFamilies }
    ensures request { RequestsKeepFamilies }
    ensures worlds { WorldsHaveFamilies }
{}

/// How many processes there may be stays as the boot asked, whatever is asked and whoever has a turn.
pub fn traced_limits_stay()
    ensures event { EventsKeepLimits }
    ensures worlds { WorldsKeepLimits }
{}
