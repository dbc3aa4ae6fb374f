//! What holds of tracees, their stops and their reports in every state of the ptrace machine.

ghost use Rattle.pt_laws.specs.Hosts.{HostsKeepStops};
ghost use Rattle.pt_laws.specs.Polite.{TurnsKeepOnce, RequestsKeepOnce, StopsAreToldOnce, WorldsAreAttended};
ghost use Rattle.pt_laws.specs.Stops.{TurnsKeepStops, RequestsKeepStops, StopsAreKept};

use pt_model::laws::hosts_run_alike;

/// No stop is forgotten, and nobody is held for nothing: turns and requests keep this, and every machine begins so.
pub fn no_stop_is_forgotten<S, B>()
    ensures turn { TurnsKeepStops S B }
    ensures request { RequestsKeepStops S B }
    ensures all { StopsAreKept S B }
    ensures hosts { HostsKeepStops S B }
{
    hosts_run_alike::<S, B>();
}

/// A client that lets go only of whom it was told, as the tracer does, has one report a stop, while its process is held
/// there.
pub fn polite_clients_are_told_once<S, B>()
    ensures turn { TurnsKeepOnce S B }
    ensures request { RequestsKeepOnce S B }
    ensures all { StopsAreToldOnce S B }
    ensures worlds { WorldsAreAttended S B }
{}
