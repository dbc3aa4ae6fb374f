//! Laws of the definitions, each as the contract of a function with an empty body: call it to cite it.

ghost use Rattle.pt_model.specs.Headline.{IsTransparent};
ghost use Rattle.pt_model.specs.Replies.{RepliesTellAll, BootComesFirst, TracesGrow, FaultsAreForGood, TakenIsCounted};
ghost use Rattle.pt_model.specs.Replies.{AdmittedRepliesAnswer, FewRequests, NobodyIsLeftHeld, WholeIsTold, OutOfTurnsIsTold};
ghost use Rattle.pt_model.specs.Replies.{StatusesComeToHand, TheHandStays, EachIsLetGo, EachIsResumed, UnreadCallsHaveNoExit};
ghost use Rattle.pt_model.specs.Calls.{WorldsAttend, WorldsCall, RunsAppend, OverIsForGood, EventsOfReplies};
ghost use Rattle.pt_model.specs.Calls.{ListsGiveThemselves, TalksAreAnswers, TalksAreOwn, OutOfTurnsShowsNothing};
ghost use Rattle.pt_model.specs.Calls.{OwnRepliesTell, FailuresLeaveAPrefix, FaultsLeaveAPrefix, SchedulesAreLists};
ghost use Rattle.pt_model.specs.Laws.{KernelTurnsApart, HostTurnsApart, TheDeadHaveEnded};
ghost use Rattle.pt_model.specs.HostLaws.{HostsBeginAlike, HostsTurnAlike, HostsServeAlike, HostsAttendAlike};
ghost use Rattle.pt_model.specs.HostLaws.{HostsRunTheKernel, EmptyScriptIsNone, TurnsTell, HostsAreReady, HostsAreAble};
ghost use Rattle.pt_model.specs.Laws.{TheHeldAreStill, TheHeldCanBeKilled, NoKillNoLoss};
ghost use Rattle.pt_model.specs.Laws.{WhoListensStays};
ghost use Rattle.pt_model.specs.Laws.{AStopComesOfItsSignal, AStopEndsFirst};
ghost use Rattle.pt_model.specs.Laws.{FirstReportIsTold, ForkIsToldFirst, OneReportAStop, NoOtherReport};

/// A traced run has the outcome of the untraced kernel under the script, turn by turn, and its trace is that kernel's.
pub fn tracing_is_transparent<S, B>()
    ensures { IsTransparent S B }
{}

/// The host over finite maps runs as the ptrace machine does.
pub fn hosts_run_alike<S, B>()
    ensures begin { HostsBeginAlike S B }
    ensures turn { HostsTurnAlike S B }
    ensures serve { HostsServeAlike S B }
    ensures event { HostsAttendAlike S B }
    ensures kernel { HostsRunTheKernel S B }
    ensures none { EmptyScriptIsNone }
{}

/// What a turn must tell its host: mode, item and event; and what a host tells without a turn.
pub fn turns_tell<S, B>()
    ensures stop { TurnsTell S B }
    ensures ready { HostsAreReady S B }
    ensures able { HostsAreAble S B }
{}

/// No turn changes what another process has to itself.
pub fn turns_are_apart<S, B>()
    ensures kernel { KernelTurnsApart S B }
    ensures host { HostTurnsApart S B }
{}

/// Who was born and lives no more has logged its end.
pub fn the_dead_have_ended<S, B>()
    ensures { TheDeadHaveEnded S B }
{}

/// A process that a tracer holds does nothing, and SIGKILL alone ends it.
pub fn the_held_are_still<S, B>()
    ensures still { TheHeldAreStill S B }
    ensures killed { TheHeldCanBeKilled S B }
{}

/// Nothing is heard of a stopped process that was let go by Listen, until SIGCONT or SIGKILL.
pub fn who_listens_stays<S, B>()
    ensures { WhoListensStays S B }
{}

/// A group stop is admitted after its signal's stop, and after it that it has ended, or SIGKILL.
pub fn group_stops_are_in_order()
    ensures stop { AStopComesOfItsSignal }
    ensures ends { AStopEndsFirst }
{}

/// Stops are told in the order in which they arose, and each once.
pub fn stops_are_told_once<S, B>()
    ensures first { FirstReportIsTold S B }
    ensures fork { ForkIsToldFirst S B }
    ensures one { OneReportAStop S B }
    ensures no_other { NoOtherReport S B }
{}

/// A log without an end by SIGKILL has one view, itself.
pub fn no_kill_no_loss()
    ensures { NoKillNoLoss }
{}

/// What a tracer asks and shows is a function of its options, its script and the replies, whatever these are.
pub fn replies_tell_all<S, B>()
    ensures all { RepliesTellAll S B }
    ensures boot { BootComesFirst }
{}

/// The world is a host that attends to the tracer's requests, event by event and call by call; its runs go on
/// where they ended, and end for good.
pub fn worlds_attend<S, B>()
    ensures events { WorldsAttend S B }
    ensures calls { WorldsCall S B }
    ensures append { RunsAppend S B }
    ensures over { OverIsForGood S B }
    ensures used { EventsOfReplies S B }
    ensures lists { ListsGiveThemselves S B }
{}

/// What was shown stays, and after a reply that isn't admitted the tracer is at fault for good.
pub fn traces_grow_until_a_fault()
    ensures grow { TracesGrow }
    ensures fault { FaultsAreForGood }
    ensures count { TakenIsCounted }
{}

/// A talk with a host over a schedule is one over the list of events that the schedule gave.
pub fn schedules_are_lists<X, S, B>()
    ensures { SchedulesAreLists X S B }
{}

/// What a host in memory answers to a tracer's requests are its own replies, and what the tracer makes of them
/// is what the world did by the events that gave them.
pub fn own_replies_tell<S, B>()
    ensures answers { TalksAreAnswers S B }
    ensures talks { TalksAreOwn S B }
    ensures out_of_turns { OutOfTurnsShowsNothing }
    ensures run { OwnRepliesTell S B }
{}

/// Wherever a host fails, what was shown begins a view of what was done until then.
pub fn failures_leave_a_prefix<S, B>()
    ensures { FailuresLeaveAPrefix S B }
{}

/// So it does where it fails by a reply that isn't admitted.
pub fn faults_leave_a_prefix<S, B>()
    ensures { FaultsLeaveAPrefix S B }
{}

/// A status that is no end puts its tracee in hand, and nobody else comes to hand before it is let go or has met
/// ESRCH; only then is Wait asked again. Syscall lets it go, and at a group stop Listen; Seize does so only for process
/// 1, once.
pub fn nobody_is_left_held()
    ensures taken { StatusesComeToHand }
    ensures stays { TheHandStays }
    ensures free { NobodyIsLeftHeld }
    ensures each { EachIsLetGo }
    ensures resumed { EachIsResumed }
{}

/// Nothing is shown at an exit whose entry was never read.
pub fn unread_calls_have_no_exit()
    ensures { UnreadCallsHaveNoExit }
{}

/// At most 100 requests come before the first status, between two, and after the last.
pub fn requests_are_few()
    ensures { FewRequests }
{}

/// A reply that is admitted is of a kind that answers the request.
pub fn admitted_replies_answer()
    ensures { AdmittedRepliesAnswer }
{}

/// A run is whole by the reply to Outcome alone, and out of turns by OutOfTurns alone.
pub fn ends_are_told()
    ensures whole { WholeIsTold }
    ensures out_of_turns { OutOfTurnsIsTold }
{}
