//! Laws of the definitions.

ghost use Rattle.pt_schedule.specs.Rows.{RunsAreTurns};
ghost use Rattle.pt_schedule.specs.Eager.{EagerWordsServeFirst, TurnsGiveThemselves};
ghost use Rattle.pt_schedule.specs.Few.{EventsAreFew, FirstLeft, ListsGiveTheirEvents};
ghost use Rattle.pt_schedule.specs.Written.{WordsReadBack, EventsAreGiven};
ghost use Rattle.pt_schedule.specs.Said.{WordsAreSaid};

/// A schedule that tells of turns to come gives them one by one, as long as their process can have them and no request
/// is ready.
pub fn runs_are_turns()
    ensures { RunsAreTurns }
{}

/// Each event leaves one less to come, of 2^39 at most, or of the words' limit; a list gives its first event.
pub fn events_are_few()
    ensures few { EventsAreFew }
    ensures first { FirstLeft }
    ensures lists { ListsGiveTheirEvents }
{}

/// Whatever is seen before each event, a schedule by words gives what its words and then the default schedule say, up
/// to its limit.
pub fn words_are_said()
    ensures { WordsAreSaid }
{}

/// The text that is written of words is read as these words, and the words of events give exactly these events.
pub fn written_words_read_back()
    ensures words { WordsReadBack }
    ensures events { EventsAreGiven }
{}

/// Under words `p` and `p.`, and the default schedule, a request that is ready is served before any other event.
pub fn eager_words_serve_first()
    ensures { EagerWordsServeFirst }
{}

/// The words `p` of any turns give these turns to every kernel without a tracer.
pub fn turns_give_themselves()
    ensures { TurnsGiveThemselves }
{}
