//! One record of what was said, and what each thread knows of it.
//!
//! A value under a lock is known by its type alone. A transcript carries what was said out of the lock: two of them
//! that are as long as each other are the same, since both are beginnings of one record, which only grows.

ghost use Rattle.std.specs.Prelude.{◌≡◌, ◌++◌, ◌∷◌, [], true, length, None, option_map};
ghost use Rattle.transcript.specs.Records.{head_of};
ghost use Rattle.transcript.specs.declared.said.Said.TheVariants.{Asked, Answered};

use crate::said::Said;
use logbook::{Gain, Offer, Plain, Play, Rule, Seen, Start, Word};
use lx_abi::{Reply, Request};
use std::marker::{Brand, Model, PhantomData};

/// The rule of the record: its word is how much was said.
pub struct Law;

impl Rule<Said, u64> for Law {
    ghost use Rattle.std.specs.Prelude.{[]};
    ghost use base.Fml.{ftrue};
    ghost use Rattle.transcript.specs.Records.{IsKept};

    ghost holds = { λ cells log. IsKept cells log };

    ghost first = { [] };

    ghost hinted = { λ n log. Unit {0} };

    ghost shows = { λ log. [] };

    ghost keeps = { λ names log. ftrue };

    ghost moves = { λ ask before after answer. Unit {0} };
}

/// Threads trade nothing.
pub struct Nothing;

impl Gain<Said, u64> for Nothing {
    ghost use base.Fml.{ftrue};

    ghost after = { λ names about answer. ftrue };
}

/// A step that says something.
pub struct Says;

impl Play<Said, u64> for Says {
    ghost use Rattle.transcript.specs.Records.{Adds};

    ghost then = { Adds };
}

impl Plain<Request, Said, u64> for Says {
    ghost use Rattle.std.specs.Prelude.{None};
    ghost use Rattle.transcript.specs.declared.said.Said.TheVariants.{Asked};

    ghost ask = { λ request. Asked request };

    ghost state = { λ request. None };
}

impl Plain<Reply, Said, u64> for Says {
    ghost use Rattle.std.specs.Prelude.{None};
    ghost use Rattle.transcript.specs.declared.said.Said.TheVariants.{Answered};

    ghost ask = { λ reply. Answered reply };

    ghost state = { λ reply. None };
}

/// Which record it is. Each run picks it.
pub trait Naming {
    ghost use Rattle.logbook.specs.Pages.{Book};

    ghost book: { Book };
}

impl Naming for Brand {
    ghost book = { record { number = 0; log_name = 0; cells_name = 0 } };
}

/// A record in which nothing was said, and which has no name yet.
#[derive(Drop)]
pub struct Opened {
    head: Word<Said, u64, Law>,
    seen: Seen<Said, u64, Law>,
    pub ghost empty: { seen.log ≡ [] },
    pub ghost head_is: { head ≡ head_of seen.book },
}

/// The word that threads share: how much was said.
#[derive(Drop)]
pub struct Record<J: Naming> {
    head: Word<Said, u64, Law>,
    of: PhantomData<J>,
    ghost head_is: { head ≡ head_of J.book },
}

/// What was said until now, as a thread knows it.
#[derive(Drop)]
pub struct Transcript<J: Naming> {
    lines: u64,
    seen: Seen<Said, u64, Law>,
    of: PhantomData<J>,
}

impl<J: Naming> Model for Transcript<J> {
    ghost use Rattle.std.specs.Prelude.{◌≡◌, List, length};
    ghost use Rattle.transcript.specs.declared.said.Said.{Said};

    ghost Value = { List Said };

    ghost view = { λ t. t.seen.log };

    ghost invariant = { λ t. (t.lines ≡ length t.seen.log) × (t.seen.book ≡ J.book) };
}

impl Opened {
    pub fn new() -> Opened {
        let (seen, mut first, _second) = Seen::open(Start::alone(), 0, 0);
        Opened {
            head: Word::tracked(0, &mut first),
            seen,
        }
    }

    /// The record under a name, and the transcript of nothing.
    pub fn named<J: Naming>(self) -> (Record<J>, Transcript<J>)
        requires { self.seen.book ≡ J.book }
        ensures { result.1 ≡ [] }
    {
        let Opened { head, seen } = self;
        (
            Record {
                head,
                of: PhantomData,
            },
            Transcript {
                lines: 0,
                seen,
                of: PhantomData,
            },
        )
    }
}

/// Says what the offer asks, where all that was said is known.
fn say(
    head: &Word<Said, u64, Law>,
    lines: &mut u64,
    seen: &mut Seen<Said, u64, Law>,
    offer: &mut Offer<Said, u64, Law, Nothing>,
) -> bool
    requires counted { lines.old ≡ length seen.old.log }
    requires head { head.now ≡ head_of seen.old.book }
    requires offer { (offer.old.names ≡ seen.old.names) × (offer.old.state ≡ None) }
    ensures counted { lines.new ≡ length seen.new.log }
    ensures book { seen.new.book ≡ seen.old.book }
    ensures said { result ≡ true → seen.new.log ≡ seen.old.log ++ offer.old.ask ∷ [] }
{
    let before = *lines;
    if before == u64::MAX {
        return false;
    }
    let mut pen = seen.no_pen();
    let found = head.compare_exchange::<Says, Nothing>(before, before + 1, seen, offer, &mut pen);
    *lines = if found == before { before + 1 } else { found };
    found == before
}

impl<J: Naming> Transcript<J> {
    /// A copy.
    pub fn again(&self) -> Transcript<J>
        ensures { result ≡ self.now }
    {
        Transcript {
            lines: self.lines,
            seen: self.seen.again(),
            of: PhantomData,
        }
    }

    /// Both know the same.
    pub fn agrees(&self, other: &Transcript<J>) -> bool
        ensures { result ≡ true → self.now ≡ other.now }
    {
        let mut both = self.seen.again();
        both.learn(&other.seen);
        self.lines == other.lines
    }

    /// Says a request, where all that was said is known.
    pub fn ask(&mut self, book: &Record<J>, request: &Request) -> bool
        ensures { result ≡ true → self.new ≡ self.old ++ Asked request.now ∷ [] }
    {
        let mut offer: Offer<Said, u64, Law, Nothing> = self
            .seen
            .plain::<Nothing, Request, Says>(request);
        say(&book.head, &mut self.lines, &mut self.seen, &mut offer)
    }

    /// Says a reply, where all that was said is known.
    pub fn answer(&mut self, book: &Record<J>, reply: &Reply) -> bool
        ensures { result ≡ true → self.new ≡ self.old ++ Answered reply.now ∷ [] }
    {
        let mut offer: Offer<Said, u64, Law, Nothing> = self
            .seen
            .plain::<Nothing, Reply, Says>(reply);
        say(&book.head, &mut self.lines, &mut self.seen, &mut offer)
    }
}
