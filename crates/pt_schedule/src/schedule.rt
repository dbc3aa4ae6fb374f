//! The order of a host's events.

ghost use Rattle.std.specs.Prelude.{◌≡◌, ◌-◌, ◌≤◌, ◌^◌, min, Some, None, false, true, MatchResult};
ghost use Rattle.lx_abi.specs.Words.{words_of, IsRefusal};
ghost use Rattle.pt_schedule.specs.Turns.{turns_from};
ghost use Rattle.pt_schedule.specs.Schedules.{most_events, next_listed, next_of, listed, worded, scheduled, unserved, next_turn_of};
ghost use Rattle.pt_schedule.specs.Rows.{run_of, after_turns};
ghost use Rattle.pt_schedule.specs.Untraced.{readiness_of};

use crate::queue::TurnQueue;
use crate::system::Schedulable;
use crate::worded::Worded;
use lx_abi::{Event, ScheduleFault, Word, parse_words};
use lx_kernel::Kernel;
use std::alloc::{AllocError, Global};

/// No schedule gives more events.
const MOST_EVENTS: u64 = 1 << 39;

/// So many turns of a process in a row.
#[derive(Clone, Copy, Debug, PartialEq, Eq)]
pub struct TurnRun {
    pub pid: u32,
    pub turns: u64,
}

/// Exactly these events.
#[derive(Drop)]
struct Listed {
    events: TurnQueue<Event>,
    left: u64,
}

#[derive(Drop)]
enum Order {
    Listed(Listed),
    Worded(Worded),
}

impl Clone for Listed {
    ghost is_clone = { λ a b. b ≡ a };

    fn clone(&self) -> Result<Self, AllocError> {
        Ok(Listed {
            events: self.events.clone()?,
            left: self.left,
        })
    }
}

impl Clone for Order {
    ghost is_clone = { λ a b. b ≡ a };

    fn clone(&self) -> Result<Self, AllocError> {
        match self {
            Order::Listed(listed) => Ok(Order::Listed(listed.clone()?)),
            Order::Worded(worded) => Ok(Order::Worded(worded.clone()?)),
        }
    }
}

impl Listed {
    fn next(&mut self) -> Option<Event>
        ensures { record { event = result; schedule = self.new } ≡ next_listed self.old }
    {
        if self.left == 0 {
            return None;
        }
        match self.events.pop() {
            None => {
                self.left = 0;
                None
            }
            Some(event) => {
                self.left -= 1;
                Some(event)
            }
        }
    }

    /// The events before the next turn are passed over.
    fn pass_serves(&mut self)
        ensures { self.new ≡ record self.old { events = turns_from self.old.events } }
    {
        self.events.pass_serves();
    }
}

/// Which event of a host comes next, as the host stands.
#[derive(Drop)]
pub struct Schedule {
    order: Order,
}

impl Clone for Schedule {
    ghost is_clone = { λ a b. b ≡ a };

    fn clone(&self) -> Result<Self, AllocError> {
        Ok(Schedule {
            order: self.order.clone()?,
        })
    }
}

impl Schedule {
    /// Exactly these events, 2^39 at most.
    pub fn list(events: Vec<Event>) -> Self
        ensures { result ≡ listed events.items }
    {
        Schedule {
            order: Order::Listed(Listed {
                events: TurnQueue::from_vec(events),
                left: MOST_EVENTS,
            }),
        }
    }

    /// The events of the words, then those of the default schedule, so many at most, and 2^39.
    pub fn words(words: Vec<Word>, limit: u64) -> Self
        ensures { result ≡ worded words.items limit }
    {
        Schedule {
            order: Order::Worded(Worded {
                words: TurnQueue::from_vec(words),
                serving: true,
                returning: None,
                row: None,
                left: limit.min(MOST_EVENTS),
            }),
        }
    }

    /// As `words` by those of a text; a text is refused as `parse_words` refuses it.
    pub fn parse(alloc: Global, text: &str, limit: u64) -> Result<Self, ScheduleFault>
        ensures { MatchResult result (λ schedule. Some schedule ≡ scheduled text.now limit)
            (λ fault. IsRefusal fault (words_of text.now)) }
    {
        match parse_words(alloc, text) {
            Ok(words) => Ok(Schedule::words(words, limit)),
            Err(fault) => Err(fault),
        }
    }

    /// The next event; none where the schedule has ended, which is for good.
    #[inline(always)]
    #[tactic(auto, unfolding(crate::specs::Schedules::next_by))]
    pub fn next<S: Schedulable>(&mut self, system: &S) -> Option<Event>
        ensures { record { event = result; schedule = self.new } ≡ next_of self.old (S.readiness system.now) }
    {
        match &mut self.order {
            Order::Listed(listed) => listed.next(),
            Order::Worded(worded) => worded.next(system),
        }
    }

    /// Without a tracer: the words `s` and the Serves before the next turn are passed over, and count for nothing.
    #[tactic(auto, unfolding(crate::specs::Schedules::unserved))]
    fn pass_serves(&mut self)
        ensures { self.new.order ≡ unserved self.old.order }
    {
        match &mut self.order {
            Order::Listed(listed) => listed.pass_serves(),
            Order::Worded(worded) => worded.pass_serves(),
        }
    }

    /// The process that has the next turn of a kernel without a tracer; none where the schedule has ended.
    pub fn next_plain(&mut self, kernel: &Kernel) -> Option<u32>
        ensures { record { pid = result; schedule = self.new } ≡ next_turn_of self.old (readiness_of kernel.now) }
    {
        self.pass_serves();
        match self.next(kernel) {
            Some(Event::Turn { pid }) => Some(pid),
            Some(Event::Serve) | None => None,
        }
    }

    /// Turns of the last process that come next, as long as each leaves it running instructions and no request is
    /// ready; none where that isn't known.
    #[tactic(auto, unfolding(crate::specs::Rows::run_by))]
    pub fn row(&self) -> Option<TurnRun>
        ensures { result ≡ run_of self.now }
    {
        match &self.order {
            Order::Listed(_) => None,
            Order::Worded(worded) => worded.run(),
        }
    }

    /// So many of these turns were made.
    #[tactic(auto, unfolding(crate::specs::Rows::order_after))]
    pub fn pass(&mut self, turns: u64)
        ensures { self.new ≡ after_turns self.old turns }
    {
        match &mut self.order {
            Order::Listed(_) => {}
            Order::Worded(worded) => worded.pass(turns),
        }
    }
}
