//! Lists of values that leave at the front.

ghost use Rattle.std.specs.Prelude.{◌≡◌, [], ◌∷◌, MatchOption};
ghost use Rattle.std.specs.List.{slice_get};
ghost use Rattle.pt_schedule.specs.Turns.{from_turn, turns_from};

use lx_abi::{Event, Word};
use std::alloc::AllocError;
use std::collections::VecDeque;
use std::marker::Model;

/// A queue, which contracts see as the list of its values, the first to leave first.
#[derive(Drop)]
pub struct TurnQueue<V> {
    items: VecDeque<V>,
}

impl<V> Model for TurnQueue<V> {
    ghost use Rattle.std.specs.Prelude.{List};

    ghost Value = { List V };

    ghost view = { λ q. q.items.items };
}

impl<V: Clone> Clone for TurnQueue<V> {
    // Where the copies of values are the same, the queue is.
    ghost is_clone = { λ a b. ((v w : V) → V.is_clone v w → w ≡ v) → b ≡ a };

    fn clone(&self) -> Result<Self, AllocError> {
        Ok(TurnQueue {
            items: self.items.clone()?,
        })
    }
}

impl<V> TurnQueue<V> {
    pub fn from_vec(items: Vec<V>) -> Self
        ensures { result ≡ items.items }
    {
        TurnQueue {
            items: VecDeque::from_vec(items),
        }
    }

    /// Takes the first value out.
    pub fn pop(&mut self) -> Option<V>
        ensures { MatchOption result ((self.old ≡ []) × (self.new ≡ [])) (λ x. self.old ≡ x ∷ self.new) }
    {
        self.items.pop_front()
    }
}

impl<V: Copy> TurnQueue<V> {
    /// The first value.
    pub fn first(&self) -> Option<V>
        ensures { result ≡ slice_get self.now 0 }
    {
        self.items.front().copied()
    }
}

impl TurnQueue<Event> {
    /// The events before the next turn leave.
    pub fn pass_serves(&mut self)
        ensures { self.new ≡ turns_from self.old }
    {
        'serves: loop {
            match self.first() {
                None => return,
                Some(Event::Turn { .. }) => return,
                Some(Event::Serve) => {
                    self.pop();
                }
            }
        }
    }
}

impl TurnQueue<Word> {
    /// The words before the next turn leave.
    pub fn pass_serves(&mut self)
        ensures { self.new ≡ from_turn self.old }
    {
        'serves: loop {
            match self.first() {
                None => return,
                Some(Word::Turn { .. }) => return,
                Some(Word::TurnAlone { .. }) => return,
                Some(Word::UntilReturn { .. }) => return,
                Some(Word::Serve) => {
                    self.pop();
                }
            }
        }
    }
}
