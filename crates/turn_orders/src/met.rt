//! The orders that runs had.

ghost use Rattle.std.specs.Prelude.{◌≡◌, [], not, length, IfOk, OnOk};
ghost use Rattle.turn_orders.specs.Met.{has, with_order};

use std::alloc::{AllocError, Global};
use std::collections::BTreeSet;
use std::marker::Model;

/// Orders, each once: whose their steps were.
#[derive(Drop)]
pub struct Met {
    orders: BTreeSet<Vec<u32>>,
}

impl Model for Met {
    ghost use Rattle.std.specs.Prelude.{ℕ, List, map};

    ghost Value = { List (List ℕ) };

    ghost view = { λ m. map (λ k. k.items) m.orders.keys };
}

impl Met {
    pub fn new(alloc: Global) -> Self
        ensures { result ≡ [] }
    {
        Met {
            orders: BTreeSet::new(alloc),
        }
    }

    /// How many there are.
    pub fn len(&self) -> usize
        ensures { result ≡ length self.now }
    {
        self.orders.len()
    }

    /// Adds an order; whether it is new.
    pub fn add(&mut self, order: Vec<u32>) -> Result<bool, AllocError>
        ensures new { IfOk result (λ new. new ≡ not (has self.old order.items)) }
        ensures after { OnOk result (self.new ≡ with_order self.old order.items) }
    {
        let new = self.orders.insert(order)?;
        Ok(new)
    }
}
