//! The log of a run.

ghost use Rattle.std.specs.Prelude.{◌≡◌, IfOk};

use history::{History, Tells};
use lx_abi::Item;
use std::alloc::AllocError;
use std::marker::Model;

/// Items that can be read.
#[derive(Drop)]
struct Kept {
    items: Vec<Item>,
}

/// What a run logged. Contracts see all of it. Programs can read it where it was kept.
#[derive(Drop)]
pub struct RunLog {
    all: History<Item>,
    kept: Option<Kept>,
}

impl Tells<Item> for Kept {
    ghost told = { λ k. k.items.items };
}

impl Model for RunLog {
    ghost use Rattle.std.specs.Prelude.{◌≡◌, IfSome};
    ghost use Rattle.sweep_rows.specs.Logs.{Logged};

    ghost Value = { Logged };

    ghost view = { λ l. record { items = l.all.items } };

    ghost invariant = { λ l. IfSome l.kept (λ k. k.items.items ≡ l.all.items) };
}

impl RunLog {
    /// A log that programs can read.
    pub fn kept(items: Vec<Item>) -> Self
        ensures { result.items ≡ items.items }
    {
        let kept = Kept { items };
        RunLog {
            all: History::of(&kept),
            kept: Some(kept),
        }
    }

    /// A log that nobody kept.
    pub fn unkept(all: History<Item>) -> Self
        ensures { result.items ≡ all.items }
    {
        RunLog { all, kept: None }
    }

    /// The items, where they were kept; an error where they weren't.
    pub fn as_slice(&self) -> Result<&[Item], AllocError>
        ensures { IfOk result (λ items. items.now ≡ self.now.items) }
    {
        match &self.kept {
            Some(kept) => Ok(kept.items.as_slice()),
            None => Err(AllocError),
        }
    }
}
