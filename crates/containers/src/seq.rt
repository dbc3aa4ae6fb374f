//! Lists of values, as clauses see them.

ghost use Rattle.std.specs.Prelude.{◌≡◌, ◌++◌, [], ◌∷◌, length, OnOk, OnErr};

use std::alloc::{AllocError, Global};
use std::marker::Model;

/// A growable list, which contracts see as the list of its values.
#[derive(Drop)]
pub struct Seq<V> {
    items: Vec<V>,
}

impl<V> Model for Seq<V> {
    ghost use Rattle.std.specs.Prelude.{List};

    ghost Value = { List V };

    ghost view = { λ s. s.items.items };
}

impl<V> Seq<V> {
    pub fn new(alloc: Global) -> Self
        ensures { result ≡ [] }
    {
        Seq {
            items: Vec::new(alloc),
        }
    }

    pub fn from_vec(items: Vec<V>) -> Self
        ensures { result ≡ items.items }
    {
        Seq { items }
    }

    pub fn as_slice(&self) -> &[V]
        ensures { result.now ≡ self.now }
    {
        self.items.as_slice()
    }
}

impl<V: Drop> Seq<V> {
    pub fn push(&mut self, value: V) -> Result<(), AllocError>
        ensures ok { OnOk result (self.new ≡ self.old ++ value ∷ []) }
        ensures err { OnErr result (self.new ≡ self.old) }
    {
        self.items.push(value)?;
        Ok(())
    }
}

impl<V: Clone> Clone for Seq<V> {
    // Where copies of values are the same, the list is.
    ghost is_clone = { λ a b. ((v w : V) → V.is_clone v w → w ≡ v) → b ≡ a };

    fn clone(&self) -> Result<Self, AllocError> {
        Ok(Seq {
            items: self.items.clone()?,
        })
    }
}
