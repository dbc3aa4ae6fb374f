//! The labels of a listing.

ghost use Rattle.std.specs.Prelude.{◌≡◌, ◌∷◌, ◌++◌, [], ℕ, List, option_map, Some, None, OnOk, OnErr, is_some, if◌then◌else◌};
ghost use Rattle.std.specs.Option.{option_or};
ghost use Rattle.rv_asm.specs.Codes.{place_of, place_named};
ghost use Rattle.rv_asm.specs.Labels.{number_of};
ghost use Rattle.rv_syntax.specs.Text.{is_text};

use crate::symbol::Symbol;
use std::alloc::{AllocError, Global};
use std::collections::BTreeMap;
use std::marker::Model;

/// The labels of a listing in their order. The first of a name is found in time that grows with the
/// logarithm of how many there are.
#[derive(Drop)]
pub struct Labels<'a> {
    alloc: Global,
    symbols: Vec<Symbol<'a>>,
    // the number of the first label of each name
    first: BTreeMap<Vec<u8>, usize>,
}

impl<'a> Model for Labels<'a> {
    ghost use Rattle.std.specs.Prelude.{List, map};
    ghost use Rattle.rv_asm.specs.Codes.{Location, place_of};
    ghost use Rattle.rv_asm.specs.Labels.{IsIndex};

    ghost Value = { List Location };

    ghost view = { λ l. map place_of l.symbols.items };

    ghost invariant = { λ l. IsIndex (λ k. k.items) l.first (map place_of l.symbols.items) };
}

/// Gives a name a number, unless it has one.
fn number(
    first: &mut BTreeMap<Vec<u8>, usize>,
    alloc: Global,
    name: &[u8],
    number: usize,
) -> Result<(), AllocError>
    ensures ok { OnOk result
        ((w : List ℕ) → number_of (λ k. k.items) first.new w
        ≡ option_or (number_of (λ k. k.items) first.old w) (if is_text name.now w then Some number else None)) }
    ensures err { OnErr result (first.new.entries ≡ first.old.entries) }
{
    if first.contains_key(name) {
        return Ok(());
    }
    let key = name.to_vec(alloc)?;
    first.insert(key, number)?;
    Ok(())
}

impl<'a> Labels<'a> {
    pub fn new(alloc: Global) -> Self
        ensures { result ≡ [] }
    {
        Labels {
            alloc,
            symbols: Vec::new(alloc),
            first: BTreeMap::new(alloc),
        }
    }

    /// Adds a label behind the others.
    pub fn push(&mut self, symbol: Symbol<'a>) -> Result<(), AllocError>
        ensures { OnOk result (self.new ≡ self.old ++ place_of symbol.entry ∷ []) }
    {
        self.symbols.try_reserve(1)?;
        number(&mut self.first, self.alloc, symbol.name, self.symbols.len())?;
        self.symbols.push_reserved(symbol);
        Ok(())
    }

    /// The first label of a name.
    pub fn find(&self, name: &[u8]) -> Option<Symbol<'a>>
        ensures { option_map place_of result ≡ place_named self.now name.now }
    {
        match self.first.get(name) {
            Some(number) => Some(self.symbols[*number]),
            None => None,
        }
    }
}
