//! The FDEs of a table in the order of their addresses, and the FDE of an address.

ghost use Rattle.std.specs.Prelude.{◌≡◌, IfOk, OnOk, None, nat_le, nat_lt};
ghost use Rattle.std.specs.List.Sorted.{IsNonDecreasingBy};
ghost use Rattle.elf_symbols.specs.Ranges as ranges;
ghost use Rattle.elf_frames.specs.Index as spec;
ghost use Rattle.elf_frames.specs.Entries.{fdes_of as fdes_in};

use crate::entries::{Fde, fdes_of};
use crate::tables::Table;
use std::alloc::{AllocError, Global};
use std::marker::Model;

/// The FDEs of a table, made once a program: the FDE of an address is found in time that grows with the logarithm of
/// how many there are. Contracts see it as these FDEs, in the order of their addresses.
#[derive(Drop)]
pub struct Index {
    fdes: Vec<Fde>,
}

impl Model for Index {
    ghost use Rattle.std.specs.Prelude.{List};
    ghost use Rattle.std.specs.List.Sorted.{IsNonDecreasingBy};
    ghost use Rattle.elf_frames.specs.declared.entries.Fde.{Fde as Entry};
    ghost use Rattle.elf_frames.specs.Index.{start_of};

    ghost Value = { List Entry };

    ghost view = { λ i. i.fdes.items };

    ghost invariant = { λ i. IsNonDecreasingBy start_of i.fdes.items };
}

/// Puts them in the order of their addresses.
fn sort(fdes: &mut Vec<Fde>) -> Result<(), AllocError>
    ensures { OnOk result (spec.IsIndexOf fdes.old.items fdes.new.items) }
{
    fdes.sort_by_key(|fde| fde.start)?;
    Ok(())
}

/// The last that begins at or below an address.
fn last_by(fdes: &[Fde], address: u64) -> Option<Fde>
    requires { IsNonDecreasingBy spec.start_of fdes.now }
    ensures { result ≡ ranges.last_by spec.start_of address None fdes.now }
{
    let count = fdes.partition_point(
        |fde: &Fde| -> bool
            ensures { result ≡ nat_le fde.now.start address }
        { fde.start <= address },
    );
    if count == 0 {
        return None;
    }
    Some(fdes[count - 1])
}

fn ends_behind(fde: Fde, address: u64) -> bool
    ensures { result ≡ nat_lt address (spec.stop_of fde) }
{
    address < fde.start || address - fde.start < fde.size
}

/// It, if it covers the address.
fn covering(found: Option<Fde>, address: u64) -> Option<Fde>
    ensures { result ≡ ranges.covering spec.stop_of address found }
{
    match found {
        Some(fde) => if ends_behind(fde, address) {
            Some(fde)
        } else {
            None
        },
        None => None,
    }
}

impl Index {
    /// The FDE of an address: of those that begin at or below it the one that begins last, if that covers it.
    #[tactic(auto, unfolding(crate::specs::Index::fde_at))]
    pub fn fde_at(&self, address: u64) -> Option<Fde>
        ensures { result ≡ spec.fde_at self.now address }
    {
        covering(last_by(&self.fdes, address), address)
    }
}

/// The index of a table with these bytes.
pub fn index_of(alloc: Global, table: Table, bytes: &[u8]) -> Result<Index, AllocError>
    ensures { IfOk result (λ i. spec.IsIndexOf (fdes_in table bytes.now) i) }
{
    let mut fdes = fdes_of(alloc, table, bytes)?;
    sort(&mut fdes)?;
    Ok(Index { fdes })
}
