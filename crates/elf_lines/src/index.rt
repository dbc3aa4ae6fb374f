//! The rows of a file in the order of their addresses, and the row of an address.

ghost use Rattle.std.specs.Prelude.{◌≡◌, IfOk, OnOk, None, nat_le, nat_lt};
ghost use Rattle.std.specs.List.Sorted.{IsNonDecreasingBy};
ghost use Rattle.elf_symbols.specs.Ranges as ranges;
ghost use Rattle.elf_lines.specs.Index as spec;
ghost use Rattle.elf_lines.specs.Rows.{rows_in as rows_of};

use crate::rows::{Row, rows_in};
use std::alloc::{AllocError, Global};
use std::marker::Model;

/// The rows of a file, made once a program: the row of an address is found in time that grows with the logarithm of how
/// many there are. Contracts see it as these rows, in the order of their addresses.
#[derive(Drop)]
pub struct Index {
    rows: Vec<Row>,
}

impl Model for Index {
    ghost use Rattle.std.specs.Prelude.{List};
    ghost use Rattle.std.specs.List.Sorted.{IsNonDecreasingBy};
    ghost use Rattle.elf_lines.specs.declared.rows.Row.{Row as Line};
    ghost use Rattle.elf_lines.specs.Index.{start_of};

    ghost Value = { List Line };

    ghost view = { λ i. i.rows.items };

    ghost invariant = { λ i. IsNonDecreasingBy start_of i.rows.items };
}

/// Puts them in the order of their addresses.
fn sort(rows: &mut Vec<Row>) -> Result<(), AllocError>
    ensures { OnOk result (spec.IsIndexOf rows.old.items rows.new.items) }
{
    rows.sort_by_key(|row| row.address)?;
    Ok(())
}

/// The last that begins at or below an address.
fn last_by(rows: &[Row], address: u64) -> Option<Row>
    requires { IsNonDecreasingBy spec.start_of rows.now }
    ensures { result ≡ ranges.last_by spec.start_of address None rows.now }
{
    let count = rows.partition_point(
        |row: &Row| -> bool
            ensures { result ≡ nat_le row.now.address address }
        { row.address <= address },
    );
    if count == 0 {
        return None;
    }
    Some(rows[count - 1])
}

fn ends_behind(row: Row, address: u64) -> bool
    ensures { result ≡ nat_lt address (spec.stop_of row) }
{
    address < row.end
}

/// It, if it covers the address.
fn covering(found: Option<Row>, address: u64) -> Option<Row>
    ensures { result ≡ ranges.covering spec.stop_of address found }
{
    match found {
        Some(row) => if ends_behind(row, address) {
            Some(row)
        } else {
            None
        },
        None => None,
    }
}

impl Index {
    /// The row of an address: of those that begin at or below it the one that begins last, if that covers it.
    #[tactic(auto, unfolding(crate::specs::Index::row_at))]
    pub fn row_at(&self, address: u64) -> Option<Row>
        ensures { result ≡ spec.row_at self.now address }
    {
        covering(last_by(&self.rows, address), address)
    }
}

/// The index of `.debug_line`.
pub fn index_of(alloc: Global, lines: &[u8]) -> Result<Index, AllocError>
    ensures { IfOk result (λ i. spec.IsIndexOf (rows_of lines.now) i) }
{
    let mut rows = rows_in(alloc, lines)?;
    sort(&mut rows)?;
    Ok(Index { rows })
}
