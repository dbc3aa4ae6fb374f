//! The rows of a file.

ghost use Rattle.std.specs.Prelude.{◌≡◌, ◌++◌, IfOk, OnOk};
ghost use Rattle.elf_lines.specs.Rows as spec;

use crate::headers::{header_at, unit_at};
use crate::programs::put_rows;
use std::alloc::{AllocError, Global};

/// A row of a line table, up to the address of the next row of its sequence.
#[derive(Clone, Copy, Debug)]
pub struct Row {
    pub address: u64,
    pub end: u64,
    pub file: u64,
    pub line: u64,
    pub is_stmt: bool,
    /// Where its unit stands in `.debug_line`.
    pub unit: usize,
}

/// Appends the rows of a unit.
#[tactic(auto, unfolding(crate::specs::Rows::rows_of_unit))]
fn put_unit(found: &mut Vec<Row>, wide: bool, unit: usize, content: &[u8]) -> Result<(), AllocError>
    ensures { OnOk result (found.new.items ≡ found.old.items ++ spec.rows_of_unit wide unit content.now) }
{
    let Some((header, lengths, _, program)) = header_at(wide, content) else {
        return Ok(());
    };
    put_rows(found, header, lengths, unit, program)
}

/// The rows of `.debug_line`, in its order.
pub fn rows_in(alloc: Global, lines: &[u8]) -> Result<Vec<Row>, AllocError>
    ensures { IfOk result (λ v. v.items ≡ spec.rows_in lines.now) }
{
    let mut found = Vec::new(alloc);
    let mut left = lines;
    for _ in 0..lines.len() {
        let Some((wide, content, rest)) = unit_at(left) else {
            return Ok(found);
        };
        put_unit(
            &mut found,
            wide,
            lines.len().saturating_sub(left.len()),
            content,
        )?;
        left = rest;
    }
    Ok(found)
}
