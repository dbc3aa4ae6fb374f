//! Slots that name what others name, and how many name each description while they come to a table.

ghost use Rattle.std.specs.Prelude.{◌≡◌, ◌≤◌, ◌==◌, OnOk, OnErr, IfOk, IsSome, None, Some, false};
ghost use Rattle.std.specs.FinMap as maps;
ghost use Rattle.std.specs.List.{range_with_len};
ghost use Rattle.lx_abi.specs.Limits.{most_fds};
ghost use Rattle.lx_files.specs.Tallies.{Forgets};
ghost use Rattle.lx_open.specs.Kinds.{names_description};
ghost use Rattle.lx_open.specs.Counted.{CountsAll, CountsMore, CountsLess, SameCounts, CountsFollow};
ghost use Rattle.lx_open.specs.Counted.{put_back, fds_from};
ghost use Rattle.lx_open.specs.Opens.{inherited_each};
ghost use Rattle.lx_open.specs.Rows.{Slots, IsRowOf, CountsSlot, CountsRow};

use crate::description::Slot;
use crate::fd_table::pair;
use crate::row::Row;
use crate::slot_map::SlotTable;
use lx_files::Counts;
use std::alloc::AllocError;

/// One less of the description that a slot named before.
pub fn forget(counts: &mut Counts, was: Option<Slot>)
    ensures { Forgets names_description was counts.old counts.new }
{
    if let Some(slot) = was {
        counts.subtract(slot.description);
    }
}

/// A slot stands at a pair. What stood there is answered, and still counts.
pub fn share(
    map: &mut SlotTable,
    counts: &mut Counts,
    pair: u64,
    slot: Slot,
) -> Result<Option<Slot>, AllocError>
    ensures was { IfOk result (λ was. was ≡ maps.get map.old pair) }
    ensures put { OnOk result (map.new ≡ maps.insert map.old pair slot) }
    ensures counted { OnOk result (CountsMore slot counts.old counts.new) }
    ensures same { OnErr result (map.new ≡ map.old) }
    ensures same_counts { OnErr result (SameCounts counts.old counts.new) }
{
    let was = map.get(pair);
    counts.add(slot.description)?;
    match map.insert(pair, slot) {
        Ok(()) => Ok(was),
        Err(error) => {
            counts.subtract(slot.description);
            Err(error)
        }
    }
}

/// What `share` did is undone.
fn unshare(map: &mut SlotTable, counts: &mut Counts, pair: u64, slot: Slot, was: Option<Slot>)
    requires { IsSome (maps.get map.old pair) }
    ensures map { map.new ≡ put_back map.old pair was }
    ensures counts { CountsLess slot counts.old counts.new }
{
    counts.subtract(slot.description);
    match was {
        None => {
            map.remove(pair);
        }
        Some(old) => map.write(pair, old),
    }
}

/// A child has its parent's descriptors from one on. What it had in their places counts until all of them stand, so
/// that it can be put back.
fn inherit_from(
    map: &mut SlotTable,
    counts: &mut Counts,
    parent: u32,
    child: u32,
    from: u32,
) -> Result<(), AllocError>
    requires small { from ≤ most_fds }
    requires counted { CountsAll counts.old map.old }
    ensures ok { OnOk result (map.new ≡ inherited_each map.old parent child (fds_from from)) }
    ensures counts { OnOk result (CountsFollow counts.old map.old counts.new map.new) }
    ensures same { OnErr result (map.new ≡ map.old) }
    ensures same_counts { OnErr result (SameCounts counts.old counts.new) }
{
    let Some(fd) = map.next_open(parent, from) else {
        return Ok(());
    };
    let Some(slot) = map.get(pair(parent, fd)) else {
        return Ok(());
    };
    let key = pair(child, fd);
    let was = share(map, counts, key, slot)?;
    match inherit_from(map, counts, parent, child, fd + 1) {
        Ok(()) => {
            forget(counts, was);
            Ok(())
        }
        Err(error) => {
            unshare(map, counts, key, slot, was);
            Err(error)
        }
    }
}

/// One more of the description that a slot names.
fn add(counts: &mut Counts, slot: Option<Slot>) -> Result<(), AllocError>
    ensures ok { OnOk result (CountsSlot slot counts.old counts.new) }
    ensures same { OnErr result (SameCounts counts.old counts.new) }
{
    match slot {
        None => Ok(()),
        Some(slot) => {
            counts.add(slot.description)?;
            Ok(())
        }
    }
}

/// The slots of a row below a descriptor count.
fn count_row(counts: &mut Counts, row: &Row, end: u32) -> Result<(), AllocError>
    ensures ok { OnOk result (CountsRow counts.old row.now end counts.new) }
    ensures same { OnErr result (SameCounts counts.old counts.new) }
{
    if end == 0 {
        return Ok(());
    }
    let fd = end - 1;
    let slot = row.get(fd);
    add(counts, slot)?;
    match count_row(counts, row, fd) {
        Ok(()) => Ok(()),
        Err(error) => {
            forget(counts, slot);
            Err(error)
        }
    }
}

/// The slots of a process count.
fn count_process(map: &SlotTable, counts: &mut Counts, pid: u32) -> Result<(), AllocError>
    ensures ok { OnOk result ((row : Slots) → IsRowOf map.now pid (Some row)
        → CountsRow counts.old row most_fds counts.new) }
    ensures same { OnErr result (SameCounts counts.old counts.new) }
{
    match map.row(pid) {
        None => Ok(()),
        Some(row) => {
            count_row(counts, row, row.end())?;
            Ok(())
        }
    }
}

/// A child without descriptors has its parent's, which a row has.
fn give_row(
    map: &mut SlotTable,
    counts: &mut Counts,
    parent: u32,
    child: u32,
    row: Row,
) -> Result<(), AllocError>
    requires other { (parent == child) ≡ false }
    requires none { IsRowOf map.old child None }
    requires given { IsRowOf map.old parent (Some row) }
    ensures ok { OnOk result (map.new ≡ inherited_each map.old parent child (range_with_len 0 most_fds)) }
    ensures counts { OnOk result (CountsFollow counts.old map.old counts.new map.new) }
    ensures same { OnErr result (map.new ≡ map.old) }
    ensures same_counts { OnErr result (SameCounts counts.old counts.new) }
{
    map.set_row(child, row)?;
    match count_process(map, counts, child) {
        Ok(()) => Ok(()),
        Err(error) => {
            map.drop_row(child);
            Err(error)
        }
    }
}

/// A child has its parent's descriptors. One that has none yet, as each new process, has a copy of its parent's row.
pub fn inherit(
    map: &mut SlotTable,
    counts: &mut Counts,
    parent: u32,
    child: u32,
) -> Result<(), AllocError>
    requires { CountsAll counts.old map.old }
    ensures ok { OnOk result (map.new ≡ inherited_each map.old parent child (range_with_len 0 most_fds)) }
    ensures counts { OnOk result (CountsFollow counts.old map.old counts.new map.new) }
    ensures same { OnErr result (map.new ≡ map.old) }
    ensures same_counts { OnErr result (SameCounts counts.old counts.new) }
{
    if parent == child || map.row(child).is_some() {
        return inherit_from(map, counts, parent, child, 0);
    }
    match map.copy_row(parent)? {
        None => Ok(()),
        Some(row) => give_row(map, counts, parent, child, row),
    }
}
