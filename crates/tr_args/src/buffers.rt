//! Buffers of read and write.

ghost use Rattle.std.specs.Prelude.{◌≡◌, min};
ghost use Rattle.tr_args.specs.Buffers as spec;
ghost use Rattle.tr_values.specs.Sheets.{Leaves};

use tr_values::escapes::{cut, quoted};
use tr_values::{Needed, Sheet, numbers};

#[tactic(auto, unfolding(crate::specs::Buffers::buffer_read))]
fn buffer_read(
    sheet: &mut Sheet<'_>,
    address: u64,
    count: u64,
    shown: u32,
    bytes: &[u8],
) -> Result<(), Needed>
    ensures { Leaves result sheet.new (spec.buffer_read address count shown bytes.now sheet.old) }
{
    if bytes.len() < shown as usize {
        numbers::pointer(sheet, address)
    } else if u64::from(shown) < count {
        cut(sheet, bytes)
    } else {
        quoted(sheet, bytes)
    }
}

fn least(count: u64, most: u32) -> u32
    ensures { result ≡ min count most }
{
    if count < u64::from(most) {
        count as u32
    } else {
        most
    }
}

/// A buffer of so many bytes, of which the first are shown; a null address is `NULL`.
#[tactic(auto, unfolding(crate::specs::Buffers::buffer))]
pub(crate) fn buffer(
    sheet: &mut Sheet<'_>,
    most: u32,
    address: u64,
    count: u64,
) -> Result<(), Needed>
    ensures { Leaves result sheet.new (spec.buffer most address count sheet.old) }
{
    if address == 0 {
        return sheet.put("NULL");
    }
    let shown = least(count, most);
    if shown == 0 {
        return buffer_read(sheet, address, count, 0, b"");
    }
    let bytes = sheet.read(address, shown)?;
    buffer_read(sheet, address, count, shown, bytes)
}
