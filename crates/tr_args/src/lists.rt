//! Lists of strings.

ghost use Rattle.std.specs.Prelude.{◌≡◌, ◌≤◌, length, map, IfOk, OnOk, None, Some, slice_get};
ghost use Rattle.tr_args.specs.Lists as spec;
ghost use Rattle.tr_values.specs.Numbers.{pointer_text};
ghost use Rattle.tr_values.specs.Sheets.{Leaves, put};
ghost use Rattle.tr_args.specs.Progress.{Takes, Goes, Begins, Finds, item_shown, items_left, end_text, list_shown};
ghost use Rattle.tr_args.specs.Progress.{list_left, opened};

use containers::Bytes;
use std::alloc::{AllocError, Global};
use tr_values::escapes::{cut, first, nul_at, quoted};
use tr_values::{Needed, Sheet, numbers};

/// At most so many items of a list are shown.
const MOST_ITEMS: usize = 32;

fn word(bytes: &[u8; 8]) -> u64
    ensures { result ≡ spec.word bytes.now }
{
    u64::from_le_bytes(*bytes)
}

pub(crate) fn words(bytes: &[u8]) -> &[[u8; 8]]
    ensures { result.now ≡ spec.words bytes.now }
{
    bytes.as_chunks::<8>().0
}

/// How many pointers stand before the first that is null.
pub(crate) fn null_at(words: &[[u8; 8]]) -> usize
    ensures place { result ≡ spec.null_at words.now }
    ensures within { result ≤ length words.now }
{
    words
        .iter()
        .position(|w| word(w) == 0)
        .unwrap_or(words.len())
}

#[tactic(auto, unfolding(crate::specs::Lists::item_read))]
fn item_read(sheet: &mut Sheet<'_>, most: u32, address: u64, bytes: &[u8]) -> Result<(), Needed>
    ensures { Leaves result sheet.new (spec.item_read most address bytes.now sheet.old) }
{
    let nul = nul_at(bytes);
    if nul < bytes.len() {
        quoted(sheet, first(bytes, nul))
    } else if (most as usize) < bytes.len() {
        cut(sheet, first(bytes, most as usize))
    } else {
        numbers::pointer(sheet, address)
    }
}

/// Of an item of which more than 4,096 bytes are wanted, and which the first read didn't end.
#[tactic(auto, unfolding(crate::specs::Lists::item_more))]
fn item_more(sheet: &mut Sheet<'_>, most: u32, address: u64, bytes: &[u8]) -> Result<(), Needed>
    requires least { 4096 ≤ most }
    requires most { most ≤ 4096 }
    ensures { Leaves result sheet.new (spec.item_more most address bytes.now sheet.old) }
{
    if bytes.len() != 4096 {
        return item_read(sheet, most, address, bytes);
    }
    let more = sheet.read(address.wrapping_add(4096), most - 4095)?;
    let mut whole = Bytes::from_slice(sheet.alloc(), bytes)?;
    whole.extend(more)?;
    item_read(sheet, most, address, whole.as_slice())
}

#[tactic(auto, unfolding(crate::specs::Lists::item))]
fn item(sheet: &mut Sheet<'_>, most: u32, address: u64) -> Result<(), Needed>
    requires { most ≤ 4096 }
    ensures { Leaves result sheet.new (spec.item most address sheet.old) }
{
    if most < 4096 {
        let bytes = sheet.read(address, most + 1)?;
        return item_read(sheet, most, address, bytes);
    }
    let bytes = sheet.read(address, 4096)?;
    item_more(sheet, most, address, bytes)
}

/// Behind what is shown.
pub(crate) fn comma(sheet: &mut Sheet<'_>, some: bool) -> Result<(), Needed>
    ensures { Leaves result sheet.new (put (spec.comma some) sheet.old) }
{
    sheet.put(if some { ", " } else { "" })
}

/// An item, behind a comma where one stands before it.
fn comma_item(sheet: &mut Sheet<'_>, most: u32, some: bool, address: u64) -> Result<(), Needed>
    requires { most ≤ 4096 }
    ensures { Leaves result sheet.new (item_shown most some address sheet.old) }
{
    comma(sheet, some)?;
    item(sheet, most, address)
}

/// The same, or nothing of it.
fn next_item(sheet: &mut Sheet<'_>, most: u32, some: bool, address: u64) -> Result<(), Needed>
    requires { most ≤ 4096 }
    ensures { Takes result (item_shown most some address) sheet.old sheet.new }
{
    let mut part = sheet.part()?;
    match comma_item(&mut part, most, some, address) {
        Ok(()) => sheet.take(part),
        Err(stop) => Err(stop),
    }
}

/// What is left of a list whose end was found.
#[derive(Drop)]
pub(crate) struct Listing {
    addresses: Vec<u64>,
    /// So many items are shown.
    next: usize,
    /// An item is shown.
    some: bool,
    /// There are more items than are shown.
    cut: bool,
}

impl Listing {
    /// The address of the next item.
    fn address(&self) -> Option<u64>
        ensures { result ≡ slice_get self.now.addresses.items self.now.next }
    {
        self.addresses.get(self.next).copied()
    }
}

/// The items that were read.
#[tactic(auto, unfolding(crate::specs::Progress::items_at))]
fn items_on(sheet: &mut Sheet<'_>, most: u32, list: &mut Listing) -> Result<(), Needed>
    requires { most ≤ 4096 }
    ensures goes { Goes result (items_left most list.old) sheet.old (items_left most list.new) sheet.new }
    ensures cut { list.new.cut ≡ list.old.cut }
{
    match list.address() {
        None => Ok(()),
        Some(address) => match next_item(sheet, most, list.some, address) {
            Ok(()) => {
                list.next += 1;
                list.some = true;
                items_on(sheet, most, list)
            }
            Err(stop) => Err(stop),
        },
    }
}

/// Behind the last item.
fn list_end(sheet: &mut Sheet<'_>, cut: bool) -> Result<(), Needed>
    ensures { Leaves result sheet.new (put (end_text cut) sheet.old) }
{
    sheet.put(if cut { ", ...]" } else { "]" })
}

/// The items that were read, and the end behind the last.
fn listing_on(sheet: &mut Sheet<'_>, most: u32, list: &mut Listing) -> Result<(), Needed>
    requires { most ≤ 4096 }
    ensures { Goes result (list_left most (Some list.old)) sheet.old (list_left most (Some list.new)) sheet.new }
{
    match items_on(sheet, most, list) {
        Ok(()) => list_end(sheet, list.cut),
        Err(stop) => Err(stop),
    }
}

/// What was read of a list under way.
pub(crate) fn list_on(
    sheet: &mut Sheet<'_>,
    most: u32,
    list: &mut Option<Listing>,
) -> Result<(), Needed>
    requires { most ≤ 4096 }
    ensures goes { Goes result (list_left most list.old) sheet.old (list_left most list.new) sheet.new }
    ensures whole { OnOk result (list.new ≡ None) }
{
    match list {
        None => Ok(()),
        Some(listing) => match listing_on(sheet, most, listing) {
            Ok(()) => {
                *list = None;
                Ok(())
            }
            Err(stop) => Err(stop),
        },
    }
}

/// The addresses of items.
fn addresses(alloc: Global, words: &[[u8; 8]]) -> Result<Vec<u64>, AllocError>
    ensures { IfOk result (λ v. v.items ≡ map spec.word words.now) }
{
    words.iter().map(word).collect(alloc)
}

/// The address of a list that can't be read to its end.
#[tactic(auto, unfolding(tr_values::specs::Numbers::pointer))]
fn lost(sheet: &mut Sheet<'_>, address: u64) -> Result<Option<Listing>, Needed>
    ensures { Finds result (pointer_text address, None) sheet.old sheet.new }
{
    match numbers::pointer(sheet, address) {
        Ok(()) => Ok(None),
        Err(stop) => Err(stop),
    }
}

/// A list that ends, or of which more can be read than are shown; else its address.
fn found(sheet: &mut Sheet<'_>, address: u64, bytes: &[u8]) -> Result<Option<Listing>, Needed>
    ensures { Finds result (opened address bytes.now) sheet.old sheet.new }
{
    let words = words(bytes);
    let count = null_at(words);
    if count >= words.len() && bytes.len() < 264 {
        return lost(sheet, address);
    }
    let addresses = addresses(sheet.alloc(), &words[..count.min(MOST_ITEMS)])?;
    sheet.put("[")?;
    Ok(Some(Listing {
        addresses,
        next: 0,
        some: false,
        cut: MOST_ITEMS < count,
    }))
}

/// Begins a list, behind a comma where an argument stands before it.
pub(crate) fn open(
    sheet: &mut Sheet<'_>,
    some: bool,
    most: u32,
    address: u64,
) -> Result<Option<Listing>, Needed>
    requires { most ≤ 4096 }
    ensures { Begins result most (list_shown most some address) sheet.old sheet.new }
{
    if address == 0 {
        comma(sheet, some)?;
        sheet.put("NULL")?;
        return Ok(None);
    }
    match sheet.read(address, 264) {
        Ok(bytes) => {
            comma(sheet, some)?;
            found(sheet, address, bytes)
        }
        Err(stop) => Err(stop),
    }
}
