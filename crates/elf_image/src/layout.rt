//! How runs of memory lie beside each other.

ghost use Rattle.std.specs.Prelude.{◌≡◌, ◌||◌, ◌<◌, ◌≤◌, ◌+◌, ◌*◌, ◌^◌, ℕ, false, length, nat_lt};
ghost use Rattle.std.specs.List.{list_any};
ghost use Rattle.elf_image.specs.Layout.{meets, shares, any_share, is_outside, touches, own_pages, page_count, are_too_large};

/// A run of memory.
#[derive(Clone, Copy, Debug)]
pub struct Extent {
    pub address: u64,
    pub size: u64,
}

/// The addresses that segments lie in begin here.
const LOWEST: u64 = 0x1000;

/// The addresses that segments lie in end before this one.
const END: u64 = 0x20_0000_0000;

const PAGE: u64 = 4096;

/// The most pages that a program may fill.
const MOST_PAGES: u64 = 8192;

fn meet(a: u64, m: u64, b: u64, n: u64) -> bool
    ensures { result ≡ meets a m b n }
{
    if a < b {
        b - a < m && 0 < n
    } else {
        a - b < n && 0 < m
    }
}

fn shares_with(extent: Extent, others: &[Extent]) -> bool
    ensures { result ≡ list_any (shares extent) others.now }
{
    others.iter().any(|other| meet(extent.address, extent.size, other.address, other.size))
}

/// Whether two of the extents share a byte.
pub fn overlap(extents: &[Extent]) -> bool
    ensures { result ≡ any_share extents.now }
{
    for (i, extent) in extents.iter().enumerate() {
        if shares_with(*extent, &extents[i + 1..]) {
            return true;
        }
    }
    false
}

fn leave_range(extents: &[Extent]) -> bool
    ensures { result ≡ list_any is_outside extents.now }
{
    extents.iter().any(|extent| {
        extent.address < LOWEST || END < extent.address || END - extent.address < extent.size
    })
}

fn touch(page: u64, extents: &[Extent]) -> bool
    requires { page < 2 ^ 32 }
    ensures { result ≡ list_any (touches page) extents.now }
{
    extents.iter().any(|extent| meet(PAGE * page, PAGE, extent.address, extent.size))
}

/// How many pages one extent fills that none of the others has bytes on: all but perhaps its first
/// and its last, since it shares no byte with them.
fn pages_alone(extent: Extent, others: &[Extent]) -> u64
    requires inside { is_outside extent ≡ false }
    requires apart { list_any (shares extent) others.now ≡ false }
    ensures value { result ≡ own_pages extent others.now }
    ensures small { result < 2 ^ 32 }
{
    let first = extent.address / PAGE;
    let last = (extent.address + extent.size - 1) / PAGE;
    if last < first {
        return 0;
    }
    let at_first = u64::from(!touch(first, others));
    if first == last {
        return at_first;
    }
    let at_last = u64::from(!touch(last, others));
    last - first - 1 + at_first + at_last
}

fn pages(extents: &[Extent]) -> u64
    requires few { length extents.now ≤ 64 }
    requires inside { list_any is_outside extents.now ≡ false }
    requires apart { any_share extents.now ≡ false }
    ensures { result ≡ page_count extents.now }
{
    let mut count = 0;
    for (i, extent) in extents.iter().enumerate() {
        count += pages_alone(*extent, &extents[i + 1..]);
    }
    count
}

/// Whether an extent is out of range, or there are too many pages.
#[tactic(auto, unfolding(crate::specs::Layout::are_too_large))]
pub fn too_large(extents: &[Extent]) -> bool
    requires few { length extents.now ≤ 64 }
    requires apart { any_share extents.now ≡ false }
    ensures { result ≡ are_too_large extents.now }
{
    leave_range(extents) || pages(extents) > MOST_PAGES
}
