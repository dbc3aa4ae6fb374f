//! Whether files lie under one another or have one path, told by neighbours in an order of their paths.

ghost use Rattle.std.specs.Prelude.{◌≡◌, true, false, nat_le, map, Some, IfOk, IfSome};
ghost use Rattle.std.specs.List.{list_any};
ghost use Rattle.std.specs.List.Sorted.{IsPermutation};
ghost use Rattle.lx_abi.specs.Limits.{most_nodes};
ghost use Rattle.lx_boot.specs.Boots.{has_duplicate};
ghost use Rattle.lx_boot.specs.Limits.{nodes};
ghost use Rattle.lx_boot.specs.Paths.{is_under as is_under_path};
ghost use Rattle.lx_boot.specs.Neighbours.{rank as rank_of, precedes as precedes_path, under_next as under_next_of, twice_next as twice_next_of, has_under, AreOrdered, IsTold};

use crate::limits::{common_length, ordered_nodes_fit};
use lx_abi::GuestFile;
use std::alloc::{AllocError, Global};
use std::cmp::Ordering;

/// What was found without comparing each two files; `None` where that takes more memory than there is.
#[derive(Clone, Copy)]
pub struct Told {
    /// A file lies under another.
    pub under: Option<bool>,
    /// Two files have one path.
    pub twice: Option<bool>,
    /// The files and their directories are no more than there may be; `None` too where a file lies under another.
    pub few: Option<bool>,
}

/// The path goes on, behind the other, with a slash.
pub fn is_under(path: &[u8], above: &[u8]) -> bool
    ensures { result ≡ is_under_path path.now above.now }
{
    path.starts_with(above) && path.get(above.len()) == Some(&b'/')
}

/// A byte's place in the order of paths: a slash comes first.
fn rank(byte: u8) -> u16
    ensures { result ≡ rank_of byte }
{
    if byte == b'/' { 0 } else { u16::from(byte) + 1 }
}

/// The order of paths by their bytes' ranks, in which what lies under a path comes right behind it.
fn by_rank(path: &[u8], other: &[u8]) -> Ordering {
    let shared = common_length(path, other);
    let next = path.get(shared).map(|byte| rank(*byte));
    next.cmp(&other.get(shared).map(|byte| rank(*byte)))
}

/// The files by their paths' ranks.
fn in_order(alloc: Global, files: &[GuestFile]) -> Result<Vec<&GuestFile>, AllocError>
    ensures { IfOk result (λ v. IsPermutation files.now (map (λ f. f.now) v.items)) }
{
    let mut order: Vec<&GuestFile> = files.iter().collect(alloc)?;
    order.sort_unstable_by(|a, b| by_rank(a.path.as_slice(), b.path.as_slice()));
    Ok(order)
}

/// A path comes before another by rank, and the other isn't under it; one path twice is in order where `twice`.
#[tactic(auto, unfolding(crate::specs::Neighbours::precedes))]
fn precedes(twice: bool, path: &[u8], other: &[u8]) -> bool
    ensures { result ≡ precedes_path twice path.now other.now }
{
    let mut left = path;
    let mut right = other;
    while let Some((a, rest)) = left.split_first() {
        let Some((b, others)) = right.split_first() else {
            return false;
        };
        if a != b {
            return rank(*a) < rank(*b);
        }
        left = rest;
        right = others;
    }
    match right.first() {
        None => twice,
        Some(b) => *b != b'/',
    }
}

/// A file lies under the one before it, unless two neighbours are out of order.
#[tactic(auto, unfolding(crate::specs::Neighbours::under_next))]
fn under_next(first: &GuestFile, files: &[&GuestFile]) -> Option<bool>
    ensures { result ≡ under_next_of first.now (map (λ f. f.now) files.now) }
{
    let mut last = first;
    for file in files {
        if is_under(file.path.as_slice(), last.path.as_slice()) {
            return Some(true);
        }
        if !precedes(true, last.path.as_slice(), file.path.as_slice()) {
            return None;
        }
        last = file;
    }
    Some(false)
}

/// A file has the path of the one before it, unless two neighbours are out of order.
#[tactic(auto, unfolding(crate::specs::Neighbours::twice_next))]
fn twice_next(first: &GuestFile, files: &[&GuestFile]) -> Option<bool>
    ensures { result ≡ twice_next_of first.now (map (λ f. f.now) files.now) }
{
    let mut last = first;
    for file in files {
        if last.path.as_slice() == file.path.as_slice() {
            return Some(true);
        }
        if !precedes(false, last.path.as_slice(), file.path.as_slice()) {
            return None;
        }
        last = file;
    }
    Some(false)
}

/// The files and their directories are no more than there may be: told where none lies under the one before it.
fn few_where(under: Option<bool>, files: &[&GuestFile]) -> Option<bool>
    requires { under ≡ Some false → AreOrdered true (map (λ f. f.now) files.now) }
    ensures { IfSome result (λ b. b ≡ nat_le (nodes (map (λ f. f.now) files.now)) most_nodes) }
{
    match under {
        Some(false) => Some(ordered_nodes_fit(files)),
        _ => None,
    }
}

/// What neighbours tell of files.
fn told_by(files: &[&GuestFile]) -> Told
    ensures { IsTold (map (λ f. f.now) files.now) result }
{
    match files.split_first() {
        None => Told {
            under: Some(false),
            twice: Some(false),
            few: Some(true),
        },
        Some((first, rest)) => {
            let under = under_next(first, rest);
            Told {
                under,
                twice: twice_next(first, rest),
                few: few_where(under, files),
            }
        }
    }
}

/// What can be told of files without comparing each two, in time that goes with their number and its logarithm.
pub fn tell(alloc: Global, files: &[GuestFile]) -> Told
    ensures { IsTold files.now result }
{
    match in_order(alloc, files) {
        Err(_) => Told {
            under: None,
            twice: None,
            few: None,
        },
        Ok(order) => told_by(order.as_slice()),
    }
}
