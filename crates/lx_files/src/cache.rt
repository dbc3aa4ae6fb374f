//! Which directories' folders are known.

ghost use Rattle.std.specs.Prelude.{◌≡◌, ◌==◌, ℕ, List, Some, IfSome, true, false};
ghost use Rattle.lx_files.specs.Folders.{Children, Standings, at as at_names, names_of, IsTree, StaysBeside};
ghost use Rattle.lx_files.specs.Ways.{AreKnown, IsCached, IsKnown, IsWay};

use crate::folder::Folders;
use crate::folders::{TOP, walk};
use crate::known::{Known, Way, way_from};
use crate::places::ascend;
use crate::reaching::go_up;
use containers::Bytes;
use std::alloc::{AllocError, Global};

/// The most directories that are known since a process went into them.
const MOST_ENTERED: usize = 8;

/// So few bytes have few names.
const NEAR: usize = 32;

/// The directory above the path that was made last, and those that processes went into lately.
#[derive(Drop)]
pub struct DirectoryCache {
    made: Option<Known>,
    entered: Vec<Known>,
}

/// The folder of a path that is known itself.
fn folder_of(entered: &[Known], path: &[u8]) -> Option<u32>
    ensures { IfSome result (λ folder. (children : Children)
        → AreKnown children entered.now → at_names children (names_of path.now) ≡ Some folder) }
{
    let mut left = entered;
    while let Some((known, rest)) = left.split_first() {
        if path == known.path.as_slice() {
            return Some(known.folder);
        }
        left = rest;
    }
    None
}

/// A way of which little is left.
fn is_near(way: &Option<Way>) -> bool {
    match way {
        None => false,
        Some(way) => way.rest.len() <= NEAR,
    }
}

/// That of which less is left.
fn nearer<'a>(one: Option<Way<'a>>, other: Option<Way<'a>>) -> Option<Way<'a>>
    ensures { (children : Children) (standings : Standings) (path : List ℕ)
        → IfSome one.entry (λ w. IsWay children standings w.folder w.rest.now path)
        → IfSome other.entry (λ w. IsWay children standings w.folder w.rest.now path)
        → IfSome result (λ w. IsWay children standings w.folder w.rest.now path) }
{
    match (one, other) {
        (Some(first), Some(second)) => {
            if first.rest.len() <= second.rest.len() {
                one
            } else {
                other
            }
        }
        (Some(_), None) => one,
        (None, _) => other,
    }
}

/// From one of these directories, or from one above it: the first that is near, of those that were entered last, or the
/// nearest.
fn way_among<'a>(folders: &Folders, entered: &[Known], path: &'a [u8]) -> Option<Way<'a>>
    requires tree { IsTree folders.now.children folders.now.standings folders.now.full_below }
    requires known { AreKnown folders.now.children entered.now }
    ensures { IfSome result (λ w. IsWay folders.now.children folders.now.standings w.folder w.rest.now path.now) }
{
    let mut best = None;
    let mut left = entered;
    while let Some((known, before)) = left.split_last() {
        best = nearer(best, way_from(folders, known, path));
        if is_near(&best) {
            return best;
        }
        left = before;
    }
    best
}

/// From the directory above the path that was made last, or from one above it.
fn way_made<'a>(folders: &Folders, made: &Option<Known>, path: &'a [u8]) -> Option<Way<'a>>
    requires tree { IsTree folders.now.children folders.now.standings folders.now.full_below }
    requires known { IfSome made.now (IsKnown folders.now.children) }
    ensures { IfSome result (λ w. IsWay folders.now.children folders.now.standings w.folder w.rest.now path.now) }
{
    match made {
        None => None,
        Some(known) => way_from(folders, known, path),
    }
}

/// From a directory that is known, or from one above it.
fn way_known<'a>(folders: &Folders, cache: &DirectoryCache, path: &'a [u8]) -> Option<Way<'a>>
    requires tree { IsTree folders.now.children folders.now.standings folders.now.full_below }
    requires cached { IsCached folders.now.children cache.now }
    ensures { IfSome result (λ w. IsWay folders.now.children folders.now.standings w.folder w.rest.now path.now) }
{
    let entered = way_among(folders, cache.entered.as_slice(), path);
    if is_near(&entered) {
        return entered;
    }
    nearer(entered, way_made(folders, &cache.made, path))
}

/// From where a path is looked up: from near a directory that is known, or from the top.
pub fn way_to<'a>(folders: &Folders, cache: &DirectoryCache, path: &'a [u8]) -> Way<'a>
    requires tree { IsTree folders.now.children folders.now.standings folders.now.full_below }
    requires cached { IsCached folders.now.children cache.now }
    ensures { IsWay folders.now.children folders.now.standings result.folder result.rest.now path.now }
{
    match way_known(folders, cache, path) {
        Some(way) => way,
        None => Way {
            folder: TOP,
            rest: path,
        },
    }
}

/// Where a path leads.
pub fn find(folders: &Folders, cache: &DirectoryCache, path: &[u8]) -> Option<u32>
    requires tree { IsTree folders.now.children folders.now.standings folders.now.full_below }
    requires cached { IsCached folders.now.children cache.now }
    ensures { result ≡ at_names folders.now.children (names_of path.now) }
{
    if let Some(folder) = folder_of(cache.entered.as_slice(), path) {
        return Some(folder);
    }
    let way = way_to(folders, cache, path);
    walk(&folders.children, way.folder, way.rest)
}

/// The directory above a path that leads to a folder, where there is memory for it.
fn above(alloc: Global, folders: &Folders, folder: u32, path: &[u8]) -> Option<Known>
    requires tree { IsTree folders.now.children folders.now.standings folders.now.full_below }
    requires leads { at_names folders.now.children (names_of path.now) ≡ Some folder }
    ensures { IfSome result (IsKnown folders.now.children) }
{
    let Ok(mut above) = path.to_vec(alloc) else {
        return None;
    };
    ascend(&mut above);
    match go_up(folders, Some(folder), above.as_slice()) {
        None => None,
        Some(over) => Some(Known {
            path: Bytes::from_vec(above),
            folder: over,
        }),
    }
}

/// There is room for one more: that which was entered first goes where there are many.
fn make_room(entered: &mut Vec<Known>)
    ensures { (children : Children) → AreKnown children entered.old.items → AreKnown children entered.new.items }
{
    if entered.len() >= MOST_ENTERED {
        entered.remove(0);
    }
}

/// One directory more, where there is memory for it.
fn keep(alloc: Global, entered: &mut Vec<Known>, folder: u32, path: &[u8])
    ensures { (children : Children) → at_names children (names_of path.now) ≡ Some folder
        → AreKnown children entered.old.items → AreKnown children entered.new.items }
{
    let Ok(path) = Bytes::from_slice(alloc, path) else {
        return;
    };
    make_room(entered);
    let _kept = entered.push(Known { path, folder });
}

/// Its folder isn't this one.
fn is_beside(made: &Option<Known>, folder: u32) -> bool
    ensures { IfSome made.now (λ k. result ≡ true → (k.folder == folder) ≡ false) }
{
    match made {
        None => true,
        Some(known) => known.folder != folder,
    }
}

/// What is known stays, but of this folder.
fn forget_made(made: &mut Option<Known>, folder: u32)
    ensures { IfSome made.new (λ k. (made.old ≡ Some k) × ((k.folder == folder) ≡ false)) }
{
    if !is_beside(made, folder) {
        *made = None;
    }
}

impl DirectoryCache {
    pub fn new(alloc: Global) -> Self
        ensures { (children : Children) → IsCached children result }
    {
        DirectoryCache {
            made: None,
            entered: Vec::new(alloc),
        }
    }

    /// A path was made that leads to a folder.
    pub fn make(&mut self, alloc: Global, folders: &Folders, folder: u32, path: &[u8])
        requires tree { IsTree folders.now.children folders.now.standings folders.now.full_below }
        requires leads { at_names folders.now.children (names_of path.now) ≡ Some folder }
        requires cached { IsCached folders.now.children self.old }
        ensures { IsCached folders.now.children self.new }
    {
        self.made = above(alloc, folders, folder, path);
    }

    /// A process went into a directory.
    pub fn enter(&mut self, alloc: Global, folders: &Folders, path: &[u8])
        requires tree { IsTree folders.now.children folders.now.standings folders.now.full_below }
        requires cached { IsCached folders.now.children self.old }
        ensures { IsCached folders.now.children self.new }
    {
        if folder_of(self.entered.as_slice(), path).is_some() {
            return;
        }
        if let Some(folder) = find(folders, self, path) {
            keep(alloc, &mut self.entered, folder, path);
        }
    }

    /// A folder goes, and no other.
    pub fn forget(&mut self, folder: u32)
        ensures { (old new : Children) → StaysBeside folder old new → IsCached old self.old → IsCached new self.new }
    {
        forget_made(&mut self.made, folder);
        self.entered.retain(|known| folder != known.folder);
    }
}

impl Clone for DirectoryCache {
    ghost use Rattle.lx_files.specs.Folders.{Children};
    ghost use Rattle.lx_files.specs.Ways.{IsCached};

    ghost is_clone = { λ a b. (children : Children) → IsCached children a → IsCached children b };

    fn clone(&self) -> Result<Self, AllocError> {
        Ok(DirectoryCache {
            made: self.made.clone()?,
            entered: self.entered.clone()?,
        })
    }
}
