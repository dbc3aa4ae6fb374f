//! Names that lead from folder to folder.

ghost use Rattle.std.specs.Prelude.{◌≡◌, ◌<◌, ◌≤◌, take, drop, length, OnOk, OnErr, IfOk, IsSome, Some, None, List, ℕ, true, false};
ghost use Rattle.std.specs.Option.{option_and_then};
ghost use Rattle.std.specs.FinMap as maps;
ghost use Rattle.containers.specs.Vacant.{vacant, IsFullBelow};
ghost use Rattle.lx_files.specs.Paths.{has_slash};
ghost use Rattle.lx_files.specs.Folders.{first_slash as first_slash_of, top, child as child_in, led, split, names_of};
ghost use Rattle.lx_files.specs.Folders.{at as at_names, depth_below, stands, IsTree, HasMore, Keeps, Stays, Entered};

use crate::folder::{Folders, Standing};
use crate::path_map::PathMap;
use containers::Bytes;
use shelves::Shelf;
use std::alloc::{AllocError, Global};

/// The folder at which paths begin.
pub const TOP: u32 = u32::MAX;

/// Where a name leads from a folder.
pub fn child(children: &Shelf<PathMap>, folder: u32, name: &[u8]) -> Option<u32>
    ensures { result ≡ child_in children.now folder name.now }
{
    match children.get(folder) {
        None => None,
        Some(names) => names.get(name),
    }
}

fn first_slash(text: &[u8]) -> Option<usize>
    ensures { result ≡ first_slash_of text.now }
{
    text.iter().position(|byte| *byte == b'/')
}

/// What follows the first byte.
fn after_first(text: &[u8]) -> &[u8]
    ensures { result.now ≡ drop 1 text.now }
{
    match text.split_first() {
        None => text,
        Some((_, rest)) => rest,
    }
}

/// Where the names of a text lead from a folder.
pub fn walk(children: &Shelf<PathMap>, from: u32, text: &[u8]) -> Option<u32>
    ensures { result ≡ led children.now (Some from) (split text.now) }
{
    let mut folder = from;
    let mut rest = text;
    'names: loop {
        match first_slash(rest) {
            None => return child(children, folder, rest),
            Some(end) => {
                match child(children, folder, &rest[..end]) {
                    None => return None,
                    Some(next) => folder = next,
                }
                rest = after_first(&rest[end..]);
            }
        }
    }
}

/// Where the last of the directories above a path ends that have a number; 0 where none has.
pub fn known_part(children: &Shelf<PathMap>, numbers: &Shelf<u32>, path: &[u8]) -> usize
    ensures within { result ≤ length path.now }
    ensures there { 0 < result → IsSome (option_and_then (maps.get numbers.now)
        (at_names children.now (names_of (take result path.now)))) }
{
    let mut known = 0;
    let mut folder = TOP;
    let mut rest = path;
    'names: loop {
        let Some(end) = first_slash(rest) else {
            return known;
        };
        let Some(next) = child(children, folder, &rest[..end]) else {
            return known;
        };
        if numbers.get(next).is_some() {
            known = path.len() - rest.len() + end;
        }
        folder = next;
        rest = after_first(&rest[end..]);
    }
}

/// A folder in which names are to stand.
fn begin(alloc: Global, children: &mut Shelf<PathMap>, folder: u32) -> Result<(), AllocError>
    ensures { (a : ℕ) (q : List ℕ) → child_in children.new a q ≡ child_in children.old a q }
{
    match children.get(folder) {
        Some(_) => Ok(()),
        None => {
            children.insert(folder, PathMap::new(alloc))?;
            Ok(())
        }
    }
}

/// A name leads to a folder.
fn put_name(
    children: &mut Shelf<PathMap>,
    folder: u32,
    name: Vec<u8>,
    number: u32,
) -> Result<(), AllocError>
    ensures ok { OnOk result (HasMore children.old children.new folder name.items number) }
    ensures err { OnErr result (children.new ≡ children.old) }
{
    let Some(names) = children.get_mut(folder) else {
        return Err(AllocError);
    };
    match names.insert(name, number) {
        Ok(()) => Ok(()),
        Err(error) => Err(error),
    }
}

/// A name more in a folder.
fn put_child(
    alloc: Global,
    children: &mut Shelf<PathMap>,
    folder: u32,
    name: &[u8],
    number: u32,
) -> Result<(), AllocError>
    ensures ok { OnOk result (HasMore children.old children.new folder name.now number) }
    ensures err { OnErr result ((a : ℕ) (q : List ℕ) → child_in children.new a q ≡ child_in children.old a q) }
{
    let name = name.to_vec(alloc)?;
    begin(alloc, children, folder)?;
    put_name(children, folder, name, number)
}

/// How many folders are above those in a folder.
fn depth_in(standings: &Shelf<Standing>, folder: u32) -> Result<u32, AllocError>
    ensures { IfOk result (λ n. n ≡ depth_below (maps.get standings.now folder)) }
{
    let Some(standing) = standings.get(folder) else {
        return Ok(0);
    };
    // More than 32 bits count are more than any memory holds.
    let Some(depth) = standing.depth.checked_add(1) else {
        return Err(AllocError);
    };
    Ok(depth)
}

/// Where a new folder will stand.
fn standing_in(
    alloc: Global,
    standings: &Shelf<Standing>,
    folder: u32,
    name: &[u8],
) -> Result<Standing, AllocError>
    ensures { IfOk result (λ s. s
        ≡ record { above = folder; depth = depth_below (maps.get standings.now folder); name = name.now }) }
{
    Ok(Standing {
        above: folder,
        depth: depth_in(standings, folder)?,
        name: Bytes::from_slice(alloc, name)?,
    })
}

/// A number for a folder.
fn vacant_number(folders: &Folders) -> Result<u32, AllocError>
    requires { IsFullBelow folders.now.standings folders.now.full_below }
    ensures number { IfOk result (λ n. n ≡ vacant folders.now.standings) }
    ensures small { IfOk result (λ n. n < top) }
{
    let number = folders.standings.vacant(folders.full_below)?;
    if number >= TOP {
        return Err(AllocError);
    }
    Ok(number)
}

/// A new folder, where a name leads nowhere.
fn add(alloc: Global, folders: &mut Folders, folder: u32, name: &[u8]) -> Result<u32, AllocError>
    requires tree { IsTree folders.old.children folders.old.standings folders.old.full_below }
    requires there { stands folders.old.standings folder ≡ true }
    requires new { child_in folders.old.children folder name.now ≡ None }
    requires bare { has_slash name.now ≡ false }
    ensures tree { IsTree folders.new.children folders.new.standings folders.new.full_below }
    ensures keeps { Keeps folders.old.standings folders.new.standings }
    ensures stays { Stays folders.old.children folders.new.children }
    ensures leads { IfOk result (λ k. child_in folders.new.children folder name.now ≡ Some k) }
    ensures there { IfOk result (λ k. stands folders.new.standings k ≡ true) }
{
    let number = vacant_number(folders)?;
    let standing = standing_in(alloc, &folders.standings, folder, name)?;
    folders.standings.insert(number, standing)?;
    match put_child(alloc, &mut folders.children, folder, name, number) {
        Ok(()) => {
            folders.full_below = number + 1;
            Ok(number)
        }
        Err(error) => {
            folders.standings.remove(number);
            Err(error)
        }
    }
}

/// The folder that a name leads to, made where there is none.
fn enter(alloc: Global, folders: &mut Folders, folder: u32, name: &[u8]) -> Result<u32, AllocError>
    requires tree { IsTree folders.old.children folders.old.standings folders.old.full_below }
    requires there { stands folders.old.standings folder ≡ true }
    requires bare { has_slash name.now ≡ false }
    ensures tree { IsTree folders.new.children folders.new.standings folders.new.full_below }
    ensures keeps { Keeps folders.old.standings folders.new.standings }
    ensures stays { Stays folders.old.children folders.new.children }
    ensures leads { IfOk result (λ k. child_in folders.new.children folder name.now ≡ Some k) }
    ensures there { IfOk result (λ k. stands folders.new.standings k ≡ true) }
{
    match child(&folders.children, folder, name) {
        Some(number) => Ok(number),
        None => add(alloc, folders, folder, name),
    }
}

/// The folder to which a text leads from one, with those above it that were not there: that of each path of which the
/// names before the text were entered.
pub fn enter_path(
    alloc: Global,
    folders: &mut Folders,
    start: u32,
    text: &[u8],
) -> Result<u32, AllocError>
    requires tree { IsTree folders.old.children folders.old.standings folders.old.full_below }
    requires there { stands folders.old.standings start ≡ true }
    ensures tree { IsTree folders.new.children folders.new.standings folders.new.full_below }
    ensures keeps { Keeps folders.old.standings folders.new.standings }
    ensures stays { Stays folders.old.children folders.new.children }
    ensures leads { IfOk result (λ k. (path : List ℕ) → Entered folders.old.children start text.now path
        → at_names folders.new.children (names_of path) ≡ Some k) }
    ensures there { IfOk result (λ k. stands folders.new.standings k ≡ true) }
{
    let mut folder = start;
    let mut rest = text;
    'names: loop {
        match first_slash(rest) {
            None => return enter(alloc, folders, folder, rest),
            Some(end) => {
                folder = enter(alloc, folders, folder, &rest[..end])?;
                rest = after_first(&rest[end..]);
            }
        }
    }
}
