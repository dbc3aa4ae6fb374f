//! The paths of folders.

ghost use Rattle.std.specs.Prelude.{◌≡◌, OnOk, IfOk};
ghost use Rattle.std.specs.FinMap as maps;
ghost use Rattle.lx_files.specs.Folders.{above_in, depth_in, name_in, climbed, path_of as path_in, named};
ghost use Rattle.lx_files.specs.Folders.{with_path, IsTree, AreThere, IsAnyChild};
ghost use Rattle.lx_files.specs.Paths.{is_under};
ghost use Rattle.lx_files.specs.Ways.{IsCached};
ghost use Rattle.std.specs.List.{list_any};

use crate::cache::{DirectoryCache, find};
use crate::folder::{Folders, Standing};
use crate::folders::TOP;
use crate::path_map::PathMap;
use shelves::Shelf;
use std::alloc::{AllocError, Global};

pub fn above(standings: &Shelf<Standing>, folder: u32) -> u32
    ensures { result ≡ above_in (maps.get standings.now folder) }
{
    match standings.get(folder) {
        None => TOP,
        Some(standing) => standing.above,
    }
}

fn depth(standings: &Shelf<Standing>, folder: u32) -> u32
    ensures { result ≡ depth_in (maps.get standings.now folder) }
{
    match standings.get(folder) {
        None => 0,
        Some(standing) => standing.depth,
    }
}

fn name(standings: &Shelf<Standing>, folder: u32) -> &[u8]
    ensures { result.now ≡ name_in (maps.get standings.now folder) }
{
    match standings.get(folder) {
        None => b"".as_slice(),
        Some(standing) => standing.name.as_slice(),
    }
}

/// The path of a folder with so many above it.
#[tactic(auto, unfolding(crate::specs::Folders::climbed))]
fn climb(
    alloc: Global,
    standings: &Shelf<Standing>,
    depth: u32,
    folder: u32,
) -> Result<Vec<u8>, AllocError>
    ensures { IfOk result (λ p. p.items ≡ climbed standings.now depth folder) }
{
    let name = name(standings, folder);
    if depth == 0 {
        return name.to_vec(alloc);
    }
    let mut path = climb(alloc, standings, depth - 1, above(standings, folder))?;
    path.push(b'/')?;
    path.extend_from_slice(name)?;
    Ok(path)
}

/// A path more, if its folder has a number.
fn add_path(
    alloc: Global,
    flat: &mut PathMap,
    standings: &Shelf<Standing>,
    numbers: &Shelf<u32>,
    folder: u32,
) -> Result<(), AllocError>
    ensures { OnOk result (flat.new
        ≡ with_path flat.old (path_in standings.now folder) (maps.get numbers.now folder)) }
{
    let Some(number) = numbers.get(folder) else {
        return Ok(());
    };
    let path = climb(alloc, standings, depth(standings, folder), folder)?;
    flat.insert(path, *number)
}

/// All numbers by their paths.
pub fn flatten(
    alloc: Global,
    folders: &Folders,
    numbers: &Shelf<u32>,
) -> Result<PathMap, AllocError>
    requires tree { IsTree folders.now.children folders.now.standings folders.now.full_below }
    requires there { AreThere folders.now.standings numbers.now }
    ensures { IfOk result (λ m. m ≡ named folders.now.standings numbers.now) }
{
    let mut flat = PathMap::new(alloc);
    let mut folder = 0;
    'folders: loop {
        add_path(alloc, &mut flat, &folders.standings, numbers, folder)?;
        match numbers.next_key(folder) {
            None => return Ok(flat),
            Some(next) => folder = next,
        }
    }
}

/// Some name in a folder leads to the folder that is given.
pub fn any_child(folders: &Folders, folder: u32) -> Option<u32>
    ensures { IsAnyChild folders.now.children folder result }
{
    match folders.children.get(folder) {
        None => None,
        Some(names) => names.any(),
    }
}

/// Some path begins with a path and a slash, as all paths are gone through.
fn any_starts(
    alloc: Global,
    folders: &Folders,
    numbers: &Shelf<u32>,
    path: &[u8],
) -> Result<bool, AllocError>
    requires tree { IsTree folders.now.children folders.now.standings folders.now.full_below }
    requires there { AreThere folders.now.standings numbers.now }
    ensures { IfOk result (λ a. a
        ≡ list_any (is_under path.now) (maps.keys (named folders.now.standings numbers.now))) }
{
    let flat = flatten(alloc, folders, numbers)?;
    let mut start = path.to_vec(alloc)?;
    start.push(b'/')?;
    Ok(flat.any_starts(start))
}

/// Some path leads on from a path. Where a folder has no number, what is in it may have none either.
pub fn any_under(
    alloc: Global,
    folders: &Folders,
    cache: &DirectoryCache,
    numbers: &Shelf<u32>,
    path: &[u8],
) -> Result<bool, AllocError>
    requires tree { IsTree folders.now.children folders.now.standings folders.now.full_below }
    requires cached { IsCached folders.now.children cache.now }
    requires there { AreThere folders.now.standings numbers.now }
    ensures { IfOk result (λ a. a
        ≡ list_any (is_under path.now) (maps.keys (named folders.now.standings numbers.now))) }
{
    match find(folders, cache, path) {
        None => Ok(false),
        Some(folder) => match any_child(folders, folder) {
            None => Ok(false),
            Some(child) => match numbers.get(child) {
                Some(_) => Ok(true),
                None => any_starts(alloc, folders, numbers, path),
            },
        },
    }
}
