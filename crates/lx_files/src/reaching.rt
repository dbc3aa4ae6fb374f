//! From a directory along the parts of a path.

ghost use Rattle.std.specs.Prelude.{◌≡◌, ◌==◌, ◌||◌, length, ℕ, List, OnOk, IfOk, map, []};
ghost use Rattle.std.specs.Option.{option_map, option_and_then};
ghost use Rattle.std.specs.FinMap as maps;
ghost use Rattle.lx_files.specs.Paths.{parent as parent_of};
ghost use Rattle.lx_files.specs.Folders.{led, split, names_of, at as at_names, named, above_in, IsTree, AreThere};
ghost use Rattle.lx_files.specs.Places.{beyond as beyond_of, bar as bar_of, numbered, parts as parts_of, reached};
ghost use Rattle.lx_files.specs.Places.{is_dot, is_dot_dot};
ghost use Rattle.lx_files.specs.Ways.{IsCached};

use crate::cache::{DirectoryCache, find};
use crate::flat::above;
use crate::folder::{Folders, Standing};
use crate::folders::{TOP, walk};
use crate::nodes::Nodes;
use crate::places::{Place, go_beyond};
use containers::Bytes;
use lx_abi::{Errno, Node};
use shelves::Shelf;
use std::alloc::{AllocError, Global};

/// Where names lead from a folder, if there is one.
fn go_down(folders: &Folders, folder: Option<u32>, text: &[u8]) -> Option<u32>
    ensures { result ≡ led folders.now.children folder (split text.now) }
{
    match folder {
        None => None,
        Some(folder) => walk(&folders.children, folder, text),
    }
}

fn above_of(standings: &Shelf<Standing>, folder: Option<u32>) -> u32
    ensures { result ≡ above_in (option_and_then (maps.get standings.now) folder) }
{
    match folder {
        None => TOP,
        Some(folder) => above(standings, folder),
    }
}

/// The folder above another, whose path is given.
pub fn go_up(folders: &Folders, folder: Option<u32>, above: &[u8]) -> Option<u32>
    requires { IsTree folders.now.children folders.now.standings folders.now.full_below }
    ensures { (path : List ℕ) → folder ≡ at_names folders.now.children (names_of path) → above.now ≡ parent_of path
        → result ≡ at_names folders.now.children (names_of above.now) }
{
    let over = above_of(&folders.standings, folder);
    if over == TOP {
        return walk(&folders.children, TOP, above);
    }
    Some(over)
}

/// The part is empty or `.`.
fn stays(part: &[u8]) -> bool
    ensures { result ≡ ((length part.now == 0) || is_dot part.now) }
{
    part.is_empty() || part == b".".as_slice()
}

/// The part is `..`.
fn leads_up(part: &[u8]) -> bool
    ensures { result ≡ is_dot_dot part.now }
{
    part == b"..".as_slice()
}

/// The folder to which a part leads, whose path becomes what it is then.
fn go(
    folders: &Folders,
    folder: Option<u32>,
    path: &mut Vec<u8>,
    part: &[u8],
) -> Result<Option<u32>, AllocError>
    requires tree { IsTree folders.now.children folders.now.standings folders.now.full_below }
    requires there { folder ≡ at_names folders.now.children (names_of path.old.items) }
    ensures path { OnOk result (path.new.items ≡ beyond_of path.old.items part.now) }
    ensures folder { IfOk result (λ f. f ≡ at_names folders.now.children (names_of path.new.items)) }
{
    go_beyond(path, part)?;
    if stays(part) {
        return Ok(folder);
    }
    if leads_up(part) {
        return Ok(go_up(folders, folder, path.as_slice()));
    }
    Ok(go_down(folders, folder, part))
}

/// Why what a folder stands for can't be entered.
fn bar(numbers: &Shelf<u32>, nodes: &Nodes, folder: Option<u32>) -> Option<Errno>
    ensures { option_map (λ e. e.number) result
        ≡ bar_of (option_and_then (maps.get nodes.now) (option_and_then (maps.get numbers.now) folder)) }
{
    let Some(folder) = folder else {
        return Some(Errno::ENOENT);
    };
    let Some(number) = numbers.get(folder) else {
        return Some(Errno::ENOENT);
    };
    match nodes.get(*number) {
        None => Some(Errno::ENOENT),
        Some(Node::File(_)) => Some(Errno::ENOTDIR),
        Some(Node::Directory) => None,
    }
}

/// The place of the last part, once the parts before it are entered. Each is looked up in its directory.
pub fn reach(
    alloc: Global,
    folders: &Folders,
    cache: &DirectoryCache,
    numbers: &Shelf<u32>,
    nodes: &Nodes,
    slashed: bool,
    start: Vec<u8>,
    pieces: &[&[u8]],
) -> Result<Result<Place, Errno>, AllocError>
    requires tree { IsTree folders.now.children folders.now.standings folders.now.full_below }
    requires cached { IsCached folders.now.children cache.now }
    requires there { AreThere folders.now.standings numbers.now }
    ensures { IfOk result (λ r. numbered r
        ≡ reached (record { names = named folders.now.standings numbers.now; nodes = nodes.now }) slashed start.items []
        (parts_of (map (λ p. p.now) pieces.now))) }
{
    let mut at = start;
    let mut folder = find(folders, cache, at.as_slice());
    let mut last: &[u8] = b"".as_slice();
    for part in pieces {
        if part.len() == 0 {
            continue;
        }
        folder = go(folders, folder, &mut at, last)?;
        match bar(numbers, nodes, folder) {
            Some(error) => return Ok(Err(error)),
            None => last = part,
        }
    }
    Ok(Ok(Place {
        under: Bytes::from_vec(at),
        last: Bytes::from_slice(alloc, last)?,
        slashed,
    }))
}
