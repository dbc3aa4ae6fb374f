//! What a text of a path names.

ghost use Rattle.std.specs.Prelude.{◌≡◌, OnOk, IfOk, map};
ghost use Rattle.std.specs.List.{list_any};
ghost use Rattle.lx_files.specs.Paths.{parent as parent_of};
ghost use Rattle.lx_files.specs.Trees.{node_at};
ghost use Rattle.lx_files.specs.Places.{beyond as beyond_of, numbered, pieces as pieces_of, is_long, start_of};
ghost use Rattle.lx_files.specs.Places.{place as place_of, path_of, sight as sight_of};

use crate::tree::Tree;
use containers::Bytes;
use lx_abi::limits::LONGEST_NAME;
use lx_abi::{Errno, Node};
use std::alloc::{AllocError, Global};

/// The directory in which a path's last part stands, that part, and whether a slash follows it.
#[derive(Drop)]
pub struct Place {
    pub under: Bytes,
    pub last: Bytes,
    pub slashed: bool,
}

/// What stands at a place.
#[derive(Clone, Copy, Debug, PartialEq, Eq)]
pub enum Lookup {
    Absent,
    IsFile,
    IsDirectory,
    /// A file where a directory is wanted.
    NotDirectory,
}

/// Takes the last name of a path away.
#[tactic(auto, unfolding(crate::specs::Paths::parent))]
pub fn ascend(path: &mut Vec<u8>)
    ensures { path.new.items ≡ parent_of path.old.items }
{
    while let Some(byte) = path.pop() {
        if byte == b'/' {
            return;
        }
    }
}

/// Goes on from a directory to where a part leads.
#[tactic(auto, unfolding(crate::specs::Places::beyond))]
pub fn go_beyond(path: &mut Vec<u8>, part: &[u8]) -> Result<(), AllocError>
    ensures { OnOk result (path.new.items ≡ beyond_of path.old.items part.now) }
{
    if part.is_empty() || part == b".".as_slice() {
        return Ok(());
    }
    if part == b"..".as_slice() {
        ascend(path);
        return Ok(());
    }
    path.push(b'/')?;
    path.extend_from_slice(part)?;
    Ok(())
}

/// What stands between slashes.
fn pieces(alloc: Global, text: &[u8]) -> Result<Vec<&[u8]>, AllocError>
    ensures { IfOk result (λ v. map (λ p. p.now) v.items ≡ pieces_of text.now) }
{
    text.split(|byte| *byte == b'/').collect(alloc)
}

fn any_long(pieces: &[&[u8]]) -> bool
    ensures { result ≡ list_any is_long (map (λ p. p.now) pieces.now) }
{
    for piece in pieces {
        if piece.len() > LONGEST_NAME {
            return true;
        }
    }
    false
}

/// Where the path of a text begins.
fn start(alloc: Global, directory: &[u8], text: &[u8]) -> Result<Vec<u8>, AllocError>
    ensures { IfOk result (λ v. v.items ≡ start_of directory.now text.now) }
{
    if text.starts_with(b"/".as_slice()) {
        return Ok(Vec::new(alloc));
    }
    directory.to_vec(alloc)
}

/// The place that a text names, from a working directory.
#[tactic(auto, unfolding(crate::specs::Places::place))]
pub fn locate(
    alloc: Global,
    tree: &Tree,
    directory: &[u8],
    text: &[u8],
) -> Result<Result<Place, Errno>, AllocError>
    ensures { IfOk result (λ r. numbered r ≡ place_of tree.now directory.now text.now) }
{
    if text.len() == 0 {
        return Ok(Err(Errno::ENOENT));
    }
    let pieces = pieces(alloc, text)?;
    if any_long(pieces.as_slice()) {
        return Ok(Err(Errno::ENAMETOOLONG));
    }
    let start = start(alloc, directory, text)?;
    let slashed = text.ends_with(b"/".as_slice());
    tree.names
        .reach(alloc, &tree.nodes, slashed, start, pieces.as_slice())
}

/// The path of a place.
pub fn path(alloc: Global, place: &Place) -> Result<Vec<u8>, AllocError>
    ensures { IfOk result (λ v. v.items ≡ path_of place.now) }
{
    let mut path = place.under.as_slice().to_vec(alloc)?;
    go_beyond(&mut path, place.last.as_slice())?;
    Ok(path)
}

/// What stands at a path.
pub fn look(tree: &Tree, slashed: bool, path: &[u8]) -> Lookup
    ensures { result ≡ sight_of slashed (node_at tree.now path.now) }
{
    match tree.find(path) {
        None => Lookup::Absent,
        Some(Node::Directory) => Lookup::IsDirectory,
        Some(Node::File(_)) => {
            if slashed {
                Lookup::NotDirectory
            } else {
                Lookup::IsFile
            }
        }
    }
}
