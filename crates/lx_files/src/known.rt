//! A directory whose folder is known, so that what is in it, or near it, isn't looked up from the top.

ghost use Rattle.std.specs.Prelude.{◌≡◌, ◌<◌, ◌++◌, ◌∷◌, length, IfSome};
ghost use Rattle.lx_files.specs.Paths.{slash, parent as parent_of};
ghost use Rattle.lx_files.specs.Folders.{IsTree};
ghost use Rattle.lx_files.specs.Ways.{IsKnown, IsWay};

use crate::folder::Folders;
use crate::reaching::go_up;
use containers::Bytes;
use std::alloc::AllocError;

/// The path of a directory, and the folder that it leads to.
#[derive(Drop)]
pub struct Known {
    pub path: Bytes,
    pub folder: u32,
}

/// A folder, and what leads on from there.
#[derive(Clone, Copy)]
pub struct Way<'a> {
    pub folder: u32,
    pub rest: &'a [u8],
}

/// What follows a slash.
fn after_slash(text: &[u8]) -> Option<&[u8]>
    ensures { IfSome result (λ rest. text.now ≡ slash ∷ rest.now) }
{
    match text.split_first() {
        Some((b'/', rest)) => Some(rest),
        _ => None,
    }
}

/// What follows a directory and a slash in a path.
fn below<'a>(path: &'a [u8], directory: &[u8]) -> Option<&'a [u8]>
    ensures { IfSome result (λ rest. path.now ≡ directory.now ++ slash ∷ rest.now) }
{
    match path.strip_prefix(directory) {
        None => None,
        Some(rest) => after_slash(rest),
    }
}

/// The path without its last name.
fn parent(path: &[u8]) -> &[u8]
    ensures parent { result.now ≡ parent_of path.now }
    ensures shorter { 0 < length path.now → length result.now < length path.now }
{
    let mut left = path;
    while let Some((byte, before)) = left.split_last() {
        left = before;
        if *byte == b'/' {
            return left;
        }
    }
    left
}

/// From a directory that is known, or from one above it, where a path leads on from there. A path that doesn't begin as
/// half of the directory's does is nearer from the top.
pub fn way_from<'a>(folders: &Folders, known: &Known, path: &'a [u8]) -> Option<Way<'a>>
    requires tree { IsTree folders.now.children folders.now.standings folders.now.full_below }
    requires known { IsKnown folders.now.children known.now }
    ensures { IfSome result (λ w. IsWay folders.now.children folders.now.standings w.folder w.rest.now path.now) }
{
    let mut over = known.path.as_slice();
    let mut folder = known.folder;
    'up: loop {
        if let Some(rest) = below(path, over) {
            return Some(Way { folder, rest });
        }
        if over.is_empty() || !path.starts_with(&over[..over.len() / 2]) {
            return None;
        }
        over = parent(over);
        let Some(above) = go_up(folders, Some(folder), over) else {
            return None;
        };
        folder = above;
    }
}

impl Clone for Known {
    ghost is_clone = { λ a b. b ≡ a };

    fn clone(&self) -> Result<Self, AllocError> {
        Ok(Known {
            path: self.path.clone()?,
            folder: self.folder,
        })
    }
}
