//! The tree of a boot's files.

ghost use Rattle.std.specs.Prelude.{◌≡◌, ◌<◌, OnOk, IfOk, length};
ghost use Rattle.lx_files.specs.Boots.{rooted, HasParents, with_directory, with_directory_at, with_directories, with_file};
ghost use Rattle.lx_files.specs.Boots.{tree_of};

use crate::tree::Tree;
use lx_abi::{GuestFile, Node};
use std::alloc::{AllocError, Global};

fn add_directory(alloc: Global, tree: &mut Tree, path: &[u8]) -> Result<(), AllocError>
    ensures { OnOk result (tree.new ≡ with_directory tree.old path.now) }
{
    if tree.names.get(path).is_none() {
        tree.create(alloc, path, Node::Directory)?;
    }
    Ok(())
}

/// A directory stands before this place of a path, if a slash that follows a name is there.
fn add_directory_at(alloc: Global, tree: &mut Tree, path: &[u8], i: usize) -> Result<(), AllocError>
    requires { i < length path.now }
    ensures { OnOk result (tree.new ≡ with_directory_at tree.old path.now i) }
{
    if i > 0 && path[i] == b'/' {
        add_directory(alloc, tree, &path[..i])?;
    }
    Ok(())
}

/// The directories above a path stand. Above the last that is there, all are.
fn add_directories(alloc: Global, tree: &mut Tree, path: &[u8]) -> Result<(), AllocError>
    requires { HasParents tree.old }
    ensures { OnOk result (tree.new ≡ with_directories tree.old path.now (length path.now)) }
{
    let known = tree.names.known_part(path);
    for i in known..path.len() {
        if i > known {
            add_directory_at(alloc, tree, path, i)?;
        }
    }
    Ok(())
}

fn add_file(alloc: Global, tree: &mut Tree, file: &GuestFile) -> Result<(), AllocError>
    requires { HasParents tree.old }
    ensures { OnOk result (tree.new ≡ with_file tree.old file.now) }
{
    let path = file.path.as_slice();
    add_directories(alloc, tree, path)?;
    let content = file.content.share()?;
    tree.create(alloc, path, Node::File(content))?;
    Ok(())
}

/// The root alone.
pub fn root(alloc: Global) -> Result<Tree, AllocError>
    ensures { IfOk result (λ t. t ≡ rooted) }
{
    let mut tree = Tree::new(alloc);
    tree.create(alloc, b"".as_slice(), Node::Directory)?;
    Ok(tree)
}

/// The files of a boot, in their directories. Node numbers are given in the order in which nodes are made.
pub fn plant(alloc: Global, files: &[GuestFile]) -> Result<Tree, AllocError>
    ensures { IfOk result (λ t. t ≡ tree_of files.now) }
{
    let mut tree = root(alloc)?;
    for file in files {
        add_file(alloc, &mut tree, file)?;
    }
    Ok(tree)
}
