//! What files hold, and the limits on it.

ghost use Rattle.std.specs.Prelude.{◌≡◌, ◌≤◌, ◌<◌, ◌+◌, ◌^◌, take, drop, length};
ghost use Rattle.lx_files.specs.Trees.{content as content_of};
ghost use Rattle.lx_fcalls.specs.Moving.{has_space as has_space_of};

use lx_abi::Node;
use lx_abi::limits::MOST_CONTENTS;
use lx_files::Tree;
use lx_proc::Shared;

/// The bytes of a file.
pub fn content(tree: &Tree, node: u32) -> &[u8]
    ensures { result.now ≡ content_of tree.now node }
{
    match tree.nodes.get(node) {
        Some(Node::File(bytes)) => bytes.as_slice(),
        Some(Node::Directory) | None => b"".as_slice(),
    }
}

/// The bytes of a content from an offset on, at most so many.
pub fn part(content: &[u8], offset: u64, count: usize) -> &[u8]
    ensures bytes { result.now ≡ take count (drop offset content.now) }
    ensures end { offset + length result.now < 2 ^ 64 }
{
    let rest = if offset < content.len() as u64 {
        &content[offset as usize..]
    } else {
        &content[content.len()..]
    };
    if count < rest.len() {
        &rest[..count]
    } else {
        rest
    }
}

/// There is space for so many bytes in place of so many.
pub fn has_space(shared: &Shared, old: u64, new: u64) -> bool
    requires { old < 2 ^ 63 }
    ensures { result ≡ has_space_of shared.now old new }
{
    let all = shared
        .tree
        .contents()
        .saturating_add(shared.console.len() as u64);
    (all.saturating_sub(old)).saturating_add(new) <= MOST_CONTENTS
}
