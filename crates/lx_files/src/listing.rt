//! What is left of a tree.

ghost use Rattle.std.specs.Prelude.{◌≡◌, IfOk, map};
ghost use Rattle.std.specs.List.{filter};
ghost use Rattle.std.specs.Option.{unwrap_or};
ghost use Rattle.std.specs.FinMap as maps;
ghost use Rattle.lx_abi.specs.declared.outcome.Node.TheVariants as node_is;
ghost use Rattle.lx_files.specs.Listing.{is_named, file_of, files_of};

use crate::nodes::Nodes;
use crate::tree::Tree;
use containers::{Bytes, Seq};
use history::Tells;
use lx_abi::{Node, OutcomeFile};
use std::alloc::{AllocError, Global};
use std::collections::BTreeMap;

/// What stands at each path.
impl Tells<OutcomeFile> for Tree {
    ghost told = { files_of };
}

/// A file's content is shared.
fn copy_node(node: &Node) -> Result<Node, AllocError>
    ensures { IfOk result (λ n. n ≡ node.now) }
{
    match node {
        Node::File(content) => Ok(Node::File(content.share()?)),
        Node::Directory => Ok(Node::Directory),
    }
}

/// A copy of the node with this number; a directory where there is none.
fn copy_numbered(nodes: &Nodes, number: u32) -> Result<Node, AllocError>
    ensures { IfOk result (λ n. n ≡ unwrap_or (maps.get nodes.now number) node_is.Directory) }
{
    match nodes.get(number) {
        Some(node) => copy_node(node),
        None => Ok(Node::Directory),
    }
}

fn outcome_file(path: Vec<u8>, number: u32, nodes: &Nodes) -> Result<OutcomeFile, AllocError>
    ensures { IfOk result (λ f. f ≡ file_of nodes.now (path.items, number)) }
{
    let node = copy_numbered(nodes, number)?;
    Ok(OutcomeFile {
        path: Bytes::from_vec(path),
        node,
    })
}

/// What stands at each path but the root, in byte order. The paths are moved.
pub(crate) fn list_files(
    alloc: Global,
    names: BTreeMap<Vec<u8>, u32>,
    nodes: &Nodes,
) -> Result<Seq<OutcomeFile>, AllocError>
    ensures { IfOk result (λ l. l
        ≡ map (file_of nodes.now) (filter is_named (map (λ e. (e.0.items, e.1)) names.entries))) }
{
    let mut list = Seq::new(alloc);
    for (path, number) in names {
        if path.len() == 0 {
            continue;
        }
        let file = outcome_file(path, number, nodes)?;
        list.push(file)?;
    }
    Ok(list)
}
