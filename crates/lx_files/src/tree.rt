//! The file tree.

ghost use Rattle.std.specs.Prelude.{◌≡◌, OnOk, OnErr, IfOk};
ghost use Rattle.std.specs.Option.{option_copied};
ghost use Rattle.std.specs.FinMap as maps;
ghost use Rattle.containers.specs.Vacant.{vacant};
ghost use Rattle.lx_files.specs.Trees.{node_at, created, without_path, without_node, contents as contents_of};
ghost use Rattle.lx_files.specs.Trees.{has_room as has_room_of, has_path as has_path_of};
ghost use Rattle.lx_files.specs.Listing.{files_of};

use crate::names::Names;
use crate::nodes::Nodes;
use containers::Seq;
use lx_abi::limits::MOST_NODES;
use lx_abi::{Node, OutcomeFile};
use std::alloc::{AllocError, Global};

/// Which node each path names, and what each node is.
#[derive(Drop)]
pub struct Tree {
    pub names: Names,
    pub nodes: Nodes,
}

impl Tree {
    pub fn new(alloc: Global) -> Self
        ensures { result ≡ record { names = maps.empty; nodes = maps.empty } }
    {
        Tree {
            names: Names::new(alloc),
            nodes: Nodes::new(alloc),
        }
    }

    /// What stands at a path.
    pub fn find(&self, path: &[u8]) -> Option<&Node>
        ensures { option_copied result ≡ node_at self.now path.now }
    {
        match self.names.get(path) {
            None => None,
            Some(node) => self.nodes.get(node),
        }
    }

    /// One more node is within the limit.
    pub fn has_room(&self) -> bool
        ensures { result ≡ has_room_of self.now }
    {
        self.nodes.len() < MOST_NODES
    }

    /// What stands at each path but the root, in byte order.
    pub fn list(&self, alloc: Global) -> Result<Seq<OutcomeFile>, AllocError>
        ensures { IfOk result (λ l. l ≡ files_of self.now) }
    {
        self.names.list(alloc, &self.nodes)
    }

    /// How many bytes all files have.
    pub fn contents(&self) -> u64
        ensures { result ≡ contents_of self.now }
    {
        self.nodes.contents()
    }

    /// Some path names the node.
    pub fn has_path(&self, node: u32) -> bool
        ensures { result ≡ has_path_of self.now node }
    {
        self.names.has(node)
    }

    /// A new node at a path; its number.
    pub fn create(&mut self, alloc: Global, path: &[u8], node: Node) -> Result<u32, AllocError>
        ensures number { IfOk result (λ n. n ≡ vacant self.old.nodes) }
        ensures tree { OnOk result (self.new ≡ created self.old path.now node) }
        ensures err { OnErr result (self.new ≡ self.old) }
    {
        let number = self.nodes.vacant()?;
        self.nodes.insert(number, node)?;
        match self.names.insert(alloc, path, number) {
            Ok(()) => Ok(number),
            Err(error) => {
                self.nodes.remove(number);
                Err(error)
            }
        }
    }

    /// The path names nothing from now on; its node stays, whose number is answered.
    pub fn unlink(&mut self, path: &[u8]) -> Option<u32>
        ensures node { result ≡ maps.get self.old.names path.now }
        ensures rest { self.new ≡ without_path self.old path.now }
    {
        self.names.remove(path)
    }

    /// The node is given up.
    pub fn drop_node(&mut self, node: u32)
        ensures { self.new ≡ without_node self.old node }
    {
        self.nodes.remove(node);
    }
}

impl Clone for Tree {
    ghost is_clone = { λ a b. b ≡ a };

    fn clone(&self) -> Result<Self, AllocError> {
        Ok(Tree {
            names: self.names.clone()?,
            nodes: self.nodes.clone()?,
        })
    }
}
