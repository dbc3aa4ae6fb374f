//! The nodes that paths name.

ghost use Rattle.std.specs.Prelude.{◌≡◌, ◌<◌, ◌≤◌, take, length, is_some, true, OnOk, OnErr};
ghost use Rattle.std.specs.FinMap as maps;
ghost use Rattle.std.specs.Prelude.{IfOk, map, []};
ghost use Rattle.std.specs.List.{list_any, filter};
ghost use Rattle.lx_files.specs.Paths.{is_under};
ghost use Rattle.lx_files.specs.Listing.{is_named, file_of};
ghost use Rattle.lx_files.specs.Tallies.{holds, Forgets};
ghost use Rattle.lx_files.specs.Kinds.{is_number};
ghost use Rattle.lx_files.specs.Places.{numbered, parts as parts_of, reached};

use crate::counts::Counts;
use crate::name_tree::NameTree;
use crate::nodes::Nodes;
use crate::places::Place;
use containers::Seq;
use lx_abi::{Errno, OutcomeFile};
use std::alloc::{AllocError, Global};
use std::marker::Model;

/// A node's number by path, with how many paths name each node.
#[derive(Drop)]
pub struct Names {
    map: NameTree,
    counts: Counts,
}

impl Model for Names {
    ghost use Rattle.std.specs.Coded.{codes};
    ghost use Rattle.std.specs.FinMap as maps;
    ghost use Rattle.lx_files.specs.Tallies.{Agree};
    ghost use Rattle.lx_files.specs.Kinds.{NameMap, is_number};

    ghost Value = { NameMap };

    ghost coded = { Prim.hlevel (codes, maps.code) };

    ghost view = { λ n. n.map };

    ghost invariant = { λ n. Agree n.counts is_number n.map };
}

/// One less of the node that a path named before.
fn forget(counts: &mut Counts, was: Option<u32>)
    ensures { Forgets is_number was counts.old counts.new }
{
    if let Some(node) = was {
        counts.subtract(node);
    }
}

impl Names {
    pub fn new(alloc: Global) -> Self
        ensures { result ≡ maps.empty }
    {
        Names {
            map: NameTree::new(alloc),
            counts: Counts::new(alloc),
        }
    }

    /// The node that a path names.
    pub fn get(&self, path: &[u8]) -> Option<u32>
        ensures { result ≡ maps.get self.now path.now }
    {
        self.map.get(path)
    }

    /// Where the last of the directories above a path ends that are there; 0 where none is.
    pub fn known_part(&self, path: &[u8]) -> usize
        ensures within { result ≤ length path.now }
        ensures there { 0 < result → is_some (maps.get self.now (take result path.now)) ≡ true }
    {
        self.map.known_part(path)
    }

    /// A process went into a directory, so that what is in it, or near it, is looked up from there.
    pub fn enter(&mut self, alloc: Global, path: &[u8])
        ensures { self.new ≡ self.old }
    {
        self.map.enter(alloc, path);
    }

    /// Some path names the node.
    pub fn has(&self, node: u32) -> bool
        ensures { result ≡ holds (is_number node) self.now }
    {
        self.counts.count(node) > 0
    }

    /// What stands at each path but the root, in byte order.
    pub fn list(&self, alloc: Global, nodes: &Nodes) -> Result<Seq<OutcomeFile>, AllocError>
        ensures { IfOk result (λ l. l ≡ map (file_of nodes.now) (filter is_named (maps.entries self.now))) }
    {
        self.map.list(alloc, nodes)
    }

    /// Some path leads on from a path.
    pub fn any_under(&self, alloc: Global, path: &[u8]) -> Result<bool, AllocError>
        ensures { IfOk result (λ a. a ≡ list_any (is_under path.now) (maps.keys self.now)) }
    {
        self.map.any_under(alloc, path)
    }

    /// The place of the last of the pieces of a text, once those before it are entered, from a path on.
    pub fn reach(
        &self,
        alloc: Global,
        nodes: &Nodes,
        slashed: bool,
        start: Vec<u8>,
        pieces: &[&[u8]],
    ) -> Result<Result<Place, Errno>, AllocError>
        ensures { IfOk result (λ r. numbered r ≡ reached (record { names = self.now; nodes = nodes.now }) slashed
            start.items [] (parts_of (map (λ p. p.now) pieces.now))) }
    {
        self.map.reach(alloc, nodes, slashed, start, pieces)
    }

    /// The path names nothing from now on.
    pub fn remove(&mut self, path: &[u8]) -> Option<u32>
        ensures value { result ≡ maps.get self.old path.now }
        ensures rest { self.new ≡ maps.remove self.old path.now }
    {
        match self.map.remove(path) {
            None => None,
            Some(node) => {
                self.counts.subtract(node);
                Some(node)
            }
        }
    }

    /// The path names the node, and nothing else.
    pub fn insert(&mut self, alloc: Global, path: &[u8], node: u32) -> Result<(), AllocError>
        ensures ok { OnOk result (self.new ≡ maps.insert self.old path.now node) }
        ensures err { OnErr result (self.new ≡ self.old) }
    {
        self.counts.add(node)?;
        match self.map.insert(alloc, path, node) {
            Ok(was) => {
                forget(&mut self.counts, was);
                Ok(())
            }
            Err(error) => {
                self.counts.subtract(node);
                Err(error)
            }
        }
    }
}

impl Clone for Names {
    ghost is_clone = { λ a b. b ≡ a };

    fn clone(&self) -> Result<Self, AllocError> {
        Ok(Names {
            map: self.map.clone()?,
            counts: self.counts.clone()?,
        })
    }
}
