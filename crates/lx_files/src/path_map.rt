//! Numbers by path.

ghost use Rattle.std.specs.Prelude.{◌≡◌, OnOk, OnErr, IfOk};
ghost use Rattle.std.specs.FinMap as maps;
ghost use Rattle.std.specs.Prelude.{nat_eq, map};
ghost use Rattle.std.specs.List.{list_any, starts_with, filter};
ghost use Rattle.lx_files.specs.Listing.{is_named, file_of};
ghost use Rattle.lx_files.specs.Kinds.{IsAny};

use crate::listing::list_files;
use crate::nodes::Nodes;
use containers::Seq;
use lx_abi::OutcomeFile;
use std::alloc::{AllocError, Global};
use std::collections::BTreeMap;
use std::marker::Model;

/// A map from path to number.
#[derive(Drop)]
pub struct PathMap {
    tree: BTreeMap<Vec<u8>, u32>,
}

impl Model for PathMap {
    ghost use Rattle.std.specs.Prelude.{map};
    ghost use Rattle.std.specs.Coded.{codes};
    ghost use Rattle.std.specs.FinMap as maps;
    ghost use Rattle.lx_files.specs.Kinds.{NameMap};

    ghost Value = { NameMap };

    ghost coded = { Prim.hlevel (codes, maps.code) };

    ghost view = { λ n. maps.from_entries (map (λ e. (e.0.items, e.1)) n.tree.entries) };
}

impl PathMap {
    pub fn new(alloc: Global) -> Self
        ensures { result ≡ maps.empty }
    {
        PathMap {
            tree: BTreeMap::new(alloc),
        }
    }

    pub fn get(&self, path: &[u8]) -> Option<u32>
        ensures { result ≡ maps.get self.now path.now }
    {
        match self.tree.get(path) {
            None => None,
            Some(number) => Some(*number),
        }
    }

    pub fn remove(&mut self, path: &[u8]) -> Option<u32>
        ensures value { result ≡ maps.get self.old path.now }
        ensures rest { self.new ≡ maps.remove self.old path.now }
    {
        // Its keys rise, so no other entry has the path.
        self.tree.len();
        self.tree.remove(path)
    }

    pub fn insert(&mut self, key: Vec<u8>, number: u32) -> Result<(), AllocError>
        ensures ok { OnOk result (self.new ≡ maps.insert self.old key.items number) }
        ensures err { OnErr result (self.new ≡ self.old) }
    {
        self.tree.insert(key, number)?;
        Ok(())
    }

    /// What stands at each path but the root, in byte order.
    pub fn into_list(self, alloc: Global, nodes: &Nodes) -> Result<Seq<OutcomeFile>, AllocError>
        ensures { IfOk result (λ l. l ≡ map (file_of nodes.now) (filter is_named (maps.entries self))) }
    {
        // The keys rise.
        self.tree.len();
        list_files(alloc, self.tree, nodes)
    }

    /// Some path begins with these bytes. Paths that do stand together, from these bytes on.
    pub fn any_starts(&self, start: Vec<u8>) -> bool
        ensures { result ≡ list_any (λ path. starts_with nat_eq path start.items) (maps.keys self.now) }
    {
        match self.tree.range(&start..).next() {
            None => false,
            Some((path, _number)) => path.as_slice().starts_with(start.as_slice()),
        }
    }

    /// The number of some path, if there is a path.
    pub fn any(&self) -> Option<u32>
        ensures { IsAny self.now result }
    {
        match self.tree.first_key_value() {
            None => None,
            Some((_path, number)) => Some(*number),
        }
    }
}

impl Clone for PathMap {
    ghost is_clone = { λ a b. b ≡ a };

    fn clone(&self) -> Result<Self, AllocError> {
        Ok(PathMap {
            tree: self.tree.clone()?,
        })
    }
}
