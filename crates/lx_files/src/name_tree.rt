//! Numbers by path, in folders.
//!
//! A path is looked up name by name from the top, each in the folder above it, so it takes time with its names, and a
//! part of it from its folder one look-up. Of the directories that processes went into lately, and of that above the path
//! that was made last, the folders are known: what is in them, or near them, is looked up from there. A name is kept
//! twice: in the folder above, and where its own folder stands. Whole paths are made where they are listed, and for
//! `any_under` where a folder without a number is all there is in another, as is so only where a path was given a number
//! before the path above it.

ghost use Rattle.std.specs.Prelude.{◌≡◌, ◌<◌, ◌≤◌, take, length, is_some, true, OnOk, OnErr, IfOk, map, []};
ghost use Rattle.std.specs.FinMap as maps;
ghost use Rattle.std.specs.List.{list_any, filter};
ghost use Rattle.lx_files.specs.Listing.{is_named, file_of};
ghost use Rattle.lx_files.specs.Paths.{is_under};
ghost use Rattle.lx_files.specs.Places.{numbered, parts as parts_of, reached};

use crate::cache::{DirectoryCache, find, way_to};
use crate::flat::{any_under, flatten};
use crate::folder::Folders;
use crate::folders::{enter_path, known_part};
use crate::nodes::Nodes;
use crate::places::Place;
use crate::pruning::prune;
use crate::reaching::reach;
use containers::Seq;
use lx_abi::{Errno, OutcomeFile};
use shelves::Shelf;
use std::alloc::{AllocError, Global};
use std::marker::Model;

/// A map from path to number. Each path is a folder, whose name stands in the folder above it.
#[derive(Drop)]
pub struct NameTree {
    folders: Folders,
    numbers: Shelf<u32>,
    cache: DirectoryCache,
}

impl Model for NameTree {
    ghost use Rattle.std.specs.Coded.{codes};
    ghost use Rattle.std.specs.FinMap as maps;
    ghost use Rattle.lx_files.specs.Kinds.{NameMap};
    ghost use Rattle.lx_files.specs.Folders.{named, IsTree, AreThere};
    ghost use Rattle.lx_files.specs.Ways.{IsCached};

    ghost Value = { NameMap };

    ghost coded = { Prim.hlevel (codes, maps.code) };

    ghost view = { λ n. named n.folders.standings n.numbers };

    ghost invariant = { λ n. IsTree n.folders.children n.folders.standings n.folders.full_below
        × AreThere n.folders.standings n.numbers
        × IsCached n.folders.children n.cache };
}

impl NameTree {
    pub fn new(alloc: Global) -> Self
        ensures { result ≡ maps.empty }
    {
        NameTree {
            folders: Folders {
                children: Shelf::new(alloc),
                standings: Shelf::new(alloc),
                full_below: 0,
            },
            numbers: Shelf::new(alloc),
            cache: DirectoryCache::new(alloc),
        }
    }

    pub fn get(&self, path: &[u8]) -> Option<u32>
        ensures { result ≡ maps.get self.now path.now }
    {
        match find(&self.folders, &self.cache, path) {
            None => None,
            Some(folder) => self.numbers.get(folder).copied(),
        }
    }

    /// Where the last of the directories above a path ends that have a number; 0 where none has. The path is walked
    /// once.
    pub fn known_part(&self, path: &[u8]) -> usize
        ensures within { result ≤ length path.now }
        ensures there { 0 < result → is_some (maps.get self.now (take result path.now)) ≡ true }
    {
        known_part(&self.folders.children, &self.numbers, path)
    }

    /// The path has the number, and no other; the number that it had before.
    pub fn insert(
        &mut self,
        alloc: Global,
        path: &[u8],
        number: u32,
    ) -> Result<Option<u32>, AllocError>
        ensures was { IfOk result (λ w. w ≡ maps.get self.old path.now) }
        ensures ok { OnOk result (self.new ≡ maps.insert self.old path.now number) }
        ensures err { OnErr result (self.new ≡ self.old) }
    {
        let way = way_to(&self.folders, &self.cache, path);
        let folder = enter_path(alloc, &mut self.folders, way.folder, way.rest)?;
        let was = self.numbers.get(folder).copied();
        self.numbers.insert(folder, number)?;
        self.cache.make(alloc, &self.folders, folder, path);
        Ok(was)
    }

    pub fn remove(&mut self, path: &[u8]) -> Option<u32>
        ensures value { result ≡ maps.get self.old path.now }
        ensures rest { self.new ≡ maps.remove self.old path.now }
    {
        match find(&self.folders, &self.cache, path) {
            None => None,
            Some(folder) => {
                let number = self.numbers.remove(folder);
                self.cache.forget(folder);
                prune(&mut self.folders, folder);
                number
            }
        }
    }

    /// A process went into a directory, so that what is in it, or near it, is looked up from there.
    pub fn enter(&mut self, alloc: Global, path: &[u8])
        ensures { self.new ≡ self.old }
    {
        self.cache.enter(alloc, &self.folders, path);
    }

    /// What stands at each path but the root, in byte order.
    pub fn list(&self, alloc: Global, nodes: &Nodes) -> Result<Seq<OutcomeFile>, AllocError>
        ensures { IfOk result (λ l. l ≡ map (file_of nodes.now) (filter is_named (maps.entries self.now))) }
    {
        let flat = flatten(alloc, &self.folders, &self.numbers)?;
        flat.into_list(alloc, nodes)
    }

    /// Some path leads on from a path.
    pub fn any_under(&self, alloc: Global, path: &[u8]) -> Result<bool, AllocError>
        ensures { IfOk result (λ a. a ≡ list_any (is_under path.now) (maps.keys self.now)) }
    {
        any_under(alloc, &self.folders, &self.cache, &self.numbers, path)
    }

    /// The place of the last of the pieces of a text, once those before it are entered, from a path on.
    pub fn reach(
        &self,
        alloc: Global,
        nodes: &Nodes,
        slashed: bool,
        start: Vec<u8>,
        pieces: &[&[u8]],
    ) -> Result<Result<Place, Errno>, AllocError>
        ensures { IfOk result (λ r. numbered r ≡ reached (record { names = self.now; nodes = nodes.now }) slashed
            start.items [] (parts_of (map (λ p. p.now) pieces.now))) }
    {
        reach(
            alloc,
            &self.folders,
            &self.cache,
            &self.numbers,
            nodes,
            slashed,
            start,
            pieces,
        )
    }
}

impl Clone for NameTree {
    ghost is_clone = { λ a b. b ≡ a };

    fn clone(&self) -> Result<Self, AllocError> {
        let folders = self.folders.clone()?;
        let numbers = match self.numbers.clone() {
            Ok(numbers) => numbers,
            Err(error) => {
                drop(folders);
                return Err(error);
            }
        };
        let cache = match self.cache.clone() {
            Ok(cache) => cache,
            Err(error) => {
                drop(numbers);
                drop(folders);
                return Err(error);
            }
        };
        Ok(NameTree {
            folders,
            numbers,
            cache,
        })
    }
}
